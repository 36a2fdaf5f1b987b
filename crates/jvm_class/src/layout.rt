//! Whether the code of each method is laid (JVMS SE 8 §4.9.1).

ghost use Rattle.jvm_class_judging.specs.Judging.{LaidMethod};
ghost use Rattle.jvm_class_types.specs.Seen.{method_seen};
ghost use Rattle.std.specs.List.{AllByRecursion};
ghost use Rattle.std.specs.Prelude.{◌↔◌, map, IsTrue};

use jvm_class_types::Method;
use jvm_code::laid;

/// Whether the code of a method, if it has some, is laid.
fn is_laid(method: &Method) -> bool
    ensures { IsTrue result ↔ LaidMethod (method_seen method.now) }
{
    match &method.code {
        Some(code) => laid(&code.instructions),
        None => true,
    }
}

/// Whether the code of each method is laid.
pub(crate) fn are_laid(methods: &[Method]) -> bool
    ensures { IsTrue result ↔ AllByRecursion LaidMethod (map method_seen methods.now) }
{
    for method in methods {
        if !is_laid(method) {
            return false;
        }
    }
    true
}
