//! The classes that the machine has without a class file: some rows of their table.

use jvm_runtime::{RuntimeClass, runtime_classes};
use std::process::Abort;
use std::test::Fail;

/// A class by its name, how many methods it has itself, and whether it may be extended.
fn rows() -> [(&'static [u8], usize, bool); 6] {
    [
        (b"java/lang/Object", 3, true),
        (b"java/lang/String", 5, false),
        (b"java/lang/ArithmeticException", 3, true),
        (b"kt/rt/Cells", 6, false),
        (b"kt/rt/ContinuationImpl", 2, true),
        (b"kt/rt/Function7", 1, true),
    ]
}

#[test]
fn runtime_classes_by_their_names(rt: HostRuntime) -> Result<(), Fail> {
    for (name, methods, extended) in rows() {
        let Some(class) = RuntimeClass::of_name(name) else {
            assert!(rt; false, "no class {name:?}");
            return Ok(());
        };
        assert_eq!(rt; class.name(), name);
        assert_eq!(rt; class.methods().len(), methods, "of {name:?}");
        assert_eq!(rt; class.may_be_extended(), extended, "of {name:?}");
    }
    assert_eq!(rt; RuntimeClass::of_name(b"java/lang/Thread"), None);
    assert_eq!(rt; runtime_classes().len(), 34);
    Ok(())
}
