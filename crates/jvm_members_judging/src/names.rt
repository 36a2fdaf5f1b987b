//! Names and descriptors of members, and the names of attributes (JVMS SE 8 §4.2, §4.3, §4.7).

ghost use Rattle.jvm_class_judging.specs.Judging.{judge_class_name, judge_field_descriptor, judge_method_descriptor};
ghost use Rattle.jvm_class_judging.specs.Judging.{judge_name};
ghost use Rattle.jvm_class_grammar.specs.Kinds.{text_is};
ghost use Rattle.jvm_class_tally.specs.Tallies.{judge_mention};
ghost use Rattle.jvm_pool.specs.declared.entries.Entry.TheVariants as entry;
ghost use Rattle.std.specs.Prelude.{◌≡◌, codes};

use jvm_class_tally::Tally;
use jvm_pool::Pool;
use jvm_pool_judging::texts::{is_field, is_method, is_name};
use jvm_pool_judging::{class, text};
use kt_base::Name;

/// The tally behind a name.
pub fn name(pool: &Pool, name: &Name, tally: Tally) -> Option<Tally>
    ensures { result ≡ judge_name pool.now name.now tally }
{
    if is_name(name) {
        text(pool, name.as_bytes(), tally)
    } else {
        None
    }
}

/// The tally behind the descriptor of a field.
pub fn field_descriptor(pool: &Pool, descriptor: &Name, tally: Tally) -> Option<Tally>
    ensures { result ≡ judge_field_descriptor pool.now descriptor.now tally }
{
    if is_field(descriptor) {
        text(pool, descriptor.as_bytes(), tally)
    } else {
        None
    }
}

/// The tally behind the descriptor of a method.
pub fn method_descriptor(pool: &Pool, descriptor: &Name, tally: Tally) -> Option<Tally>
    ensures { result ≡ judge_method_descriptor pool.now descriptor.now tally }
{
    if is_method(descriptor) {
        text(pool, descriptor.as_bytes(), tally)
    } else {
        None
    }
}

/// The tally behind the name of a class.
pub fn class_name(pool: &Pool, name: &Name, tally: Tally) -> Option<Tally>
    ensures { result ≡ judge_class_name pool.now name.now tally }
{
    class(pool, name.as_bytes(), tally)
}

/// The tally behind the name of a Code attribute.
pub fn code_name(pool: &Pool, tally: Tally) -> Option<Tally>
    ensures { result ≡ judge_mention pool.now entry.Utf8 (text_is (codes "Code")) (codes "Code") tally }
{
    text(pool, b"Code", tally)
}

/// The tally behind the name of a StackMapTable.
pub fn table_name(pool: &Pool, tally: Tally) -> Option<Tally>
    ensures { result
        ≡ judge_mention pool.now entry.Utf8 (text_is (codes "StackMapTable")) (codes "StackMapTable") tally }
{
    text(pool, b"StackMapTable", tally)
}
