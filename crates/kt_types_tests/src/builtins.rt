//! Names that every program has.

use kt_types_builtins::throwables::throwables;
use kt_types_builtins::{BuiltInFunction, BuiltInMember, BuiltInThrowable, BuiltInType, Receiver};
use std::test::Fail;

fn names() -> [(
    &'static str,
    Option<BuiltInType>,
    Option<BuiltInThrowable>,
    Option<BuiltInFunction>,
); 8] {
    [
        ("Int", Some(BuiltInType::Int), None, None),
        ("Nothing", Some(BuiltInType::Nothing), None, None),
        (
            "IntArray",
            Some(BuiltInType::IntArray),
            None,
            Some(BuiltInFunction::IntArray),
        ),
        ("Throwable", None, Some(BuiltInThrowable::Throwable), None),
        (
            "StringIndexOutOfBoundsException",
            None,
            Some(BuiltInThrowable::StringIndexOutOfBoundsException),
            None,
        ),
        (
            "suspendCoroutine",
            None,
            None,
            Some(BuiltInFunction::SuspendCoroutine),
        ),
        ("int", None, None, None),
        ("", None, None, None),
    ]
}

#[test]
fn found_by_name(rt: HostRuntime) -> Result<(), Fail> {
    for (name, of_type, throwable, function) in names() {
        assert!(&rt; BuiltInType::of_name(name.as_bytes()) == of_type, "{name}");
        assert!(&rt;
            BuiltInThrowable::of_name(name.as_bytes()) == throwable,
            "{name}"
        );
        assert!(&rt;
            BuiltInFunction::of_name(name.as_bytes()) == function,
            "{name}"
        );
    }
    Ok(())
}

#[test]
fn throwables_by_row(rt: HostRuntime) -> Result<(), Fail> {
    let mut row = 0;
    for each in throwables() {
        assert!(&rt; each.row() == row);
        let first = match each.superclass() {
            Some(above) => above.row() < row,
            None => row == 0,
        };
        assert!(&rt; first);
        row += 1;
    }
    assert!(&rt; row == 12);
    Ok(())
}

fn members() -> [(Receiver, &'static str, Option<BuiltInMember>); 8] {
    [
        (
            Receiver::String,
            "length",
            Some(BuiltInMember::StringLength),
        ),
        (Receiver::Array, "size", Some(BuiltInMember::ArraySize)),
        (Receiver::Int, "inv", Some(BuiltInMember::IntInverse)),
        (Receiver::Long, "inv", Some(BuiltInMember::LongInverse)),
        (Receiver::Long, "toLong", None),
        (
            Receiver::Continuation,
            "resume",
            Some(BuiltInMember::Resume),
        ),
        (Receiver::Char, "length", None),
        (Receiver::Enum, "ordinal", Some(BuiltInMember::EntryOrdinal)),
    ]
}

#[test]
fn members_by_name(rt: HostRuntime) -> Result<(), Fail> {
    for (receiver, name, wanted) in members() {
        assert!(&rt;
            BuiltInMember::of(receiver, name.as_bytes()) == wanted,
            "{name}"
        );
    }
    Ok(())
}
