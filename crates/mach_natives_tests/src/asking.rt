//! What a coroutine asks, and in which order it is refused.

use crate::shown::{called, text};
use mach_natives::{AskingNative, Native, SendingNative};
use mach_rows::make;
use mach_value::{Heap, Note, Object, Value};
use sqlite_items::Items;
use std::test::Fail;

const NULL_POINTER: &'static [u8] = b"java/lang/NullPointerException: null";

const SUSPENDED: &'static [u8] = b"java/lang/IllegalStateException: suspended";

const NOT_WAITING: &'static [u8] = b"java/lang/IllegalStateException: not waiting";

/// Methods of a heap with a text at 2, the cell 5 at 3, which may be awaited, and the cell 6 at 4, which may not; first
/// without a note and then with one.
fn asked() -> [(Native, Value, Value, &'static [u8], &'static [u8]); 9] {
    let text = Value::Ref(2);
    let cell = Value::Ref(3);
    let strange = Value::Ref(4);
    let null = Value::Null;
    [
        (
            Native::Asking(AskingNative::OutPrintln),
            text,
            null,
            b"hi",
            SUSPENDED,
        ),
        (
            Native::Asking(AskingNative::OutPrintln),
            null,
            null,
            NULL_POINTER,
            NULL_POINTER,
        ),
        (
            Native::Asking(AskingNative::CellsMake),
            null,
            null,
            b"draw",
            SUSPENDED,
        ),
        (
            Native::Asking(AskingNative::CellsAwait),
            cell,
            text,
            b"suspended",
            SUSPENDED,
        ),
        (
            Native::Asking(AskingNative::CellsAwait),
            strange,
            text,
            NOT_WAITING,
            SUSPENDED,
        ),
        (
            Native::Asking(AskingNative::CellsAwait),
            strange,
            null,
            NULL_POINTER,
            NULL_POINTER,
        ),
        (
            Native::Sending(SendingNative::CellsResume),
            cell,
            null,
            b"resume",
            SUSPENDED,
        ),
        (
            Native::Sending(SendingNative::CellsFail),
            cell,
            null,
            NULL_POINTER,
            NULL_POINTER,
        ),
        (
            Native::Sending(SendingNative::CellsLaunch),
            text,
            null,
            b"launch",
            SUSPENDED,
        ),
    ]
}

#[test]
fn order_of_refusals(rt: HostRuntime) -> Result<(), Fail> {
    for (which, x, y, free, noted) in asked() {
        for (note, want) in [
            (None, free),
            (
                Some(Note {
                    cell: 1,
                    continuation: 2,
                }),
                noted,
            ),
        ] {
            let mut heap = Heap::new(rt.alloc());
            let _text = text(rt.alloc(), &mut heap, "hi")?;
            let _cell = make(&mut heap, Object::Cell(5))?;
            let _strange = make(&mut heap, Object::Cell(6))?;
            heap.awaitable.push(5)?;
            heap.note = note;
            let arguments = [x, y];
            let found = called(rt.alloc(), which, &mut heap, arguments.as_slice())?;
            assert_eq!(rt; found.as_slice(), want, "of {which:?}");
        }
    }
    Ok(())
}

/// An array goes to no other coroutine.
#[test]
fn array_is_not_launched(rt: HostRuntime) -> Result<(), Fail> {
    let mut heap = Heap::new(rt.alloc());
    let array = make(&mut heap, Object::Numbers(Items::new(rt.alloc())))?;
    let which = Native::Sending(SendingNative::CellsLaunch);
    let arguments = [Value::Ref(array)];
    let found = called(rt.alloc(), which, &mut heap, arguments.as_slice())?;
    assert_eq!(rt;
        found.as_slice(),
        b"java/lang/IllegalArgumentException: not shareable".as_slice()
    );
    Ok(())
}
