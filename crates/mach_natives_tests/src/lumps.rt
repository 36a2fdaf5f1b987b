//! Lumps.

use kt_base::{Name, NoMemory};
use mach_rows::make;
use mach_value::{
    Change, ClassName, ExportErr, Field, FieldKind, Heap, Instance, Object, Phase, Value, export,
    import,
};
use sqlite_items::Items;
use std::alloc::Global;
use std::test::Fail;

/// An object of one field.
fn holder(alloc: Global, heap: &mut Heap, field: Field) -> Result<u64, NoMemory> {
    let name = Name::of(alloc, b"Holder")?;
    let class = ClassName::of(alloc, name)?;
    let mut fields = Items::new(alloc);
    fields.push(field)?;
    make(
        heap,
        Object::Instance(Instance {
            class,
            number: Some(36),
            phase: Phase::Ready,
            fields,
        }),
    )
}

fn field(value: Value, is_final: bool) -> Field {
    Field {
        value,
        kind: FieldKind::Reference,
        is_final,
    }
}

/// The length of a lump; none where there is none.
fn length(alloc: Global, heap: &Heap, x: Value) -> Result<Option<usize>, NoMemory> {
    match export(alloc, heap, x) {
        Ok(lump) => Ok(Some(lump.nodes().len())),
        Err(ExportErr::NotShareable) => Ok(None),
        Err(ExportErr::NoMemory) => Err(NoMemory),
    }
}

/// Whether the field is final, what it holds, and the length of the lump of the object that holds it.
fn held() -> [(bool, Value, Option<usize>); 8] {
    [
        (true, Value::Int(7), Some(2)),
        (true, Value::Null, Some(2)),
        (true, Value::Ref(0), Some(2)),
        (true, Value::Ref(1), Some(2)),
        (true, Value::Ref(2), Some(2)),
        (true, Value::Ref(3), None),
        (true, Value::Ref(4), None),
        (false, Value::Int(7), None),
    ]
}

#[test]
fn what_leaves(rt: HostRuntime) -> Result<(), Fail> {
    for (is_final, value, want) in held() {
        let mut heap = Heap::new(rt.alloc());
        let _box = make(&mut heap, Object::Long(1))?;
        let _array = make(&mut heap, Object::Elements(Items::new(rt.alloc())))?;
        let address = holder(rt.alloc(), &mut heap, field(value, is_final))?;
        let found = length(rt.alloc(), &heap, Value::Ref(address))?;
        assert_eq!(rt; found, want, "of {value:?}");
    }
    Ok(())
}

/// A chain of objects, each of which holds the one before, goes to another heap and leaves it as long.
#[test]
fn long_chain(rt: HostRuntime) -> Result<(), Fail> {
    let mut heap = Heap::new(rt.alloc());
    let mut last = Value::Null;
    for _turn in 0..2000 {
        last = Value::Ref(holder(rt.alloc(), &mut heap, field(last, true))?);
    }
    let lump = export(rt.alloc(), &heap, last)?;
    assert_eq!(rt; lump.nodes().len(), 2001);
    let mut other = Heap::new(rt.alloc());
    let x = import(rt.alloc(), &mut other, &lump)?;
    assert_eq!(rt; other.objects.len(), 2000);
    assert_eq!(rt; length(rt.alloc(), &other, x)?, Some(2001));
    Ok(())
}

/// An object that holds itself has no lump.
#[test]
fn cycle(rt: HostRuntime) -> Result<(), Fail> {
    let mut heap = Heap::new(rt.alloc());
    let address = holder(rt.alloc(), &mut heap, field(Value::Null, true))?;
    assert_eq!(rt; length(rt.alloc(), &heap, Value::Ref(address))?, Some(2));
    heap.objects
        .change(address, Change::Field(0, Value::Ref(address)));
    assert_eq!(rt; length(rt.alloc(), &heap, Value::Ref(address))?, None);
    Ok(())
}
