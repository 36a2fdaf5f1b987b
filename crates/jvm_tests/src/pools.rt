//! A pool that grows, worked out by hand, and its limits.

use jvm_pool::{Entry, Pool, PoolErr};
use kt_base::{Name, Text16};
use std::alloc::Global;
use std::process::Abort;
use std::test::Fail;

/// The name that these bytes spell, which are ASCII.
fn name(alloc: Global, bytes: &str) -> Result<Name, Fail> {
    if !bytes.is_ascii() {
        return Err(Fail::from("not ASCII"));
    }
    Ok(Name::of(alloc, bytes.as_bytes())?)
}

/// An entry by its kind, with the parts that it has. The descriptor of a member is `I`.
fn entry(alloc: Global, kind: char, a: &str, b: &str) -> Result<Entry, Fail> {
    match kind {
        'U' => Ok(Entry::Utf8(Text16::of(alloc, a)?)),
        'S' => Ok(Entry::Text(Text16::of(alloc, a)?)),
        'C' => Ok(Entry::Class(name(alloc, a)?)),
        'N' => Ok(Entry::NameAndType(name(alloc, a)?, name(alloc, b)?)),
        'L' => Ok(Entry::Long(-1)),
        _ => member(kind, name(alloc, a)?, name(alloc, b)?, name(alloc, "I")?),
    }
}

fn member(kind: char, class: Name, name: Name, descriptor: Name) -> Result<Entry, Fail> {
    match kind {
        'F' => Ok(Entry::Field(class, name, descriptor)),
        'M' => Ok(Entry::Method(class, name, descriptor)),
        'I' => Ok(Entry::InterfaceMethod(class, name, descriptor)),
        _ => Err(Fail::from("no kind")),
    }
}

fn adds(rt: &impl Abort, pool: &mut Pool, e: &Entry, index: u16, count: u32) -> Result<(), Fail> {
    assert_eq!(rt; pool.add(e)?, index, "of {e:?}");
    assert_eq!(rt; pool.count(), count, "after {e:?}");
    assert_eq!(rt; pool.get(index), Some(e));
    assert_eq!(rt; pool.index_of(e), Some(index));
    Ok(())
}

/// Worked out by hand: an entry, then each of its parts with its own parts, each where it is new. A row has the kind,
/// the parts, the index and the count behind it.
fn mentioned() -> [(char, &'static str, &'static str, u16, u32); 9] {
    [
        ('L', "", "", 1, 3),
        ('F', "A", "f", 3, 9),
        ('C', "A", "", 4, 9),
        ('U', "f", "", 7, 9),
        ('S', "A", "", 9, 10),
        ('M', "A", "f", 10, 11),
        ('N', "g", "f", 11, 13),
        ('I', "B", "g", 13, 17),
        ('F', "A", "f", 3, 17),
    ]
}

#[test]
fn parts_stand_behind_their_entry(rt: HostRuntime) -> Result<(), Fail> {
    let mut pool = Pool::new(rt.alloc());
    for (kind, a, b, index, count) in mentioned() {
        adds(
            &rt,
            &mut pool,
            &entry(rt.alloc(), kind, a, b)?,
            index,
            count,
        )?;
    }
    for index in [0, 2, 17] {
        assert_eq!(rt; pool.get(index), None, "at {index}");
    }
    assert_eq!(rt; pool.len(), 15);
    assert_eq!(rt; pool.entries().first(), Some(&Entry::Long(-1)));
    Ok(())
}

/// Fills a pool with so many numbers from 0.
fn filled(alloc: Global, numbers: i32) -> Result<Pool, Fail> {
    let mut pool = Pool::new(alloc);
    for number in 0..numbers {
        pool.add(&Entry::Int(number))?;
    }
    Ok(pool)
}

#[test]
fn a_pool_holds_65534_indices(rt: HostRuntime) -> Result<(), Fail> {
    let mut pool = filled(rt.alloc(), 65534)?;
    assert_eq!(rt; pool.count(), 65535);
    assert_eq!(rt; pool.add(&Entry::Int(65534)), Err(PoolErr::Full));
    assert_eq!(rt; pool.add(&Entry::Int(65533)), Ok(65534));
    assert_eq!(rt; pool.len(), 65534);
    Ok(())
}

#[test]
fn the_last_two_indices(rt: HostRuntime) -> Result<(), Fail> {
    let mut pool = filled(rt.alloc(), 65532)?;
    assert_eq!(rt; pool.add(&Entry::Long(7)), Ok(65533));
    assert_eq!(rt; pool.count(), 65535);
    assert_eq!(rt; pool.get(65533), Some(&Entry::Long(7)));
    assert_eq!(rt; pool.get(65534), None);
    Ok(())
}

#[test]
fn one_index_is_left(rt: HostRuntime) -> Result<(), Fail> {
    let mut pool = filled(rt.alloc(), 65533)?;
    assert_eq!(rt; pool.add(&Entry::Long(7)), Err(PoolErr::Full));
    assert_eq!(rt;
        pool.add(&entry(rt.alloc(), 'C', "A", "")?),
        Err(PoolErr::Full)
    );
    assert_eq!(rt; pool.count(), 65534);
    assert_eq!(rt; pool.add(&entry(rt.alloc(), 'U', "A", "")?), Ok(65534));
    Ok(())
}

#[test]
fn entries_as_they_stand(rt: HostRuntime) -> Result<(), Fail> {
    let mut pool = Pool::new(rt.alloc());
    pool.push(Entry::Long(7))?;
    pool.push(Entry::Class(name(rt.alloc(), "A")?))?;
    assert_eq!(rt; pool.get(3), Some(&entry(rt.alloc(), 'C', "A", "")?));
    assert_eq!(rt; pool.count(), 4);
    let entries = vec![in rt.alloc(); Entry::Int(1), Entry::Long(7)]?;
    let pool = Pool::of_entries(rt.alloc(), entries)?;
    assert_eq!(rt; pool.index_of(&Entry::Long(7)), Some(2));
    assert_eq!(rt; pool.count(), 4);
    Ok(())
}

#[test]
fn back_to_the_first_entries(rt: HostRuntime) -> Result<(), Fail> {
    let mut pool = Pool::new(rt.alloc());
    pool.add(&Entry::Long(7))?;
    let length = pool.len();
    pool.add(&entry(rt.alloc(), 'F', "A", "f")?)?;
    pool.truncate(length);
    assert_eq!(rt; pool.count(), 3);
    assert_eq!(rt; pool.get(3), None);
    assert_eq!(rt; pool.add(&Entry::Int(5)), Ok(3));
    Ok(())
}
