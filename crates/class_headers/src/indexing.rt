//! Classes and their members, put into indices by their names.

ghost use Rattle.class_headers.specs.Indexed.{FindsFields, FindsMethods, FindsNames, FindsVirtuals, or_own};
ghost use Rattle.class_index.specs.Texts.{or_at};
ghost use Rattle.class_headers.specs.Places.{is_field, is_method, is_virtual};
ghost use Rattle.class_index.specs.Members.{IsWhole, member_in};
ghost use Rattle.std.specs.Prelude.{◌≡◌, ◌==◌, ◌&&◌, ℕ, List, IfOk, OnOk, position};

use crate::headers::{FieldHeader, Header, MethodHeader};
use crate::places::is_called_with_object;
use class_index::{MemberIndex, TextIndex};
use kt_base::NoMemory;
use std::alloc::Global;

/// The number of the first class of each name.
pub(crate) fn index_names(alloc: Global, headers: &[Header]) -> Result<TextIndex, NoMemory>
    ensures { IfOk result (FindsNames headers.now) }
{
    let mut numbers = TextIndex::new(alloc);
    for class in 0..headers.len() {
        numbers.add(alloc, headers[class].name.as_bytes(), class)?;
    }
    Ok(numbers)
}

fn add_fields(
    alloc: Global,
    index: &mut MemberIndex,
    class: usize,
    fields: &[FieldHeader],
) -> Result<(), NoMemory>
    requires { IsWhole index.old }
    ensures added { OnOk result ((c : ℕ) (n d : List ℕ) → member_in index.new c n d
        ≡ or_own (member_in index.old c n d) (class == c) (position (is_field n d) fields.now)) }
    ensures whole { OnOk result (IsWhole index.new) }
{
    for place in 0..fields.len() {
        let field = &fields[place];
        index.add(
            alloc,
            class,
            field.name.as_slice(),
            field.descriptor.as_slice(),
            place,
        )?;
    }
    Ok(())
}

fn add_methods(
    alloc: Global,
    index: &mut MemberIndex,
    class: usize,
    methods: &[MethodHeader],
) -> Result<(), NoMemory>
    requires { IsWhole index.old }
    ensures added { OnOk result ((c : ℕ) (n d : List ℕ) → member_in index.new c n d
        ≡ or_own (member_in index.old c n d) (class == c) (position (is_method n d) methods.now)) }
    ensures whole { OnOk result (IsWhole index.new) }
{
    for place in 0..methods.len() {
        let method = &methods[place];
        index.add(
            alloc,
            class,
            method.name.as_slice(),
            method.descriptor.as_slice(),
            place,
        )?;
    }
    Ok(())
}

/// Adds a method that is called with an object, and no other.
fn add_virtual(
    alloc: Global,
    index: &mut MemberIndex,
    class: usize,
    method: &MethodHeader,
    place: usize,
) -> Result<(), NoMemory>
    requires { IsWhole index.old }
    ensures added { OnOk result ((c : ℕ) (n d : List ℕ) → member_in index.new c n d
        ≡ or_at (member_in index.old c n d) (class == c && is_virtual n d method.now) place) }
    ensures whole { OnOk result (IsWhole index.new) }
{
    if is_called_with_object(method.flags) {
        index.add(
            alloc,
            class,
            method.name.as_slice(),
            method.descriptor.as_slice(),
            place,
        )
    } else {
        Ok(())
    }
}

fn add_virtuals(
    alloc: Global,
    index: &mut MemberIndex,
    class: usize,
    methods: &[MethodHeader],
) -> Result<(), NoMemory>
    requires { IsWhole index.old }
    ensures added { OnOk result ((c : ℕ) (n d : List ℕ) → member_in index.new c n d
        ≡ or_own (member_in index.old c n d) (class == c) (position (is_virtual n d) methods.now)) }
    ensures whole { OnOk result (IsWhole index.new) }
{
    for place in 0..methods.len() {
        add_virtual(alloc, index, class, &methods[place], place)?;
    }
    Ok(())
}

/// The fields of all classes.
pub(crate) fn index_fields(alloc: Global, headers: &[Header]) -> Result<MemberIndex, NoMemory>
    ensures { IfOk result (FindsFields headers.now) }
{
    let mut index = MemberIndex::new(alloc);
    for class in 0..headers.len() {
        add_fields(alloc, &mut index, class, headers[class].fields.as_slice())?;
    }
    Ok(index)
}

/// The methods of all classes.
pub(crate) fn index_methods(alloc: Global, headers: &[Header]) -> Result<MemberIndex, NoMemory>
    ensures { IfOk result (FindsMethods headers.now) }
{
    let mut index = MemberIndex::new(alloc);
    for class in 0..headers.len() {
        add_methods(alloc, &mut index, class, headers[class].methods.as_slice())?;
    }
    Ok(index)
}

/// The methods of all classes that are called with an object.
pub(crate) fn index_virtuals(alloc: Global, headers: &[Header]) -> Result<MemberIndex, NoMemory>
    ensures { IfOk result (FindsVirtuals headers.now) }
{
    let mut index = MemberIndex::new(alloc);
    for class in 0..headers.len() {
        add_virtuals(alloc, &mut index, class, headers[class].methods.as_slice())?;
    }
    Ok(index)
}
