//! Slots: a place in the tables of a class and of all below it for each method that it declares and that no class above
//! has.

ghost use Rattle.class_tables.specs.Dispatch.{AreOwnSlots, has_above, is_new, methods_at, new_before, own_slots};
ghost use Rattle.class_index.specs.Members.{IsWhole, member_in};
ghost use Rattle.class_index.specs.Texts.{or_at};
ghost use Rattle.class_tables.specs.Dispatch.{AreSlots, FindsSlots, header_of, is_like, place_if, row_or_none};
ghost use Rattle.class_tables.specs.Dispatch.{slots_of};
ghost use Rattle.std.specs.Prelude.{◌≡◌, ◌++◌, ℕ, List, IfOk, OnOk, length, slice_get};

use crate::headers::{header_of, is_selectable, methods_at, reversed};
use class_constants::fields::above_in;
use class_headers::MethodHeader;
use class_index::MemberIndex;
use class_linked::MethodPlace;
use class_members::members::first_declared;
use class_members::{Hierarchy, MemberKind};
use kt_base::NoMemory;
use sqlite_items::{Items, at};
use std::alloc::Global;

/// Whether a class above has a method.
fn has_above(h: &Hierarchy, class: usize, method: &MethodHeader) -> bool
    ensures { result ≡ has_above h.now class method.now }
{
    let found = first_declared(
        &h.headers,
        above_in(h.chain(class)),
        MemberKind::Virtual,
        method.name.as_slice(),
        method.descriptor.as_slice(),
    );
    found.is_some()
}

/// Whether a class has a method at a place that no class above has.
fn is_new(h: &Hierarchy, class: usize, place: usize) -> bool
    ensures { result ≡ is_new h.now class (slice_get (methods_at h.now class) place) }
{
    match at(methods_at(h, class), place) {
        None => false,
        Some(method) => {
            is_selectable(method.flags, method.name.as_slice()) && !has_above(h, class, method)
        }
    }
}

fn push_if(
    slots: &mut Items<MethodPlace>,
    is_new: bool,
    class: usize,
    place: usize,
) -> Result<(), NoMemory>
    ensures { OnOk result (slots.new ≡ slots.old ++ place_if is_new class place) }
{
    if is_new {
        slots.push(MethodPlace { class, place })?;
    }
    Ok(())
}

/// The methods that a class declares and that no class above has.
#[tactic(auto, using(crate::proofs::Placing::new_next))]
fn new_methods(alloc: Global, h: &Hierarchy, class: usize) -> Result<Items<MethodPlace>, NoMemory>
    ensures { IfOk result (λ made. made ≡ new_before h.now class (length (methods_at h.now class))) }
{
    let mut made = Items::new(alloc);
    for place in 0..methods_at(h, class).len() {
        push_if(&mut made, is_new(h, class, place), class, place)?;
    }
    Ok(made)
}

/// The slots that a class has and none above it.
fn own_slots(alloc: Global, h: &Hierarchy, class: usize) -> Result<Items<MethodPlace>, NoMemory>
    ensures { IfOk result (λ made. made ≡ own_slots h.now class) }
{
    if h.is_interface(class) {
        Ok(Items::new(alloc))
    } else {
        new_methods(alloc, h, class)
    }
}

/// For each class the slots that it has and none above it.
#[tactic(auto, using(crate::proofs::Placing::all_slots))]
pub fn all_own_slots(alloc: Global, h: &Hierarchy) -> Result<Items<Items<MethodPlace>>, NoMemory>
    ensures { IfOk result (AreOwnSlots h.now) }
{
    let mut rows = Items::new(alloc);
    for class in 0..h.headers.len() {
        rows.push(own_slots(alloc, h, class)?)?;
    }
    Ok(rows)
}

fn row_at(rows: &[Items<MethodPlace>], class: usize) -> &[MethodPlace]
    ensures { result.now ≡ row_or_none (slice_get rows.now class) }
{
    match at(rows, class) {
        None => &[],
        Some(row) => row.as_slice(),
    }
}

/// The slots of a class, and the first slot of each name and descriptor.
#[derive(Drop)]
pub struct Slots {
    pub places: Vec<MethodPlace>,
    /// The slots stand in it as members of class 0.
    pub index: MemberIndex,
}

/// The slots of a class, those of the class above first.
#[tactic(auto, using(class_constants::proofs::Growing::flat_grows))]
fn places_of(
    alloc: Global,
    h: &Hierarchy,
    rows: &[Items<MethodPlace>],
    class: usize,
) -> Result<Vec<MethodPlace>, NoMemory>
    requires { AreOwnSlots h.now rows.now }
    ensures { IfOk result (λ made. made.items ≡ slots_of h.now class) }
{
    let classes = reversed(alloc, h.chain(class))?;
    let mut made = Vec::new(alloc);
    for each in classes.as_slice() {
        made.extend_from_slice(row_at(rows, *each))?;
    }
    Ok(made)
}

/// Adds a slot by the name and the descriptor of its method.
#[tactic(auto, using(crate::proofs::Slotting::none_added))]
fn add_slot(
    alloc: Global,
    h: &Hierarchy,
    index: &mut MemberIndex,
    place: &MethodPlace,
    slot: usize,
) -> Result<(), NoMemory>
    requires { IsWhole index.old }
    ensures added { OnOk result ((n d : List ℕ) →
        member_in index.new 0 n d ≡ or_at (member_in index.old 0 n d) (is_like n d (header_of h.now place.now)) slot) }
    ensures whole { OnOk result (IsWhole index.new) }
{
    match header_of(h, *place) {
        None => Ok(()),
        Some(method) => index.add(
            alloc,
            0,
            method.name.as_slice(),
            method.descriptor.as_slice(),
            slot,
        ),
    }
}

fn index_of(alloc: Global, h: &Hierarchy, places: &[MethodPlace]) -> Result<MemberIndex, NoMemory>
    ensures { IfOk result (FindsSlots h.now places.now) }
{
    let mut index = MemberIndex::new(alloc);
    for slot in 0..places.len() {
        add_slot(alloc, h, &mut index, &places[slot], slot)?;
    }
    Ok(index)
}

/// The slots of a class, those of the class above first.
pub fn slots_of(
    alloc: Global,
    h: &Hierarchy,
    rows: &[Items<MethodPlace>],
    class: usize,
) -> Result<Slots, NoMemory>
    requires { AreOwnSlots h.now rows.now }
    ensures { IfOk result (AreSlots h.now class) }
{
    let places = places_of(alloc, h, rows, class)?;
    let index = index_of(alloc, h, places.as_slice())?;
    Ok(Slots { places, index })
}
