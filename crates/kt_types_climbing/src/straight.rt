//! Straight ways: from a class without arguments one supertype alone leads on. They need no stack.

ghost use Rattle.kt_types_climbing.specs.OnlyWays.{LeadsNowhere, LeadsSame, NowhereBut};
ghost use Rattle.kt_types_climbing.specs.Weights.{weight};
ghost use Rattle.kt_types_order.specs.Climbing.{Climbs};
ghost use Rattle.kt_types_order.specs.Graph.{ClassesEnd, class_graph};
ghost use Rattle.kt_types_tree.specs.Hierarchy.{hierarchy_form, super_form};
ghost use Rattle.kt_types_tree.specs.Types.{forms_end, forms_of, type_form};
ghost use Rattle.std.specs.Prelude.{ℕ, ◌≡◌, ◌<◌, Some, false, length, map};

use kt_types_tree::{Hierarchy, Supertype};

/// Whether something may be found at a class: it is the wanted one, or has supertypes itself.
fn leads_on(h: &Hierarchy, class: u32, wanted: u32) -> bool
    ensures { result ≡ false → LeadsNowhere (hierarchy_form h.now) class wanted }
{
    match h.supertypes_of(class) {
        [] => class == wanted,
        _ => true,
    }
}

/// The place of the one supertype that leads on; none where there is no such one, or another beside it.
fn only_place(h: &Hierarchy, supertypes: &[Supertype], wanted: u32) -> Option<usize>
    ensures but { (k : ℕ) → result ≡ Some k
        → NowhereBut (hierarchy_form h.now) (map super_form supertypes.now) k wanted }
    ensures within { (k : ℕ) → result ≡ Some k → k < length supertypes.now }
{
    let mut way = None;
    for place in 0..supertypes.len() {
        if leads_on(h, supertypes[place].class, wanted) {
            match way {
                Some(_) => return None,
                None => way = Some(place),
            }
        }
    }
    way
}

/// The class of a supertype without arguments.
fn plain_class(supertype: &Supertype) -> Option<u32>
    ensures class { (c : ℕ) → result ≡ Some c → supertype.now.class ≡ c }
    ensures plain { (c : ℕ) → result ≡ Some c → forms_of (map type_form supertype.now.arguments) ≡ forms_end }
{
    match supertype.arguments.as_slice() {
        [] => Some(supertype.class),
        _ => None,
    }
}

/// The class to which a class without arguments leads alone, where it isn't the wanted one itself.
fn next_straight(h: &Hierarchy, class: u32, wanted: u32) -> Option<u32>
    requires classes { ClassesEnd (hierarchy_form h.now) }
    ensures onward { (c : ℕ) → result ≡ Some c → LeadsSame (hierarchy_form h.now) class c wanted }
    ensures lower { (c : ℕ) → result ≡ Some c
        → weight (class_graph (hierarchy_form h.now)) c < weight (class_graph (hierarchy_form h.now)) class }
{
    if class == wanted {
        return None;
    }
    let supertypes = h.supertypes_of(class);
    match only_place(h, supertypes, wanted) {
        Some(place) => plain_class(&supertypes[place]),
        None => None,
    }
}

/// The class at which the straight way up from a class without arguments ends.
pub fn straight_up(h: &Hierarchy, class: u32, wanted: u32) -> u32
    requires classes { ClassesEnd (hierarchy_form h.now) }
    ensures { LeadsSame (hierarchy_form h.now) class result wanted }
{
    let mut here = class;
    loop {
        match next_straight(h, here, wanted) {
            Some(next) => here = next,
            None => return here,
        }
    }
}
