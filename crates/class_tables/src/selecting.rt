//! How a call finds the method that it runs (JVMS SE 8 §5.4.6).

ghost use Rattle.class_tables.specs.Dispatch.{AreSlots, by_face, by_slot, selector};
ghost use Rattle.class_members.specs.declared.members.MemberKind.TheVariants as kind;
ghost use Rattle.class_members.specs.Members.{first_member};
ghost use Rattle.std.specs.Prelude.{◌≡◌, ◌∷◌, []};

use crate::headers::is_selectable;
use crate::slots::Slots;
use class_linked::Selector;
use class_members::members::first_declared;
use class_members::{Hierarchy, MemberKind};
use jvm_class_types::MethodFlags;

fn by_slot(slot: Option<usize>) -> Option<Selector>
    ensures { result ≡ by_slot slot }
{
    match slot {
        None => None,
        Some(slot) => Some(Selector::Slot(slot)),
    }
}

fn by_face(h: &Hierarchy, class: usize, name: &[u8], descriptor: &[u8]) -> Option<Selector>
    ensures { result ≡ by_face (first_member h.now.headers kind.Virtual name.now descriptor.now (class ∷ [])) }
{
    let itself = [class];
    match first_declared(&h.headers, &itself, MemberKind::Virtual, name, descriptor) {
        None => None,
        Some((interface, place)) => Some(Selector::Face(interface, place)),
    }
}

/// How a call of a method that a class declares finds what it runs, by the slots of the class.
pub(crate) fn selector_of(
    h: &Hierarchy,
    class: usize,
    slots: &Slots,
    flags: MethodFlags,
    name: &[u8],
    descriptor: &[u8],
) -> Option<Selector>
    requires { AreSlots h.now class slots.now }
    ensures { result ≡ selector h.now class flags name.now descriptor.now }
{
    if !is_selectable(flags, name) {
        return None;
    }
    if h.is_interface(class) {
        by_face(h, class, name, descriptor)
    } else {
        by_slot(slots.index.find(0, name, descriptor))
    }
}
