//! Tables of methods.

ghost use Rattle.class_members.specs.Members.{selected};
ghost use Rattle.class_tables.specs.Dispatch.{AreSlots, header_of, placed, selected_like, table};
ghost use Rattle.std.specs.Prelude.{◌≡◌, IfOk};

use crate::headers::header_of;
use crate::slots::Slots;
use class_headers::MethodHeader;
use class_linked::MethodPlace;
use class_members::Hierarchy;
use kt_base::NoMemory;
use sqlite_items::Items;
use std::alloc::Global;

/// The place of a method that is there.
pub(crate) fn placed(found: Option<(usize, usize)>) -> MethodPlace
    ensures { result ≡ placed found }
{
    match found {
        None => MethodPlace { class: 0, place: 0 },
        Some((class, place)) => MethodPlace { class, place },
    }
}

/// The method that runs for one of its name and descriptor on an object of a class.
pub(crate) fn selected(h: &Hierarchy, class: usize, method: &MethodHeader) -> Option<(usize, usize)>
    ensures { result ≡ selected h.now class method.now.name method.now.descriptor }
{
    h.selected(class, method.name.as_slice(), method.descriptor.as_slice())
}

/// The method that runs for a slot on an object of a class.
fn chosen(h: &Hierarchy, class: usize, slot: MethodPlace) -> MethodPlace
    ensures { result ≡ placed (selected_like h.now class (header_of h.now slot)) }
{
    match header_of(h, slot) {
        None => placed(None),
        Some(method) => placed(selected(h, class, method)),
    }
}

/// For each slot of a class the method that runs on its objects.
pub fn table_of(
    alloc: Global,
    h: &Hierarchy,
    class: usize,
    slots: &Slots,
) -> Result<Items<MethodPlace>, NoMemory>
    requires { AreSlots h.now class slots.now }
    ensures { IfOk result (λ made. made ≡ table h.now class) }
{
    let mut made = Items::new(alloc);
    for slot in slots.places.as_slice() {
        made.push(chosen(h, class, *slot))?;
    }
    Ok(made)
}
