//! The methods of a class that stand for those of interfaces.

ghost use Rattle.class_tables.specs.Dispatch.{face, faces, methods_at, stands_for};
ghost use Rattle.std.specs.Prelude.{◌≡◌, IfOk, map};

use crate::headers::methods_at;
use crate::table::{placed, selected};
use class_headers::MethodHeader;
use class_linked::{Face, MethodPlace};
use class_members::members::first_declared;
use class_members::{Hierarchy, MemberKind};
use kt_base::NoMemory;
use sqlite_items::Items;
use std::alloc::Global;

/// What runs for a method of an interface on an object of a class: the method itself where the class has none.
fn stands_for(h: &Hierarchy, class: usize, interface: usize, method: &MethodHeader) -> MethodPlace
    ensures { result ≡ stands_for h.now class interface method.now }
{
    match selected(h, class, method) {
        Some(found) => placed(Some(found)),
        None => {
            let itself = [interface];
            placed(first_declared(
                &h.headers,
                &itself,
                MemberKind::Method,
                method.name.as_slice(),
                method.descriptor.as_slice(),
            ))
        }
    }
}

fn one_face(alloc: Global, h: &Hierarchy, class: usize, interface: usize) -> Result<Face, NoMemory>
    ensures { IfOk result (λ made. made ≡ face h.now class interface) }
{
    let mut methods = Items::new(alloc);
    for method in methods_at(h, interface) {
        methods.push(stands_for(h, class, interface, method))?;
    }
    Ok(Face { interface, methods })
}

/// For each interface that a class is below the methods that stand for those of the interface.
pub fn faces_of(alloc: Global, h: &Hierarchy, class: usize) -> Result<Items<Face>, NoMemory>
    ensures { IfOk result (λ made. made ≡ faces h.now class) }
{
    let mut made = Items::new(alloc);
    for above in h.supers(class) {
        if h.is_interface(*above) {
            made.push(one_face(alloc, h, class, *above)?)?;
        }
    }
    Ok(made)
}
