//! Methods, each class that they name by its number.

ghost use Rattle.class_tables.specs.Dispatch.{AreSlots, is_resumption, linked_method, role_of};
ghost use Rattle.std.specs.Prelude.{◌≡◌, IfOk};

use crate::selecting::selector_of;
use crate::slots::Slots;
use class_constants::{Signature, signature_of};
use class_linked::{LinkedCode, LinkedMethod, Role};
use class_members::Hierarchy;
use jvm_class_types::MethodFlags;
use kt_base::NoMemory;
use std::alloc::Global;

/// Whether a method is the body of a continuation.
fn is_resumption(name: &[u8], descriptor: &[u8]) -> bool
    ensures { result ≡ is_resumption name.now descriptor.now }
{
    name == b"invokeSuspend".as_slice() && descriptor == b"()Ljava/lang/Object;".as_slice()
}

fn role_of(name: &[u8], descriptor: &[u8]) -> Role
    ensures { result ≡ role_of name.now descriptor.now }
{
    if name == b"<init>".as_slice() {
        Role::Constructor
    } else if is_resumption(name, descriptor) {
        Role::Resumption
    } else {
        Role::Ordinary
    }
}

/// A method that a class declares, by the slots of the class.
pub fn linked_method(
    alloc: Global,
    h: &Hierarchy,
    class: usize,
    slots: &Slots,
    flags: MethodFlags,
    name: &[u8],
    descriptor: &[u8],
    code: Option<LinkedCode>,
) -> Result<LinkedMethod, NoMemory>
    requires { AreSlots h.now class slots.now }
    ensures { IfOk result (λ made. made ≡ linked_method h.now class flags name.now descriptor.now code) }
{
    match signature_of(alloc, &h.headers, descriptor) {
        Ok(Signature { parameters, result }) => Ok(LinkedMethod {
            flags,
            role: role_of(name, descriptor),
            parameters,
            result,
            selector: selector_of(h, class, slots, flags, name, descriptor),
            code,
        }),
        Err(error) => Err(error),
    }
}
