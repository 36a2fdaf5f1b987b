//! What each index of a constant pool stands for (JVMS SE 8 §4.4, §5.4.3).

ghost use Rattle.class_constants.specs.Constants.{at_indices, constant_of, constants, field_constant};
ghost use Rattle.class_constants.specs.Constants.{interface_method_constant, method_constant, method_mention};
ghost use Rattle.std.specs.Prelude.{◌≡◌, ◌++◌, IfOk, OnOk};

use crate::fields::{fields_above, is_final_at, sum};
use crate::kinds::{class_of, field_kind};
use class_linked::{Constant, FieldMention, MethodMention};
use class_members::Hierarchy;
use class_missing::mentions::{named_field, named_interface_method, named_method};
use jvm_pool::Entry;
use kt_base::{Name, NoMemory};
use sqlite_items::Items;
use std::alloc::Global;

fn field_constant(
    h: &Hierarchy,
    class: &Name,
    descriptor: &Name,
    found: Option<(usize, usize)>,
) -> Result<Constant, NoMemory>
    ensures { IfOk result (λ c. c ≡ field_constant h.now class.now descriptor.now found) }
{
    let headers = &h.headers;
    match found {
        None => Ok(Constant::Nothing),
        Some((owner, place)) => Ok(Constant::Field(FieldMention {
            named: class_of(headers, class.as_bytes()),
            owner,
            slot: sum(fields_above(h, owner)?, place)?,
            kind: field_kind(headers, descriptor.as_bytes()),
            is_final: is_final_at(headers.as_slice(), owner, place),
        })),
    }
}

fn method_mention(h: &Hierarchy, class: &Name, found: (usize, usize)) -> MethodMention
    ensures { result ≡ method_mention h.now class.now found }
{
    let (owner, place) = found;
    MethodMention {
        named: class_of(&h.headers, class.as_bytes()),
        owner,
        place,
    }
}

fn method_constant(h: &Hierarchy, class: &Name, found: Option<(usize, usize)>) -> Constant
    ensures { result ≡ method_constant h.now class.now found }
{
    match found {
        None => Constant::Nothing,
        Some(found) => Constant::Method(method_mention(h, class, found)),
    }
}

fn interface_method_constant(h: &Hierarchy, class: &Name, found: Option<(usize, usize)>) -> Constant
    ensures { result ≡ interface_method_constant h.now class.now found }
{
    match found {
        None => Constant::Nothing,
        Some(found) => Constant::InterfaceMethod(method_mention(h, class, found)),
    }
}

/// What an entry stands for.
fn constant_of(h: &Hierarchy, e: &Entry) -> Result<Constant, NoMemory>
    ensures { IfOk result (λ c. c ≡ constant_of h.now e.now) }
{
    match e {
        Entry::Utf8(_) | Entry::NameAndType(_, _) => Ok(Constant::Nothing),
        Entry::Int(n) => Ok(Constant::Int(*n)),
        Entry::Long(n) => Ok(Constant::Long(*n)),
        Entry::Class(name) => Ok(Constant::Class(class_of(&h.headers, name.as_bytes()))),
        Entry::Text(text) => Ok(Constant::Text(text.clone()?)),
        Entry::Field(class, name, descriptor) => {
            field_constant(
                h,
                class,
                descriptor,
                named_field(h, class, name, descriptor),
            )
        }
        Entry::Method(class, name, descriptor) => {
            Ok(method_constant(h, class, named_method(h, class, name, descriptor)))
        }
        Entry::InterfaceMethod(class, name, descriptor) => {
            Ok(interface_method_constant(
                h,
                class,
                named_interface_method(h, class, name, descriptor),
            ))
        }
    }
}

/// Puts a constant at the indices that its entry takes.
fn push_at_indices(constants: &mut Items<Constant>, constant: Constant) -> Result<(), NoMemory>
    ensures { OnOk result (constants.new ≡ constants.old ++ at_indices constant) }
{
    let is_long = matches!(&constant, Constant::Long(_));
    constants.push(constant)?;
    if is_long {
        constants.push(Constant::Nothing)?;
    }
    Ok(())
}

/// What each index of a pool of these entries stands for.
#[tactic(auto, using(crate::proofs::Growing::flat_next))]
pub fn constants_of(
    alloc: Global,
    h: &Hierarchy,
    entries: &[Entry],
) -> Result<Items<Constant>, NoMemory>
    ensures { IfOk result (λ made. made ≡ constants h.now entries.now) }
{
    let mut made = Items::new(alloc);
    made.push(Constant::Nothing)?;
    for e in entries {
        push_at_indices(&mut made, constant_of(h, e)?)?;
    }
    Ok(made)
}
