//! The parameters of a method and its result, by kinds (JVMS SE 8 §4.3.3).

ghost use Rattle.class_constants.specs.Kinds.{behind_parameters, parameter_kinds, signature_of, value_kind};
ghost use Rattle.jvm_pool.specs.DescriptorReading as reading;
ghost use Rattle.std.specs.Prelude.{◌≡◌, IfOk, option_map};

use crate::kinds::value_kind;
use class_headers::ClassTable;
use class_linked::ValueKind;
use jvm_class_start::types::first_type;
use jvm_class_start::{argument, behind_open};
use kt_base::NoMemory;
use sqlite_items::Items;
use std::alloc::Global;

/// What a method takes, without its receiver, and what it gives.
#[derive(Drop)]
pub struct Signature {
    pub parameters: Items<ValueKind>,
    /// `None` where it gives no value.
    pub result: Option<ValueKind>,
}

/// The kinds of the parameters, and what stands behind them in the descriptor.
fn parameters_of<'a>(
    alloc: Global,
    headers: &ClassTable,
    descriptor: &'a [u8],
) -> Result<(Items<ValueKind>, &'a [u8]), NoMemory>
    ensures { IfOk result (λ found. (found.0 ≡ parameter_kinds headers.now descriptor.now)
        × (found.1.now ≡ behind_parameters descriptor.now)) }
{
    let start = behind_open(descriptor);
    let mut rest = start;
    let mut kinds = Items::new(alloc);
    for i in 0..start.len() {
        match argument(rest) {
            Some((found, behind)) => {
                kinds.push(value_kind(headers, found))?;
                rest = behind;
            }
            None => return Ok((kinds, rest)),
        }
    }
    Ok((kinds, rest))
}

/// The kind of the type at the front, if one is there.
fn kind_in_front(headers: &ClassTable, bytes: &[u8]) -> Option<ValueKind>
    ensures { result ≡ option_map (λ found. value_kind headers.now found.0) (reading.first_type bytes.now) }
{
    match first_type(bytes) {
        None => None,
        Some((found, _)) => Some(value_kind(headers, found)),
    }
}

/// What a method of a descriptor takes and gives.
pub fn signature_of(
    alloc: Global,
    headers: &ClassTable,
    descriptor: &[u8],
) -> Result<Signature, NoMemory>
    ensures { IfOk result (λ signature. signature ≡ signature_of headers.now descriptor.now) }
{
    let (parameters, rest) = parameters_of(alloc, headers, descriptor)?;
    let result = kind_in_front(headers, behind_open(rest));
    Ok(Signature { parameters, result })
}
