//! Writing descriptors (JVMS SE 8 §4.3.2, §4.3.3).

ghost use Rattle.jvm_pool.specs.Descriptors.{spelled, spelled_type, spelled_result};
ghost use Rattle.std.specs.Prelude.{◌≡◌, ◌++◌, length, take, codes, OnOk, OnErr};
ghost use Rattle.std.specs.List.{flat_map};
ghost use Rattle.std.specs.Str.{IsAscii};

use crate::descriptors::{Descriptor, FieldType};
use kt_base::NoMemory;

/// Appends the spelling, or only a front of it where memory runs out.
#[tactic(auto, using(crate::proofs::Spelled::kept_front, crate::proofs::Spelled::method_ascii))]
pub(crate) fn put_descriptor(descriptor: &Descriptor, into: &mut Vec<u8>) -> Result<(), NoMemory>
    ensures ok { OnOk result (into.new.items ≡ into.old.items ++ spelled descriptor.now) }
    ensures err { OnErr result (take (length into.old.items) into.new.items ≡ into.old.items) }
    ensures ascii { OnOk result (IsAscii (spelled descriptor.now)) }
{
    match descriptor {
        Descriptor::Field(found) => put_type(found, into),
        Descriptor::Method(parameters, result) => {
            into.push(b'(')?;
            put_types(parameters.as_slice(), into)?;
            into.push(b')')?;
            put_result(result, into)?;
            Ok(())
        }
    }
}

fn put_types(types: &[FieldType], into: &mut Vec<u8>) -> Result<(), NoMemory>
    ensures ok { OnOk result (into.new.items ≡ into.old.items ++ flat_map spelled_type types.now) }
    ensures err { OnErr result (take (length into.old.items) into.new.items ≡ into.old.items) }
    ensures ascii { OnOk result (IsAscii (flat_map spelled_type types.now)) }
{
    for parameter in types {
        put_type(parameter, into)?;
    }
    Ok(())
}

fn put_result(result_type: &Option<FieldType>, into: &mut Vec<u8>) -> Result<(), NoMemory>
    ensures ok { OnOk result (into.new.items ≡ into.old.items ++ spelled_result result_type.now) }
    ensures err { OnErr result (into.new.items ≡ into.old.items) }
    ensures ascii { OnOk result (IsAscii (spelled_result result_type.now)) }
{
    match result_type {
        None => into.push(b'V')?,
        Some(found) => put_type(found, into)?,
    }
    Ok(())
}

fn put_type(field_type: &FieldType, into: &mut Vec<u8>) -> Result<(), NoMemory>
    ensures ok { OnOk result (into.new.items ≡ into.old.items ++ spelled_type field_type.now) }
    ensures err { OnErr result (into.new.items ≡ into.old.items) }
    ensures ascii { OnOk result (IsAscii (spelled_type field_type.now)) }
{
    match field_type {
        FieldType::Int => into.push(b'I')?,
        FieldType::Long => into.push(b'J')?,
        FieldType::Bool => into.push(b'Z')?,
        FieldType::Char => into.push(b'C')?,
        FieldType::IntArray => into.extend_from_slice(b"[I")?,
        FieldType::ObjectArray => into.extend_from_slice(b"[Ljava/lang/Object;")?,
        FieldType::Class(name) => put_class(name.as_bytes(), into)?,
    }
    Ok(())
}

fn put_class(name: &[u8], into: &mut Vec<u8>) -> Result<(), NoMemory>
    ensures ok { OnOk result (into.new.items ≡ into.old.items ++ (codes "L" ++ name.now ++ codes ";")) }
    ensures err { OnErr result (into.new.items ≡ into.old.items) }
{
    into.reserve(name.len() + 2)?;
    into.push(b'L')?;
    into.extend_from_slice(name)?;
    into.push(b';')?;
    Ok(())
}
