//! Types in frames (JVMS SE 8 §4.7.4).

ghost use Rattle.jvm_class_formats.specs.Formats.{counted};
ghost use Rattle.jvm_maps.specs.Types as maps;
ghost use Rattle.jvm_pieces.specs.Pieces.{pieces};
ghost use Rattle.std.specs.Int.{to_be_bytes, w8};
ghost use Rattle.std.specs.List.{flat_map, AllByRecursion};
ghost use Rattle.std.specs.Prelude.{◌≡◌, ◌<◌, ◌^◌, ◌++◌, length, OnOk};

use class_writer_members::items::{put_class, put_half};
use jvm_class_types::FrameType;
use jvm_class_types::constants::{
    ITEM_INTEGER, ITEM_LONG, ITEM_NULL, ITEM_OBJECT, ITEM_TOP, ITEM_UNINITIALIZED,
    ITEM_UNINITIALIZED_THIS,
};
use jvm_pool::Pool;
use kt_base::NoMemory;

/// Appends a byte.
pub(crate) fn put_byte(byte: u8, into: &mut Vec<u8>) -> Result<(), NoMemory>
    ensures { OnOk result (into.new.items ≡ into.old.items ++ to_be_bytes w8 byte) }
{
    into.extend_from_slice(&byte.to_be_bytes())?;
    Ok(())
}

/// Appends a type.
#[tactic(auto, using(class_writer_members::proofs::Appends::two_parts))]
pub fn put_type(frame_type: &FrameType, pool: &Pool, into: &mut Vec<u8>) -> Result<(), NoMemory>
    requires { (maps.frame_type pool.now).allows frame_type.now }
    ensures { OnOk result (into.new.items
        ≡ into.old.items ++ pieces pool.now ((maps.frame_type pool.now).spell frame_type.now)) }
{
    match frame_type {
        FrameType::Top => put_byte(ITEM_TOP, into),
        FrameType::Integer => put_byte(ITEM_INTEGER, into),
        FrameType::Long => put_byte(ITEM_LONG, into),
        FrameType::Null => put_byte(ITEM_NULL, into),
        FrameType::UninitializedThis => put_byte(ITEM_UNINITIALIZED_THIS, into),
        FrameType::Object(name) => {
            put_byte(ITEM_OBJECT, into)?;
            put_class(name, pool, into)
        }
        FrameType::Uninitialized(at) => {
            put_byte(ITEM_UNINITIALIZED, into)?;
            put_half(*at as u16, into)
        }
    }
}

/// Appends each of these types.
pub fn put_types(types: &[FrameType], pool: &Pool, into: &mut Vec<u8>) -> Result<(), NoMemory>
    requires { AllByRecursion (maps.frame_type pool.now).allows types.now }
    ensures { OnOk result (into.new.items ≡ into.old.items
        ++ pieces pool.now (flat_map (maps.frame_type pool.now).spell types.now)) }
{
    for frame_type in types {
        put_type(frame_type, pool, into)?;
    }
    Ok(())
}

/// Appends types behind their number.
pub fn put_counted(types: &[FrameType], pool: &Pool, into: &mut Vec<u8>) -> Result<(), NoMemory>
    requires { (counted (maps.frame_type pool.now)).allows types.now }
    ensures { OnOk result (into.new.items ≡ into.old.items
        ++ pieces pool.now ((counted (maps.frame_type pool.now)).spell types.now)) }
{
    put_half(types.len() as u16, into)?;
    put_types(types, pool, into)?;
    Ok(())
}
