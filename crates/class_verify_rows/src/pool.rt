//! The constant pool that the classes of the table share.

use class_linked::{Constant, FieldMention, MethodMention, ValueKind};
use kt_base::{NoMemory, Text16};
use sqlite_items::Items;
use std::alloc::Global;

fn mention(class: usize, place: usize) -> MethodMention {
    MethodMention {
        named: class,
        owner: class,
        place,
    }
}

fn method(class: usize, place: usize) -> Constant {
    Constant::Method(mention(class, place))
}

fn field(owner: usize, slot: usize, kind: ValueKind, is_final: bool) -> Constant {
    Constant::Field(FieldMention {
        named: owner,
        owner,
        slot,
        kind,
        is_final,
    })
}

/// What an index of the pool stands for.
fn constant(alloc: Global, index: u8) -> Constant {
    match index {
        0x01 => method(22, 0),
        0x02 => Constant::Class(0),
        0x03 => method(0, 0),
        0x04 => Constant::Int(7),
        0x05 => Constant::Long(9),
        0x07 => Constant::Class(36),
        0x08 => field(36, 0, ValueKind::Int, true),
        0x09 => field(36, 1, ValueKind::Int, false),
        0x0A => method(36, 1),
        0x0B => Constant::Class(37),
        0x0C => method(37, 0),
        0x0D => method(25, 0),
        0x0E => method(37, 1),
        0x0F => Constant::InterfaceMethod(mention(38, 0)),
        0x10 => Constant::Class(40),
        0x11 => Constant::Class(38),
        0x12 => Constant::Class(39),
        0x13 => method(36, 2),
        0x14 => field(36, 2, ValueKind::Long, false),
        0x15 => Constant::Text(Text16::new(alloc)),
        0x16 => Constant::Class(34),
        0x17 => Constant::Class(6),
        0x18 => field(39, 0, ValueKind::Int, true),
        0x19 => method(36, 3),
        0x1A => method(36, 4),
        0x1B => field(36, 3, ValueKind::Object(0), false),
        0x1C => field(36, 4, ValueKind::Object(36), false),
        0x1D => Constant::Class(35),
        0x1E => Constant::Class(12),
        0x1F => method(39, 0),
        0x20 => Constant::Class(9),
        _ => Constant::Nothing,
    }
}

pub fn constants(alloc: Global) -> Result<Items<Constant>, NoMemory> {
    let mut made = Items::new(alloc);
    for index in 0..0x21u8 {
        made.push(constant(alloc, index))?;
    }
    Ok(made)
}
