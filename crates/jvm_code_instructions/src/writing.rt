//! Instructions to bytes (JVMS SE 8 §6.5).

ghost use Rattle.std.specs.Prelude.{◌≡◌, ◌++◌, ◌∷◌, [], ◌-◌, ◌%◌, ◌+◌, ◌^◌, ◌<◌, length, OnOk, map};
ghost use Rattle.std.specs.List.{flat_map};
ghost use Rattle.std.specs.Int.{w16, w32, to_be_bytes, cast_unsigned};
ghost use Rattle.jvm_code_instructions.specs.Table.{row_of, table_of, lookup_of, pair_of};
ghost use Rattle.jvm_code_instructions.specs.Spelling.{near_bytes, far_bytes, padding, high_of, pair_bytes, operand_bytes, row_bytes};

use crate::instr::{Instr, LookupSwitch, TableSwitch};
use kt_base::NoMemory;
use std::alloc::AllocError;

fn put_u16(out: &mut Vec<u8>, n: u16) -> Result<(), AllocError>
    ensures { OnOk result (out.new.items ≡ out.old.items ++ to_be_bytes w16 n) }
{
    out.extend_from_slice(&n.to_be_bytes())
}

fn put_u32(out: &mut Vec<u8>, n: u32) -> Result<(), AllocError>
    ensures { OnOk result (out.new.items ≡ out.old.items ++ to_be_bytes w32 n) }
{
    out.extend_from_slice(&n.to_be_bytes())
}

#[tactic(auto, using(crate::proofs::Writes::low_bits))]
fn put_near(out: &mut Vec<u8>, at: u32, target: u32) -> Result<(), AllocError>
    ensures { OnOk result (out.new.items ≡ out.old.items ++ near_bytes at target) }
{
    let distance = (target.wrapping_sub(at) % 65536) as u16;
    out.extend_from_slice(&distance.to_be_bytes())
}

fn put_far(out: &mut Vec<u8>, at: u32, target: u32) -> Result<(), AllocError>
    ensures { OnOk result (out.new.items ≡ out.old.items ++ far_bytes at target) }
{
    out.extend_from_slice(&target.wrapping_sub(at).to_be_bytes())
}

fn put_padding(out: &mut Vec<u8>, at: u32) -> Result<(), AllocError>
    ensures { OnOk result (out.new.items ≡ out.old.items ++ padding at) }
{
    match at % 4 {
        0 => out.extend_from_slice(&[0, 0, 0]),
        1 => out.extend_from_slice(&[0, 0]),
        2 => out.extend_from_slice(&[0]),
        _ => Ok(()),
    }
}

fn put_targets(out: &mut Vec<u8>, at: u32, targets: &[u32]) -> Result<(), AllocError>
    ensures { OnOk result (out.new.items ≡ out.old.items ++ flat_map (far_bytes at) targets.now) }
{
    for target in targets {
        put_far(out, at, *target)?;
    }
    Ok(())
}

fn put_pair(out: &mut Vec<u8>, at: u32, number: u32, target: u32) -> Result<(), AllocError>
    ensures { OnOk result (out.new.items ≡ out.old.items ++ pair_bytes at (number, target)) }
{
    put_u32(out, number)?;
    put_far(out, at, target)
}

fn put_pairs(out: &mut Vec<u8>, at: u32, pairs: &[(i32, u32)]) -> Result<(), AllocError>
    ensures { OnOk result (out.new.items ≡ out.old.items ++ flat_map (pair_bytes at) (map pair_of pairs.now)) }
{
    for pair in pairs {
        put_pair(out, at, pair.0.cast_unsigned(), pair.1)?;
    }
    Ok(())
}

pub fn low_bits_of(table: &TableSwitch) -> u32
    ensures { result ≡ cast_unsigned w32 table.now.low }
{
    table.low.cast_unsigned()
}

fn high_bits_of(table: &TableSwitch) -> u32
    ensures { result ≡ high_of (cast_unsigned w32 table.now.low) (length table.now.targets.items) }
{
    let low = low_bits_of(table);
    let count = (table.targets.len() % 4294967296) as u32;
    low.wrapping_add(count).wrapping_add(4294967295)
}

fn put_table(out: &mut Vec<u8>, at: u32, table: &TableSwitch) -> Result<(), AllocError>
    ensures { OnOk result (out.new.items ≡ out.old.items ++ operand_bytes at (table_of table.now)) }
{
    put_padding(out, at)?;
    put_far(out, at, table.default)?;
    let low = low_bits_of(table);
    put_u32(out, low)?;
    let high = high_bits_of(table);
    put_u32(out, high)?;
    put_targets(out, at, &table.targets)?;
    Ok(())
}

fn count_of(lookup: &LookupSwitch) -> u32
    ensures { result ≡ length lookup.now.pairs.items % 2 ^ 32 }
{
    (lookup.pairs.len() % 4294967296) as u32
}

fn put_lookup(out: &mut Vec<u8>, at: u32, lookup: &LookupSwitch) -> Result<(), AllocError>
    ensures { OnOk result (out.new.items ≡ out.old.items ++ operand_bytes at (lookup_of lookup.now)) }
{
    put_padding(out, at)?;
    put_far(out, at, lookup.default)?;
    let count = count_of(lookup);
    put_u32(out, count)?;
    put_pairs(out, at, &lookup.pairs)?;
    Ok(())
}

fn put_called(out: &mut Vec<u8>, index: u16, count: u8) -> Result<(), AllocError>
    ensures { OnOk result (out.new.items ≡ out.old.items ++ (to_be_bytes w16 index ++ count ∷ 0 ∷ [])) }
{
    put_u16(out, index)?;
    out.extend_from_slice(&[count, 0])
}

fn put_wide(out: &mut Vec<u8>, opcode: u8, local: u16) -> Result<(), AllocError>
    ensures { OnOk result (out.new.items ≡ out.old.items ++ (opcode ∷ to_be_bytes w16 local)) }
{
    out.push(opcode)?;
    put_u16(out, local)
}

fn put_wide_amount(out: &mut Vec<u8>, local: u16, amount: u16) -> Result<(), AllocError>
    ensures { OnOk result (out.new.items ≡ out.old.items
        ++ (0x84 ∷ (to_be_bytes w16 local ++ to_be_bytes w16 amount))) }
{
    out.push(0x84)?;
    put_u16(out, local)?;
    put_u16(out, amount)
}

fn opcode_of(instr: &Instr) -> u8
    ensures { result ≡ (row_of instr.now).opcode }
{
    match instr {
        Instr::AconstNull => 0x01,
        Instr::Iconst(op) => op.code(),
        Instr::Lconst(op) => op.code(),
        Instr::Bipush { .. } => 0x10,
        Instr::Sipush { .. } => 0x11,
        Instr::LdcW { .. } => 0x13,
        Instr::Ldc2W { .. } => 0x14,
        Instr::Load { op, .. } => op.code(),
        Instr::LoadFixed(op) => op.code(),
        Instr::LoadElement(op) => op.code(),
        Instr::Store { op, .. } => op.code(),
        Instr::StoreFixed(op) => op.code(),
        Instr::StoreElement(op) => op.code(),
        Instr::Stack(op) => op.code(),
        Instr::Arithmetic(op) => op.code(),
        Instr::Divide(op) => op.code(),
        Instr::Negate(op) => op.code(),
        Instr::Shift(op) => op.code(),
        Instr::Bitwise(op) => op.code(),
        Instr::Iinc { .. } => 0x84,
        Instr::Convert(op) => op.code(),
        Instr::Lcmp => 0x94,
        Instr::If { test, .. } => test.code(),
        Instr::IfIcmp { test, .. } => test.code(),
        Instr::IfAcmp { test, .. } => test.code(),
        Instr::Goto { .. } => 0xa7,
        Instr::TableSwitch(_) => 0xaa,
        Instr::LookupSwitch(_) => 0xab,
        Instr::Return(op) => op.code(),
        Instr::Field { op, .. } => op.code(),
        Instr::Invoke { op, .. } => op.code(),
        Instr::InvokeInterface { .. } => 0xb9,
        Instr::New { .. } => 0xbb,
        Instr::NewIntArray => 0xbc,
        Instr::AnewArray { .. } => 0xbd,
        Instr::ArrayLength => 0xbe,
        Instr::Athrow => 0xbf,
        Instr::Checkcast { .. } => 0xc0,
        Instr::Instanceof { .. } => 0xc1,
        Instr::WideLoad { .. } | Instr::WideStore { .. } | Instr::WideIinc { .. } => 0xc4,
        Instr::IfNull { test, .. } => test.code(),
        Instr::GotoW { .. } => 0xc8,
    }
}

fn put_operands(out: &mut Vec<u8>, at: u32, instr: &Instr) -> Result<(), AllocError>
    ensures { OnOk result (out.new.items ≡ out.old.items ++ operand_bytes at (row_of instr.now).operands) }
{
    match instr {
        Instr::Bipush { value } => out.extend_from_slice(&[value.cast_unsigned()]),
        Instr::Sipush { value } => put_u16(out, value.cast_unsigned()),
        Instr::LdcW { index }
        | Instr::Ldc2W { index }
        | Instr::Field { index, .. }
        | Instr::Invoke { index, .. }
        | Instr::New { index }
        | Instr::AnewArray { index }
        | Instr::Checkcast { index }
        | Instr::Instanceof { index } => put_u16(out, *index),
        Instr::Load { local, .. } | Instr::Store { local, .. } => out.extend_from_slice(&[*local]),
        Instr::Iinc { local, amount } => out.extend_from_slice(&[*local, amount.cast_unsigned()]),
        Instr::If { target, .. }
        | Instr::IfIcmp { target, .. }
        | Instr::IfAcmp { target, .. }
        | Instr::IfNull { target, .. }
        | Instr::Goto { target } => put_near(out, at, *target),
        Instr::GotoW { target } => put_far(out, at, *target),
        Instr::TableSwitch(table) => put_table(out, at, table),
        Instr::LookupSwitch(lookup) => put_lookup(out, at, lookup),
        Instr::InvokeInterface { index, count } => put_called(out, *index, *count),
        Instr::NewIntArray => out.extend_from_slice(&[10]),
        Instr::WideLoad { op, local } => put_wide(out, op.code(), *local),
        Instr::WideStore { op, local } => put_wide(out, op.code(), *local),
        Instr::WideIinc { local, amount } => put_wide_amount(out, *local, amount.cast_unsigned()),
        Instr::AconstNull
        | Instr::Iconst(_)
        | Instr::Lconst(_)
        | Instr::LoadFixed(_)
        | Instr::LoadElement(_)
        | Instr::StoreFixed(_)
        | Instr::StoreElement(_)
        | Instr::Stack(_)
        | Instr::Arithmetic(_)
        | Instr::Divide(_)
        | Instr::Negate(_)
        | Instr::Shift(_)
        | Instr::Bitwise(_)
        | Instr::Convert(_)
        | Instr::Lcmp
        | Instr::Return(_)
        | Instr::ArrayLength
        | Instr::Athrow => Ok(()),
    }
}

/// Appends the bytes of an instruction that stands at an offset in the code (JVMS SE 8 §6.5): numbers big-endian,
/// targets by their distances, a switch padded by its offset. Where memory runs out, a front of them may have been
/// appended.
pub fn put_instr(out: &mut Vec<u8>, at: u32, instr: &Instr) -> Result<(), NoMemory>
    ensures { OnOk result (out.new.items ≡ out.old.items ++ row_bytes at (row_of instr.now)) }
{
    let opcode = opcode_of(instr);
    out.push(opcode)?;
    put_operands(out, at, instr)?;
    Ok(())
}
