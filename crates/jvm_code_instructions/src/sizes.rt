//! How many bytes an instruction takes (JVMS SE 8 §6.5).

ghost use Rattle.std.specs.Prelude.{◌≡◌, ◌<◌, ◌≤◌, ◌^◌, length};
ghost use Rattle.jvm_code_instructions.specs.Table.{row_of, table_of, lookup_of};
ghost use Rattle.jvm_code_instructions.specs.Spelling.{row_bytes, operand_bytes, Allowed};
ghost use Rattle.jvm_code_instructions.specs.Widths.{HasOperands};

use crate::instr::{Instr, LookupSwitch, TableSwitch};

fn table_size(at: u32, table: &TableSwitch) -> u64
    requires { length table.now.targets.items ≤ 2 ^ 32 }
    ensures is { result ≡ length (operand_bytes at (table_of table.now)) }
    ensures small { result < 2 ^ 40 }
{
    let count = table.targets.len() as u64;
    (3 - at % 4) as u64 + 12 + 4 * count
}

fn lookup_size(at: u32, lookup: &LookupSwitch) -> u64
    requires { length lookup.now.pairs.items < 2 ^ 31 }
    ensures is { result ≡ length (operand_bytes at (lookup_of lookup.now)) }
    ensures small { result < 2 ^ 40 }
{
    let count = lookup.pairs.len() as u64;
    (3 - at % 4) as u64 + 8 + 8 * count
}

/// How many bytes the operands of an instruction take.
fn operand_size(at: u32, instr: &Instr) -> u64
    requires { HasOperands instr.now }
    ensures is { result ≡ length (operand_bytes at (row_of instr.now).operands) }
    ensures small { result < 2 ^ 40 }
{
    match instr {
        Instr::TableSwitch(table) => table_size(at, table),
        Instr::LookupSwitch(lookup) => lookup_size(at, lookup),
        Instr::Bipush { .. } | Instr::Load { .. } | Instr::Store { .. } | Instr::NewIntArray => 1,
        Instr::Sipush { .. }
        | Instr::LdcW { .. }
        | Instr::Ldc2W { .. }
        | Instr::Iinc { .. }
        | Instr::If { .. }
        | Instr::IfIcmp { .. }
        | Instr::IfAcmp { .. }
        | Instr::IfNull { .. }
        | Instr::Goto { .. }
        | Instr::Field { .. }
        | Instr::Invoke { .. }
        | Instr::New { .. }
        | Instr::AnewArray { .. }
        | Instr::Checkcast { .. }
        | Instr::Instanceof { .. } => 2,
        Instr::WideLoad { .. } | Instr::WideStore { .. } => 3,
        Instr::InvokeInterface { .. } | Instr::GotoW { .. } => 4,
        Instr::WideIinc { .. } => 5,
        Instr::AconstNull
        | Instr::Iconst(_)
        | Instr::Lconst(_)
        | Instr::LoadFixed(_)
        | Instr::LoadElement(_)
        | Instr::StoreFixed(_)
        | Instr::StoreElement(_)
        | Instr::Stack(_)
        | Instr::Arithmetic(_)
        | Instr::Divide(_)
        | Instr::Negate(_)
        | Instr::Shift(_)
        | Instr::Bitwise(_)
        | Instr::Convert(_)
        | Instr::Lcmp
        | Instr::Return(_)
        | Instr::ArrayLength
        | Instr::Athrow => 0,
    }
}

/// How many bytes an allowed instruction takes that stands at an offset in the code, its opcode and the padding of a
/// switch among them (JVMS SE 8 §6.5).
pub fn size_of(at: u32, instr: &Instr) -> u64
    requires { Allowed (row_of instr.now) }
    ensures is { result ≡ length (row_bytes at (row_of instr.now)) }
    ensures small { result ≤ 2 ^ 40 }
{
    operand_size(at, instr) + 1
}
