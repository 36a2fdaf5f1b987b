//! Where code ends.

ghost use Rattle.class_verify_methods.specs.Faults.{end_of_one};
ghost use Rattle.class_verify_rules.specs.Bodies.{end_of};
ghost use Rattle.jvm_code_instructions.specs.Spelling.{operand_bytes, row_bytes};
ghost use Rattle.jvm_code_instructions.specs.Table.{lookup_of, row_of, table_of};
ghost use Rattle.std.specs.Prelude.{◌≡◌, ◌<◌, ◌≤◌, ◌^◌, MatchOption, length};

use class_linked::LinkedCode;
use jvm_code::{Instr, LookupSwitch, TableSwitch};
use sqlite_items::at;

/// How many operand bytes a table has, where these aren't more than any code has.
fn table_size(offset: u32, table: &TableSwitch) -> Option<u64>
    ensures { MatchOption result (65535 < length (operand_bytes offset (table_of table.now)))
        (λ size. (size ≡ length (operand_bytes offset (table_of table.now))) × (size < 2 ^ 20)) }
{
    let count = table.targets.len();
    if count > 65_535 {
        return None;
    }
    Some((3 - offset % 4) as u64 + 12 + 4 * count as u64)
}

fn lookup_size(offset: u32, lookup: &LookupSwitch) -> Option<u64>
    ensures { MatchOption result (65535 < length (operand_bytes offset (lookup_of lookup.now)))
        (λ size. (size ≡ length (operand_bytes offset (lookup_of lookup.now))) × (size < 2 ^ 20)) }
{
    let count = lookup.pairs.len();
    if count > 65_535 {
        return None;
    }
    Some((3 - offset % 4) as u64 + 8 + 8 * count as u64)
}

/// How many operand bytes an instruction has, where these aren't more than any code has.
fn operand_size(offset: u32, instr: &Instr) -> Option<u64>
    ensures { MatchOption result (65535 < length (operand_bytes offset (row_of instr.now).operands))
        (λ size. (size ≡ length (operand_bytes offset (row_of instr.now).operands)) × (size < 2 ^ 20)) }
{
    match instr {
        Instr::TableSwitch(table) => table_size(offset, table),
        Instr::LookupSwitch(lookup) => lookup_size(offset, lookup),
        Instr::Bipush { .. } | Instr::Load { .. } | Instr::Store { .. } | Instr::NewIntArray => {
            Some(1)
        }
        Instr::Sipush { .. }
        | Instr::LdcW { .. }
        | Instr::Ldc2W { .. }
        | Instr::Iinc { .. }
        | Instr::If { .. }
        | Instr::IfIcmp { .. }
        | Instr::IfAcmp { .. }
        | Instr::IfNull { .. }
        | Instr::Goto { .. }
        | Instr::Field { .. }
        | Instr::Invoke { .. }
        | Instr::New { .. }
        | Instr::AnewArray { .. }
        | Instr::Checkcast { .. }
        | Instr::Instanceof { .. } => Some(2),
        Instr::WideLoad { .. } | Instr::WideStore { .. } => Some(3),
        Instr::InvokeInterface { .. } | Instr::GotoW { .. } => Some(4),
        Instr::WideIinc { .. } => Some(5),
        Instr::AconstNull
        | Instr::Iconst(_)
        | Instr::Lconst(_)
        | Instr::LoadFixed(_)
        | Instr::LoadElement(_)
        | Instr::StoreFixed(_)
        | Instr::StoreElement(_)
        | Instr::Stack(_)
        | Instr::Arithmetic(_)
        | Instr::Divide(_)
        | Instr::Negate(_)
        | Instr::Shift(_)
        | Instr::Bitwise(_)
        | Instr::Convert(_)
        | Instr::Lcmp
        | Instr::Return(_)
        | Instr::ArrayLength
        | Instr::Athrow => Some(0),
    }
}

fn end_of_instruction(instruction: &(u32, Instr)) -> Option<u64>
    ensures { MatchOption result (65535 < end_of_one instruction.now) (λ end. end ≡ end_of_one instruction.now) }
{
    match operand_size(instruction.0, &instruction.1) {
        None => None,
        Some(size) => Some(instruction.0 as u64 + 1 + size),
    }
}

/// Where the last instruction ends, where that isn't behind what any code has.
#[tactic(auto, using(crate::proofs::Ends::end_of_none, crate::proofs::Ends::end_of_last))]
pub fn code_end(code: &LinkedCode) -> Option<u64>
    ensures { MatchOption result (65535 < end_of code.now.instructions) (λ end. end ≡ end_of code.now.instructions) }
{
    let count = code.instructions.len();
    if count == 0 {
        return Some(0);
    }
    match at(code.instructions.as_slice(), count - 1) {
        None => unreachable!(),
        Some(last) => end_of_instruction(last),
    }
}
