//! Whether a row allows the operands of an instruction (JVMS SE 8 §6.5).

ghost use Rattle.std.specs.Prelude.{◌<◌, ◌^◌, ◌↔◌, map, IsTrue};
ghost use Rattle.std.specs.List.{AllByRecursion};
ghost use Rattle.jvm_code_instructions.specs.Table.{row_of, table_of, lookup_of, pair_of, IsTable, IsLookup};
ghost use Rattle.jvm_code_instructions.specs.Spelling.{Ascends, Allowed, Has};
ghost use Rattle.jvm_code_instructions.specs.Widths.{HasWidths, HasOperands};

use crate::instr::{Instr, LookupSwitch, TableSwitch};
use crate::switches::{place_behind, place_of};
use crate::writing::low_bits_of;

fn target_widths(targets: &[u32])
    ensures { AllByRecursion (λ t. t < 2 ^ 32) targets.now }
{}

fn table_widths(table: &TableSwitch)
    ensures { HasWidths (table_of table.now) }
{
    let _default = table.default;
    let _low = table.low;
    target_widths(&table.targets);
}

fn lookup_widths(lookup: &LookupSwitch)
    ensures { HasWidths (lookup_of lookup.now) }
{
    let _default = lookup.default;
}

/// Reads each number of an instruction, whose type bounds it.
fn widths(instr: &Instr)
    ensures { HasWidths (row_of instr.now).operands }
{
    match instr {
        Instr::Bipush { value } => {
            let _value = *value;
        }
        Instr::Sipush { value } => {
            let _value = *value;
        }
        Instr::LdcW { index }
        | Instr::Ldc2W { index }
        | Instr::Field { index, .. }
        | Instr::Invoke { index, .. }
        | Instr::New { index }
        | Instr::AnewArray { index }
        | Instr::Checkcast { index }
        | Instr::Instanceof { index } => {
            let _index = *index;
        }
        Instr::Load { local, .. } | Instr::Store { local, .. } => {
            let _local = *local;
        }
        Instr::Iinc { local, amount } => {
            let _local = *local;
            let _amount = *amount;
        }
        Instr::If { target, .. }
        | Instr::IfIcmp { target, .. }
        | Instr::IfAcmp { target, .. }
        | Instr::IfNull { target, .. }
        | Instr::Goto { target }
        | Instr::GotoW { target } => {
            let _target = *target;
        }
        Instr::TableSwitch(table) => table_widths(table),
        Instr::LookupSwitch(lookup) => lookup_widths(lookup),
        Instr::InvokeInterface { index, count } => {
            let _index = *index;
            let _count = *count;
        }
        Instr::WideLoad { local, .. } | Instr::WideStore { local, .. } => {
            let _local = *local;
        }
        Instr::WideIinc { local, amount } => {
            let _local = *local;
            let _amount = *amount;
        }
        Instr::AconstNull
        | Instr::Iconst(_)
        | Instr::Lconst(_)
        | Instr::LoadFixed(_)
        | Instr::LoadElement(_)
        | Instr::StoreFixed(_)
        | Instr::StoreElement(_)
        | Instr::Stack(_)
        | Instr::Arithmetic(_)
        | Instr::Divide(_)
        | Instr::Negate(_)
        | Instr::Shift(_)
        | Instr::Bitwise(_)
        | Instr::Convert(_)
        | Instr::Lcmp
        | Instr::Return(_)
        | Instr::NewIntArray
        | Instr::ArrayLength
        | Instr::Athrow => {}
    }
}

fn table_is_allowed(table: &TableSwitch) -> bool
    ensures { IsTrue result ↔ Has IsTable (table_of table.now) }
{
    table_widths(table);
    let low = low_bits_of(table);
    let count = table.targets.len() as u64;
    count != 0 && count <= 4294967296 - place_of(low)
}

/// Whether the numbers ascend strictly.
fn ascends(pairs: &[(i32, u32)]) -> bool
    ensures { IsTrue result ↔ Ascends 0 (map pair_of pairs.now) }
{
    let mut first = 0u64;
    for pair in pairs {
        let (_number, _target) = *pair;
        let behind = place_behind(pair);
        if behind <= first {
            return false;
        }
        first = behind;
    }
    true
}

fn lookup_is_allowed(lookup: &LookupSwitch) -> bool
    ensures { IsTrue result ↔ Has IsLookup (lookup_of lookup.now) }
{
    lookup_widths(lookup);
    lookup.pairs.len() < 2147483648 && ascends(&lookup.pairs)
}

/// Whether the row of the instruction allows its operands. The types see to most of that: what is left is that a
/// *tableswitch* has a target and no more of them than numbers from `low` on, that the numbers of a *lookupswitch*
/// ascend strictly and are fewer than 2^31, and that the count of *invokeinterface* isn't zero (JVMS SE 8 §6.5).
pub fn is_allowed(instr: &Instr) -> bool
    ensures { IsTrue result ↔ Allowed (row_of instr.now) }
{
    widths(instr);
    has_operands(instr)
}

fn has_operands(instr: &Instr) -> bool
    ensures { IsTrue result ↔ HasOperands instr.now }
{
    match instr {
        Instr::TableSwitch(table) => table_is_allowed(table),
        Instr::LookupSwitch(lookup) => lookup_is_allowed(lookup),
        Instr::InvokeInterface { count, .. } => *count != 0,
        Instr::AconstNull
        | Instr::Iconst(_)
        | Instr::Lconst(_)
        | Instr::Bipush { .. }
        | Instr::Sipush { .. }
        | Instr::LdcW { .. }
        | Instr::Ldc2W { .. }
        | Instr::Load { .. }
        | Instr::LoadFixed(_)
        | Instr::LoadElement(_)
        | Instr::Store { .. }
        | Instr::StoreFixed(_)
        | Instr::StoreElement(_)
        | Instr::Stack(_)
        | Instr::Arithmetic(_)
        | Instr::Divide(_)
        | Instr::Negate(_)
        | Instr::Shift(_)
        | Instr::Bitwise(_)
        | Instr::Iinc { .. }
        | Instr::Convert(_)
        | Instr::Lcmp
        | Instr::If { .. }
        | Instr::IfIcmp { .. }
        | Instr::IfAcmp { .. }
        | Instr::IfNull { .. }
        | Instr::Goto { .. }
        | Instr::GotoW { .. }
        | Instr::Return(_)
        | Instr::Field { .. }
        | Instr::Invoke { .. }
        | Instr::New { .. }
        | Instr::NewIntArray
        | Instr::AnewArray { .. }
        | Instr::ArrayLength
        | Instr::Athrow
        | Instr::Checkcast { .. }
        | Instr::Instanceof { .. }
        | Instr::WideLoad { .. }
        | Instr::WideStore { .. }
        | Instr::WideIinc { .. } => true,
    }
}
