//! Where an instruction leads.

ghost use Rattle.class_verify_rules.specs.Acts.{act};
ghost use Rattle.class_verify_rules.specs.Frames.{goes_on, targets};
ghost use Rattle.std.specs.Prelude.{◌≡◌, ◌∷◌, ◌++◌, [], IfOk, OnOk, map};

use jvm_code::{Instr, LookupSwitch, TableSwitch};
use kt_base::NoMemory;
use std::alloc::Global;

/// Whether what stands behind an instruction may come next.
#[tactic(auto, using(crate::proofs::Leading::load_on, crate::proofs::Leading::fixed_load_on, crate::proofs::Leading::load_element_on, crate::proofs::Leading::store_on, crate::proofs::Leading::fixed_store_on, crate::proofs::Leading::store_element_on, crate::proofs::Leading::arithmetic_on, crate::proofs::Leading::divide_on, crate::proofs::Leading::negate_on, crate::proofs::Leading::shift_on, crate::proofs::Leading::bitwise_on, crate::proofs::Leading::convert_on, crate::proofs::Leading::leave_on, crate::proofs::Leading::field_on))]
pub fn may_go_on(instr: &Instr) -> bool
    ensures { result ≡ goes_on (act instr.now) }
{
    match instr {
        Instr::Goto { .. }
        | Instr::GotoW { .. }
        | Instr::TableSwitch(_)
        | Instr::LookupSwitch(_)
        | Instr::Return(_)
        | Instr::Athrow => false,
        Instr::AconstNull
        | Instr::Iconst(_)
        | Instr::Lconst(_)
        | Instr::Bipush { .. }
        | Instr::Sipush { .. }
        | Instr::LdcW { .. }
        | Instr::Ldc2W { .. }
        | Instr::Load { .. }
        | Instr::LoadFixed(_)
        | Instr::LoadElement(_)
        | Instr::Store { .. }
        | Instr::StoreFixed(_)
        | Instr::StoreElement(_)
        | Instr::Stack(_)
        | Instr::Arithmetic(_)
        | Instr::Divide(_)
        | Instr::Negate(_)
        | Instr::Shift(_)
        | Instr::Bitwise(_)
        | Instr::Iinc { .. }
        | Instr::Convert(_)
        | Instr::Lcmp
        | Instr::If { .. }
        | Instr::IfIcmp { .. }
        | Instr::IfAcmp { .. }
        | Instr::Field { .. }
        | Instr::Invoke { .. }
        | Instr::InvokeInterface { .. }
        | Instr::New { .. }
        | Instr::NewIntArray
        | Instr::AnewArray { .. }
        | Instr::ArrayLength
        | Instr::Checkcast { .. }
        | Instr::Instanceof { .. }
        | Instr::WideLoad { .. }
        | Instr::WideStore { .. }
        | Instr::WideIinc { .. }
        | Instr::IfNull { .. } => true,
    }
}

fn one_target(alloc: Global, target: u32) -> Result<Vec<u32>, NoMemory>
    ensures { IfOk result (λ found. found.items ≡ target ∷ []) }
{
    let mut found = Vec::new(alloc);
    found.push(target)?;
    Ok(found)
}

fn table_targets(alloc: Global, table: &TableSwitch) -> Result<Vec<u32>, NoMemory>
    ensures { IfOk result (λ found. found.items ≡ table.now.default ∷ table.now.targets.items) }
{
    let mut found = one_target(alloc, table.default)?;
    found.extend_from_slice(table.targets.as_slice())?;
    Ok(found)
}

fn push_pairs(found: &mut Vec<u32>, pairs: &[(i32, u32)]) -> Result<(), NoMemory>
    ensures { OnOk result (found.new.items ≡ found.old.items ++ map (λ pair. pair.1) pairs.now) }
{
    for pair in pairs {
        found.push(pair.1)?;
    }
    Ok(())
}

fn lookup_targets(alloc: Global, lookup: &LookupSwitch) -> Result<Vec<u32>, NoMemory>
    ensures { IfOk result (λ found. found.items ≡ lookup.now.default ∷ map (λ pair. pair.1) lookup.now.pairs.items) }
{
    let mut found = one_target(alloc, lookup.default)?;
    push_pairs(&mut found, lookup.pairs.as_slice())?;
    Ok(found)
}

/// The offsets to which an instruction jumps.
#[tactic(auto, using(crate::proofs::Leading::load_targets, crate::proofs::Leading::fixed_load_targets, crate::proofs::Leading::load_element_targets, crate::proofs::Leading::store_targets, crate::proofs::Leading::fixed_store_targets, crate::proofs::Leading::store_element_targets, crate::proofs::Leading::arithmetic_targets, crate::proofs::Leading::divide_targets, crate::proofs::Leading::negate_targets, crate::proofs::Leading::shift_targets, crate::proofs::Leading::bitwise_targets, crate::proofs::Leading::convert_targets, crate::proofs::Leading::leave_targets, crate::proofs::Leading::field_targets))]
pub fn targets_of(alloc: Global, instr: &Instr) -> Result<Vec<u32>, NoMemory>
    ensures { IfOk result (λ found. found.items ≡ targets (act instr.now)) }
{
    match instr {
        Instr::If { target, .. }
        | Instr::IfIcmp { target, .. }
        | Instr::IfAcmp { target, .. }
        | Instr::IfNull { target, .. }
        | Instr::Goto { target } => one_target(alloc, *target),
        Instr::TableSwitch(table) => table_targets(alloc, table),
        Instr::LookupSwitch(lookup) => lookup_targets(alloc, lookup),
        Instr::GotoW { .. }
        | Instr::Return(_)
        | Instr::Athrow
        | Instr::AconstNull
        | Instr::Iconst(_)
        | Instr::Lconst(_)
        | Instr::Bipush { .. }
        | Instr::Sipush { .. }
        | Instr::LdcW { .. }
        | Instr::Ldc2W { .. }
        | Instr::Load { .. }
        | Instr::LoadFixed(_)
        | Instr::LoadElement(_)
        | Instr::Store { .. }
        | Instr::StoreFixed(_)
        | Instr::StoreElement(_)
        | Instr::Stack(_)
        | Instr::Arithmetic(_)
        | Instr::Divide(_)
        | Instr::Negate(_)
        | Instr::Shift(_)
        | Instr::Bitwise(_)
        | Instr::Iinc { .. }
        | Instr::Convert(_)
        | Instr::Lcmp
        | Instr::Field { .. }
        | Instr::Invoke { .. }
        | Instr::InvokeInterface { .. }
        | Instr::New { .. }
        | Instr::NewIntArray
        | Instr::AnewArray { .. }
        | Instr::ArrayLength
        | Instr::Checkcast { .. }
        | Instr::Instanceof { .. }
        | Instr::WideLoad { .. }
        | Instr::WideStore { .. }
        | Instr::WideIinc { .. } => Ok(Vec::new(alloc)),
    }
}
