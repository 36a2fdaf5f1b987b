//! Whether targets are offsets of instructions within reach (JVMS SE 8 §4.9.1).

ghost use Rattle.std.specs.Prelude.{◌≡◌, ◌==◌, ◌≤◌, ◌<◌, ◌+◌, map};
ghost use Rattle.std.specs.List.{list_any, list_all};
ghost use Rattle.jvm_code_instructions.specs.Table.{row_of, pair_of};
ghost use Rattle.jvm_code.specs.Decoding.{rows, starts_of, stands, aims, first_bad};
ghost use Rattle.std.specs.List.Sorted.{IsStrictlyIncreasing};

use jvm_code_instructions::Instr;

/// Whether an instruction begins at the offset: by halving, since offsets ascend.
fn begins_at(code: &[(u32, Instr)], target: u32) -> bool
    requires { IsStrictlyIncreasing (starts_of (rows code.now)) }
    ensures { result ≡ list_any (λ s. s == target) (starts_of (rows code.now)) }
{
    let mut low = 0usize;
    let mut high = code.len();
    while low < high {
        let middle = low + (high - low) / 2;
        let start = code[middle].0;
        if start == target {
            return true;
        }
        if start < target {
            low = middle + 1;
        } else {
            high = middle;
        }
    }
    false
}

fn stands_at(code: &[(u32, Instr)], reach: u64, at: u32, target: u32) -> bool
    requires ascending { IsStrictlyIncreasing (starts_of (rows code.now)) }
    requires small { reach ≤ 2147483648 }
    ensures { result ≡ stands (starts_of (rows code.now)) reach at target }
{
    let found = begins_at(code, target);
    let low = target as u64 + reach + 1;
    let high = at as u64 + reach;
    if !found {
        return false;
    }
    if (at as u64) >= low {
        return false;
    }
    (target as u64) < high
}

fn targets_stand(code: &[(u32, Instr)], at: u32, targets: &[u32]) -> bool
    requires { IsStrictlyIncreasing (starts_of (rows code.now)) }
    ensures { result ≡ list_all (λ t. stands (starts_of (rows code.now)) 2147483648 at t) targets.now }
{
    for target in targets {
        if !stands_at(code, 2147483648, at, *target) {
            return false;
        }
    }
    true
}

fn pairs_stand(code: &[(u32, Instr)], at: u32, pairs: &[(i32, u32)]) -> bool
    requires { IsStrictlyIncreasing (starts_of (rows code.now)) }
    ensures { result ≡ list_all (λ p. stands (starts_of (rows code.now)) 2147483648 at p.1) (map pair_of pairs.now) }
{
    for pair in pairs {
        if !stands_at(code, 2147483648, at, pair.1) {
            return false;
        }
    }
    true
}

fn aims_at(code: &[(u32, Instr)], at: u32, instr: &Instr) -> bool
    requires { IsStrictlyIncreasing (starts_of (rows code.now)) }
    ensures { result ≡ aims (starts_of (rows code.now)) at (row_of instr.now).operands }
{
    match instr {
        Instr::If { target, .. }
        | Instr::IfIcmp { target, .. }
        | Instr::IfAcmp { target, .. }
        | Instr::IfNull { target, .. }
        | Instr::Goto { target } => stands_at(code, 32768, at, *target),
        Instr::GotoW { target } => stands_at(code, 2147483648, at, *target),
        Instr::TableSwitch(table) => {
            let default = stands_at(code, 2147483648, at, table.default);
            let others = targets_stand(code, at, &table.targets);
            default && others
        }
        Instr::LookupSwitch(lookup) => {
            let default = stands_at(code, 2147483648, at, lookup.default);
            let others = pairs_stand(code, at, &lookup.pairs);
            default && others
        }
        Instr::AconstNull
        | Instr::Iconst(_)
        | Instr::Lconst(_)
        | Instr::Bipush { .. }
        | Instr::Sipush { .. }
        | Instr::LdcW { .. }
        | Instr::Ldc2W { .. }
        | Instr::Load { .. }
        | Instr::LoadFixed(_)
        | Instr::LoadElement(_)
        | Instr::Store { .. }
        | Instr::StoreFixed(_)
        | Instr::StoreElement(_)
        | Instr::Stack(_)
        | Instr::Arithmetic(_)
        | Instr::Divide(_)
        | Instr::Negate(_)
        | Instr::Shift(_)
        | Instr::Bitwise(_)
        | Instr::Iinc { .. }
        | Instr::Convert(_)
        | Instr::Lcmp
        | Instr::Return(_)
        | Instr::Field { .. }
        | Instr::Invoke { .. }
        | Instr::InvokeInterface { .. }
        | Instr::New { .. }
        | Instr::NewIntArray
        | Instr::AnewArray { .. }
        | Instr::ArrayLength
        | Instr::Athrow
        | Instr::Checkcast { .. }
        | Instr::Instanceof { .. }
        | Instr::WideLoad { .. }
        | Instr::WideStore { .. }
        | Instr::WideIinc { .. } => true,
    }
}

/// The offset of the first instruction one of whose targets does not stand.
pub(crate) fn bad_target(code: &[(u32, Instr)]) -> Option<u32>
    requires { IsStrictlyIncreasing (starts_of (rows code.now)) }
    ensures { result ≡ first_bad (starts_of (rows code.now)) (rows code.now) }
{
    for item in code {
        if !aims_at(code, item.0, &item.1) {
            return Some(item.0);
        }
    }
    None
}
