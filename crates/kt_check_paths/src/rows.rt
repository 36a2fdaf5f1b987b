//! Facts whose parts come from several.

ghost use Rattle.kt_check_paths.specs.Parts.{parts_from};
ghost use Rattle.kt_flow.specs.Rows.{facts_form};
ghost use Rattle.kt_types_tree.specs.Types.{type_form};
ghost use Rattle.std.specs.Prelude.{◌≡◌, ◌≤◌, IfOk, length, map};

use kt_base::NoMemory;
use kt_flow::{Facts, LocalFacts};
use kt_types_tree::KtType;
use kt_types_tree::copying::copy_all;
use sqlite_items::{Items, at};

fn types_at(facts: &Facts, row: usize) -> &[KtType]
    ensures { map type_form result.now ≡ (facts_form facts.now).types row }
{
    match at(facts.rows.as_slice(), row) {
        Some(row) => row.types.as_slice(),
        None => &[],
    }
}

fn is_surely_at(facts: &Facts, row: usize) -> bool
    ensures { result ≡ (facts_form facts.now).surely_assigned row }
{
    match at(facts.rows.as_slice(), row) {
        Some(row) => row.surely_assigned,
        None => false,
    }
}

fn is_maybe_at(facts: &Facts, row: usize) -> bool
    ensures { result ≡ (facts_form facts.now).maybe_assigned row }
{
    match at(facts.rows.as_slice(), row) {
        Some(row) => row.maybe_assigned,
        None => false,
    }
}

/// A row whose parts come from several.
fn row_from(
    types: &Facts,
    surely: &Facts,
    maybe: &Facts,
    row: usize,
) -> Result<LocalFacts, NoMemory>
    ensures types { IfOk result (λ r. map type_form r.types ≡ (facts_form types.now).types row) }
    ensures surely { IfOk result (λ r. r.surely_assigned ≡ (facts_form surely.now).surely_assigned row) }
    ensures maybe { IfOk result (λ r. r.maybe_assigned ≡ (facts_form maybe.now).maybe_assigned row) }
{
    Ok(LocalFacts {
        types: copy_all(types.alloc, types_at(types, row))?,
        surely_assigned: is_surely_at(surely, row),
        maybe_assigned: is_maybe_at(maybe, row),
    })
}

fn greater(a: usize, b: usize) -> usize
    ensures first { a ≤ result }
    ensures second { b ≤ result }
{
    if a < b { b } else { a }
}

/// How many rows at least one of them has.
fn rows_of(types: &Facts, surely: &Facts, maybe: &Facts) -> usize
    ensures types { length types.now.rows ≤ result }
    ensures surely { length surely.now.rows ≤ result }
    ensures maybe { length maybe.now.rows ≤ result }
{
    greater(
        types.rows.len(),
        greater(surely.rows.len(), maybe.rows.len()),
    )
}

/// The types of the first, what is surely assigned of the second, and what is maybe assigned of the third.
#[tactic(auto, using(crate::proofs::RowByRow::none_is, crate::proofs::RowByRow::one_more_is, crate::proofs::RowByRow::all_are))]
pub fn from_parts(types: &Facts, surely: &Facts, maybe: &Facts) -> Result<Facts, NoMemory>
    ensures { IfOk result (λ f. facts_form f ≡
        parts_from (facts_form types.now) (facts_form surely.now) (facts_form maybe.now)) }
{
    let mut rows = Items::new(types.alloc);
    for row in 0..rows_of(types, surely, maybe) {
        rows.push(row_from(types, surely, maybe, row)?)?;
    }
    Ok(Facts {
        alloc: types.alloc,
        rows,
    })
}
