//! Copies of facts, for paths that part.

ghost use Rattle.kt_check_names.specs.Facts.{shown};
ghost use Rattle.kt_flow.specs.Rows.{facts_form};
ghost use Rattle.std.specs.Prelude.{◌≡◌, IfOk, map};

use kt_base::NoMemory;
use kt_flow::{Facts, LocalFacts};
use kt_types_tree::copying::copy_all;
use sqlite_items::Items;
use std::alloc::Global;

fn copy_row(alloc: Global, row: &LocalFacts) -> Result<LocalFacts, NoMemory>
    ensures { IfOk result (λ r. shown r ≡ shown row.now) }
{
    Ok(LocalFacts {
        types: copy_all(alloc, row.types.as_slice())?,
        surely_assigned: row.surely_assigned,
        maybe_assigned: row.maybe_assigned,
    })
}

fn copy_rows(alloc: Global, rows: &[LocalFacts]) -> Result<Items<LocalFacts>, NoMemory>
    ensures { IfOk result (λ copies. map shown copies ≡ map shown rows.now) }
{
    let mut copies = Items::new(alloc);
    for row in rows {
        copies.push(copy_row(alloc, row)?)?;
    }
    Ok(copies)
}

/// A copy of them.
#[tactic(auto, using(crate::proofs::SameRows::same_facts))]
pub fn copy_facts(facts: &Facts) -> Result<Facts, NoMemory>
    ensures { IfOk result (λ f. facts_form f ≡ facts_form facts.now) }
{
    Ok(Facts {
        alloc: facts.alloc,
        rows: copy_rows(facts.alloc, facts.rows.as_slice())?,
    })
}
