//! The local that is assigned to.

ghost use Rattle.kt_check_deciding.specs.Outcomes.{there};
ghost use Rattle.kt_check_deciding.specs.Statements as spec;
ghost use Rattle.kt_check_locals.specs.Views.{found_form};
ghost use Rattle.kt_check_names.specs.Answers.{Answers};
ghost use Rattle.kt_check_places.specs.Places.{state_at};
ghost use Rattle.kt_typed.specs.Operators.{local_form};
ghost use Rattle.std.specs.Prelude.{◌≡◌, IfOk, Some};

use kt_base::{Name, NoMemory};
use kt_check_names::scopes::local_named;
use kt_check_names::{Known, Why};
use kt_check_places::Place;
use kt_typed::TypedLocal;
use sqlite_items::at;
use std::alloc::Global;

/// A local that has a name, with its number.
#[derive(Drop)]
pub struct FoundLocal {
    pub number: u32,
    pub local: TypedLocal,
}

fn copy_of(alloc: Global, local: &TypedLocal) -> Result<TypedLocal, NoMemory>
    ensures { IfOk result (λ l. local_form l ≡ local_form local.now) }
{
    let name = local.name.clone()?;
    Ok(TypedLocal {
        name,
        kind: local.kind,
        declared: local.declared.copy(alloc)?,
    })
}

/// The local of a number.
#[tactic(auto, using(crate::proofs::Locals::local_at_is, crate::proofs::Locals::no_local_at))]
fn local_at(p: &Place, known: &Known, number: u32) -> Result<FoundLocal, Why>
    ensures { Answers found_form result (there (spec.local_at (state_at p.now known.now) (Some number))) }
{
    match at(known.locals.as_slice(), number as usize) {
        Some(local) => Ok(FoundLocal {
            number,
            local: copy_of(p.alloc, local)?,
        }),
        None => Err(Why::Refused),
    }
}

/// The local that a name means. It is refused where it means none.
pub fn local_of(p: &Place, known: &Known, name: &Name) -> Result<FoundLocal, Why>
    ensures { Answers found_form result (there (spec.local_of name.now (state_at p.now known.now))) }
{
    match local_named(p.frames, name) {
        Some(number) => local_at(p, known, number),
        None => Err(Why::Refused),
    }
}
