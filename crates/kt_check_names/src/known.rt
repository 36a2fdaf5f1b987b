//! What is known at a place of a body.

ghost use Rattle.kt_check_names.specs.Views.{declared_in, scope_in, state_of};
ghost use Rattle.kt_check_rules.specs.States.{Named, declaring};
ghost use Rattle.kt_check_rules.specs.Bodies.{empty_state};
ghost use Rattle.kt_types_tree.specs.Types.{type_form};
ghost use Rattle.std.specs.Prelude.{◌≡◌, [], List, ℕ, IfOk, OnOk, length};

use crate::scopes::NamedLocal;
use kt_base::{Name, NoMemory};
use kt_flow::Facts;
use kt_typed::{LocalKind, TypedLocal};
use kt_types_tree::KtType;
use sqlite_items::Items;
use std::alloc::Global;

/// What is known at a place of a body, beside the names in scope.
#[derive(Drop)]
pub struct Known {
    /// The facts of the path to it
    pub facts: Facts,
    /// The locals of the body by their numbers, as far as the text
    pub locals: Items<TypedLocal>,
    /// What was known at each `break` of the innermost loop
    pub breaks: Items<Facts>,
    /// What was known at each `continue` of the innermost loop
    pub continues: Items<Facts>,
}

/// A number of locals. More than 2^32 count as want of memory.
pub fn number_of(count: usize) -> Result<u32, NoMemory>
    ensures { IfOk result (λ n. n ≡ count) }
{
    match u32::try_from(count) {
        Ok(number) => Ok(number),
        Err(_) => Err(NoMemory),
    }
}

impl Known {
    /// Nothing.
    pub fn nothing(alloc: Global) -> Known
        ensures { state_of [] [] 0 result ≡ empty_state }
    {
        Known {
            facts: Facts::empty(alloc),
            locals: Items::new(alloc),
            breaks: Items::new(alloc),
            continues: Items::new(alloc),
        }
    }
}

/// A further local in a scope, and its number.
#[tactic(auto, using(crate::proofs::InScopes::one_more, crate::proofs::InScopes::one_declared))]
pub fn declare(
    names: &mut Items<NamedLocal>,
    known: &mut Known,
    name: &Name,
    kind: LocalKind,
    declared: KtType,
) -> Result<u32, NoMemory>
    ensures number { IfOk result (λ n. n ≡ length known.old.locals) }
    ensures state { OnOk result ((outer : List Named) (outside : ℕ) →
        state_of (scope_in names.new outer) (declared_in names.new []) outside known.new
        ≡ declaring name.now kind (type_form declared)
        (state_of (scope_in names.old outer) (declared_in names.old []) outside known.old)) }
{
    let number = number_of(known.locals.len())?;
    let local = TypedLocal {
        name: name.clone()?,
        kind,
        declared,
    };
    known.locals.push(local)?;
    names.push(NamedLocal {
        name: name.clone()?,
        number,
    })?;
    Ok(number)
}
