//! What a body sees while it runs, and the variables with which it is entered.

ghost use Rattle.kt_direct_scope.specs.Activation.{here_form};
ghost use Rattle.kt_direct_values.specs.Forms.{value_form};
ghost use Rattle.kt_meaning.specs.Classes as classes;
ghost use Rattle.kt_meaning.specs.Units as units;
ghost use Rattle.kt_typed.specs.Bodies.{fun_form};
ghost use Rattle.kt_typed.specs.Operators.{local_form};
ghost use Rattle.std.specs.Prelude.{◌≡◌, ◌++◌, IfOk, map, option_map, slice_get};

use kt_direct_classes::blank;
use kt_direct_lambdas::is_shared;
use kt_direct_values::DirectValue;
use kt_direct_values::store::put;
use kt_typed::{TypedFun, TypedLocal, TypedUnit};
use sqlite_items::{Items, at};
use std::alloc::{AllocError, Global};

/// What a body sees while it runs.
#[derive(Drop)]
pub struct Here<'a> {
    pub unit: &'a TypedUnit,
    /// A bound on the depth of further calls, and on the turns of each loop.
    pub bound: u32,
    /// `this`, or null.
    pub receiver: DirectValue,
    /// The row of the class, in a constructor or a member.
    pub class: u32,
    /// What a lambda captured.
    pub captures: Items<DirectValue>,
    /// None for a function that a data class has without declaring it.
    pub body: Option<&'a TypedFun>,
}

impl<'a> Here<'a> {
    /// What stands in a local until it is assigned.
    #[tactic(auto, unfolding(crate::specs::Activation::here_form))]
    pub fn blank(&self, n: u32) -> Option<DirectValue>
        ensures { option_map value_form result ≡ slice_get (here_form self.now).blanks n }
    {
        match self.body {
            Some(body) => blank_at(body, n),
            None => None,
        }
    }

    /// What the lambda captured, by its place among the captures.
    #[tactic(auto, unfolding(crate::specs::Activation::here_form))]
    pub fn captured(&self, n: u32) -> Option<&DirectValue>
        ensures { option_map (λ x. value_form x.now) result ≡ slice_get (here_form self.now).captures n }
    {
        self.captures.get(n as usize)
    }

    /// Whether a lambda of the body captures a local as a `var`.
    #[tactic(auto, unfolding(crate::specs::Activation::here_form))]
    pub fn is_shared(&self, n: u32) -> bool
        ensures { result ≡ (here_form self.now).is_shared n }
    {
        match self.body {
            Some(body) => is_shared(body, n),
            None => false,
        }
    }

    /// A copy of `this`, or null.
    #[tactic(auto, unfolding(crate::specs::Activation::here_form))]
    pub fn receiver(&self, alloc: Global) -> Result<DirectValue, AllocError>
        ensures { IfOk result (λ x. value_form x ≡ (here_form self.now).receiver) }
    {
        self.receiver.copy(alloc)
    }
}

/// What stands in a local of a body until it is assigned.
fn blank_at(body: &TypedFun, n: u32) -> Option<DirectValue>
    ensures { option_map value_form result ≡ slice_get (units.blanks_of (fun_form body.now)) n }
{
    match at(body.locals.as_slice(), n as usize) {
        Some(local) => Some(blank(&local.declared)),
        None => None,
    }
}

/// The arguments, and blanks for the locals behind them.
fn with_blanks(
    arguments: Vec<DirectValue>,
    locals: &[TypedLocal],
) -> Result<Vec<DirectValue>, AllocError>
    ensures { IfOk result (λ all. map value_form all.items
        ≡ map value_form arguments.items ++ map (λ l. classes.blank l.declared) (map local_form locals.now)) }
{
    let mut all = arguments;
    for local in locals {
        put(&mut all, blank(&local.declared))?;
    }
    Ok(all)
}

/// The variables of a body that is entered: the arguments, and its other locals.
pub fn variables_of(
    body: &TypedFun,
    arguments: Vec<DirectValue>,
) -> Result<Vec<DirectValue>, AllocError>
    ensures { IfOk result (λ all. map value_form all.items
        ≡ units.variables_of (fun_form body.now) (map value_form arguments.items)) }
{
    let given = arguments.as_slice();
    let known = given.len();
    let locals = body.locals.as_slice();
    if known < locals.len() {
        with_blanks(arguments, &locals[known..])
    } else {
        Ok(arguments)
    }
}
