//! What is kept of what limits speak of in a body.

ghost use Rattle.kt_limits.specs.Noted.{Noted, a_lambda, a_local, a_text, but_locals, units_of};
ghost use Rattle.kt_limits.specs.Noting as spec;
ghost use Rattle.kt_limits.specs.Noting.{seen};
ghost use Rattle.kt_limits.specs.Limits.{captures_of, local_names, locals_of, most_captures, most_parameters, most_weight, parameters_of};
ghost use Rattle.kt_sizes.specs.Weight.{weight as spec_weight};
ghost use Rattle.kt_typed.specs.Bodies.{fun_form};
ghost use Rattle.std.specs.List.{list_all};
ghost use Rattle.std.specs.Prelude.{[], ◌&&◌, ◌++◌, ◌∷◌, ◌≡◌, List, nat_le};

use crate::limits::{MOST_CAPTURES, MOST_PARAMETERS, MOST_WEIGHT};
use crate::texts::{are_short, part_fits};
use kt_sizes::weight;
use kt_tree::TextPart;
use kt_typed::TypedFun;

/// What a body, or a part of one, holds.
#[derive(Clone, Copy)]
pub struct Notes {
    /// How many locals begin in it, as far as a `u64` counts.
    pub locals: u64,
    /// Whether its text parts and its lambda literals are within limits.
    pub are_fine: bool,
}

impl Notes {
    /// Nothing of what limits speak of.
    #[tactic(auto, unfolding(crate::specs::Noting::seen))]
    pub fn nothing() -> Notes
        ensures { result ≡ seen [] }
    {
        Notes {
            locals: 0,
            are_fine: true,
        }
    }

    /// A local.
    #[tactic(auto, unfolding(crate::specs::Noting::seen))]
    pub fn local() -> Notes
        ensures { result ≡ seen (a_local ∷ []) }
    {
        Notes {
            locals: 1,
            are_fine: true,
        }
    }

    /// These, behind a local.
    pub fn behind_local(self) -> Notes
        ensures { (all : List Noted) → self ≡ seen all → result ≡ seen (a_local ∷ all) }
    {
        Notes {
            locals: self.locals.saturating_add(1),
            are_fine: self.are_fine,
        }
    }

    /// A part of a string that is text.
    #[tactic(auto, unfolding(crate::specs::Noting::seen))]
    pub fn text(part: &TextPart) -> Notes
        ensures { result ≡ seen (a_text (units_of part.now) ∷ []) }
    {
        Notes {
            locals: 0,
            are_fine: part_fits(part),
        }
    }

    /// A lambda literal, with what stands in it.
    #[tactic(auto, unfolding(crate::specs::Noting::seen))]
    pub fn lambda(body: &TypedFun, inside: Notes) -> Notes
        ensures { (all : List Noted) → inside ≡ seen all →
            result ≡ seen (a_lambda (fun_form body.now) ∷ but_locals all) }
    {
        let is_fine = is_fine_lambda(body);
        Notes {
            locals: 0,
            are_fine: is_fine && inside.are_fine,
        }
    }

    /// Two parts, one behind the other.
    #[tactic(auto, unfolding(crate::specs::Noting::seen))]
    pub fn beside(self, other: Notes) -> Notes
        ensures { (a b : List Noted) → self ≡ seen a → other ≡ seen b → result ≡ seen (a ++ b) }
    {
        Notes {
            locals: self.locals.saturating_add(other.locals),
            are_fine: self.are_fine && other.are_fine,
        }
    }
}

/// Whether both hold.
pub fn both(first: bool, second: bool) -> bool
    ensures { result ≡ (first && second) }
{
    first && second
}

/// Whether a lambda has at most the greatest weight.
#[tactic(auto, using(crate::proofs::Lights::at_most_cap))]
fn is_light(body: &TypedFun) -> bool
    ensures { result ≡ nat_le (spec_weight (fun_form body.now)) most_weight }
{
    weight(body) <= MOST_WEIGHT
}

fn has_few_parameters(body: &TypedFun) -> bool
    ensures { result ≡ nat_le (parameters_of (fun_form body.now)) most_parameters }
{
    u64::from(body.parameters) <= MOST_PARAMETERS
}

fn has_few_captures(body: &TypedFun) -> bool
    ensures { result ≡ nat_le (captures_of (fun_form body.now)) most_captures }
{
    body.captures.len() as u64 <= MOST_CAPTURES
}

fn has_short_names(body: &TypedFun) -> bool
    ensures { result ≡ list_all spec.is_short (local_names (locals_of (fun_form body.now))) }
{
    are_short(body.locals.as_slice())
}

/// Whether a lambda is within limits by itself.
fn is_fine_lambda(body: &TypedFun) -> bool
    ensures { result ≡ spec.is_fine_lambda (fun_form body.now) }
{
    let is_light = is_light(body);
    let few_parameters = has_few_parameters(body);
    let few_captures = has_few_captures(body);
    let are_short = has_short_names(body);
    both(
        is_light,
        both(few_parameters, both(few_captures, are_short)),
    )
}
