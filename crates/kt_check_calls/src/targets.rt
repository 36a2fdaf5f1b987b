//! What can be called.

ghost use Rattle.kt_check_calls.specs.Targets.{target_form};
ghost use Rattle.kt_check_deciding.specs.Outcomes.{Outcome, Reading, gives_one, then_go};
ghost use Rattle.kt_check_names.specs.Answers.{Reads};
ghost use Rattle.kt_check_names.specs.Views.{candidates_form};
ghost use Rattle.kt_check_rules.specs.Calls as spec;
ghost use Rattle.kt_check_rules.specs.States.{State};
ghost use Rattle.kt_typed.specs.Bodies.{ExpressionForm, expression_form};
ghost use Rattle.std.specs.Prelude.{List, map};

use kt_base::Pos;
use kt_check_expressions::operators::one;
use kt_check_names::{Candidates, Why};
use kt_typed::{Callee, TypedCall, TypedExpression, TypedKind};
use kt_types_tree::KtType;
use sqlite_items::Items;
use std::alloc::Global;

/// What an argument has to be.
#[derive(Drop)]
pub enum Wanted {
    /// It meets a type
    OfType(KtType),
    /// One of its types can be printed
    Printed,
}

/// What can be called, for given type arguments.
#[derive(Drop)]
pub struct CallTarget {
    pub callee: Callee,
    pub type_arguments: Items<KtType>,
    pub wanted: Items<Wanted>,
    pub gives: KtType,
    pub suspends: bool,
}

/// A call with its arguments.
fn call_of(
    alloc: Global,
    target: CallTarget,
    arguments: Items<TypedExpression>,
    suffix: Pos,
) -> Result<Candidates, Why>
    ensures { (s : State) → Reads candidates_form result s
        (gives_one (spec.called (target_form target) (map expression_form arguments) suffix) s) }
{
    let CallTarget {
        callee,
        type_arguments,
        wanted: _,
        gives,
        suspends,
    } = target;
    let call = TypedCall {
        callee,
        type_arguments,
        arguments,
        suspends,
        suffix,
    };
    one(alloc, TypedKind::Call(call), gives)
}

/// A call, where its arguments were typed.
#[tactic(auto, using(kt_check_places::proofs::Going::goes, kt_check_places::proofs::Going::fails))]
pub fn called(
    alloc: Global,
    target: CallTarget,
    arguments: Result<Items<TypedExpression>, Why>,
    suffix: Pos,
) -> Result<Candidates, Why>
    ensures { (s : State) (o : Outcome (Reading (List ExpressionForm))) →
        Reads (map expression_form) arguments s o → Reads candidates_form result s
        (then_go o (λ r. gives_one (spec.called (target_form target) r.value suffix) r.behind)) }
{
    match arguments {
        Ok(arguments) => call_of(alloc, target, arguments, suffix),
        Err(why) => {
            drop(target);
            Err(why)
        }
    }
}
