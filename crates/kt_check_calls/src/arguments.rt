//! Arguments, one after the other.

ghost use Rattle.kt_check_calls.specs.Lists.{behind_others};
ghost use Rattle.kt_check_deciding.specs.Expressions.{no_arguments};
ghost use Rattle.kt_check_names.specs.Answers.{Reads};
ghost use Rattle.kt_check_calls.specs.Targets.{wanted_form};
ghost use Rattle.kt_check_rules.specs.States.{State};
ghost use Rattle.kt_typed.specs.Bodies.{expression_form};
ghost use Rattle.std.specs.Prelude.{◌≡◌, ◌∷◌, ◌++◌, [], IfOk, map};

use crate::targets::Wanted;
use kt_base::NoMemory;
use kt_check_names::Why;
use kt_typed::TypedExpression;
use sqlite_items::Items;

/// Behind the last argument. It is refused where more are wanted.
#[tactic(auto, using(crate::proofs::Behind::none_behind))]
pub fn no_more(
    done: Items<TypedExpression>,
    wanted: &[Wanted],
) -> Result<Items<TypedExpression>, Why>
    ensures { (s : State) → Reads (map expression_form) result s
        (behind_others (map expression_form done) (no_arguments (map wanted_form wanted.now) s)) }
{
    match wanted {
        [] => Ok(done),
        [_, ..] => {
            drop(done);
            Err(Why::Refused)
        }
    }
}

/// One argument more.
pub fn one_more(
    done: Items<TypedExpression>,
    value: TypedExpression,
) -> Result<Items<TypedExpression>, NoMemory>
    ensures { IfOk result (λ all. map expression_form all ≡ map expression_form done ++ expression_form value ∷ []) }
{
    let mut all = done;
    all.push(value)?;
    Ok(all)
}
