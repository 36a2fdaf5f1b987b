//! What is ahead of a walk, and what is behind it.

ghost use Rattle.kt_types_climbing.specs.Nodes.{Among, ahead_nodes, ahead_weight, behind_nodes, in_layers, node};
ghost use Rattle.kt_types_climbing.specs.Reading.{layers, read_all};
ghost use Rattle.kt_types_climbing.specs.Weights.{sum_of, weight};
ghost use Rattle.kt_types_order.specs.Graph.{Graph};
ghost use Rattle.kt_types_tree.specs.Types.{forms_of, type_form};
ghost use Rattle.std.specs.Prelude.{◌≡◌, ◌↔◌, ◌++◌, ◌+◌, ◌≤◌, IsTrue, map};

use crate::environment::Environment;
use crate::reading::are_read_alike;
use kt_types_tree::{KtType, Supertype};

/// Supertypes that are still to be looked at.
#[derive(Clone, Copy)]
pub enum Ahead<'a> {
    /// No more
    Nothing,
    /// These, in an environment, and then what stands behind them
    These(&'a [Supertype], &'a Environment<'a>, &'a Ahead<'a>),
}

/// Classes with their arguments, in an environment, that were looked at.
#[derive(Clone, Copy)]
pub enum Behind<'a> {
    /// None
    Nobody,
    /// This one, after those that stand behind it
    Met(u32, &'a [KtType], &'a Environment<'a>, &'a Behind<'a>),
}

/// Whether a class with its arguments is the other with its own.
pub fn is_one(
    class: u32,
    arguments: &[KtType],
    environment: &Environment,
    other: u32,
    others: &[KtType],
    other_environment: &Environment,
) -> bool
    ensures { IsTrue result ↔ (node class (read_all (layers environment.now) (forms_of (map type_form arguments.now)))
        ≡ node other (read_all (layers other_environment.now) (forms_of (map type_form others.now)))) }
{
    class == other && are_read_alike(arguments, environment, others, other_environment)
}

/// Whether a class with its arguments was met.
pub fn is_met(behind: &Behind, class: u32, arguments: &[KtType], environment: &Environment) -> bool
    ensures { IsTrue result ↔ Among
        (node class (read_all (layers environment.now) (forms_of (map type_form arguments.now))))
        (behind_nodes behind.now) }
{
    match behind {
        Behind::Nobody => false,
        Behind::Met(other, others, other_environment, earlier) => {
            if is_one(
                class,
                arguments,
                environment,
                *other,
                others,
                other_environment,
            ) {
                return true;
            }
            is_met(earlier, class, arguments, environment)
        }
    }
}

/// What is ahead behind the first of several supertypes.
pub fn ahead_of<'a>(
    rest: &'a [Supertype],
    environment: &'a Environment<'a>,
    later: &'a Ahead<'a>,
) -> Ahead<'a>
    ensures nodes { ahead_nodes result ≡ map (in_layers (layers environment.now)) rest.now ++ ahead_nodes later.now }
    ensures weight { (g : Graph) → ahead_weight g result
        ≤ sum_of (weight g) (map (λ s. s.class) rest.now) + ahead_weight g later.now + 1 }
{
    match rest {
        [] => *later,
        _ => Ahead::These(rest, environment, later),
    }
}
