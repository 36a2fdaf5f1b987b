//! The walk from a class with its arguments to what stands above it.

ghost use Rattle.kt_types_climbing.specs.Nodes.{AnyClimbs, IsClosed, ahead_nodes, behind_nodes, in_layers, node};
ghost use Rattle.kt_types_climbing.specs.Reading.{layers, read_all};
ghost use Rattle.kt_types_order.specs.Climbing.{Climbs};
ghost use Rattle.kt_types_order.specs.Graph.{ClassesEnd};
ghost use Rattle.kt_types_tree.specs.Hierarchy.{hierarchy_form};
ghost use Rattle.kt_types_tree.specs.Types.{forms_of, type_form};
ghost use Rattle.std.specs.Prelude.{◌≡◌, ◌↔◌, ◌∷◌, IsTrue, map};

use crate::environment::Environment;
use crate::straight::straight_up;
use crate::walk::{Ahead, Behind, ahead_of, is_met, is_one};
use kt_types_tree::{Hierarchy, KtType, Supertype};

/// Whether nothing is ahead and nobody is behind, so that no class is met twice from here on.
fn is_single_way(ahead: &Ahead, behind: &Behind) -> bool {
    match ahead {
        Ahead::Nothing => match behind {
            Behind::Nobody => true,
            _ => false,
        },
        _ => false,
    }
}

/// Whether a class that is ahead is the wanted one with its arguments, or has it above it.
#[cycle(climbing)]
fn climbs_from(
    h: &Hierarchy,
    ahead: &Ahead,
    behind: &Behind,
    wanted: u32,
    others: &[KtType],
) -> bool
    requires classes { ClassesEnd (hierarchy_form h.now) }
    requires closed { IsClosed (hierarchy_form h.now) (behind_nodes behind.now) (ahead_nodes ahead.now)
        (node wanted (forms_of (map type_form others.now))) }
    ensures { IsTrue result ↔ AnyClimbs (hierarchy_form h.now) (ahead_nodes ahead.now)
        (node wanted (forms_of (map type_form others.now))) }
{
    match ahead {
        Ahead::Nothing => false,
        Ahead::These(supertypes, environment, later) => match supertypes {
            [] => climbs_from(h, &*later, &*behind, wanted, others),
            [first, rest @ ..] => {
                let here = ahead_of(rest, &*environment, &*later);
                climbs_by(h, first, &*environment, &here, &*behind, wanted, others)
            }
        },
    }
}

/// The same where a class comes first, in an environment, and then the rest.
#[cycle(climbing)]
fn climbs_by(
    h: &Hierarchy,
    first: &Supertype,
    environment: &Environment,
    rest: &Ahead,
    behind: &Behind,
    wanted: u32,
    others: &[KtType],
) -> bool
    requires classes { ClassesEnd (hierarchy_form h.now) }
    requires closed { IsClosed (hierarchy_form h.now) (behind_nodes behind.now)
        (in_layers (layers environment.now) first.now ∷ ahead_nodes rest.now)
        (node wanted (forms_of (map type_form others.now))) }
    ensures { IsTrue result ↔ AnyClimbs (hierarchy_form h.now)
        (in_layers (layers environment.now) first.now ∷ ahead_nodes rest.now)
        (node wanted (forms_of (map type_form others.now))) }
{
    let arguments = first.arguments.as_slice();
    if is_one(
        first.class,
        arguments,
        environment,
        wanted,
        others,
        &Environment::Top,
    ) {
        return true;
    }
    if is_met(behind, first.class, arguments, environment) {
        return climbs_from(h, &*rest, &*behind, wanted, others);
    }
    let inner = Environment::Under(arguments, &*environment);
    let ahead = Ahead::These(h.supertypes_of(first.class), &inner, &*rest);
    if is_single_way(rest, behind) {
        climbs_from(h, &ahead, &Behind::Nobody, wanted, others)
    } else {
        let met = Behind::Met(first.class, arguments, &*environment, &*behind);
        climbs_from(h, &ahead, &met, wanted, others)
    }
}

/// The same of a class with its arguments.
fn climbs_at(
    h: &Hierarchy,
    class: u32,
    arguments: &[KtType],
    wanted: u32,
    others: &[KtType],
) -> bool
    requires classes { ClassesEnd (hierarchy_form h.now) }
    ensures { IsTrue result ↔ Climbs (hierarchy_form h.now) class (forms_of (map type_form arguments.now)) wanted
        (forms_of (map type_form others.now)) }
{
    let top = Environment::Top;
    if is_one(class, arguments, &top, wanted, others, &top) {
        return true;
    }
    let inner = Environment::Under(arguments, &top);
    let ahead = Ahead::These(h.supertypes_of(class), &inner, &Ahead::Nothing);
    climbs_from(h, &ahead, &Behind::Nobody, wanted, others)
}

/// Whether a class with its arguments is the wanted one with the others, or has it above it.
///
/// The way up is followed once from each class with its arguments. No memory is taken, and a way up from a class
/// without arguments on which one supertype alone leads on takes no stack.
pub fn climbs(
    h: &Hierarchy,
    class: u32,
    arguments: &[KtType],
    wanted: u32,
    others: &[KtType],
) -> bool
    requires classes { ClassesEnd (hierarchy_form h.now) }
    ensures { IsTrue result ↔ Climbs (hierarchy_form h.now) class (forms_of (map type_form arguments.now)) wanted
        (forms_of (map type_form others.now)) }
{
    match arguments {
        [] => climbs_at(h, straight_up(h, class, wanted), arguments, wanted, others),
        _ => climbs_at(h, class, arguments, wanted, others),
    }
}
