//! The rules of overriding, by what is seen of the functions from above.

ghost use Rattle.kt_decls_inherited.specs.Sights.{sight_form, types_form};
ghost use Rattle.kt_decls_methods.specs.Overriding.{OverridesSight, OverridesSights, is_any_sight};
ghost use Rattle.kt_decls_rules.specs.ClassRules.{HasResultBelow, HaveSameParameters};
ghost use Rattle.kt_decls_rules.specs.Rules.{Ends};
ghost use Rattle.kt_types_order.specs.Below.{IsBelow};
ghost use Rattle.kt_types_tree.specs.Hierarchy.{hierarchy_form};
ghost use Rattle.kt_types_tree.specs.Types.{type_form};
ghost use Rattle.std.specs.Prelude.{◌≡◌, ◌↔◌, map, option_map, Some, IsTrue};

use kt_decls_inherited::{FunctionTypes, Sight};
use kt_types::subtyping::is_subtype;
use kt_types_tree::equality::{are_same, is_same_flag};
use kt_types_tree::{Hierarchy, KtType};

fn have_same_known_parameters(a: &FunctionTypes, b: &FunctionTypes) -> bool
    ensures { IsTrue result ↔ ((types_form a.now).parameters ≡ (types_form b.now).parameters) }
{
    are_same(a.parameters.as_slice(), b.parameters.as_slice())
}

/// Whether two functions have the same parameters; where a type has no meaning nothing is compared.
pub fn have_same_parameters(a: &Option<FunctionTypes>, b: &Option<FunctionTypes>) -> bool
    ensures { IsTrue result
        ↔ HaveSameParameters (option_map types_form a.now) (option_map types_form b.now) }
{
    match a {
        None => true,
        Some(a) => match b {
            None => true,
            Some(b) => have_same_known_parameters(a, b),
        },
    }
}

/// Whether a type is below another, which is asked only where no class is above itself and no bound leads back.
fn is_below(h: &Hierarchy, ends: bool, a: &KtType, b: &KtType) -> bool
    requires ends { IsTrue ends ↔ Ends (hierarchy_form h.now) }
    ensures { IsTrue result ↔ (Ends (hierarchy_form h.now)
        → IsBelow (hierarchy_form h.now) (type_form a.now) (type_form b.now)) }
{
    if ends { is_subtype(h, a, b) } else { true }
}

/// Whether the result of a function is below that of another; where a type has no meaning nothing is compared.
pub fn has_result_below(
    h: &Hierarchy,
    ends: bool,
    a: &Option<FunctionTypes>,
    b: &Option<FunctionTypes>,
) -> bool
    requires ends { IsTrue ends ↔ Ends (hierarchy_form h.now) }
    ensures { IsTrue result ↔ HasResultBelow (hierarchy_form h.now) (option_map types_form a.now)
        (option_map types_form b.now) }
{
    match a {
        None => true,
        Some(a) => match b {
            None => true,
            Some(b) => is_below(h, ends, &a.result, &b.result),
        },
    }
}

/// Whether a function overrides one from above.
fn overrides(
    h: &Hierarchy,
    ends: bool,
    is_suspend: bool,
    types: &Option<FunctionTypes>,
    above: &Sight,
) -> bool
    requires ends { IsTrue ends ↔ Ends (hierarchy_form h.now) }
    ensures { IsTrue result ↔ OverridesSight (hierarchy_form h.now) is_suspend (option_map types_form types.now)
        (sight_form above.now) }
{
    let same_suspend = is_same_flag(is_suspend, above.is_suspend);
    let same_parameters = have_same_parameters(types, &above.types);
    let below = has_result_below(h, ends, types, &above.types);
    above.is_open && same_suspend && same_parameters && below
}

/// Whether a function overrides each of several from above.
pub fn overrides_all(
    h: &Hierarchy,
    ends: bool,
    is_suspend: bool,
    types: &Option<FunctionTypes>,
    above: &[Sight],
) -> bool
    requires ends { IsTrue ends ↔ Ends (hierarchy_form h.now) }
    ensures { IsTrue result ↔ OverridesSights (hierarchy_form h.now) is_suspend (option_map types_form types.now)
        (map sight_form above.now) }
{
    for each in above {
        let fine = overrides(h, ends, is_suspend, types, each);
        if !fine {
            return false;
        }
    }
    true
}

/// Whether `override` is owed: there is something to override.
pub fn is_override_owed(above: &[Sight]) -> bool
    ensures { result ≡ is_any_sight (map sight_form above.now) }
{
    match above {
        [] => false,
        [_first, _rest @ ..] => true,
    }
}
