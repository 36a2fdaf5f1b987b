//! Whether functions that meet in a class agree.

ghost use Rattle.kt_decls_inherited.specs.Erased.{descriptor_form};
ghost use Rattle.kt_decls_inherited.specs.Sights.{sight_form, types_form};
ghost use Rattle.kt_decls_meeting.specs.Agreeing.{AgreeSeen, AgreesWithSeen, DoDescriptorsAgree, DoSeenAgree};
ghost use Rattle.kt_decls_meeting.specs.Agreeing as spec;
ghost use Rattle.kt_decls_rules.specs.ClassRules.{HasResultBelow};
ghost use Rattle.kt_decls_rules.specs.Rules.{Ends};
ghost use Rattle.kt_types_tree.specs.Hierarchy.{hierarchy_form};
ghost use Rattle.std.specs.List.{list_any};
ghost use Rattle.std.specs.Prelude.{◌≡◌, ◌↔◌, map, option_map, true, IsTrue};

use kt_decls_inherited::{Descriptor, FunctionTypes, Sight};
use kt_decls_methods::describing::are_descriptor;
use kt_decls_methods::overriding::{has_result_below, have_same_parameters};
use kt_types_tree::Hierarchy;
use kt_types_tree::equality::is_same_flag;

/// Whether a function that has a body serves for another: its result is below that of the other.
fn serves(
    h: &Hierarchy,
    ends: bool,
    has_body: bool,
    types: &Option<FunctionTypes>,
    others: &Option<FunctionTypes>,
) -> bool
    requires ends { IsTrue ends ↔ Ends (hierarchy_form h.now) }
    ensures { IsTrue result ↔ (has_body ≡ true → HasResultBelow (hierarchy_form h.now)
        (option_map types_form types.now) (option_map types_form others.now)) }
{
    if has_body {
        has_result_below(h, ends, types, others)
    } else {
        true
    }
}

/// Whether two functions agree, but for their descriptors.
fn agree(h: &Hierarchy, ends: bool, a: &Sight, b: &Sight) -> bool
    requires ends { IsTrue ends ↔ Ends (hierarchy_form h.now) }
    ensures { IsTrue result ↔ AgreeSeen (hierarchy_form h.now) (sight_form a.now) (sight_form b.now) }
{
    let same_suspend = is_same_flag(a.is_suspend, b.is_suspend);
    let same_parameters = have_same_parameters(&a.types, &b.types);
    let first_serves = serves(h, ends, a.has_body, &a.types, &b.types);
    let second_serves = serves(h, ends, b.has_body, &b.types, &a.types);
    same_parameters && same_suspend && first_serves && second_serves
}

/// Whether a function agrees with each of several.
fn agrees_with_all(h: &Hierarchy, ends: bool, one: &Sight, others: &[Sight]) -> bool
    requires ends { IsTrue ends ↔ Ends (hierarchy_form h.now) }
    ensures { IsTrue result ↔ AgreesWithSeen (hierarchy_form h.now) (sight_form one.now) (map sight_form others.now) }
{
    for each in others {
        let fine = agree(h, ends, one, each);
        if !fine {
            return false;
        }
    }
    true
}

/// Whether each two of several functions agree, but for their descriptors.
pub fn do_agree(h: &Hierarchy, ends: bool, all: &[Sight]) -> bool
    requires ends { IsTrue ends ↔ Ends (hierarchy_form h.now) }
    ensures { IsTrue result ↔ DoSeenAgree (hierarchy_form h.now) (map sight_form all.now) }
{
    let mut behind = 0;
    for each in all {
        behind += 1;
        let fine = agrees_with_all(h, ends, each, &all[behind..]);
        if !fine {
            return false;
        }
    }
    true
}

/// Whether each two of several descriptors are one.
pub fn do_descriptors_agree(all: &[Option<Descriptor>]) -> bool
    ensures { IsTrue result ↔ DoDescriptorsAgree (map (option_map descriptor_form) all.now) }
{
    let mut behind = 0;
    for each in all {
        behind += 1;
        let fine = are_descriptor(each, &all[behind..]);
        if !fine {
            return false;
        }
    }
    true
}

/// Whether one of several functions has a body.
fn has_any_body(all: &[Sight]) -> bool
    ensures { result ≡ list_any (λ s. s.has_body) (map sight_form all.now) }
{
    for each in all {
        if each.has_body {
            return true;
        }
    }
    false
}

/// Whether one of several functions has a body, where there are some.
pub fn has_body(all: &[Sight]) -> bool
    ensures { result ≡ spec.has_seen_body (map sight_form all.now) }
{
    match all {
        [] => true,
        [_first, _rest @ ..] => has_any_body(all),
    }
}
