//! Whether the functions of one name that meet in a class from above agree, and one has a body.

ghost use Rattle.kt_decls_facts.specs.Facts.{Knows};
ghost use Rattle.kt_decls_inherited.specs.Sights as sights;
ghost use Rattle.kt_decls_inherited.specs.Sights.{sight_form};
ghost use Rattle.kt_decls_rules.specs.Rules.{Ends};
ghost use Rattle.kt_types_tree.specs.Hierarchy.{hierarchy_form};
ghost use Rattle.kt_decls_rules.specs.ClassRules as rules;
ghost use Rattle.kt_decls_rules.specs.ClassRules.{DoAllAgree, IsFineAbove};
ghost use Rattle.kt_decls_rules.specs.Members.{inherited, members_of_any};
ghost use Rattle.kt_decls_rules.specs.Tables as tables;
ghost use Rattle.kt_decls_rules.specs.Tables.{hierarchy_of};
ghost use Rattle.kt_decls_meeting.specs.Agreeing as spec;
ghost use Rattle.kt_decls_meeting.specs.Agreeing.{DoDescriptorsAgree, DoSeenAgree};
ghost use Rattle.kt_decls_inherited.specs.Descriptors.{descriptor_in};
ghost use Rattle.kt_tree.specs.Declarations.{declaration_tree};
ghost use Rattle.std.specs.Prelude.{◌≡◌, ◌↔◌, ◌||◌, map, true, IfOk, IsTrue};

use crate::agreeing::{do_agree, do_descriptors_agree, has_body};
use kt_base::NoMemory;
use kt_decls_facts::FileFacts;
use kt_decls_hierarchy::drafts::{has_function, has_method};
use kt_decls_inherited::any::{is_equals, is_to_string};
use kt_decls_inherited::{Sight, descriptors_above, sights_above};
use kt_tree::Declaration;
use kt_types_tree::Hierarchy;
use std::alloc::Global;

/// Whether a declaration has a function of this name with so many parameters.
fn declares(declaration: &Declaration, name: &[u8], count: usize) -> bool
    ensures { result ≡ tables.declares name.now count (declaration_tree declaration.now) }
{
    match declaration {
        Declaration::Class(class) => has_method(class.members.as_slice(), name, count),
        Declaration::Interface(interface) => {
            has_function(interface.functions.as_slice(), name, count)
        }
        Declaration::Function(_) => false,
        Declaration::Enum(_) => false,
        Declaration::Constant(_) => false,
    }
}

/// Whether every class has a function of this name with so many parameters.
fn is_of_any(name: &[u8], count: usize) -> bool
    ensures { result ≡ rules.is_any_there (members_of_any name.now count) }
{
    if is_to_string(name, count) {
        true
    } else {
        is_equals(name, count)
    }
}

/// Whether a data class has the function also where it doesn't declare it.
fn is_generated(is_data: bool, name: &[u8], count: usize) -> bool
    ensures { result ≡ rules.is_generated is_data name.now count }
{
    if is_data {
        is_of_any(name, count)
    } else {
        false
    }
}

/// Whether the class itself has the function, so that nothing from above is asked.
fn has_own(declaration: &Declaration, is_data: bool, name: &[u8], count: usize) -> bool
    ensures { result ≡ (tables.declares name.now count (declaration_tree declaration.now)
        || rules.is_generated is_data name.now count) }
{
    declares(declaration, name, count) || is_generated(is_data, name, count)
}

/// Whether the functions that are seen from above agree, and one has a body where one is needed.
fn are_seen_fine(h: &Hierarchy, ends: bool, needs_body: bool, above: &[Sight]) -> bool
    requires ends { IsTrue ends ↔ Ends (hierarchy_form h.now) }
    ensures { IsTrue result ↔ (DoSeenAgree (hierarchy_form h.now) (map sight_form above.now)
        × (needs_body ≡ true → spec.has_seen_body (map sight_form above.now) ≡ true)) }
{
    let agree = do_agree(h, ends, above);
    let served = !needs_body || has_body(above);
    agree && served
}

/// Whether the descriptors of the functions of this name with so many parameters that a class has from above are one.
fn are_descriptors_fine(
    alloc: Global,
    file: &[Declaration],
    places: &[usize],
    facts: &FileFacts,
    name: &[u8],
    count: usize,
    row: u32,
) -> Result<bool, NoMemory>
    requires known { Knows (map declaration_tree file.now) facts.now }
    requires places { places.now ≡ sights.places (map declaration_tree file.now) }
    ensures { IfOk result (λ yes. IsTrue yes ↔ DoDescriptorsAgree (map descriptor_in
        (inherited (map declaration_tree file.now) name.now count row))) }
{
    let found = descriptors_above(alloc, file, places, facts, name, count, row)?;
    Ok(do_descriptors_agree(found.as_slice()))
}

/// Whether the functions of this name with so many parameters that a class has from above agree, and one has a body
/// where one is needed.
fn do_meet(
    alloc: Global,
    file: &[Declaration],
    places: &[usize],
    facts: &FileFacts,
    needs_body: bool,
    name: &[u8],
    count: usize,
    row: u32,
) -> Result<bool, NoMemory>
    requires known { Knows (map declaration_tree file.now) facts.now }
    requires places { places.now ≡ sights.places (map declaration_tree file.now) }
    ensures { IfOk result (λ yes. IsTrue yes
        ↔ (DoAllAgree (hierarchy_of (map declaration_tree file.now))
        (inherited (map declaration_tree file.now) name.now count row)
        × (needs_body ≡ true → rules.has_body_if_any
        (inherited (map declaration_tree file.now) name.now count row) ≡ true))) }
{
    let above = sights_above(alloc, file, places, facts, name, count, row)?;
    let fine = are_seen_fine(
        &facts.hierarchy,
        facts.links.ends,
        needs_body,
        above.as_slice(),
    );
    if !fine {
        return Ok(false);
    }
    if above.len() < 2 {
        return Ok(true);
    }
    are_descriptors_fine(alloc, file, places, facts, name, count, row)
}

/// Whether what a class has from above of this name with so many parameters breaks no rule of the class.
pub fn is_fine_above(
    alloc: Global,
    file: &[Declaration],
    places: &[usize],
    facts: &FileFacts,
    declaration: &Declaration,
    needs_bodies: bool,
    is_data: bool,
    row: u32,
    name: &[u8],
    count: usize,
) -> Result<bool, NoMemory>
    requires known { Knows (map declaration_tree file.now) facts.now }
    requires places { places.now ≡ sights.places (map declaration_tree file.now) }
    ensures { IfOk result (λ yes. IsTrue yes ↔ IsFineAbove (map declaration_tree file.now) row needs_bodies is_data
        (declaration_tree declaration.now) name.now count) }
{
    let own = has_own(declaration, is_data, name, count);
    if own {
        Ok(true)
    } else {
        do_meet(alloc, file, places, facts, needs_bodies, name, count, row)
    }
}
