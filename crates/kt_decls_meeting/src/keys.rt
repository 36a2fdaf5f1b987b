//! Whether all that a class has from above breaks no rule of the class.

ghost use Rattle.kt_decls_facts.specs.Facts.{Knows};
ghost use Rattle.kt_decls_inherited.specs.Sights as sights;
ghost use Rattle.kt_decls_meeting.specs.Keys.{AreKeys, AreKeysBy, AreKeysOf, AreKeysUp};
ghost use Rattle.kt_decls_rules.specs.ClassRules.{IsFineAbove};
ghost use Rattle.kt_decls_rules.specs.Members.{functions_of, method_of};
ghost use Rattle.kt_decls_rules.specs.Rules.{IsGrounded};
ghost use Rattle.kt_decls_rules.specs.Tables.{hierarchy_of};
ghost use Rattle.kt_tree.specs.Declarations.{declaration_tree, function_tree, member_tree};
ghost use Rattle.kt_types_tree.specs.Hierarchy.{hierarchy_form, super_form};
ghost use Rattle.kt_decls_inherited.specs.Rows as rows;
ghost use Rattle.std.specs.List.{flat_map};
ghost use Rattle.std.specs.Prelude.{ℕ, List, ◌≡◌, ◌↔◌, length, map, IfOk, IsTrue};

use crate::meeting::is_fine_above;
use kt_base::NoMemory;
use kt_decls_facts::FileFacts;
use kt_decls_inherited::finding::declaration_in;
use kt_decls_methods::is_grounded;
use kt_tree::{ClassMember, Declaration, FunctionDeclaration};
use kt_types_tree::Supertype;
use std::alloc::Global;

/// Whether what a class has from above of the name of a function, with as many parameters, breaks no rule.
fn is_fine_key(
    alloc: Global,
    file: &[Declaration],
    places: &[usize],
    facts: &FileFacts,
    declaration: &Declaration,
    needs_bodies: bool,
    is_data: bool,
    row: u32,
    function: &FunctionDeclaration,
) -> Result<bool, NoMemory>
    requires known { Knows (map declaration_tree file.now) facts.now }
    requires places { places.now ≡ sights.places (map declaration_tree file.now) }
    ensures { IfOk result (λ yes. IsTrue yes ↔ IsFineAbove (map declaration_tree file.now) row needs_bodies is_data
        (declaration_tree declaration.now) (function_tree function.now).name
        (length (function_tree function.now).parameters)) }
{
    let name = function.name.as_bytes();
    let count = function.parameters.len();
    is_fine_above(
        alloc,
        file,
        places,
        facts,
        declaration,
        needs_bodies,
        is_data,
        row,
        name,
        count,
    )
}

/// The same of each of several functions.
fn are_fine_functions(
    alloc: Global,
    file: &[Declaration],
    places: &[usize],
    facts: &FileFacts,
    declaration: &Declaration,
    needs_bodies: bool,
    is_data: bool,
    row: u32,
    functions: &[FunctionDeclaration],
) -> Result<bool, NoMemory>
    requires known { Knows (map declaration_tree file.now) facts.now }
    requires places { places.now ≡ sights.places (map declaration_tree file.now) }
    ensures { IfOk result (λ yes. IsTrue yes ↔ AreKeys
        (IsFineAbove (map declaration_tree file.now) row needs_bodies is_data (declaration_tree declaration.now))
        (map function_tree functions.now)) }
{
    for function in functions {
        let fine = is_fine_key(
            alloc,
            file,
            places,
            facts,
            declaration,
            needs_bodies,
            is_data,
            row,
            function,
        )?;
        if !fine {
            return Ok(false);
        }
    }
    Ok(true)
}

/// The same of a member of a class, where it is a function.
fn is_fine_member(
    alloc: Global,
    file: &[Declaration],
    places: &[usize],
    facts: &FileFacts,
    declaration: &Declaration,
    needs_bodies: bool,
    is_data: bool,
    row: u32,
    member: &ClassMember,
) -> Result<bool, NoMemory>
    requires known { Knows (map declaration_tree file.now) facts.now }
    requires places { places.now ≡ sights.places (map declaration_tree file.now) }
    ensures { IfOk result (λ yes. IsTrue yes ↔ AreKeys
        (IsFineAbove (map declaration_tree file.now) row needs_bodies is_data (declaration_tree declaration.now))
        (method_of (member_tree member.now))) }
{
    match member {
        ClassMember::Method(function) => is_fine_key(
            alloc,
            file,
            places,
            facts,
            declaration,
            needs_bodies,
            is_data,
            row,
            function,
        ),
        ClassMember::Property(_) => Ok(true),
    }
}

/// The same of each function among the members of a class.
fn are_fine_members(
    alloc: Global,
    file: &[Declaration],
    places: &[usize],
    facts: &FileFacts,
    declaration: &Declaration,
    needs_bodies: bool,
    is_data: bool,
    row: u32,
    members: &[ClassMember],
) -> Result<bool, NoMemory>
    requires known { Knows (map declaration_tree file.now) facts.now }
    requires places { places.now ≡ sights.places (map declaration_tree file.now) }
    ensures { IfOk result (λ yes. IsTrue yes ↔ AreKeys
        (IsFineAbove (map declaration_tree file.now) row needs_bodies is_data (declaration_tree declaration.now))
        (flat_map method_of (map member_tree members.now))) }
{
    for member in members {
        let fine = is_fine_member(
            alloc,
            file,
            places,
            facts,
            declaration,
            needs_bodies,
            is_data,
            row,
            member,
        )?;
        if !fine {
            return Ok(false);
        }
    }
    Ok(true)
}

/// The same of each function that a declaration above has.
fn are_fine_of(
    alloc: Global,
    file: &[Declaration],
    places: &[usize],
    facts: &FileFacts,
    declaration: &Declaration,
    needs_bodies: bool,
    is_data: bool,
    row: u32,
    above: &Declaration,
) -> Result<bool, NoMemory>
    requires known { Knows (map declaration_tree file.now) facts.now }
    requires places { places.now ≡ sights.places (map declaration_tree file.now) }
    ensures { IfOk result (λ yes. IsTrue yes ↔ AreKeys
        (IsFineAbove (map declaration_tree file.now) row needs_bodies is_data (declaration_tree declaration.now))
        (functions_of (declaration_tree above.now))) }
{
    match above {
        Declaration::Class(class) => are_fine_members(
            alloc,
            file,
            places,
            facts,
            declaration,
            needs_bodies,
            is_data,
            row,
            class.members.as_slice(),
        ),
        Declaration::Interface(interface) => are_fine_functions(
            alloc,
            file,
            places,
            facts,
            declaration,
            needs_bodies,
            is_data,
            row,
            interface.functions.as_slice(),
        ),
        Declaration::Function(_) => Ok(true),
        Declaration::Enum(_) => Ok(true),
        Declaration::Constant(_) => Ok(true),
    }
}

/// The same of each function that the class in a row above declares.
fn are_fine_in(
    alloc: Global,
    file: &[Declaration],
    places: &[usize],
    facts: &FileFacts,
    declaration: &Declaration,
    needs_bodies: bool,
    is_data: bool,
    row: u32,
    above: u32,
) -> Result<bool, NoMemory>
    requires known { Knows (map declaration_tree file.now) facts.now }
    requires places { places.now ≡ sights.places (map declaration_tree file.now) }
    ensures { IfOk result (λ yes. IsTrue yes ↔ AreKeysOf
        (IsFineAbove (map declaration_tree file.now) row needs_bodies is_data (declaration_tree declaration.now))
        (rows.declaration_in (map declaration_tree file.now) places.now above)) }
{
    match declaration_in(file, places, above) {
        Some(found) => are_fine_of(
            alloc,
            file,
            places,
            facts,
            declaration,
            needs_bodies,
            is_data,
            row,
            found,
        ),
        None => Ok(true),
    }
}

/// The same of each function that is declared above the class in a row, within so many steps.
#[cycle(keys)]
fn are_fine_up(
    alloc: Global,
    file: &[Declaration],
    places: &[usize],
    facts: &FileFacts,
    declaration: &Declaration,
    needs_bodies: bool,
    is_data: bool,
    row: u32,
    steps: usize,
    from: u32,
) -> Result<bool, NoMemory>
    requires known { Knows (map declaration_tree file.now) facts.now }
    requires places { places.now ≡ sights.places (map declaration_tree file.now) }
    ensures { IfOk result (λ yes. IsTrue yes ↔ AreKeysUp
        (IsFineAbove (map declaration_tree file.now) row needs_bodies is_data (declaration_tree declaration.now))
        (hierarchy_form facts.now.hierarchy) (map declaration_tree file.now) places.now steps from) }
{
    if steps == 0 {
        return Ok(true);
    }
    let supertypes = facts.hierarchy.supertypes_of(from);
    are_fine_by(
        alloc,
        file,
        places,
        facts,
        declaration,
        needs_bodies,
        is_data,
        row,
        steps - 1,
        supertypes,
    )
}

/// The same by way of several supertypes, their own functions among them.
#[cycle(keys)]
fn are_fine_by(
    alloc: Global,
    file: &[Declaration],
    places: &[usize],
    facts: &FileFacts,
    declaration: &Declaration,
    needs_bodies: bool,
    is_data: bool,
    row: u32,
    steps: usize,
    supertypes: &[Supertype],
) -> Result<bool, NoMemory>
    requires known { Knows (map declaration_tree file.now) facts.now }
    requires places { places.now ≡ sights.places (map declaration_tree file.now) }
    ensures { IfOk result (λ yes. IsTrue yes ↔ AreKeysBy
        (IsFineAbove (map declaration_tree file.now) row needs_bodies is_data (declaration_tree declaration.now))
        (hierarchy_form facts.now.hierarchy) (map declaration_tree file.now) places.now
        (AreKeysUp
        (IsFineAbove (map declaration_tree file.now) row needs_bodies is_data (declaration_tree declaration.now))
        (hierarchy_form facts.now.hierarchy) (map declaration_tree file.now) places.now steps)
        (map super_form supertypes.now)) }
{
    for supertype in supertypes {
        let above = supertype.class;
        let fine = is_fine_way(
            alloc,
            file,
            places,
            facts,
            declaration,
            needs_bodies,
            is_data,
            row,
            steps,
            above,
        )?;
        if !fine {
            return Ok(false);
        }
    }
    Ok(true)
}

/// The same of the functions of the class in a row and of those above it.
#[cycle(keys)]
fn is_fine_way(
    alloc: Global,
    file: &[Declaration],
    places: &[usize],
    facts: &FileFacts,
    declaration: &Declaration,
    needs_bodies: bool,
    is_data: bool,
    row: u32,
    steps: usize,
    above: u32,
) -> Result<bool, NoMemory>
    requires known { Knows (map declaration_tree file.now) facts.now }
    requires places { places.now ≡ sights.places (map declaration_tree file.now) }
    ensures { IfOk result (λ yes. IsTrue yes ↔ (AreKeysOf
        (IsFineAbove (map declaration_tree file.now) row needs_bodies is_data (declaration_tree declaration.now))
        (rows.declaration_in (map declaration_tree file.now) places.now above)
        × AreKeysUp
        (IsFineAbove (map declaration_tree file.now) row needs_bodies is_data (declaration_tree declaration.now))
        (hierarchy_form facts.now.hierarchy) (map declaration_tree file.now) places.now steps above)) }
{
    let fine = are_fine_in(
        alloc,
        file,
        places,
        facts,
        declaration,
        needs_bodies,
        is_data,
        row,
        above,
    )?;
    if fine {
        are_fine_up(
            alloc,
            file,
            places,
            facts,
            declaration,
            needs_bodies,
            is_data,
            row,
            steps,
            above,
        )
    } else {
        Ok(false)
    }
}

/// Whether all that a class has from above breaks no rule of the class: functions of one name with as many parameters
/// agree, and where bodies are needed one of them has one. It is asked only where no class at or above it is above
/// itself. The time is by the ways up.
pub fn is_fine_from_above(
    alloc: Global,
    file: &[Declaration],
    places: &[usize],
    facts: &FileFacts,
    declaration: &Declaration,
    needs_bodies: bool,
    is_data: bool,
    row: u32,
) -> Result<bool, NoMemory>
    requires known { Knows (map declaration_tree file.now) facts.now }
    requires places { places.now ≡ sights.places (map declaration_tree file.now) }
    ensures { IfOk result (λ yes. IsTrue yes ↔ (IsGrounded (hierarchy_of (map declaration_tree file.now)) row →
        (x : List ℕ) (n : ℕ) → IsFineAbove (map declaration_tree file.now) row needs_bodies is_data
        (declaration_tree declaration.now) x n)) }
{
    let grounded = is_grounded(file, facts, row);
    if grounded {
        let steps = facts.hierarchy.classes.len();
        are_fine_up(
            alloc,
            file,
            places,
            facts,
            declaration,
            needs_bodies,
            is_data,
            row,
            steps,
            row,
        )
    } else {
        Ok(true)
    }
}
