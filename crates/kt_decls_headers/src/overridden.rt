//! Which declaration a function of a class overrides first.

ghost use Rattle.kt_decls_headers.specs.Overridden as spec;
ghost use Rattle.kt_decls_headers.specs.Overridden.{first_by, first_up};
ghost use Rattle.kt_decls_rules.specs.Members.{functions_of, method_of};
ghost use Rattle.kt_typed.specs.declared.headers.Overridden.TheVariants as overridden;
ghost use Rattle.kt_tree.specs.Declarations.{declaration_tree, function_tree, member_tree};
ghost use Rattle.kt_types_tree.specs.Hierarchy.{hierarchy_form, super_form};
ghost use Rattle.std.specs.List.{flat_map};
ghost use Rattle.std.specs.Prelude.{◌≡◌, map, option_map, IfOk};

use kt_base::NoMemory;
use kt_decls_hierarchy::drafts::is_named;
use kt_decls_inherited::any::{is_equals, is_to_string};
use kt_decls_inherited::finding::declaration_in;
use kt_tree::{ClassMember, Declaration, FunctionDeclaration};
use kt_typed::Overridden;
use kt_types_tree::{Hierarchy, Supertype};

fn number_of(count: usize) -> Result<u32, NoMemory>
    ensures { IfOk result (λ number. number ≡ count) }
{
    match u32::try_from(count) {
        Ok(number) => Ok(number),
        Err(_) => Err(NoMemory),
    }
}

/// The place of the first function of this name with so many parameters.
fn place_in_functions(functions: &[FunctionDeclaration], name: &[u8], count: usize) -> Option<usize>
    ensures { result ≡ spec.place_from name.now count 0 (map function_tree functions.now) }
{
    let mut place = 0;
    for function in functions {
        if is_named(function, name, count) {
            return Some(place);
        }
        place += 1;
    }
    None
}

/// The same among the functions of a class.
fn place_in_members(members: &[ClassMember], name: &[u8], count: usize) -> Option<usize>
    ensures { result ≡ spec.place_from name.now count 0 (flat_map method_of (map member_tree members.now)) }
{
    let mut place = 0;
    for member in members {
        match member {
            ClassMember::Method(function) => {
                if is_named(function, name, count) {
                    return Some(place);
                }
                place += 1;
            }
            ClassMember::Property(_) => {}
        }
    }
    None
}

fn place_in_declaration(declaration: &Declaration, name: &[u8], count: usize) -> Option<usize>
    ensures { result ≡ spec.place_from name.now count 0 (functions_of (declaration_tree declaration.now)) }
{
    match declaration {
        Declaration::Class(class) => place_in_members(class.members.as_slice(), name, count),
        Declaration::Interface(interface) => {
            place_in_functions(interface.functions.as_slice(), name, count)
        }
        Declaration::Function(_) => None,
        Declaration::Enum(_) => None,
        Declaration::Constant(_) => None,
    }
}

fn of_row(row: u32, place: Option<usize>) -> Result<Option<Overridden>, NoMemory>
    ensures { IfOk result (λ found. found ≡ option_map (overridden.Function row) place) }
{
    match place {
        Some(place) => Ok(Some(Overridden::Function(row, number_of(place)?))),
        None => Ok(None),
    }
}

/// The function of this name with so many parameters that the class in a row declares.
fn declared_at(
    file: &[Declaration],
    places: &[usize],
    name: &[u8],
    count: usize,
    row: u32,
) -> Result<Option<Overridden>, NoMemory>
    ensures { IfOk result (λ found. found
        ≡ spec.declared_at (map declaration_tree file.now) places.now name.now count row) }
{
    match declaration_in(file, places, row) {
        Some(declaration) => of_row(row, place_in_declaration(declaration, name, count)),
        None => Ok(None),
    }
}

/// The first that is declared above the class in a row, within so many steps.
#[cycle(overridden)]
fn first_from(
    file: &[Declaration],
    places: &[usize],
    h: &Hierarchy,
    name: &[u8],
    count: usize,
    steps: usize,
    row: u32,
) -> Result<Option<Overridden>, NoMemory>
    ensures { IfOk result (λ found. found ≡ first_up (hierarchy_form h.now) (map declaration_tree file.now)
        places.now name.now count steps row) }
{
    if steps == 0 {
        return Ok(None);
    }
    let supertypes = h.supertypes_of(row);
    first_of(file, places, h, name, count, steps - 1, supertypes)
}

/// The same by way of several supertypes, their own functions among them.
#[cycle(overridden)]
fn first_of(
    file: &[Declaration],
    places: &[usize],
    h: &Hierarchy,
    name: &[u8],
    count: usize,
    steps: usize,
    supertypes: &[Supertype],
) -> Result<Option<Overridden>, NoMemory>
    ensures { IfOk result (λ found. found ≡ first_by (hierarchy_form h.now) (map declaration_tree file.now)
        places.now name.now count
        (first_up (hierarchy_form h.now) (map declaration_tree file.now) places.now name.now count steps)
        (map super_form supertypes.now)) }
{
    for supertype in supertypes {
        let row = supertype.class;
        let found = first_at(file, places, h, name, count, steps, row)?;
        if found.is_some() {
            return Ok(found);
        }
    }
    Ok(None)
}

/// The one that the class in a row declares, else the first above it.
#[cycle(overridden)]
fn first_at(
    file: &[Declaration],
    places: &[usize],
    h: &Hierarchy,
    name: &[u8],
    count: usize,
    steps: usize,
    row: u32,
) -> Result<Option<Overridden>, NoMemory>
    ensures { IfOk result (λ found. found
        ≡ spec.or_else (spec.declared_at (map declaration_tree file.now) places.now name.now count row)
        (first_up (hierarchy_form h.now) (map declaration_tree file.now) places.now name.now count steps row)) }
{
    let found = declared_at(file, places, name, count, row)?;
    match found {
        Some(found) => Ok(Some(found)),
        None => first_from(file, places, h, name, count, steps, row),
    }
}

/// `toString` and `equals`, which every class has.
fn of_any(name: &[u8], count: usize) -> Option<Overridden>
    ensures { result ≡ spec.of_any name.now count }
{
    if is_to_string(name, count) {
        Some(Overridden::ToString)
    } else if is_equals(name, count) {
        Some(Overridden::Equals)
    } else {
        None
    }
}

/// What a function of the class in a row overrides first: that of the first supertype in text order that has one.
pub fn overridden_by(
    file: &[Declaration],
    places: &[usize],
    h: &Hierarchy,
    row: u32,
    function: &FunctionDeclaration,
) -> Result<Option<Overridden>, NoMemory>
    ensures { IfOk result (λ found. found ≡ spec.overridden_by (hierarchy_form h.now) (map declaration_tree file.now)
        places.now row (function_tree function.now)) }
{
    let name = function.name.as_bytes();
    let count = function.parameters.len();
    let found = first_from(file, places, h, name, count, h.classes.len(), row)?;
    match found {
        Some(found) => Ok(Some(found)),
        None => Ok(of_any(name, count)),
    }
}
