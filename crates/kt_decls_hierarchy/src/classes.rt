//! The classes of a file by their names.

ghost use Rattle.kt_decls_hierarchy.specs.Drafts.{or_found};
ghost use Rattle.kt_decls_rules.specs.Tables.{class_entry, class_from};
ghost use Rattle.kt_decls_rules.specs.Tables as rules;
ghost use Rattle.kt_decls_types.specs.Scopes.{class_named};
ghost use Rattle.kt_tree.specs.Declarations.{declaration_tree};
ghost use Rattle.kt_types_builtins.specs.Throwables as builtin;
ghost use Rattle.std.specs.Prelude.{ℕ, List, [], ◌∷◌, ◌≡◌, ◌+◌, length, map, IfOk, OnOk};

use kt_base::{Name, NoMemory};
use kt_decls_types::{ClassNames, NamedClass};
use kt_tree::{Declaration, TypeParameter};
use kt_types_builtins::throwables::throwables;
use std::alloc::Global;

/// A number of items, as far as a `u32` counts.
pub fn count_of<T>(items: &[T]) -> Result<u32, NoMemory>
    ensures { IfOk result (λ count. count ≡ length items.now) }
{
    match u32::try_from(items.len()) {
        Ok(count) => Ok(count),
        Err(_) => Err(NoMemory),
    }
}

/// The sum, as far as a `u32` counts.
pub fn sum_of(a: u32, b: u32) -> Result<u32, NoMemory>
    ensures { IfOk result (λ sum. sum ≡ a + b) }
{
    match a.checked_add(b) {
        Some(sum) => Ok(sum),
        None => Err(NoMemory),
    }
}

/// One more class, and the row behind it.
fn add_named(
    names: &mut ClassNames,
    row: u32,
    name: &Name,
    parameters: u32,
) -> Result<u32, NoMemory>
    ensures row { IfOk result (λ next. next ≡ row + 1) }
    ensures names { OnOk result ((x : List ℕ) → class_named names.new x
        ≡ or_found (class_named names.old x)
        (class_from row (record { name = name.now; parameters = parameters } ∷ []) x)) }
{
    names.add(name, NamedClass { row, parameters })?;
    sum_of(row, 1)
}

/// One more class with these type parameters, and the row behind it.
fn add_class(
    names: &mut ClassNames,
    row: u32,
    name: &Name,
    parameters: &[TypeParameter],
) -> Result<u32, NoMemory>
    ensures row { IfOk result (λ next. next ≡ row + 1) }
    ensures names { OnOk result ((x : List ℕ) → class_named names.new x
        ≡ or_found (class_named names.old x)
        (class_from row (record { name = name.now; parameters = length parameters.now } ∷ []) x)) }
{
    let count = count_of(parameters)?;
    add_named(names, row, name, count)
}

/// The class that a declaration is, where it is one, and the row behind it.
fn add_declaration(
    names: &mut ClassNames,
    row: u32,
    declaration: &Declaration,
) -> Result<u32, NoMemory>
    ensures row { IfOk result (λ next. next ≡ row + length (class_entry (declaration_tree declaration.now))) }
    ensures names { OnOk result ((x : List ℕ) → class_named names.new x
        ≡ or_found (class_named names.old x) (class_from row (class_entry (declaration_tree declaration.now)) x)) }
{
    match declaration {
        Declaration::Function(_) => Ok(row),
        Declaration::Class(class) => {
            add_class(names, row, &class.name, class.type_parameters.as_slice())
        }
        Declaration::Interface(interface) => {
            add_class(
                names,
                row,
                &interface.name,
                interface.type_parameters.as_slice(),
            )
        }
        Declaration::Enum(entries) => add_named(names, row, &entries.name, 0),
        Declaration::Constant(_) => Ok(row),
    }
}

/// How many throwables there are, whose rows stand before those of a file.
pub fn throwable_count() -> Result<u32, NoMemory>
    ensures { IfOk result (λ count. count ≡ length builtin.throwables) }
{
    count_of(throwables())
}

/// The classes of a file by their names: of several of one name the first. It takes time by their number, and the
/// logarithm of it for each.
pub fn class_names(alloc: Global, declarations: &[Declaration]) -> Result<ClassNames, NoMemory>
    ensures { IfOk result (λ names. (x : List ℕ) →
        class_named names x ≡ rules.class_named (map declaration_tree declarations.now) x) }
{
    let mut names = ClassNames::new(alloc);
    let mut row = throwable_count()?;
    for declaration in declarations {
        row = add_declaration(&mut names, row, declaration)?;
    }
    Ok(names)
}
