//! The names of a declaration, and those that it takes.

ghost use Rattle.kt_decls_members.specs.Known.{IsTakenBy};
ghost use Rattle.kt_decls_names.specs.Taken.{is_taken};
ghost use Rattle.kt_decls_rules.specs.Names as rules;
ghost use Rattle.kt_decls_rules.specs.Names.{Taken, a_function, a_type, are_free, taken_by};
ghost use Rattle.kt_decls_rules.specs.Rules.{parameter_names, top_name};
ghost use Rattle.kt_decls_tops.specs.Parts as spec;
ghost use Rattle.kt_tree.specs.Declarations.{declaration_tree};
ghost use Rattle.std.specs.Prelude.{List, [], ◌∷◌, ◌++◌, ◌&&◌, ◌≡◌, IfOk, OnOk};

use kt_base::{Name, NoMemory};
use kt_decls_classes::names::{are_constructor_parameters_distinct, are_type_parameters_distinct};
use kt_decls_hierarchy::drafts::type_parameters;
use kt_decls_members::taking::{count_of, take_function, take_property};
use kt_decls_names::TakenNames;
use kt_decls_table::{are_distinct, is_reserved};
use kt_tree::Declaration;
use std::alloc::Global;

fn name_of(declaration: &Declaration) -> &Name
    ensures { result.now ≡ top_name (declaration_tree declaration.now) }
{
    match declaration {
        Declaration::Function(function) => &function.name,
        Declaration::Class(class) => &class.name,
        Declaration::Interface(interface) => &interface.name,
        Declaration::Enum(declared) => &declared.name,
        Declaration::Constant(constant) => &constant.name,
    }
}

/// Whether no two parameters of a function or a constructor have one name.
fn are_parameters_distinct(alloc: Global, declaration: &Declaration) -> Result<bool, NoMemory>
    ensures { IfOk result (λ apart.
        apart ≡ rules.are_distinct (parameter_names (declaration_tree declaration.now))) }
{
    match declaration {
        Declaration::Function(function) => are_distinct(alloc, function.parameters.as_slice()),
        Declaration::Class(class) => {
            are_constructor_parameters_distinct(alloc, class.parameters.as_slice())
        }
        Declaration::Interface(_) => Ok(true),
        Declaration::Enum(_) => Ok(true),
        Declaration::Constant(_) => Ok(true),
    }
}

/// Whether the names of a declaration break no rule, where it is told whether those that it takes are free.
pub fn are_names_fine(
    alloc: Global,
    declaration: &Declaration,
    is_free: bool,
) -> Result<bool, NoMemory>
    ensures { IfOk result (λ fine. fine ≡ spec.are_names_fine (declaration_tree declaration.now) is_free) }
{
    let types_apart = are_type_parameters_distinct(alloc, type_parameters(declaration))?;
    let apart = are_parameters_distinct(alloc, declaration)?;
    let reserved = is_reserved(name_of(declaration));
    Ok(both(both(!reserved, is_free), both(types_apart, apart)))
}

/// Takes the name of a type, and says whether it was free.
#[tactic(auto, using(kt_decls_members::proofs::TakenOn::free_told, kt_decls_members::proofs::TakenOn::taken_told))]
fn take_type(taken: &mut TakenNames, name: &Name) -> Result<bool, NoMemory>
    ensures free { IfOk result (λ free. (earlier : List Taken) → IsTakenBy (is_taken taken.old) earlier →
        free ≡ are_free earlier (a_type name.now ∷ [])) }
    ensures taken { OnOk result ((earlier : List Taken) → IsTakenBy (is_taken taken.old) earlier →
        IsTakenBy (is_taken taken.new) (earlier ++ a_type name.now ∷ [])) }
{
    taken.take_type(name)
}

fn both(a: bool, b: bool) -> bool
    ensures { result ≡ (a && b) }
{
    a && b
}

/// Takes the name of a class, as a type and as its constructor with so many parameters, and says whether both were
/// free.
fn take_class(taken: &mut TakenNames, name: &Name, count: usize) -> Result<bool, NoMemory>
    ensures free { IfOk result (λ free. (earlier : List Taken) → IsTakenBy (is_taken taken.old) earlier →
        free ≡ are_free earlier (a_type name.now ∷ a_function name.now count ∷ [])) }
    ensures taken { OnOk result ((earlier : List Taken) → IsTakenBy (is_taken taken.old) earlier →
        IsTakenBy (is_taken taken.new) (earlier ++ a_type name.now ∷ a_function name.now count ∷ [])) }
{
    let number = count_of(count)?;
    let is_type_free = taken.take_type(name)?;
    let is_function_free = taken.take_function(name, number)?;
    Ok(both(is_type_free, is_function_free))
}

/// Takes the names of a declaration, and says whether they were free beside what was taken earlier.
pub fn take_names(taken: &mut TakenNames, declaration: &Declaration) -> Result<bool, NoMemory>
    ensures free { IfOk result (λ free. (earlier : List Taken) → IsTakenBy (is_taken taken.old) earlier →
        free ≡ are_free earlier (taken_by (declaration_tree declaration.now))) }
    ensures taken { OnOk result ((earlier : List Taken) → IsTakenBy (is_taken taken.old) earlier →
        IsTakenBy (is_taken taken.new) (earlier ++ taken_by (declaration_tree declaration.now))) }
{
    match declaration {
        Declaration::Function(function) => take_function(taken, function),
        Declaration::Class(class) => take_class(taken, &class.name, class.parameters.len()),
        Declaration::Interface(interface) => take_type(taken, &interface.name),
        Declaration::Enum(declared) => take_type(taken, &declared.name),
        Declaration::Constant(constant) => take_property(taken, &constant.name),
    }
}
