//! The headers of a whole file.

ghost use Rattle.kt_decls_facts.specs.Facts.{Knows};
ghost use Rattle.kt_decls_headers.specs.Classes as classes;
ghost use Rattle.kt_decls_headers.specs.Files as spec;
ghost use Rattle.kt_decls_rules.specs.Tables.{class_entry, type_parameters_of};
ghost use Rattle.kt_decls_rules.specs.Tables as rules;
ghost use Rattle.kt_decls_types.specs.Scopes.{class_named};
ghost use Rattle.kt_tree.specs.Declarations as tree;
ghost use Rattle.kt_tree.specs.Declarations.{DeclarationTree, class_tree, constant_tree, declaration_tree, function_tree, interface_tree, type_parameter_tree};
ghost use Rattle.kt_typed.specs.Headers.{class_form, constant_form, function_form, headers_form};
ghost use Rattle.kt_types_builtins.specs.Throwables as builtin;
ghost use Rattle.kt_types_tree.specs.Hierarchy.{hierarchy_form};
ghost use Rattle.std.specs.Prelude.{ℕ, List, [], ◌∷◌, ◌++◌, ◌+◌, ◌≡◌, length, map, IfOk, OnOk};

use crate::classes::{class_in, enum_in, interface_in};
use crate::functions::function_in;
use crate::throwables::throwable_classes;
use kt_base::NoMemory;
use kt_decls_facts::FileFacts;
use kt_decls_hierarchy::classes::{sum_of, throwable_count};
use kt_decls_hierarchy::supertypes::scope_from;
use kt_decls_inherited::row_places;
use kt_decls_table::constant_header;
use kt_decls_types::{ClassNames, Unresolved};
use kt_tree::{
    ClassDeclaration, ConstantDeclaration, Declaration, FunctionDeclaration, InterfaceDeclaration,
};
use kt_typed::{DeclarationNumber, DeclaredClass, DeclaredConstant, DeclaredFunction, Headers};
use sqlite_items::Items;
use std::alloc::Global;

/// What the declarations of a file say.
#[derive(Drop)]
pub struct Decls {
    pub headers: Headers,
    /// The classes by their names.
    pub classes: ClassNames,
}

fn number_of(count: usize) -> Result<u32, NoMemory>
    ensures { IfOk result (λ number. number ≡ count) }
{
    match u32::try_from(count) {
        Ok(number) => Ok(number),
        Err(_) => Err(NoMemory),
    }
}

/// The header of a function at top level, whose first type parameter has this row.
fn top_function(
    alloc: Global,
    classes: &ClassNames,
    first: u32,
    function: &FunctionDeclaration,
) -> Result<DeclaredFunction, NoMemory>
    ensures { IfOk result (λ f. function_form f
        ≡ spec.top_function (class_named classes.now) first (function_tree function.now)) }
{
    let written = function.type_parameters.as_slice();
    let own = scope_from(alloc, first, written)?.parameters;
    let scope = scope_from(alloc, first, written)?;
    function_in(
        alloc,
        classes,
        scope.parameters.as_slice(),
        own,
        false,
        None,
        function,
    )
}

/// The row behind the type parameters of a declaration.
fn first_after(first: u32, declaration: &Declaration) -> Result<u32, NoMemory>
    ensures { IfOk result (λ next. next ≡ first + length (type_parameters_of (declaration_tree declaration.now))) }
{
    match declaration {
        Declaration::Function(function) => {
            sum_of(first, number_of(function.type_parameters.len())?)
        }
        Declaration::Class(class) => sum_of(first, number_of(class.type_parameters.len())?),
        Declaration::Interface(interface) => {
            sum_of(first, number_of(interface.type_parameters.len())?)
        }
        Declaration::Enum(_) => sum_of(first, 0),
        Declaration::Constant(_) => sum_of(first, 0),
    }
}

/// The row behind that of a declaration, where it is a class.
fn row_after(row: u32, declaration: &Declaration) -> Result<u32, NoMemory>
    ensures { IfOk result (λ next. next ≡ row + length (class_entry (declaration_tree declaration.now))) }
{
    match declaration {
        Declaration::Class(_) => sum_of(row, 1),
        Declaration::Interface(_) => sum_of(row, 1),
        Declaration::Enum(_) => sum_of(row, 1),
        Declaration::Function(_) => sum_of(row, 0),
        Declaration::Constant(_) => sum_of(row, 0),
    }
}

/// Puts a declaration behind others, where it is a function.
fn push_function(
    alloc: Global,
    classes: &ClassNames,
    first: u32,
    declaration: &Declaration,
    done: &mut Items<DeclaredFunction>,
) -> Result<(), NoMemory>
    ensures { OnOk result ((rest : List DeclarationTree) → map function_form done.new
        ++ spec.functions_from (class_named classes.now)
        (first + length (type_parameters_of (declaration_tree declaration.now))) rest
        ≡ map function_form done.old
        ++ spec.functions_from (class_named classes.now) first (declaration_tree declaration.now ∷ rest)) }
{
    match declaration {
        Declaration::Function(function) => {
            done.push(top_function(alloc, classes, first, function)?)?;
            Ok(())
        }
        Declaration::Class(_) => Ok(()),
        Declaration::Interface(_) => Ok(()),
        Declaration::Enum(_) => Ok(()),
        Declaration::Constant(_) => Ok(()),
    }
}

/// The functions at top level.
fn functions(
    alloc: Global,
    classes: &ClassNames,
    file: &[Declaration],
) -> Result<Items<DeclaredFunction>, NoMemory>
    ensures { IfOk result (λ fs. map function_form fs
        ≡ spec.functions_from (class_named classes.now) 0 (map declaration_tree file.now)) }
{
    let mut done = Items::new(alloc);
    let mut first = 0;
    for declaration in file {
        push_function(alloc, classes, first, declaration, &mut done)?;
        first = first_after(first, declaration)?;
    }
    Ok(done)
}

/// Puts a constant behind others. One that is well formed has a header.
fn push_header(
    alloc: Global,
    classes: &ClassNames,
    constant: &ConstantDeclaration,
    done: &mut Items<DeclaredConstant>,
) -> Result<(), NoMemory>
    ensures { OnOk result (map constant_form done.new ≡ map constant_form done.old
        ++ spec.constant_of (class_named classes.now) (tree.constant (constant_tree constant.now))) }
{
    match constant_header(alloc, classes, constant) {
        Ok(header) => Ok(done.push(header)?),
        Err(Unresolved::Refused) => Ok(()),
        Err(Unresolved::NoMemory) => Err(NoMemory),
    }
}

/// Puts a declaration behind others, where it is a constant.
fn push_constant(
    alloc: Global,
    classes: &ClassNames,
    declaration: &Declaration,
    done: &mut Items<DeclaredConstant>,
) -> Result<(), NoMemory>
    ensures { OnOk result (map constant_form done.new ≡ map constant_form done.old
        ++ spec.constant_of (class_named classes.now) (declaration_tree declaration.now)) }
{
    match declaration {
        Declaration::Constant(constant) => push_header(alloc, classes, constant, done),
        Declaration::Function(_) => Ok(()),
        Declaration::Class(_) => Ok(()),
        Declaration::Interface(_) => Ok(()),
        Declaration::Enum(_) => Ok(()),
    }
}

/// The constants.
fn constants(
    alloc: Global,
    classes: &ClassNames,
    file: &[Declaration],
) -> Result<Items<DeclaredConstant>, NoMemory>
    ensures { IfOk result (λ cs. map constant_form cs
        ≡ spec.constants_of (class_named classes.now) (map declaration_tree file.now)) }
{
    let mut done = Items::new(alloc);
    for declaration in file {
        push_constant(alloc, classes, declaration, &mut done)?;
    }
    Ok(done)
}

/// The header of the class in a row, whose first type parameter has the other row.
fn top_class(
    alloc: Global,
    file: &[Declaration],
    places: &[usize],
    facts: &FileFacts,
    row: u32,
    first: u32,
    declared: &ClassDeclaration,
) -> Result<DeclaredClass, NoMemory>
    ensures { IfOk result (λ c. class_form c ≡ classes.class_in (class_named facts.now.classes)
        (hierarchy_form facts.now.hierarchy) (map declaration_tree file.now) places.now row
        (rules.numbered first (map type_parameter_tree declared.now.type_parameters))
        (class_tree declared.now)) }
{
    let scope = scope_from(alloc, first, declared.type_parameters.as_slice())?;
    class_in(alloc, file, places, facts, row, scope.parameters, declared)
}

/// The header of the interface in a row, whose first type parameter has the other row.
fn top_interface(
    alloc: Global,
    file: &[Declaration],
    places: &[usize],
    facts: &FileFacts,
    row: u32,
    first: u32,
    declared: &InterfaceDeclaration,
) -> Result<DeclaredClass, NoMemory>
    ensures { IfOk result (λ c. class_form c ≡ classes.interface_in (class_named facts.now.classes)
        (hierarchy_form facts.now.hierarchy) (map declaration_tree file.now) places.now row
        (rules.numbered first (map type_parameter_tree declared.now.type_parameters))
        (interface_tree declared.now)) }
{
    let scope = scope_from(alloc, first, declared.type_parameters.as_slice())?;
    interface_in(alloc, file, places, facts, row, scope.parameters, declared)
}

/// Puts a declaration behind others, where it is a class, an interface or an enum.
fn push_class(
    alloc: Global,
    file: &[Declaration],
    places: &[usize],
    facts: &FileFacts,
    row: u32,
    first: u32,
    declaration: &Declaration,
    done: &mut Items<DeclaredClass>,
) -> Result<(), NoMemory>
    ensures { OnOk result ((rest : List DeclarationTree) → map class_form done.new
        ++ spec.classes_from (class_named facts.now.classes) (hierarchy_form facts.now.hierarchy)
        (map declaration_tree file.now) places.now
        (row + length (class_entry (declaration_tree declaration.now)))
        (first + length (type_parameters_of (declaration_tree declaration.now))) rest
        ≡ map class_form done.old
        ++ spec.classes_from (class_named facts.now.classes) (hierarchy_form facts.now.hierarchy)
        (map declaration_tree file.now) places.now row first (declaration_tree declaration.now ∷ rest)) }
{
    match declaration {
        Declaration::Class(class) => {
            done.push(top_class(alloc, file, places, facts, row, first, class)?)?;
            Ok(())
        }
        Declaration::Interface(interface) => {
            done.push(top_interface(alloc, file, places, facts, row, first, interface)?)?;
            Ok(())
        }
        Declaration::Enum(declared) => {
            done.push(enum_in(alloc, declared)?)?;
            Ok(())
        }
        Declaration::Function(_) => Ok(()),
        Declaration::Constant(_) => Ok(()),
    }
}

/// The classes by their rows: first the throwables, then those of the file.
fn classes(
    alloc: Global,
    file: &[Declaration],
    places: &[usize],
    facts: &FileFacts,
) -> Result<Items<DeclaredClass>, NoMemory>
    ensures { IfOk result (λ cs. map class_form cs ≡ map classes.throwable_in builtin.throwables
        ++ spec.classes_from (class_named facts.now.classes) (hierarchy_form facts.now.hierarchy)
        (map declaration_tree file.now) places.now (length builtin.throwables) 0 (map declaration_tree file.now)) }
{
    let mut done = throwable_classes(alloc)?;
    let mut row = throwable_count()?;
    let mut first = 0;
    for declaration in file {
        push_class(
            alloc,
            file,
            places,
            facts,
            row,
            first,
            declaration,
            &mut done,
        )?;
        row = row_after(row, declaration)?;
        first = first_after(first, declaration)?;
    }
    Ok(done)
}

/// The declarations by their numbers, in text order.
fn order(alloc: Global, file: &[Declaration]) -> Result<Items<DeclarationNumber>, NoMemory>
    ensures { IfOk result (λ numbers. numbers
        ≡ spec.order_from 0 (length builtin.throwables) 0 (map declaration_tree file.now)) }
{
    let mut done = Items::new(alloc);
    let mut functions = 0;
    let mut row = throwable_count()?;
    let mut constants = 0;
    for declaration in file {
        match declaration {
            Declaration::Function(_) => {
                done.push(DeclarationNumber::Function(functions))?;
                functions = sum_of(functions, 1)?;
            }
            Declaration::Constant(_) => {
                done.push(DeclarationNumber::Constant(constants))?;
                constants = sum_of(constants, 1)?;
            }
            Declaration::Class(_) => {
                done.push(DeclarationNumber::Class(row))?;
                row = sum_of(row, 1)?;
            }
            Declaration::Interface(_) => {
                done.push(DeclarationNumber::Class(row))?;
                row = sum_of(row, 1)?;
            }
            Declaration::Enum(_) => {
                done.push(DeclarationNumber::Class(row))?;
                row = sum_of(row, 1)?;
            }
        }
    }
    Ok(done)
}

/// The headers of a file, as its declarations say them. The facts are those of the file.
pub fn headers(alloc: Global, file: &[Declaration], facts: FileFacts) -> Result<Decls, NoMemory>
    requires known { Knows (map declaration_tree file.now) facts }
    ensures headers { IfOk result (λ decls. headers_form decls.headers
        ≡ spec.headers_of (map declaration_tree file.now)) }
    ensures names { IfOk result (λ decls. (x : List ℕ) → class_named decls.classes x
        ≡ rules.class_named (map declaration_tree file.now) x) }
{
    let places = row_places(alloc, file)?;
    let order = order(alloc, file)?;
    let functions = functions(alloc, &facts.classes, file)?;
    let constants = constants(alloc, &facts.classes, file)?;
    let classes = classes(alloc, file, places.as_slice(), &facts)?;
    Ok(Decls {
        headers: Headers {
            hierarchy: facts.hierarchy,
            classes,
            functions,
            constants,
            order,
        },
        classes: facts.classes,
    })
}
