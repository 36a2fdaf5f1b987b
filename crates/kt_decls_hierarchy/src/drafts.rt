//! The rows of a file's classes, with their own functions alone, and the bounds of all type parameters.

ghost use Rattle.kt_decls_hierarchy.specs.Drafts as spec;
ghost use Rattle.kt_decls_rules.specs.Tables as rules;
ghost use Rattle.kt_decls_rules.specs.Tables.{has_row, is_function, is_method, numbered, super_rows, type_parameters_of};
ghost use Rattle.kt_decls_types.specs.Scopes.{class_named};
ghost use Rattle.kt_tree.specs.Declarations.{class, class_tree, declaration_tree, enum, function_tree, interface, interface_tree, member_tree, type_parameter_tree};
ghost use Rattle.kt_types_builtins.specs.Throwables as builtin;
ghost use Rattle.kt_types_tree.specs.Hierarchy.{header_form, hierarchy_form, super_form};
ghost use Rattle.kt_types_tree.specs.Types.{type_form};
ghost use Rattle.std.specs.List.{list_any};
ghost use Rattle.std.specs.Prelude.{true, ◌≡◌, ◌++◌, ◌+◌, ◌<◌, ◌^◌, length, map, IfOk, OnOk};

use crate::classes::{count_of, sum_of};
use crate::supertypes::{class_supers, interface_supers, push_bounds, scope_from};
use kt_base::NoMemory;
use kt_decls_types::ClassNames;
use kt_tree::{
    ClassDeclaration, ClassMember, Declaration, EnumDeclaration, FunctionDeclaration,
    InterfaceDeclaration, TypeParameter,
};
use kt_typed::DeclaredTypeParameter;
use kt_types_builtins::BuiltInThrowable;
use kt_types_builtins::throwables::throwables;
use kt_types_tree::{ClassHeader, ClassKind, Hierarchy, KtType, Supertype};
use sqlite_items::Items;
use std::alloc::Global;

/// Whether a function has this name and so many parameters.
pub fn is_named(function: &FunctionDeclaration, name: &[u8], count: usize) -> bool
    ensures { result ≡ is_function name.now count (function_tree function.now) }
{
    function.name.as_bytes() == name && function.parameters.len() == count
}

fn is_named_method(member: &ClassMember, name: &[u8], count: usize) -> bool
    ensures { result ≡ is_method name.now count (member_tree member.now) }
{
    match member {
        ClassMember::Method(function) => is_named(function, name, count),
        ClassMember::Property(_) => false,
    }
}

/// Whether a member of a class is a function of this name with so many parameters.
pub fn has_method(members: &[ClassMember], name: &[u8], count: usize) -> bool
    ensures { result ≡ list_any (is_method name.now count) (map member_tree members.now) }
{
    for member in members {
        if is_named_method(member, name, count) {
            return true;
        }
    }
    false
}

/// Whether a function of an interface has this name and so many parameters.
pub fn has_function(functions: &[FunctionDeclaration], name: &[u8], count: usize) -> bool
    ensures { result ≡ list_any (is_function name.now count) (map function_tree functions.now) }
{
    for function in functions {
        if is_named(function, name, count) {
            return true;
        }
    }
    false
}

fn class_kind(is_data: bool) -> ClassKind
    ensures { result ≡ rules.class_kind is_data }
{
    if is_data {
        ClassKind::DataClass
    } else {
        ClassKind::Class
    }
}

/// The row of a class.
fn class_draft(
    alloc: Global,
    classes: &ClassNames,
    first: u32,
    scope: &[DeclaredTypeParameter],
    declared: &ClassDeclaration,
) -> Result<ClassHeader, NoMemory>
    requires few { length scope.now < 2 ^ 32 }
    requires scope { scope.now ≡ numbered first (map type_parameter_tree declared.now.type_parameters) }
    ensures { IfOk result (λ c. header_form c
        ≡ spec.class_draft (class_named classes.now) first (class (class_tree declared.now))) }
{
    let parameters = count_of(declared.type_parameters.as_slice())?;
    let supertypes = class_supers(alloc, classes, scope, declared.supertypes.as_slice())?;
    let members = declared.members.as_slice();
    Ok(ClassHeader {
        kind: class_kind(declared.modifiers.is_data),
        parameters,
        first_bound: first,
        supertypes,
        has_to_string: has_method(members, b"toString", 0),
        has_equals: has_method(members, b"equals", 1),
    })
}

/// The row of an interface.
fn interface_draft(
    alloc: Global,
    classes: &ClassNames,
    first: u32,
    scope: &[DeclaredTypeParameter],
    declared: &InterfaceDeclaration,
) -> Result<ClassHeader, NoMemory>
    requires few { length scope.now < 2 ^ 32 }
    requires scope { scope.now ≡ numbered first (map type_parameter_tree declared.now.type_parameters) }
    ensures { IfOk result (λ c. header_form c
        ≡ spec.class_draft (class_named classes.now) first (interface (interface_tree declared.now))) }
{
    let parameters = count_of(declared.type_parameters.as_slice())?;
    let supertypes = interface_supers(alloc, classes, scope, declared.supertypes.as_slice())?;
    let functions = declared.functions.as_slice();
    Ok(ClassHeader {
        kind: ClassKind::Interface,
        parameters,
        first_bound: first,
        supertypes,
        has_to_string: has_function(functions, b"toString", 0),
        has_equals: has_function(functions, b"equals", 1),
    })
}

/// The row of an enum.
fn enum_draft(alloc: Global, first: u32, declared: &EnumDeclaration) -> ClassHeader
    ensures { (classes : spec.Classes) → header_form result ≡ spec.class_draft classes first (enum declared.now) }
{
    ClassHeader {
        kind: ClassKind::Enum,
        parameters: 0,
        first_bound: first,
        supertypes: Items::new(alloc),
        has_to_string: false,
        has_equals: false,
    }
}

/// The row behind those of so many more type parameters.
fn behind(first: u32, parameters: &[TypeParameter]) -> Result<u32, NoMemory>
    ensures { IfOk result (λ next. next ≡ first + length parameters.now) }
{
    let count = count_of(parameters)?;
    sum_of(first, count)
}

fn push_class(
    alloc: Global,
    classes: &ClassNames,
    first: u32,
    declared: &ClassDeclaration,
    done: &mut Items<ClassHeader>,
) -> Result<u32, NoMemory>
    ensures next { IfOk result (λ next. next ≡ first + length declared.now.type_parameters) }
    ensures drafts { OnOk result (map header_form done.new ≡ map header_form done.old
        ++ spec.draft_if true (spec.class_draft (class_named classes.now) first (class (class_tree declared.now)))) }
{
    let scope = scope_from(alloc, first, declared.type_parameters.as_slice())?;
    let header = class_draft(alloc, classes, first, scope.parameters.as_slice(), declared)?;
    done.push(header)?;
    Ok(scope.next)
}

fn push_interface(
    alloc: Global,
    classes: &ClassNames,
    first: u32,
    declared: &InterfaceDeclaration,
    done: &mut Items<ClassHeader>,
) -> Result<u32, NoMemory>
    ensures next { IfOk result (λ next. next ≡ first + length declared.now.type_parameters) }
    ensures drafts { OnOk result (map header_form done.new ≡ map header_form done.old
        ++ spec.draft_if true (spec.class_draft (class_named classes.now) first
        (interface (interface_tree declared.now)))) }
{
    let scope = scope_from(alloc, first, declared.type_parameters.as_slice())?;
    let header = interface_draft(alloc, classes, first, scope.parameters.as_slice(), declared)?;
    done.push(header)?;
    Ok(scope.next)
}

fn push_enum(
    alloc: Global,
    first: u32,
    declared: &EnumDeclaration,
    done: &mut Items<ClassHeader>,
) -> Result<u32, NoMemory>
    ensures next { IfOk result (λ next. next ≡ first) }
    ensures drafts { OnOk result ((classes : spec.Classes) → map header_form done.new ≡ map header_form done.old
        ++ spec.draft_if true (spec.class_draft classes first (enum declared.now))) }
{
    done.push(enum_draft(alloc, first, declared))?;
    Ok(first)
}

/// Puts the row of a declaration behind others, where it has one, and gives the row of the next type parameter.
fn push_draft(
    alloc: Global,
    classes: &ClassNames,
    first: u32,
    declaration: &Declaration,
    done: &mut Items<ClassHeader>,
) -> Result<u32, NoMemory>
    ensures next { IfOk result (λ next. next
        ≡ first + length (type_parameters_of (declaration_tree declaration.now))) }
    ensures drafts { OnOk result (map header_form done.new ≡ map header_form done.old
        ++ spec.draft_if (has_row (declaration_tree declaration.now))
        (spec.class_draft (class_named classes.now) first (declaration_tree declaration.now))) }
{
    match declaration {
        Declaration::Function(function) => behind(first, function.type_parameters.as_slice()),
        Declaration::Class(class) => push_class(alloc, classes, first, class, done),
        Declaration::Interface(interface) => {
            push_interface(alloc, classes, first, interface, done)
        }
        Declaration::Enum(entries) => push_enum(alloc, first, entries, done),
        Declaration::Constant(_) => Ok(first),
    }
}

/// The supertype of a throwable, which has at most one.
fn throwable_supers(
    alloc: Global,
    above: Option<BuiltInThrowable>,
) -> Result<Items<Supertype>, NoMemory>
    ensures { IfOk result (λ supers. map super_form supers ≡ super_rows above) }
{
    let mut supers = Items::new(alloc);
    match above {
        Some(above) => supers.push(Supertype {
            class: above.row(),
            arguments: Items::new(alloc),
        })?,
        None => {}
    }
    Ok(supers)
}

/// The row of a throwable.
fn throwable_draft(alloc: Global, throwable: BuiltInThrowable) -> Result<ClassHeader, NoMemory>
    ensures { IfOk result (λ c. header_form c ≡ spec.throwable_draft throwable) }
{
    Ok(ClassHeader {
        kind: ClassKind::Class,
        parameters: 0,
        first_bound: 0,
        supertypes: throwable_supers(alloc, throwable.superclass())?,
        has_to_string: false,
        has_equals: false,
    })
}

/// The rows of the throwables.
fn throwable_drafts(alloc: Global) -> Result<Items<ClassHeader>, NoMemory>
    ensures { IfOk result (λ rows. map header_form rows ≡ map spec.throwable_draft builtin.throwables) }
{
    let mut done = Items::new(alloc);
    for throwable in throwables() {
        done.push(throwable_draft(alloc, *throwable)?)?;
    }
    Ok(done)
}

/// The rows of all classes.
fn class_drafts(
    alloc: Global,
    classes: &ClassNames,
    declarations: &[Declaration],
) -> Result<Items<ClassHeader>, NoMemory>
    ensures { IfOk result (λ rows. map header_form rows
        ≡ (spec.draft (class_named classes.now) (map declaration_tree declarations.now)).classes) }
{
    let mut done = throwable_drafts(alloc)?;
    let mut first = 0;
    for declaration in declarations {
        first = push_draft(alloc, classes, first, declaration, &mut done)?;
    }
    Ok(done)
}

/// Puts the bounds of some type parameters behind others, and gives the row behind them.
fn push_all_bounds(
    alloc: Global,
    classes: &ClassNames,
    first: u32,
    parameters: &[TypeParameter],
    bounds: &mut Items<KtType>,
) -> Result<u32, NoMemory>
    ensures next { IfOk result (λ next. next ≡ first + length parameters.now) }
    ensures bounds { OnOk result (map type_form bounds.new ≡ map type_form bounds.old
        ++ spec.bounds_in (class_named classes.now) (numbered first (map type_parameter_tree parameters.now))
        (map type_parameter_tree parameters.now)) }
{
    let scope = scope_from(alloc, first, parameters)?;
    push_bounds(
        alloc,
        classes,
        scope.parameters.as_slice(),
        parameters,
        bounds,
    )?;
    Ok(scope.next)
}

/// The type parameters of a declaration.
pub fn type_parameters(declaration: &Declaration) -> &[TypeParameter]
    ensures { map type_parameter_tree result.now ≡ type_parameters_of (declaration_tree declaration.now) }
{
    match declaration {
        Declaration::Function(function) => function.type_parameters.as_slice(),
        Declaration::Class(class) => class.type_parameters.as_slice(),
        Declaration::Interface(interface) => interface.type_parameters.as_slice(),
        Declaration::Enum(_) => &[],
        Declaration::Constant(_) => &[],
    }
}

/// The bounds of all type parameters.
fn bounds(
    alloc: Global,
    classes: &ClassNames,
    declarations: &[Declaration],
) -> Result<Items<KtType>, NoMemory>
    ensures { IfOk result (λ rows. map type_form rows
        ≡ spec.bounds_from (class_named classes.now) 0 (map declaration_tree declarations.now)) }
{
    let mut done = Items::new(alloc);
    let mut first = 0;
    for declaration in declarations {
        let parameters = type_parameters(declaration);
        first = push_all_bounds(alloc, classes, first, parameters, &mut done)?;
    }
    Ok(done)
}

/// The hierarchy of a file, in which each class has its own functions alone.
pub fn draft(
    alloc: Global,
    classes: &ClassNames,
    declarations: &[Declaration],
) -> Result<Hierarchy, NoMemory>
    ensures { IfOk result (λ h. hierarchy_form h
        ≡ spec.draft (class_named classes.now) (map declaration_tree declarations.now)) }
{
    let bounds = bounds(alloc, classes, declarations)?;
    let classes = class_drafts(alloc, classes, declarations)?;
    Ok(Hierarchy { classes, bounds })
}
