//! The throwables that every program has.

ghost use Rattle.kt_decls_headers.specs.Classes as spec;
ghost use Rattle.kt_typed.specs.Headers.{class_form, property_form};
ghost use Rattle.kt_types_builtins.specs.Throwables as builtin;
ghost use Rattle.std.specs.Prelude.{[], ◌∷◌, ◌≡◌, map, IfOk};

use kt_base::{Name, NoMemory, Pos};
use kt_typed::{DeclaredClass, DeclaredProperty};
use kt_types_builtins::BuiltInThrowable;
use kt_types_builtins::throwables::throwables;
use kt_types_tree::{ClassKind, KtType, TypeConstructor};
use sqlite_items::Items;
use std::alloc::Global;

fn no_place() -> Pos
    ensures { result ≡ spec.no_place }
{
    Pos { line: 0, column: 0 }
}

/// The message of a throwable.
fn message(alloc: Global) -> Result<DeclaredProperty, NoMemory>
    ensures { IfOk result (λ p. property_form p ≡ spec.message) }
{
    let name = Name::of(alloc, b"message")?;
    Ok(DeclaredProperty {
        at: no_place(),
        name,
        is_variable: false,
        annotation: KtType::plain(alloc, true, TypeConstructor::String),
    })
}

/// The properties of a throwable below another, where it is one.
fn properties(
    alloc: Global,
    above: Option<BuiltInThrowable>,
) -> Result<Items<DeclaredProperty>, NoMemory>
    ensures { IfOk result (λ ps. map property_form ps ≡ spec.message_unless above) }
{
    let mut done = Items::new(alloc);
    match above {
        Some(_) => {}
        None => done.push(message(alloc)?)?,
    }
    Ok(done)
}

fn throwable_in(alloc: Global, throwable: BuiltInThrowable) -> Result<DeclaredClass, NoMemory>
    ensures { IfOk result (λ c. class_form c ≡ spec.throwable_in throwable) }
{
    let name = Name::of(alloc, throwable.name())?;
    let above = throwable.superclass();
    let properties = properties(alloc, above)?;
    Ok(DeclaredClass {
        at: no_place(),
        name,
        kind: ClassKind::Class,
        is_open: true,
        is_abstract: false,
        type_parameters: Items::new(alloc),
        parameters: Items::new(alloc),
        properties,
        functions: Items::new(alloc),
        entries: Items::new(alloc),
        members: Items::new(alloc),
        superclass: None,
    })
}

/// The headers of the throwables.
pub fn throwable_classes(alloc: Global) -> Result<Items<DeclaredClass>, NoMemory>
    ensures { IfOk result (λ cs. map class_form cs ≡ map spec.throwable_in builtin.throwables) }
{
    let mut done = Items::new(alloc);
    for throwable in throwables() {
        done.push(throwable_in(alloc, *throwable)?)?;
    }
    Ok(done)
}
