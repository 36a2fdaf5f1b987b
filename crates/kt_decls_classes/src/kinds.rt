//! Which rows of a file may be extended, and how.

ghost use Rattle.kt_decls_classes.specs.Kinds.{all_kinds, always_open, kind_at, kind_if, kind_seen};
ghost use Rattle.kt_decls_rules.specs.ClassRules.{if_open, kind_of_declaration};
ghost use Rattle.kt_decls_rules.specs.Tables.{has_row};
ghost use Rattle.kt_tree.specs.Declarations.{declaration_tree};
ghost use Rattle.kt_types_builtins.specs.Throwables as builtin;
ghost use Rattle.std.specs.Prelude.{◌≡◌, ◌++◌, map, IfOk, OnOk};

use kt_base::NoMemory;
use kt_tree::Declaration;
use kt_types_builtins::BuiltInThrowable;
use kt_types_builtins::throwables::throwables;
use sqlite_items::{Items, at};
use std::alloc::Global;

/// How a class may be extended.
#[derive(Clone, Copy, Debug, PartialEq, Eq)]
pub enum Extension {
    /// A class that is open or abstract: with parentheses.
    OpenClass,
    /// An interface: without.
    Interface,
    /// Not at all.
    Neither,
}

fn open_if(is_open: bool) -> Extension
    ensures { kind_seen result ≡ if_open is_open }
{
    if is_open {
        Extension::OpenClass
    } else {
        Extension::Neither
    }
}

/// How a declaration may be extended.
fn kind_of(declaration: &Declaration) -> Extension
    ensures { kind_seen result ≡ kind_of_declaration (declaration_tree declaration.now) }
{
    match declaration {
        Declaration::Class(class) => {
            open_if(class.modifiers.is_open || class.modifiers.is_abstract)
        }
        Declaration::Interface(_) => Extension::Interface,
        Declaration::Function(_) => Extension::Neither,
        Declaration::Enum(_) => Extension::Neither,
        Declaration::Constant(_) => Extension::Neither,
    }
}

fn is_class(declaration: &Declaration) -> bool
    ensures { result ≡ has_row (declaration_tree declaration.now) }
{
    match declaration {
        Declaration::Class(_) => true,
        Declaration::Interface(_) => true,
        Declaration::Enum(_) => true,
        Declaration::Function(_) => false,
        Declaration::Constant(_) => false,
    }
}

fn push_kind(declaration: &Declaration, done: &mut Items<Extension>) -> Result<(), NoMemory>
    ensures { OnOk result (map kind_seen done.new ≡ map kind_seen done.old
        ++ kind_if (has_row (declaration_tree declaration.now))
        (kind_of_declaration (declaration_tree declaration.now))) }
{
    if is_class(declaration) {
        done.push(kind_of(declaration))?;
    }
    Ok(())
}

/// All throwables are open.
#[tactic(auto, unfolding(crate::specs::Kinds::always_open))]
fn kind_of_throwable(throwable: BuiltInThrowable) -> Extension
    ensures { kind_seen result ≡ always_open throwable }
{
    let _built_in = throwable;
    Extension::OpenClass
}

fn throwable_kinds(alloc: Global) -> Result<Items<Extension>, NoMemory>
    ensures { IfOk result (λ kinds. map kind_seen kinds ≡ map always_open builtin.throwables) }
{
    let mut done = Items::new(alloc);
    for throwable in throwables() {
        done.push(kind_of_throwable(*throwable))?;
    }
    Ok(done)
}

/// How each row of a file may be extended.
pub fn kinds(alloc: Global, file: &[Declaration]) -> Result<Items<Extension>, NoMemory>
    ensures { IfOk result (λ kinds. map kind_seen kinds ≡ all_kinds (map declaration_tree file.now)) }
{
    let mut done = throwable_kinds(alloc)?;
    for declaration in file {
        push_kind(declaration, &mut done)?;
    }
    Ok(done)
}

/// How the class in a row may be extended.
pub fn kind_in(kinds: &[Extension], row: u32) -> Extension
    ensures { kind_seen result ≡ kind_at kinds.now row }
{
    match at(kinds, row as usize) {
        Some(kind) => *kind,
        None => Extension::Neither,
    }
}
