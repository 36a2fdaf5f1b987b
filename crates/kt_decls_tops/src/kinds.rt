//! The rules of each kind of declaration.

ghost use Rattle.kt_decls_classes.specs.Kinds.{all_kinds, kind_seen};
ghost use Rattle.kt_decls_facts.specs.Facts.{Knows};
ghost use Rattle.kt_decls_inherited.specs.Sights as sights;
ghost use Rattle.kt_decls_tops.specs.Parts.{IsFineKindIn};
ghost use Rattle.kt_tree.specs.Declarations.{declaration_tree};
ghost use Rattle.std.specs.Prelude.{◌≡◌, ◌<◌, ◌^◌, ◌↔◌, length, map, IfOk, IsTrue};

use crate::classes::{is_fine_class, is_fine_interface};
use crate::constants::is_fine_constant;
use crate::functions::is_fine_function;
use kt_base::NoMemory;
use kt_decls_classes::kinds::Extension;
use kt_decls_facts::FileFacts;
use kt_tree::Declaration;
use kt_typed::DeclaredTypeParameter;
use std::alloc::Global;

/// Whether a declaration obeys the rules of its kind.
pub fn is_fine_kind(
    alloc: Global,
    file: &[Declaration],
    places: &[usize],
    facts: &FileFacts,
    kinds: &[Extension],
    scope: &[DeclaredTypeParameter],
    row: u32,
    declaration: &Declaration,
) -> Result<bool, NoMemory>
    requires known { Knows (map declaration_tree file.now) facts.now }
    requires places { places.now ≡ sights.places (map declaration_tree file.now) }
    requires kinds { map kind_seen kinds.now ≡ all_kinds (map declaration_tree file.now) }
    requires few { length scope.now < 2 ^ 32 }
    ensures { IfOk result (λ yes. IsTrue yes
        ↔ IsFineKindIn (map declaration_tree file.now) row scope.now (declaration_tree declaration.now)) }
{
    match declaration {
        Declaration::Function(function) => is_fine_function(alloc, file, facts, scope, function),
        Declaration::Class(class) => is_fine_class(
            alloc,
            file,
            places,
            facts,
            kinds,
            scope,
            row,
            declaration,
            class,
        ),
        Declaration::Interface(interface) => is_fine_interface(
            alloc,
            file,
            places,
            facts,
            kinds,
            scope,
            row,
            declaration,
            interface,
        ),
        Declaration::Enum(_) => Ok(true),
        Declaration::Constant(constant) => is_fine_constant(alloc, file, facts, constant),
    }
}
