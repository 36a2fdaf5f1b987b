//! The rules of constants.

ghost use Rattle.kt_decls_facts.specs.Facts.{Knows};
ghost use Rattle.kt_decls_rules.specs.Rules.{IsFineConstant};
ghost use Rattle.kt_decls_types.specs.Answers.{Answers};
ghost use Rattle.kt_tree.specs.Declarations.{constant_tree, declaration_tree};
ghost use Rattle.kt_typed.specs.Headers.{ConstantForm, constant_form};
ghost use Rattle.std.specs.Prelude.{◌≡◌, ◌↔◌, is_some, map, IfOk, IsTrue, Option};

use kt_base::NoMemory;
use kt_decls_facts::FileFacts;
use kt_decls_table::constant_header;
use kt_decls_types::Unresolved;
use kt_tree::{ConstantDeclaration, Declaration};
use kt_typed::DeclaredConstant;
use std::alloc::Global;

/// Whether a constant has a header.
fn has_header(answer: Result<DeclaredConstant, Unresolved>) -> Result<bool, NoMemory>
    ensures { (header : Option ConstantForm) → Answers constant_form answer header →
        IfOk result (λ there. there ≡ is_some header) }
{
    match answer {
        Ok(_) => Ok(true),
        Err(Unresolved::Refused) => Ok(false),
        Err(Unresolved::NoMemory) => Err(NoMemory),
    }
}

/// Whether the literal of a constant is of a basic type, and of the written one.
pub fn is_fine_constant(
    alloc: Global,
    file: &[Declaration],
    facts: &FileFacts,
    constant: &ConstantDeclaration,
) -> Result<bool, NoMemory>
    requires known { Knows (map declaration_tree file.now) facts.now }
    ensures { IfOk result (λ yes. IsTrue yes
        ↔ IsFineConstant (map declaration_tree file.now) (constant_tree constant.now)) }
{
    has_header(constant_header(alloc, &facts.classes, constant))
}
