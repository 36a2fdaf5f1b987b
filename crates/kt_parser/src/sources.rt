//! From the bytes of a source text to its tree.

ghost use Rattle.kt_base.specs.declared.refusals.FrontErr.TheVariants as front_err;
ghost use Rattle.kt_base.specs.declared.refusals.Refusal.{Refusal};
ghost use Rattle.kt_parser.specs.Refusals.{IsRefused, IsTreeOf};
ghost use Rattle.kt_tree.specs.Declarations.{DeclarationTree, file_tree};
ghost use Rattle.std.specs.Prelude.{◌≡◌, ◌⊎◌, Err, IfOk, List, MatchResult};

use crate::trees::parse;
use kt_base::FrontErr;
use kt_lexer::lex_bytes;
use kt_tree::FileTree;
use std::alloc::Global;

/// The tree of a source text.
///
/// A source is refused with the first of these: Size at 1:1 where it has more than 1,048,576 bytes; Lex where it isn't
/// UTF-8, or a character begins no token; Syntax at the first token that extends no prefix of a file's tokens.
pub fn read_source(alloc: Global, bytes: &[u8]) -> Result<FileTree, FrontErr>
    ensures read { IfOk result (λ tree. IsTreeOf bytes.now (file_tree tree)) }
    ensures only { (file : List DeclarationTree) → IsTreeOf bytes.now file
        → MatchResult result (λ tree. file_tree tree ≡ file) (λ e. e ≡ front_err.NoMemory) }
    ensures refused { (r : Refusal) → result ≡ Err (front_err.Refused r) → IsRefused bytes.now r }
    ensures refuses { (r : Refusal) → IsRefused bytes.now r
        → MatchResult result (λ tree. ⊥) (λ e. (e ≡ front_err.Refused r) ⊎ (e ≡ front_err.NoMemory)) }
{
    let tokens = lex_bytes(alloc, bytes)?;
    parse(alloc, tokens.as_slice())
}
