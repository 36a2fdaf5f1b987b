//! The tree of a file's tokens.

ghost use Rattle.kt_base.specs.declared.refusals.FrontErr.TheVariants as front_err;
ghost use Rattle.kt_base.specs.declared.refusals.Refusal.{Refusal};
ghost use Rattle.kt_grammar.specs.Declarations.{IsFileOf};
ghost use Rattle.kt_parser.specs.Trees.{IsPlaceAt, IsSyntaxRefused};
ghost use Rattle.kt_tree.specs.Tokens.{ends_alone};
ghost use Rattle.kt_tree.specs.Declarations.{DeclarationTree, file_tree};
ghost use Rattle.std.specs.Prelude.{◌≡◌, ◌⊎◌, ◌<◌, ◌-◌, Err, IfOk, List, MatchResult, length, true};

use kt_base::{FrontErr, Kind, Pos, Refusal};
use kt_parser_declarations::read_file;
use kt_parser_steps::{ParseError, Tokens};
use kt_tree::{FileTree, Token};
use kt_tree_nodes::declarations::file;
use std::alloc::Global;

/// The tree of a file's tokens, of which the last and no other is [`kt_tree::TokenKind::End`].
///
/// Tokens that are no file are refused with the kind Syntax, at the first token that extends no prefix of a file's tokens;
/// trees have at most 200 levels, and a token that goes deeper is one of those.
pub fn parse(alloc: Global, tokens: &[Token]) -> Result<FileTree, FrontErr>
    requires { ends_alone tokens.now ≡ true }
    ensures parsed { IfOk result (λ tree. IsFileOf tokens.now (file_tree tree)) }
    ensures only { (file : List DeclarationTree) → IsFileOf tokens.now file
        → MatchResult result (λ tree. file_tree tree ≡ file) (λ e. e ≡ front_err.NoMemory) }
    ensures refused { (r : Refusal) → result ≡ Err (front_err.Refused r) → IsSyntaxRefused tokens.now r }
    ensures refuses { (r : Refusal) → IsSyntaxRefused tokens.now r
        → MatchResult result (λ tree. ⊥) (λ e. (e ≡ front_err.Refused r) ⊎ (e ≡ front_err.NoMemory)) }
{
    let mut cursor = Tokens::new(tokens);
    match read_file(alloc, &mut cursor) {
        Ok(declarations) => Ok(file(declarations)),
        Err(ParseError::Refused) => Err(FrontErr::Refused(Refusal {
            kind: Kind::Syntax,
            pos: place_before(tokens, cursor.far()),
        })),
        Err(ParseError::NoMemory) => Err(FrontErr::NoMemory),
    }
}

/// The place of the token that stands before so many tokens, and of the last one where none does.
fn place_before(tokens: &[Token], left: usize) -> Pos
    requires { 0 < length tokens.now }
    ensures { IsPlaceAt tokens.now (length tokens.now - left) result }
{
    let last = tokens.len() - 1;
    let index = tokens.len().saturating_sub(left).min(last);
    tokens[index].pos
}
