//! The loop of which lists and chains are made.

ghost use Rattle.kt_grammar_parsers.specs.Parsers as parsers;
ghost use Rattle.kt_grammar_parsers.specs.Parsers.{Parser};
ghost use Rattle.kt_parser_steps.specs.Steps.{EachTurns, ReadsAs};
ghost use Rattle.kt_tree.specs.declared.tokens.Token.{Token};
ghost use Rattle.std.specs.Prelude.{◌⊎◌};

use crate::error::ParseError;
use crate::node::Node;
use crate::tokens::Tokens;

/// What a turn of a loop gives.
pub enum Turn<S, B> {
    /// The loop goes on from here.
    More(S),
    /// The loop has ended with this.
    Done(B),
}

/// Turns until one ends the loop.
pub fn repeat<S: Node + Drop, B: Node + Drop, F>(
    tokens: &mut Tokens<'_>,
    start: S,
    turn: &F,
) -> Result<B, ParseError>
where
    F: Fn(S, &mut Tokens<'_>) -> Result<Turn<S, B>, ParseError>,
    requires { F.IsAlwaysCallable turn.now }
    ensures { (t : S.Tree → Parser Token (S.Tree ⊎ B.Tree)) → EachTurns S.tree B.tree t (F.post turn.now)
        → ReadsAs B.tree (parsers.repeat t (S.tree start) tokens.old) result tokens.new }
{
    let mut state = start;
    for _turn in 0..tokens.turns() {
        match turn(state, tokens)? {
            Turn::More(next) => state = next,
            Turn::Done(outcome) => return Ok(outcome),
        }
    }
    Err(tokens.refuse())
}
