//! The lists that declarations hold: supertypes, and members between braces.

ghost use Rattle.kt_parser_declarations.specs.Rests as rests;
ghost use Rattle.kt_grammar.specs.DeclarationParser as parser;
ghost use Rattle.kt_grammar_parsers.specs.Parsers as parsers;
ghost use Rattle.kt_grammar_parsers.specs.Parsers.{Parser};
ghost use Rattle.kt_parser_declarations.specs.StepTurns.{EachStepTurns};
ghost use Rattle.kt_parser_steps.specs.Classes.{is_of};
ghost use Rattle.kt_parser_steps.specs.Steps.{EachReads, Expects, ReadsAs};
ghost use Rattle.kt_tree.specs.declared.tokens.Token.{Token};
ghost use Rattle.std.specs.Prelude.{◌⊎◌, map};

use kt_parser_steps::{
    Lead, Node, ParseError, Refused, TokenClass, Tokens, Turn, expect, part_if, separated, several,
};
use kt_tree::{Sign, Token};
use sqlite_items::Items;
use std::alloc::Global;

/// Turns that take no memory, until one ends the loop.
pub(crate) fn repeat_steps<S: Node + Drop, B: Node + Drop, F>(
    tokens: &mut Tokens<'_>,
    start: S,
    turn: &F,
) -> Result<B, Refused>
where
    F: Fn(S, &mut Tokens<'_>) -> Result<Turn<S, B>, Refused>,
    requires { F.IsAlwaysCallable turn.now }
    ensures { (t : S.Tree → Parser Token (S.Tree ⊎ B.Tree)) → EachStepTurns S.tree B.tree t (F.post turn.now)
        → Expects B.tree (parsers.repeat t (S.tree start) tokens.old) result tokens.new }
{
    let mut state = start;
    for _turn in 0..tokens.turns() {
        match turn(state, tokens)? {
            Turn::More(next) => state = next,
            Turn::Done(outcome) => return Ok(outcome),
        }
    }
    tokens.refuse();
    Err(Refused)
}

/// Items between separators, up to the token that closes them.
pub(crate) fn items_until<T: Node + Drop, F: Fn(&mut Tokens<'_>) -> Result<T, ParseError>>(
    alloc: Global,
    tokens: &mut Tokens<'_>,
    close: TokenClass,
    item: &F,
) -> Result<Items<T>, ParseError>
    requires { F.IsAlwaysCallable item.now }
    ensures { (p : Parser Token T.Tree) → EachReads T.tree p (F.post item.now)
        → ReadsAs (map T.tree) (rests.items_until (is_of close) p tokens.old) result tokens.new }
{
    let (items, _) = separated(alloc, tokens, close, item)?;
    Ok(items)
}

/// `n super (',' n super)*`, behind `:`.
fn supertypes_rest<T: Node + Drop, F: Fn(&mut Tokens<'_>) -> Result<T, ParseError>>(
    alloc: Global,
    tokens: &mut Tokens<'_>,
    item: &F,
) -> Result<Items<T>, ParseError>
    requires { F.IsAlwaysCallable item.now }
    ensures { (p : Parser Token T.Tree) → EachReads T.tree p (F.post item.now)
        → ReadsAs (map T.tree) (rests.supertypes_rest p tokens.old) result tokens.new }
{
    tokens.skip_lines();
    several(alloc, tokens, Lead::Nothing, item)
}

/// `(':' n super (',' n super)*)?`
pub(crate) fn supertypes<T: Node + Drop, F: Fn(&mut Tokens<'_>) -> Result<T, ParseError>>(
    alloc: Global,
    tokens: &mut Tokens<'_>,
    item: &F,
) -> Result<Items<T>, ParseError>
    requires { F.IsAlwaysCallable item.now }
    ensures { (p : Parser Token T.Tree) → EachReads T.tree p (F.post item.now)
        → ReadsAs (map T.tree) (parser.supertypes p tokens.old) result tokens.new }
{
    match tokens.take_sign(Sign::Colon) {
        Some(_) => supertypes_rest(alloc, tokens, item),
        None => Ok(Items::new(alloc)),
    }
}

/// `n '{'`
fn open_brace<'a>(tokens: &mut Tokens<'a>) -> Result<&'a Token, Refused>
    ensures { Expects (λ token. token.now) (rests.open_brace tokens.old) result tokens.new }
{
    tokens.skip_lines();
    expect(tokens, Sign::OpenBrace)
}

/// `(n '{' sep? (item (sep item)*)? sep? '}')?`
pub(crate) fn members<T: Node + Drop, F: Fn(&mut Tokens<'_>) -> Result<T, ParseError>>(
    alloc: Global,
    tokens: &mut Tokens<'_>,
    item: &F,
) -> Result<Items<T>, ParseError>
    requires { F.IsAlwaysCallable item.now }
    ensures { (p : Parser Token T.Tree) → EachReads T.tree p (F.post item.now)
        → ReadsAs (map T.tree) (parser.members p tokens.old) result tokens.new }
{
    match part_if(true, tokens, &open_brace) {
        Some(_) => items_until(alloc, tokens, TokenClass::CloseBrace, item),
        None => Ok(Items::new(alloc)),
    }
}
