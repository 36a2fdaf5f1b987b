//! Lists of items of any kind.

ghost use Rattle.kt_grammar_parsers.specs.Parsers as parsers;
ghost use Rattle.kt_grammar_parsers.specs.Parsers.{Parser};
ghost use Rattle.kt_grammar.specs.Readers as readers;
ghost use Rattle.kt_grammar.specs.Terminals.{is_separator};
ghost use Rattle.kt_parser_steps.specs.Classes.{is_of};
ghost use Rattle.kt_parser_steps.specs.Steps.{EachReads, Expects, Finds, ReadsAs, ended, given, lead_of, led_comma, place_of, turn_tree};
ghost use Rattle.kt_tree.specs.declared.tokens.Sign.TheVariants as sign;
ghost use Rattle.kt_tree.specs.declared.tokens.Token.{Token};
ghost use Rattle.kt_tree.specs.Tokens.{is_new_line, is_sign};
ghost use Rattle.std.specs.Prelude.{◌≡◌, map, Ok};

use crate::classes::TokenClass;
use crate::error::ParseError;
use crate::loops::{Turn, repeat};
use crate::node::Node;
use crate::refused::Refused;
use crate::steps::{class_ahead, expect};
use crate::tokens::Tokens;
use kt_base::Pos;
use kt_tree::{Sign, Token};
use sqlite_items::Items;
use std::alloc::Global;

/// What may stand before a comma.
#[derive(Clone, Copy, Debug, PartialEq, Eq)]
pub enum Lead {
    Nothing,
    /// Line ends.
    Lines,
}

/// The item behind the comma that comes next, or the token that closes the list.
fn comma_turn<T: Node + Drop, F: Fn(&mut Tokens<'_>) -> Result<T, ParseError>>(
    mut items: Items<T>,
    tokens: &mut Tokens<'_>,
    close: Sign,
    item: &F,
) -> Result<Turn<Items<T>, Items<T>>, ParseError>
    requires { F.IsAlwaysCallable item.now }
    ensures { (p : Parser Token T.Tree) → EachReads T.tree p (F.post item.now)
        → ReadsAs (turn_tree (map T.tree) (map T.tree))
        (parsers.comma_turn (is_sign sign.Comma) (is_sign close) p (map T.tree items) tokens.old) result tokens.new }
{
    match tokens.take_sign(Sign::Comma) {
        Some(_) => {
            let further = item(tokens)?;
            items.push(further)?;
            Ok(Turn::More(items))
        }
        None => {
            expect(tokens, close)?;
            Ok(Turn::Done(items))
        }
    }
}

/// Items with commas between them, and the token that closes the list.
pub fn comma_list<T: Node + Drop, F: Fn(&mut Tokens<'_>) -> Result<T, ParseError>>(
    alloc: Global,
    tokens: &mut Tokens<'_>,
    close: Sign,
    item: &F,
) -> Result<Items<T>, ParseError>
    requires { F.IsAlwaysCallable item.now }
    ensures { (p : Parser Token T.Tree) → EachReads T.tree p (F.post item.now)
        → ReadsAs (map T.tree) (readers.commas (is_sign close) p tokens.old) result tokens.new }
{
    let mut items = Items::new(alloc);
    let first = item(tokens)?;
    items.push(first)?;
    repeat(
        tokens,
        items,
        &|items: Items<T>, tokens: &mut Tokens<'_>| comma_turn(items, tokens, close, item),
    )
}

/// A list with commas that may be empty, and the token that closes it.
pub fn maybe_comma_list<T: Node + Drop, F: Fn(&mut Tokens<'_>) -> Result<T, ParseError>>(
    alloc: Global,
    tokens: &mut Tokens<'_>,
    close: Sign,
    item: &F,
) -> Result<Items<T>, ParseError>
    requires { F.IsAlwaysCallable item.now }
    ensures { (p : Parser Token T.Tree) → EachReads T.tree p (F.post item.now)
        → ReadsAs (map T.tree) (readers.maybe_commas (is_sign close) p tokens.old) result tokens.new }
{
    match tokens.take_sign(close) {
        Some(_) => Ok(Items::new(alloc)),
        None => comma_list(alloc, tokens, close, item),
    }
}

/// Skips what may stand before a comma.
fn skip_lead(lead: Lead, tokens: &mut Tokens<'_>)
    ensures { lead_of lead tokens.old ≡ Ok (tt, tokens.new) }
{
    match lead {
        Lead::Nothing => {}
        Lead::Lines => tokens.skip_lines(),
    }
}

/// The comma that comes next, behind what may stand before it. Where none comes, the cursor goes back.
fn comma_behind<'a>(lead: Lead, tokens: &mut Tokens<'a>) -> Option<&'a Token>
    ensures { Finds (λ token. token.now) (led_comma lead tokens.old) tokens.old result tokens.new }
{
    let place = tokens.rest();
    skip_lead(lead, tokens);
    match tokens.take_sign(Sign::Comma) {
        Some(token) => Some(token),
        None => {
            tokens.go_to(place);
            None
        }
    }
}

/// The item behind the comma that comes next, where one does.
fn several_turn<T: Node + Drop, F: Fn(&mut Tokens<'_>) -> Result<T, ParseError>>(
    mut items: Items<T>,
    tokens: &mut Tokens<'_>,
    lead: Lead,
    item: &F,
) -> Result<Turn<Items<T>, Items<T>>, ParseError>
    requires { F.IsAlwaysCallable item.now }
    ensures { (p : Parser Token T.Tree) → EachReads T.tree p (F.post item.now)
        → ReadsAs (turn_tree (map T.tree) (map T.tree))
        (parsers.more_turn (lead_of lead) (is_sign sign.Comma) is_new_line p (map T.tree items) tokens.old)
        result tokens.new }
{
    match comma_behind(lead, tokens) {
        Some(_) => {
            tokens.skip_lines();
            let next = item(tokens)?;
            items.push(next)?;
            Ok(Turn::More(items))
        }
        None => Ok(Turn::Done(items)),
    }
}

/// Items with commas between them, as long as a comma follows.
pub fn several<T: Node + Drop, F: Fn(&mut Tokens<'_>) -> Result<T, ParseError>>(
    alloc: Global,
    tokens: &mut Tokens<'_>,
    lead: Lead,
    item: &F,
) -> Result<Items<T>, ParseError>
    requires { F.IsAlwaysCallable item.now }
    ensures { (p : Parser Token T.Tree) → EachReads T.tree p (F.post item.now)
        → ReadsAs (map T.tree) (readers.several_items (lead_of lead) p tokens.old) result tokens.new }
{
    let mut items = Items::new(alloc);
    let first = item(tokens)?;
    items.push(first)?;
    repeat(
        tokens,
        items,
        &|items: Items<T>, tokens: &mut Tokens<'_>| several_turn(items, tokens, lead, item),
    )
}

/// Separators, at least one where the closing token doesn't come.
#[tactic(auto, using(crate::proofs::SeparatedItems::gap_taken, crate::proofs::SeparatedItems::gap_closed, crate::proofs::SeparatedItems::gap_missed))]
fn gap(tokens: &mut Tokens<'_>, close: TokenClass) -> Result<(), Refused>
    ensures { Expects (λ u. u) (parsers.gap is_separator (is_of close) tokens.old) result tokens.new }
{
    match tokens.take_class(TokenClass::Separator) {
        Some(_) => {
            tokens.skip_separators();
            Ok(())
        }
        None => {
            if class_ahead(tokens, close) {
                Ok(())
            } else {
                Err(Refused)
            }
        }
    }
}

/// The item that comes next and the gap behind it, or the place of the token that closes the list.
fn separated_turn<T: Node + Drop, F: Fn(&mut Tokens<'_>) -> Result<T, ParseError>>(
    mut items: Items<T>,
    tokens: &mut Tokens<'_>,
    close: TokenClass,
    item: &F,
) -> Result<Turn<Items<T>, (Items<T>, Pos)>, ParseError>
    requires { F.IsAlwaysCallable item.now }
    ensures { (p : Parser Token T.Tree) → EachReads T.tree p (F.post item.now)
        → ReadsAs (turn_tree (map T.tree) (λ list. (map T.tree list.0, list.1)))
        (given (ended place_of) (parsers.item_turn is_separator (is_of close) p (map T.tree items)) tokens.old)
        result tokens.new }
{
    match tokens.take_class(close) {
        Some(token) => Ok(Turn::Done((items, token.pos))),
        None => {
            let next = item(tokens)?;
            gap(tokens, close)?;
            items.push(next)?;
            Ok(Turn::More(items))
        }
    }
}

/// Items between separators, and the place of the token that closes them.
pub fn separated<T: Node + Drop, F: Fn(&mut Tokens<'_>) -> Result<T, ParseError>>(
    alloc: Global,
    tokens: &mut Tokens<'_>,
    close: TokenClass,
    item: &F,
) -> Result<(Items<T>, Pos), ParseError>
    requires { F.IsAlwaysCallable item.now }
    ensures { (p : Parser Token T.Tree) → EachReads T.tree p (F.post item.now)
        → ReadsAs (λ list. (map T.tree list.0, list.1)) (given place_of (readers.separated (is_of close) p) tokens.old)
        result tokens.new }
{
    tokens.skip_separators();
    repeat(
        tokens,
        Items::new(alloc),
        &|items: Items<T>, tokens: &mut Tokens<'_>| separated_turn(items, tokens, close, item),
    )
}
