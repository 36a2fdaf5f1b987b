//! Strings: text, names, and expressions in `${` and `}`.

ghost use Rattle.kt_parser_blocks.specs.Below.{AreRead};
ghost use Rattle.kt_parser_steps.specs.Steps.{ReadsAs};
ghost use Rattle.kt_tree.specs.Bodies.{expression_tree};
ghost use Rattle.kt_parser_primaries.specs.Rules as rules;
ghost use Rattle.kt_parser_steps.specs.Steps.{turn_tree};
ghost use Rattle.kt_tree.specs.Bodies.{part_tree};
ghost use Rattle.std.specs.Prelude.{map};

use crate::parts::Parts;
use crate::primaries::Primaries;
use kt_base::Pos;
use kt_grammar::Context;
use kt_parser_blocks::Precedence;
use kt_parser_steps::{
    ParseError, TokenClass, Tokens, Turn, beside, class_if, expect, meant_text, name_of, repeat,
};
use kt_tree::{Expression, Sign, Statement, StringPart};
use kt_tree_nodes::strings::{hole, name_part, template, text, this_part};
use std::alloc::Global;

impl<
    E: Fn(Global, u32, Precedence, Context, &mut Tokens<'_>) -> Result<Expression, ParseError>
        + Copy,
    S: Fn(Global, u32, Context, &mut Tokens<'_>) -> Result<Statement, ParseError> + Copy,
> Primaries<E, S> {
    /// `part* '"'`, behind the `"` at this place.
    pub(crate) fn string_rest(
        &self,
        start: Pos,
        at: Context,
        tokens: &mut Tokens<'_>,
    ) -> Result<Expression, ParseError>
        requires { AreRead self.now.below.room (E.pre self.now.below.expression) (E.post self.now.below.expression)
            (S.pre self.now.below.statement) (S.post self.now.below.statement) }
        ensures { ReadsAs expression_tree (rules.string_rest self.now.below.room at start tokens.old)
            result tokens.new }
    {
        repeat(
            tokens,
            Parts::new(self.below.alloc),
            &|parts: Parts, tokens: &mut Tokens<'_>| self.string_turn(start, at, parts, tokens),
        )
    }

    /// One part more, or the `"` that ends the string.
    fn string_turn(
        &self,
        start: Pos,
        at: Context,
        parts: Parts,
        tokens: &mut Tokens<'_>,
    ) -> Result<Turn<Parts, Expression>, ParseError>
        requires { AreRead self.now.below.room (E.pre self.now.below.expression) (E.post self.now.below.expression)
            (S.pre self.now.below.statement) (S.post self.now.below.statement) }
        ensures { ReadsAs (turn_tree (map part_tree) expression_tree)
            (rules.string_turn self.now.below.room at start (map part_tree parts) tokens.old) result tokens.new }
    {
        match tokens.take_class(TokenClass::CloseQuote) {
            Some(_) => Ok(Turn::Done(template(start, parts.into_items()))),
            None => self.further_part(at, parts, tokens),
        }
    }

    /// One part more.
    fn further_part(
        &self,
        at: Context,
        parts: Parts,
        tokens: &mut Tokens<'_>,
    ) -> Result<Turn<Parts, Expression>, ParseError>
        requires { AreRead self.now.below.room (E.pre self.now.below.expression) (E.post self.now.below.expression)
            (S.pre self.now.below.statement) (S.post self.now.below.statement) }
        ensures { ReadsAs (turn_tree (map part_tree) expression_tree)
            (rules.further_part self.now.below.room at (map part_tree parts) tokens.old) result tokens.new }
    {
        let part = self.next_part(at, &parts, tokens);
        let (mut parts, part) = beside(parts, part)?;
        parts.push(part)?;
        Ok(Turn::More(parts))
    }

    /// The next part. In a string of several parts each is one level lower, below the string's `+`.
    fn next_part(
        &self,
        at: Context,
        parts: &Parts,
        tokens: &mut Tokens<'_>,
    ) -> Result<StringPart, ParseError>
        requires { AreRead self.now.below.room (E.pre self.now.below.expression) (E.post self.now.below.expression)
            (S.pre self.now.below.statement) (S.post self.now.below.statement) }
        ensures { ReadsAs part_tree (rules.next_part self.now.below.room at (map part_tree parts.now) tokens.old)
            result tokens.new }
    {
        if parts.is_empty() {
            return self.string_part(at, tokens);
        }
        if parts.levels() >= self.below.room {
            return Err(tokens.refuse());
        }
        Primaries {
            below: self.below.lower(),
        }
        .string_part(at, tokens)
    }

    /// Text, or where a level is left for what it holds, a name, `this`, or an expression.
    fn string_part(&self, at: Context, tokens: &mut Tokens<'_>) -> Result<StringPart, ParseError>
        requires { AreRead self.now.below.room (E.pre self.now.below.expression) (E.post self.now.below.expression)
            (S.pre self.now.below.statement) (S.post self.now.below.statement) }
        ensures { ReadsAs part_tree (rules.string_part self.now.below.room at tokens.old) result tokens.new }
    {
        let deep = self.below.is_deep();
        match class_if(deep, tokens, TokenClass::NamePart) {
            Some(token) => Ok(name_part(name_of(self.below.alloc, token)?)),
            None => match class_if(deep, tokens, TokenClass::ThisPart) {
                Some(_) => Ok(this_part()),
                None => match class_if(deep, tokens, TokenClass::OpenTemplate) {
                    Some(_) => self.hole_rest(at, tokens),
                    None => text_rest(tokens),
                },
            },
        }
    }

    /// `n expr n '}'`, behind `${`.
    fn hole_rest(&self, at: Context, tokens: &mut Tokens<'_>) -> Result<StringPart, ParseError>
        requires { AreRead self.now.below.room (E.pre self.now.below.expression) (E.post self.now.below.expression)
            (S.pre self.now.below.statement) (S.post self.now.below.statement) }
        ensures { ReadsAs part_tree (rules.hole_rest self.now.below.room at tokens.old) result tokens.new }
    {
        tokens.skip_lines();
        let inner = self
            .below
            .inner_expression(Precedence::Disjunction, at, tokens)?;
        tokens.skip_lines();
        let (inner, _) = beside(inner, expect(tokens, Sign::CloseBrace))?;
        Ok(hole(self.below.alloc, inner)?)
    }
}

/// A run of characters, an escape, or a `$` before anything else.
fn text_rest(tokens: &mut Tokens<'_>) -> Result<StringPart, ParseError>
    ensures { ReadsAs part_tree (rules.text_rest tokens.old) result tokens.new }
{
    match meant_text(tokens)? {
        Some((_, part)) => Ok(text(part)),
        None => Err(ParseError::Refused),
    }
}
