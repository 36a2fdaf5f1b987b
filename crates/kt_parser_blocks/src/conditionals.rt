//! `if` and `when`.

ghost use Rattle.kt_parser_blocks.specs.Below.{AreRead};
ghost use Rattle.kt_grammar.specs.StatementParser.{parsers};
ghost use Rattle.kt_parser_steps.specs.Steps.{Expects, ReadsAs, given, place_of};
ghost use Rattle.kt_tree.specs.Bodies.{expression_tree};
ghost use Rattle.kt_parser_blocks.specs.Rules as rules;
ghost use Rattle.kt_tree.specs.Bodies.{body_tree, condition_tree, entry_tree};
ghost use Rattle.std.specs.Prelude.{map, option_map};

use crate::below::{Below, Precedence};
use kt_base::Pos;
use kt_grammar::Context;
use kt_parser_steps::{
    Lead, ParseError, Refused, TokenClass, Tokens, beside, class_ahead, expect, expect_keyword,
    part_if, separated, several, sign_if, take_type_check,
};
use kt_parser_types::read_type;
use kt_tree::{
    ControlStructureBody, Expression, Keyword, Sign, Statement, Token, WhenCondition, WhenEntry,
};
use kt_tree_nodes::blocks::{entry, equals, of_type};
use kt_tree_nodes::expressions::{if_else, when};
use sqlite_items::Items;
use std::alloc::Global;

/// `n 'else'`, or `';' n 'else'`: what follows is the same with the `;` and without.
fn else_keyword<'a>(tokens: &mut Tokens<'a>) -> Result<&'a Token, Refused>
    ensures { Expects (λ token. token.now) (rules.else_keyword tokens.old) result tokens.new }
{
    let _semicolon = tokens.take_sign(Sign::Semicolon);
    tokens.skip_lines();
    expect_keyword(tokens, Keyword::Else)
}

/// The `else` of an `if`: with `->` behind it, it begins an entry of a `when`.
fn else_word(tokens: &mut Tokens<'_>) -> Result<(), Refused>
    ensures { Expects (λ u. u) (rules.else_word tokens.old) result tokens.new }
{
    else_keyword(tokens)?;
    tokens.skip_lines();
    if class_ahead(tokens, TokenClass::NoArrow) {
        Ok(())
    } else {
        Err(Refused)
    }
}

impl<
    E: Fn(Global, u32, Precedence, Context, &mut Tokens<'_>) -> Result<Expression, ParseError>
        + Copy,
    S: Fn(Global, u32, Context, &mut Tokens<'_>) -> Result<Statement, ParseError> + Copy,
> Below<E, S> {
    /// `'(' expr ')' n body (else n body)?`, behind this `if`.
    pub fn if_rest(
        &self,
        start: &Token,
        at: Context,
        tokens: &mut Tokens<'_>,
    ) -> Result<Expression, ParseError>
        requires { AreRead self.now.room (E.pre self.now.expression) (E.post self.now.expression)
            (S.pre self.now.statement) (S.post self.now.statement) }
        ensures { ReadsAs expression_tree (rules.if_rest self.now.room at start.now tokens.old) result tokens.new }
    {
        expect(tokens, Sign::OpenParenthesis)?;
        let condition = self.inner_expression(Precedence::Disjunction, at, tokens)?;
        let (condition, _) = beside(condition, expect(tokens, Sign::CloseParenthesis))?;
        tokens.skip_lines();
        let (condition, then) = beside(condition, self.inner_body(at, tokens))?;
        self.else_rest(start, at, condition, then, tokens)
    }

    /// `(else n body)?`, behind the first branch.
    fn else_rest(
        &self,
        start: &Token,
        at: Context,
        condition: Expression,
        then: ControlStructureBody,
        tokens: &mut Tokens<'_>,
    ) -> Result<Expression, ParseError>
        requires { AreRead self.now.room (E.pre self.now.expression) (E.post self.now.expression)
            (S.pre self.now.statement) (S.post self.now.statement) }
        ensures { ReadsAs expression_tree
            (rules.else_rest self.now.room at start.now (expression_tree condition) (body_tree then) tokens.old)
            result tokens.new }
    {
        match part_if(true, tokens, &else_word) {
            Some(()) => self.else_body(start, at, condition, then, tokens),
            None => Ok(if_else(self.alloc, start.pos, condition, then, None)?),
        }
    }

    /// `n body`, behind `else`.
    fn else_body(
        &self,
        start: &Token,
        at: Context,
        condition: Expression,
        then: ControlStructureBody,
        tokens: &mut Tokens<'_>,
    ) -> Result<Expression, ParseError>
        requires { AreRead self.now.room (E.pre self.now.expression) (E.post self.now.expression)
            (S.pre self.now.statement) (S.post self.now.statement) }
        ensures { ReadsAs expression_tree
            (rules.else_body self.now.room at start.now (expression_tree condition) (body_tree then) tokens.old)
            result tokens.new }
    {
        let ((condition, then), other) = beside((condition, then), self.inner_body(at, tokens))?;
        Ok(if_else(self.alloc, start.pos, condition, then, Some(other))?)
    }

    /// `('(' subject ')')?`
    fn subject(
        &self,
        at: Context,
        tokens: &mut Tokens<'_>,
    ) -> Result<Option<Expression>, ParseError>
        requires { AreRead self.now.room (E.pre self.now.expression) (E.post self.now.expression)
            (S.pre self.now.statement) (S.post self.now.statement) }
        ensures { ReadsAs (option_map expression_tree) (rules.subject self.now.room at tokens.old) result tokens.new }
    {
        match sign_if(self.is_deep(), tokens, Sign::OpenParenthesis) {
            Some(_) => self.subject_rest(at, tokens),
            None => Ok(None),
        }
    }

    /// `subject ')'`, behind `(`.
    fn subject_rest(
        &self,
        at: Context,
        tokens: &mut Tokens<'_>,
    ) -> Result<Option<Expression>, ParseError>
        requires { AreRead self.now.room (E.pre self.now.expression) (E.post self.now.expression)
            (S.pre self.now.statement) (S.post self.now.statement) }
        ensures { ReadsAs (option_map expression_tree) (rules.subject_rest self.now.room at tokens.old)
            result tokens.new }
    {
        let subject = self.inner_expression(Precedence::Disjunction, at, tokens)?;
        let (subject, _) = beside(subject, expect(tokens, Sign::CloseParenthesis))?;
        Ok(Some(subject))
    }

    /// `('(' subject ')')? n '{' entries '}'`, behind this `when`.
    pub fn when_rest(
        &self,
        start: &Token,
        at: Context,
        tokens: &mut Tokens<'_>,
    ) -> Result<Expression, ParseError>
        requires { AreRead self.now.room (E.pre self.now.expression) (E.post self.now.expression)
            (S.pre self.now.statement) (S.post self.now.statement) }
        ensures { ReadsAs expression_tree (rules.when_rest self.now.room at start.now tokens.old) result tokens.new }
    {
        let subject = self.subject(at, tokens)?;
        tokens.skip_lines();
        let (subject, _) = beside(subject, expect(tokens, Sign::OpenBrace))?;
        self.entries_rest(start, at, subject, tokens)
    }

    /// `entries '}'`, behind the `{` of a `when`.
    fn entries_rest(
        &self,
        start: &Token,
        at: Context,
        subject: Option<Expression>,
        tokens: &mut Tokens<'_>,
    ) -> Result<Expression, ParseError>
        requires { AreRead self.now.room (E.pre self.now.expression) (E.post self.now.expression)
            (S.pre self.now.statement) (S.post self.now.statement) }
        ensures { ReadsAs expression_tree
            (rules.entries_rest self.now.room at start.now (option_map expression_tree subject) tokens.old)
            result tokens.new }
    {
        let has_subject = subject.is_some();
        let (subject, (entries, _)) = beside(subject, self.entries(at, has_subject, tokens))?;
        Ok(when(self.alloc, start.pos, subject, entries)?)
    }

    /// The entries up to the `}`, and its place.
    fn entries(
        &self,
        at: Context,
        has_subject: bool,
        tokens: &mut Tokens<'_>,
    ) -> Result<(Items<WhenEntry>, Pos), ParseError>
        requires { AreRead self.now.room (E.pre self.now.expression) (E.post self.now.expression)
            (S.pre self.now.statement) (S.post self.now.statement) }
        ensures { ReadsAs (λ list. (map entry_tree list.0, list.1))
            (given place_of (rules.entries self.now.room at has_subject) tokens.old) result tokens.new }
    {
        separated(
            self.alloc,
            tokens,
            TokenClass::CloseBrace,
            &|tokens: &mut Tokens<'_>| self.inner_entry(at, has_subject, tokens),
        )
    }

    /// An entry of at most `room` levels. It holds a body, so it needs two.
    fn inner_entry(
        &self,
        at: Context,
        has_subject: bool,
        tokens: &mut Tokens<'_>,
    ) -> Result<WhenEntry, ParseError>
        requires { AreRead self.now.room (E.pre self.now.expression) (E.post self.now.expression)
            (S.pre self.now.statement) (S.post self.now.statement) }
        ensures { ReadsAs entry_tree ((parsers self.now.room).entry at has_subject tokens.old) result tokens.new }
    {
        if self.room <= 1 {
            return Err(tokens.refuse());
        }
        self.lower().entry(at, has_subject, tokens)
    }

    /// `(conditions | 'else') '->' body`
    fn entry(
        &self,
        at: Context,
        has_subject: bool,
        tokens: &mut Tokens<'_>,
    ) -> Result<WhenEntry, ParseError>
        requires { AreRead self.now.room (E.pre self.now.expression) (E.post self.now.expression)
            (S.pre self.now.statement) (S.post self.now.statement) }
        ensures { ReadsAs entry_tree (rules.entry self.now.room at has_subject tokens.old) result tokens.new }
    {
        let conditions = self.entry_head(at, has_subject, tokens)?;
        tokens.skip_lines();
        let (conditions, _) = beside(conditions, expect(tokens, Sign::Arrow))?;
        tokens.skip_lines();
        let (conditions, body) = beside(conditions, self.inner_body(at, tokens))?;
        Ok(entry(conditions, body))
    }

    /// `else`, or conditions with commas between them.
    fn entry_head(
        &self,
        at: Context,
        has_subject: bool,
        tokens: &mut Tokens<'_>,
    ) -> Result<Items<WhenCondition>, ParseError>
        requires { AreRead self.now.room (E.pre self.now.expression) (E.post self.now.expression)
            (S.pre self.now.statement) (S.post self.now.statement) }
        ensures { ReadsAs (map condition_tree) (rules.entry_head self.now.room at has_subject tokens.old)
            result tokens.new }
    {
        match tokens.take_keyword(Keyword::Else) {
            Some(_) => Ok(Items::new(self.alloc)),
            None => several(
                self.alloc,
                tokens,
                Lead::Nothing,
                &|tokens: &mut Tokens<'_>| self.inner_condition(at, has_subject, tokens),
            ),
        }
    }

    /// A condition of at most `room` levels.
    fn inner_condition(
        &self,
        at: Context,
        has_subject: bool,
        tokens: &mut Tokens<'_>,
    ) -> Result<WhenCondition, ParseError>
        requires { AreRead self.now.room (E.pre self.now.expression) (E.post self.now.expression)
            (S.pre self.now.statement) (S.post self.now.statement) }
        ensures { ReadsAs condition_tree ((parsers self.now.room).condition at has_subject tokens.old)
            result tokens.new }
    {
        if self.room == 0 {
            return Err(tokens.refuse());
        }
        self.lower().condition(at, has_subject, tokens)
    }

    /// A type check where there is a subject, or an expression.
    fn condition(
        &self,
        at: Context,
        has_subject: bool,
        tokens: &mut Tokens<'_>,
    ) -> Result<WhenCondition, ParseError>
        requires { AreRead self.now.room (E.pre self.now.expression) (E.post self.now.expression)
            (S.pre self.now.statement) (S.post self.now.statement) }
        ensures { ReadsAs condition_tree (rules.condition self.now.room at has_subject tokens.old) result tokens.new }
    {
        match take_type_check(has_subject, tokens) {
            Some((_, negated)) => self.type_condition(negated, tokens),
            None => self.equals_condition(at, tokens),
        }
    }

    /// `type`, behind `is` or `!is`.
    fn type_condition(
        &self,
        negated: bool,
        tokens: &mut Tokens<'_>,
    ) -> Result<WhenCondition, ParseError>
        requires { AreRead self.now.room (E.pre self.now.expression) (E.post self.now.expression)
            (S.pre self.now.statement) (S.post self.now.statement) }
        ensures { ReadsAs condition_tree (rules.type_condition self.now.room negated tokens.old) result tokens.new }
    {
        let written = read_type(self.alloc, self.room + 1, tokens)?;
        Ok(of_type(negated, written))
    }

    /// `expr`
    fn equals_condition(
        &self,
        at: Context,
        tokens: &mut Tokens<'_>,
    ) -> Result<WhenCondition, ParseError>
        requires { AreRead self.now.room (E.pre self.now.expression) (E.post self.now.expression)
            (S.pre self.now.statement) (S.post self.now.statement) }
        ensures { ReadsAs condition_tree (rules.equals_condition self.now.room at tokens.old) result tokens.new }
    {
        let value = self.inner_expression(Precedence::Disjunction, at, tokens)?;
        Ok(equals(self.alloc, value)?)
    }
}
