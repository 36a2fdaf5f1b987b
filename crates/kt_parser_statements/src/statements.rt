//! Statements.

ghost use Rattle.kt_parser_blocks.specs.Below.{AreRead};
ghost use Rattle.kt_parser_steps.specs.Steps.{Expects, ReadsAs};
ghost use Rattle.kt_tree.specs.Bodies as tree;
ghost use Rattle.kt_tree.specs.Bodies.{body_tree, expression_tree, statement_tree};
ghost use Rattle.kt_parser_statements.specs.Rules as rules;
ghost use Rattle.kt_grammar.specs.Levels as grammar;
ghost use Rattle.kt_grammar.specs.Readers.{meant};
ghost use Rattle.kt_grammar.specs.Statements as sentences;
ghost use Rattle.kt_grammar.specs.Terminals as terminals;
ghost use Rattle.kt_grammar.specs.Terminals.{range_of};
ghost use Rattle.kt_parser_steps.specs.Chosen.{found_token};
ghost use Rattle.std.specs.Prelude.{◌≡◌, IfOk, option_map};

use kt_base::NoMemory;
use kt_grammar::Context;
use kt_parser_blocks::{Below, Precedence};
use kt_parser_operators::Operators;
use kt_parser_steps::{
    ParseError, Refused, Tokens, beside, expect, expect_identifier, expect_keyword, keyword_if,
    name_of, sign_if, take_assignment_operator, take_range_operator, take_step_operator,
    take_variable,
};
use kt_parser_types::annotation;
use kt_tree::{
    AssignmentOperator, ControlStructureBody, Expression, ExpressionKind, Keyword, RangeOperator,
    Sign, Statement, Token,
};
use kt_tree_nodes::statements::{assign, do_while, evaluate, for_loop, local, step, while_loop};
use std::alloc::Global;

/// The parser of the statements that hold phrases of at most `room` levels.
#[derive(Clone, Copy)]
pub struct Statements<E, S> {
    /// Where it stands, and what reads the levels below.
    pub below: Below<E, S>,
}

/// In the body of a loop.
fn in_loop(at: Context) -> Context
    ensures { result ≡ sentences.in_loop at }
{
    Context {
        in_loop: true,
        ..at
    }
}

/// Whether the expression can stand before an assignment: a name, a member behind `.`, or an element.
fn is_target(value: &Expression) -> bool
    ensures { result ≡ grammar.is_target (expression_tree value.now) }
{
    matches!(
        value.kind,
        ExpressionKind::Name(_) | ExpressionKind::Member(_, false, _) | ExpressionKind::Index(_, _)
    )
}

impl<
    E: Fn(Global, u32, Precedence, Context, &mut Tokens<'_>) -> Result<Expression, ParseError>
        + Copy,
    S: Fn(Global, u32, Context, &mut Tokens<'_>) -> Result<Statement, ParseError> + Copy,
> Statements<E, S> {
    /// A declaration of a variable, a loop, or an expression with what may stand behind it.
    pub(crate) fn whole_statement(
        &self,
        at: Context,
        tokens: &mut Tokens<'_>,
    ) -> Result<Statement, ParseError>
        requires { AreRead self.now.below.room (E.pre self.now.below.expression) (E.post self.now.below.expression)
            (S.pre self.now.below.statement) (S.post self.now.below.statement) }
        ensures { ReadsAs statement_tree (rules.statement self.now.below.room at tokens.old) result tokens.new }
    {
        match take_variable(true, tokens) {
            Some((token, variable)) => self.local_rest(token, variable, at, tokens),
            None => self.loop_or_simple(at, tokens),
        }
    }

    /// A statement that declares no variable.
    fn loop_or_simple(&self, at: Context, tokens: &mut Tokens<'_>) -> Result<Statement, ParseError>
        requires { AreRead self.now.below.room (E.pre self.now.below.expression) (E.post self.now.below.expression)
            (S.pre self.now.below.statement) (S.post self.now.below.statement) }
        ensures { ReadsAs statement_tree (rules.loop_or_simple self.now.below.room at tokens.old) result tokens.new }
    {
        let deep = self.below.is_deep();
        match keyword_if(deep, tokens, Keyword::While) {
            Some(token) => self.while_rest(token, at, tokens),
            None => match keyword_if(deep, tokens, Keyword::Do) {
                Some(token) => self.do_rest(token, at, tokens),
                None => match keyword_if(deep, tokens, Keyword::For) {
                    Some(token) => self.for_rest(token, at, tokens),
                    None => self.simple_without_brace(at, tokens),
                },
            },
        }
    }

    /// No statement begins with `{`.
    fn simple_without_brace(
        &self,
        at: Context,
        tokens: &mut Tokens<'_>,
    ) -> Result<Statement, ParseError>
        requires { AreRead self.now.below.room (E.pre self.now.below.expression) (E.post self.now.below.expression)
            (S.pre self.now.below.statement) (S.post self.now.below.statement) }
        ensures { ReadsAs statement_tree (rules.simple_without_brace self.now.below.room at tokens.old)
            result tokens.new }
    {
        if begins_with_brace(tokens) {
            return Err(tokens.refuse());
        }
        self.simple(at, tokens)
    }

    /// An expression, and perhaps an assignment or a step behind it.
    fn simple(&self, at: Context, tokens: &mut Tokens<'_>) -> Result<Statement, ParseError>
        requires { AreRead self.now.below.room (E.pre self.now.below.expression) (E.post self.now.below.expression)
            (S.pre self.now.below.statement) (S.post self.now.below.statement) }
        ensures { ReadsAs statement_tree (rules.simple self.now.below.room at tokens.old) result tokens.new }
    {
        let target = Operators { below: self.below }.whole_expression(
            Precedence::Disjunction,
            at,
            tokens,
        )?;
        self.assignment_rest(at, target, tokens)
    }

    /// `(assign-op n expr | step-op)?`, behind the target.
    fn assignment_rest(
        &self,
        at: Context,
        target: Expression,
        tokens: &mut Tokens<'_>,
    ) -> Result<Statement, ParseError>
        requires { AreRead self.now.below.room (E.pre self.now.below.expression) (E.post self.now.below.expression)
            (S.pre self.now.below.statement) (S.post self.now.below.statement) }
        ensures { ReadsAs statement_tree
            (rules.assignment_rest self.now.below.room at (expression_tree target) tokens.old) result tokens.new }
    {
        let assigns = self.assigns(&target);
        match take_assignment_operator(assigns, tokens) {
            Some((_, operator)) => self.assign_rest(at, target, operator, tokens),
            None => match take_step_operator(assigns, tokens) {
                Some((_, operator)) => Ok(step(self.below.alloc, target, operator)?),
                None => Ok(evaluate(self.below.alloc, target)?),
            },
        }
    }

    /// `n expr`, behind an operator of an assignment.
    fn assign_rest(
        &self,
        at: Context,
        target: Expression,
        operator: AssignmentOperator,
        tokens: &mut Tokens<'_>,
    ) -> Result<Statement, ParseError>
        requires { AreRead self.now.below.room (E.pre self.now.below.expression) (E.post self.now.below.expression)
            (S.pre self.now.below.statement) (S.post self.now.below.statement) }
        ensures { ReadsAs statement_tree
            (rules.assign_rest self.now.below.room at (expression_tree target) operator tokens.old) result tokens.new }
    {
        tokens.skip_lines();
        let value = self
            .below
            .inner_expression(Precedence::Disjunction, at, tokens);
        let (target, value) = beside(target, value)?;
        Ok(assign(self.below.alloc, target, operator, value)?)
    }

    /// Whether an assignment may follow: there is a target, and room for a level above it.
    fn assigns(&self, target: &Expression) -> bool
        requires { AreRead self.now.below.room (E.pre self.now.below.expression) (E.post self.now.below.expression)
            (S.pre self.now.below.statement) (S.post self.now.below.statement) }
        ensures { result ≡ rules.assigns self.now.below.room (expression_tree target.now) }
    {
        is_target(target) && self.below.has_more(target)
    }

    /// `ID (':' type)? ('=' n expr)?`, behind this `val` or `var`.
    fn local_rest(
        &self,
        start: &Token,
        variable: bool,
        at: Context,
        tokens: &mut Tokens<'_>,
    ) -> Result<Statement, ParseError>
        requires { AreRead self.now.below.room (E.pre self.now.below.expression) (E.post self.now.below.expression)
            (S.pre self.now.below.statement) (S.post self.now.below.statement) }
        ensures { ReadsAs statement_tree (rules.local_rest self.now.below.room at (start.now, variable) tokens.old)
            result tokens.new }
    {
        let token = expect_identifier(tokens)?;
        let name = name_of(self.below.alloc, token)?;
        let written = annotation(self.below.alloc, self.below.room + 1, tokens)?;
        let (written, initializer) = beside(written, self.initializer(at, tokens))?;
        Ok(local(
            self.below.alloc,
            start.pos,
            variable,
            name,
            written,
            initializer,
        )?)
    }

    /// `('=' n expr)?`
    fn initializer(
        &self,
        at: Context,
        tokens: &mut Tokens<'_>,
    ) -> Result<Option<Expression>, ParseError>
        requires { AreRead self.now.below.room (E.pre self.now.below.expression) (E.post self.now.below.expression)
            (S.pre self.now.below.statement) (S.post self.now.below.statement) }
        ensures { ReadsAs (option_map expression_tree) (rules.initializer self.now.below.room at tokens.old)
            result tokens.new }
    {
        match sign_if(self.below.is_deep(), tokens, Sign::Assign) {
            Some(_) => self.initial_value(at, tokens),
            None => Ok(None),
        }
    }

    /// `n expr`, behind `=`.
    fn initial_value(
        &self,
        at: Context,
        tokens: &mut Tokens<'_>,
    ) -> Result<Option<Expression>, ParseError>
        requires { AreRead self.now.below.room (E.pre self.now.below.expression) (E.post self.now.below.expression)
            (S.pre self.now.below.statement) (S.post self.now.below.statement) }
        ensures { ReadsAs (option_map expression_tree) (rules.initial_value self.now.below.room at tokens.old)
            result tokens.new }
    {
        tokens.skip_lines();
        let value = self
            .below
            .inner_expression(Precedence::Disjunction, at, tokens)?;
        Ok(Some(value))
    }

    /// `'(' expr ')' n body`, behind this `while`. The condition is not in the loop.
    fn while_rest(
        &self,
        start: &Token,
        at: Context,
        tokens: &mut Tokens<'_>,
    ) -> Result<Statement, ParseError>
        requires { AreRead self.now.below.room (E.pre self.now.below.expression) (E.post self.now.below.expression)
            (S.pre self.now.below.statement) (S.post self.now.below.statement) }
        ensures { ReadsAs statement_tree (rules.while_rest self.now.below.room at start.now tokens.old)
            result tokens.new }
    {
        expect(tokens, Sign::OpenParenthesis)?;
        let condition = self
            .below
            .inner_expression(Precedence::Disjunction, at, tokens)?;
        let (condition, _) = beside(condition, expect(tokens, Sign::CloseParenthesis))?;
        tokens.skip_lines();
        let body = self.below.inner_body(in_loop(at), tokens);
        let (condition, body) = beside(condition, body)?;
        Ok(while_loop(self.below.alloc, start.pos, condition, body)?)
    }

    /// `n block n 'while' '(' expr ')'`, behind this `do`.
    fn do_rest(
        &self,
        start: &Token,
        at: Context,
        tokens: &mut Tokens<'_>,
    ) -> Result<Statement, ParseError>
        requires { AreRead self.now.below.room (E.pre self.now.below.expression) (E.post self.now.below.expression)
            (S.pre self.now.below.statement) (S.post self.now.below.statement) }
        ensures { ReadsAs statement_tree (rules.do_rest self.now.below.room at start.now tokens.old) result tokens.new }
    {
        tokens.skip_lines();
        let body = self.below.block(in_loop(at), tokens)?;
        tokens.skip_lines();
        let (body, _) = beside(body, expect_keyword(tokens, Keyword::While))?;
        let (body, _) = beside(body, expect(tokens, Sign::OpenParenthesis))?;
        let condition = self
            .below
            .inner_expression(Precedence::Disjunction, at, tokens);
        let (body, condition) = beside(body, condition)?;
        let close = expect(tokens, Sign::CloseParenthesis);
        let ((body, condition), _) = beside((body, condition), close)?;
        Ok(do_while(self.below.alloc, start.pos, body, condition)?)
    }

    /// `'(' ID 'in' first ('..' | 'until') bound ')' n body`, behind this `for`.
    fn for_rest(
        &self,
        start: &Token,
        at: Context,
        tokens: &mut Tokens<'_>,
    ) -> Result<Statement, ParseError>
        requires { AreRead self.now.below.room (E.pre self.now.below.expression) (E.post self.now.below.expression)
            (S.pre self.now.below.statement) (S.post self.now.below.statement) }
        ensures { ReadsAs statement_tree (rules.for_rest self.now.below.room at start.now tokens.old)
            result tokens.new }
    {
        expect(tokens, Sign::OpenParenthesis)?;
        let variable = expect_identifier(tokens)?;
        expect_keyword(tokens, Keyword::In)?;
        self.for_range(start, variable, at, tokens)
    }

    /// `first ('..' | 'until') bound ')' n body`, behind `in`. The bounds are not in the loop.
    fn for_range(
        &self,
        start: &Token,
        variable: &Token,
        at: Context,
        tokens: &mut Tokens<'_>,
    ) -> Result<Statement, ParseError>
        requires { AreRead self.now.below.room (E.pre self.now.below.expression) (E.post self.now.below.expression)
            (S.pre self.now.below.statement) (S.post self.now.below.statement) }
        ensures { ReadsAs statement_tree (rules.for_range self.now.below.room at start.now variable.now tokens.old)
            result tokens.new }
    {
        let first = self
            .below
            .inner_expression(Precedence::Additive, at, tokens)?;
        let (first, (_, operator)) = beside(first, range_operator(tokens))?;
        let bound = self
            .below
            .inner_expression(Precedence::Additive, at, tokens);
        let (first, bound) = beside(first, bound)?;
        let ((first, bound), _) = beside((first, bound), expect(tokens, Sign::CloseParenthesis))?;
        self.for_body(start, variable, first, operator, bound, at, tokens)
    }

    /// `n body`, behind the `)` of a `for`.
    fn for_body(
        &self,
        start: &Token,
        variable: &Token,
        first: Expression,
        operator: RangeOperator,
        bound: Expression,
        at: Context,
        tokens: &mut Tokens<'_>,
    ) -> Result<Statement, ParseError>
        requires { AreRead self.now.below.room (E.pre self.now.below.expression) (E.post self.now.below.expression)
            (S.pre self.now.below.statement) (S.post self.now.below.statement) }
        ensures { ReadsAs statement_tree
            (rules.for_body self.now.below.room at start.now variable.now (expression_tree first) operator
            (expression_tree bound) tokens.old) result tokens.new }
    {
        tokens.skip_lines();
        let body = self.below.inner_body(in_loop(at), tokens);
        let ((first, bound), body) = beside((first, bound), body)?;
        Ok(for_variable(
            self.below.alloc,
            start,
            variable,
            first,
            operator,
            bound,
            body,
        )?)
    }
}

/// A `for` over the variable that a token names.
fn for_variable(
    alloc: Global,
    start: &Token,
    variable: &Token,
    first: Expression,
    operator: RangeOperator,
    bound: Expression,
    body: ControlStructureBody,
) -> Result<Statement, NoMemory>
    ensures { IfOk result
        (λ s. statement_tree s ≡ tree.for start.now.pos (terminals.name_of variable.now) (expression_tree first)
        operator (expression_tree bound) (body_tree body)) }
{
    let ((first, bound, body), name) = beside((first, bound, body), name_of(alloc, variable))?;
    for_loop(alloc, start.pos, name, first, operator, bound, body)
}

/// Whether the next token is `{`. Nothing is marked.
fn begins_with_brace(tokens: &Tokens<'_>) -> bool
    ensures { result ≡ rules.begins_with_brace tokens.now }
{
    match tokens.rest() {
        [token, ..] => token.is_sign(Sign::OpenBrace),
        [] => false,
    }
}

/// `'..' | 'until'`
fn range_operator<'a>(tokens: &mut Tokens<'a>) -> Result<(&'a Token, RangeOperator), Refused>
    ensures { Expects found_token (meant range_of tokens.old) result tokens.new }
{
    match take_range_operator(true, tokens) {
        Some(found) => Ok(found),
        None => Err(Refused),
    }
}
