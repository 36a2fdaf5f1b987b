//! Suffixes: calls, members, elements and `!!`.

ghost use Rattle.kt_parser_blocks.specs.Below.{AreRead};
ghost use Rattle.kt_grammar.specs.Declarations.{outside};
ghost use Rattle.kt_grammar.specs.StatementParser.{parsers};
ghost use Rattle.kt_parser_steps.specs.Steps.{ReadsAs};
ghost use Rattle.kt_tree.specs.Bodies.{expression_tree};
ghost use Rattle.kt_parser_operators.specs.Rules as rules;
ghost use Rattle.kt_grammar.specs.ExpressionParser as parser;
ghost use Rattle.kt_grammar.specs.Levels as grammar;
ghost use Rattle.kt_parser_steps.specs.Steps.{turn_tree};
ghost use Rattle.kt_tree.specs.Types.{type_tree};
ghost use Rattle.std.specs.Prelude.{◌≡◌, map, suc};

use crate::operators::Operators;
use kt_base::Pos;
use kt_grammar::Context;
use kt_parser_blocks::Precedence;
use kt_parser_primaries::Primaries;
use kt_parser_steps::{
    ParseError, TokenClass, Tokens, Turn, attempt_if, beside, class_ahead, class_ahead_if, expect,
    expect_identifier, maybe_comma_list, name_of, repeat, sign_ahead, sign_if, take_member,
};
use kt_parser_types::type_list;
use kt_tree::{Expression, ExpressionKind, Sign, Statement, TypeReference};
use kt_tree_nodes::expressions::{call, index, member, not_null, place_of};
use sqlite_items::Items;
use std::alloc::Global;

/// Whether a name stands last, so that type arguments may follow.
fn ends_in_name(value: &Expression) -> bool
    ensures { result ≡ grammar.ends_in_name (expression_tree value.now) }
{
    matches!(
        value.kind,
        ExpressionKind::Name(_) | ExpressionKind::Member(_, _, _)
    )
}

impl<
    E: Fn(Global, u32, Precedence, Context, &mut Tokens<'_>) -> Result<Expression, ParseError>
        + Copy,
    S: Fn(Global, u32, Context, &mut Tokens<'_>) -> Result<Statement, ParseError> + Copy,
> Operators<E, S> {
    /// `value`, or `value` with the suffix that comes next, where there is room for it.
    fn suffix_turn(
        &self,
        at: Context,
        value: Expression,
        tokens: &mut Tokens<'_>,
    ) -> Result<Turn<Expression, Expression>, ParseError>
        requires { AreRead self.now.below.room (E.pre self.now.below.expression) (E.post self.now.below.expression)
            (S.pre self.now.below.statement) (S.post self.now.below.statement) }
        ensures { ReadsAs (turn_tree expression_tree expression_tree)
            (rules.suffix_turn self.now.below.room at (expression_tree value) tokens.old) result tokens.new }
    {
        let types = attempt_if(
            ends_in_name(&value),
            tokens,
            &|tokens: &mut Tokens<'_>| self.type_arguments_of_call(tokens),
        );
        let (value, types) = beside(value, types)?;
        match types {
            Some((types, start)) => self.call_rest(at, value, start, types, tokens),
            None => self.plain_suffix_turn(at, value, tokens),
        }
    }

    /// `arguments`, those of a call, behind its type arguments, which begin at `start`.
    fn call_rest(
        &self,
        at: Context,
        value: Expression,
        start: Pos,
        types: Items<TypeReference>,
        tokens: &mut Tokens<'_>,
    ) -> Result<Turn<Expression, Expression>, ParseError>
        requires { AreRead self.now.below.room (E.pre self.now.below.expression) (E.post self.now.below.expression)
            (S.pre self.now.below.statement) (S.post self.now.below.statement) }
        ensures { ReadsAs (turn_tree expression_tree expression_tree)
            (rules.call_rest self.now.below.room at (expression_tree value) (map type_tree types, start) tokens.old)
            result tokens.new }
    {
        let arguments = self.call_arguments(at, tokens);
        let ((value, types), (arguments, _)) = beside((value, types), arguments)?;
        Ok(Turn::More(call(self.below.alloc, value, start, types, arguments)?))
    }

    /// `arguments`, those of a call without type arguments.
    fn plain_call(
        &self,
        at: Context,
        value: Expression,
        tokens: &mut Tokens<'_>,
    ) -> Result<Turn<Expression, Expression>, ParseError>
        requires { AreRead self.now.below.room (E.pre self.now.below.expression) (E.post self.now.below.expression)
            (S.pre self.now.below.statement) (S.post self.now.below.statement) }
        ensures { ReadsAs (turn_tree expression_tree expression_tree)
            (rules.plain_call self.now.below.room at (expression_tree value) tokens.old) result tokens.new }
    {
        let arguments = self.call_arguments(at, tokens);
        let (value, (arguments, start)) = beside(value, arguments)?;
        let types = Items::new(self.below.alloc);
        Ok(Turn::More(call(self.below.alloc, value, start, types, arguments)?))
    }

    /// A primary expression, and the suffixes behind it.
    pub(crate) fn postfix(
        &self,
        at: Context,
        tokens: &mut Tokens<'_>,
    ) -> Result<Expression, ParseError>
        requires { AreRead self.now.below.room (E.pre self.now.below.expression) (E.post self.now.below.expression)
            (S.pre self.now.below.statement) (S.post self.now.below.statement) }
        ensures { ReadsAs expression_tree (rules.postfix self.now.below.room at tokens.old) result tokens.new }
    {
        let first = Primaries { below: self.below }.primary(at, tokens)?;
        repeat(
            tokens,
            first,
            &|value: Expression, tokens: &mut Tokens<'_>| self.suffix_turn(at, value, tokens),
        )
    }

    /// Type arguments, where the arguments of a call follow, and the place of the `<`.
    fn type_arguments_of_call(
        &self,
        tokens: &mut Tokens<'_>,
    ) -> Result<(Items<TypeReference>, Pos), ParseError>
        requires { AreRead self.now.below.room (E.pre self.now.below.expression) (E.post self.now.below.expression)
            (S.pre self.now.below.statement) (S.post self.now.below.statement) }
        ensures { ReadsAs (λ list. (map type_tree list.0, list.1))
            (rules.type_arguments_of_call self.now.below.room tokens.old) result tokens.new }
    {
        let start = expect(tokens, Sign::Less)?.pos;
        let types = type_list(self.below.alloc, self.below.room + 1, tokens)?;
        if class_ahead(tokens, TokenClass::OpensArguments) {
            Ok((types, start))
        } else {
            Err(ParseError::Refused)
        }
    }

    /// Whether there is room for a call without arguments: a call and the name that is called are one node.
    fn has_call(&self, called: &Expression) -> bool
        requires { AreRead self.now.below.room (E.pre self.now.below.expression) (E.post self.now.below.expression)
            (S.pre self.now.below.statement) (S.post self.now.below.statement) }
        ensures { result ≡ parser.has_call (suc self.now.below.room) (parsers self.now.below.room) outside
            (expression_tree called.now) }
    {
        let held = match &called.kind {
            ExpressionKind::Name(_) => 0,
            ExpressionKind::Member(_, _, _) => called.levels().saturating_sub(1),
            _ => called.levels(),
        };
        held <= self.below.room
    }

    /// A suffix without type arguments.
    fn plain_suffix_turn(
        &self,
        at: Context,
        value: Expression,
        tokens: &mut Tokens<'_>,
    ) -> Result<Turn<Expression, Expression>, ParseError>
        requires { AreRead self.now.below.room (E.pre self.now.below.expression) (E.post self.now.below.expression)
            (S.pre self.now.below.statement) (S.post self.now.below.statement) }
        ensures { ReadsAs (turn_tree expression_tree expression_tree)
            (rules.plain_suffix_turn self.now.below.room at (expression_tree value) tokens.old) result tokens.new }
    {
        let allowed = self.has_call(&value);
        if class_ahead_if(allowed, tokens, TokenClass::OpensArguments) {
            self.plain_call(at, value, tokens)
        } else {
            self.other_suffix_turn(at, value, tokens)
        }
    }

    /// A suffix that is no call: `'!!'`, an element, or a member.
    fn other_suffix_turn(
        &self,
        at: Context,
        value: Expression,
        tokens: &mut Tokens<'_>,
    ) -> Result<Turn<Expression, Expression>, ParseError>
        requires { AreRead self.now.below.room (E.pre self.now.below.expression) (E.post self.now.below.expression)
            (S.pre self.now.below.statement) (S.post self.now.below.statement) }
        ensures { ReadsAs (turn_tree expression_tree expression_tree)
            (rules.other_suffix_turn self.now.below.room at (expression_tree value) tokens.old) result tokens.new }
    {
        let allowed = self.below.has_more(&value);
        match sign_if(allowed, tokens, Sign::NotNull) {
            Some(_) => Ok(Turn::More(not_null(self.below.alloc, value)?)),
            None => match sign_if(allowed, tokens, Sign::OpenBracket) {
                Some(_) => self.element_rest(at, value, tokens),
                None => self.member_turn(allowed, value, tokens),
            },
        }
    }

    /// `expr ']'`, behind `[`.
    fn element_rest(
        &self,
        at: Context,
        value: Expression,
        tokens: &mut Tokens<'_>,
    ) -> Result<Turn<Expression, Expression>, ParseError>
        requires { AreRead self.now.below.room (E.pre self.now.below.expression) (E.post self.now.below.expression)
            (S.pre self.now.below.statement) (S.post self.now.below.statement) }
        ensures { ReadsAs (turn_tree expression_tree expression_tree)
            (rules.element_rest self.now.below.room at (expression_tree value) tokens.old) result tokens.new }
    {
        let element = self
            .below
            .inner_expression(Precedence::Disjunction, at, tokens);
        let (value, element) = beside(value, element)?;
        let ((value, element), _) = beside((value, element), expect(tokens, Sign::CloseBracket))?;
        Ok(Turn::More(index(self.below.alloc, value, element)?))
    }

    /// `(n ('.' | '?.') n ID)?`
    fn member_turn(
        &self,
        allowed: bool,
        value: Expression,
        tokens: &mut Tokens<'_>,
    ) -> Result<Turn<Expression, Expression>, ParseError>
        ensures { ReadsAs (turn_tree expression_tree expression_tree)
            (rules.member_turn allowed (expression_tree value) tokens.old) result tokens.new }
    {
        match take_member(allowed, tokens) {
            Some((_, safe)) => self.member_rest(value, safe, tokens),
            None => Ok(Turn::Done(value)),
        }
    }

    /// `n ID`, behind the sign of a member.
    fn member_rest(
        &self,
        value: Expression,
        safe: bool,
        tokens: &mut Tokens<'_>,
    ) -> Result<Turn<Expression, Expression>, ParseError>
        ensures { ReadsAs (turn_tree expression_tree expression_tree)
            (rules.member_rest (expression_tree value) safe tokens.old) result tokens.new }
    {
        tokens.skip_lines();
        let (value, token) = beside(value, expect_identifier(tokens))?;
        let (value, name) = beside(value, name_of(self.below.alloc, token))?;
        Ok(Turn::More(member(self.below.alloc, value, safe, name)?))
    }

    /// The arguments of a call, in parentheses and perhaps a lambda behind them, or a lambda alone; and where they
    /// begin.
    fn call_arguments(
        &self,
        at: Context,
        tokens: &mut Tokens<'_>,
    ) -> Result<(Items<Expression>, Pos), ParseError>
        requires { AreRead self.now.below.room (E.pre self.now.below.expression) (E.post self.now.below.expression)
            (S.pre self.now.below.statement) (S.post self.now.below.statement) }
        ensures { ReadsAs (λ list. (map expression_tree list.0, list.1))
            (rules.call_arguments self.now.below.room at tokens.old) result tokens.new }
    {
        match tokens.take_sign(Sign::OpenParenthesis) {
            Some(token) => self.placed_arguments(token.pos, at, tokens),
            None => self.lambda_argument(at, tokens),
        }
    }

    /// The arguments behind `(`, which stands at `start`.
    fn placed_arguments(
        &self,
        start: Pos,
        at: Context,
        tokens: &mut Tokens<'_>,
    ) -> Result<(Items<Expression>, Pos), ParseError>
        requires { AreRead self.now.below.room (E.pre self.now.below.expression) (E.post self.now.below.expression)
            (S.pre self.now.below.statement) (S.post self.now.below.statement) }
        ensures { ReadsAs (λ list. (map expression_tree list.0, list.1))
            (rules.placed_arguments self.now.below.room at start tokens.old) result tokens.new }
    {
        let arguments = self.arguments_rest(at, tokens)?;
        Ok((arguments, start))
    }

    /// A lambda alone, and where it begins.
    fn lambda_argument(
        &self,
        at: Context,
        tokens: &mut Tokens<'_>,
    ) -> Result<(Items<Expression>, Pos), ParseError>
        requires { AreRead self.now.below.room (E.pre self.now.below.expression) (E.post self.now.below.expression)
            (S.pre self.now.below.statement) (S.post self.now.below.statement) }
        ensures { ReadsAs (λ list. (map expression_tree list.0, list.1))
            (rules.lambda_argument self.now.below.room at tokens.old) result tokens.new }
    {
        let lambda = self.below.inner_lambda(at, tokens)?;
        let start = place_of(&lambda);
        let mut arguments = Items::new(self.below.alloc);
        arguments.push(lambda)?;
        Ok((arguments, start))
    }

    /// Expressions with commas between them, and the `)` behind them.
    fn arguments_in_parentheses(
        &self,
        at: Context,
        tokens: &mut Tokens<'_>,
    ) -> Result<Items<Expression>, ParseError>
        requires { AreRead self.now.below.room (E.pre self.now.below.expression) (E.post self.now.below.expression)
            (S.pre self.now.below.statement) (S.post self.now.below.statement) }
        ensures { ReadsAs (map expression_tree) (rules.arguments_in_parentheses self.now.below.room at tokens.old)
            result tokens.new }
    {
        maybe_comma_list(
            self.below.alloc,
            tokens,
            Sign::CloseParenthesis,
            &|tokens: &mut Tokens<'_>| self
                .below
                .inner_expression(Precedence::Disjunction, at, tokens),
        )
    }

    /// The arguments behind `(`, and perhaps a lambda behind the `)`, which is the last of them.
    fn arguments_rest(
        &self,
        at: Context,
        tokens: &mut Tokens<'_>,
    ) -> Result<Items<Expression>, ParseError>
        requires { AreRead self.now.below.room (E.pre self.now.below.expression) (E.post self.now.below.expression)
            (S.pre self.now.below.statement) (S.post self.now.below.statement) }
        ensures { ReadsAs (map expression_tree) (rules.arguments_rest self.now.below.room at tokens.old)
            result tokens.new }
    {
        let arguments = self.arguments_in_parentheses(at, tokens)?;
        self.with_lambda(at, arguments, tokens)
    }

    /// `lambda?`, behind the `)`: the last of the arguments. It is there where a `{` is.
    fn with_lambda(
        &self,
        at: Context,
        arguments: Items<Expression>,
        tokens: &mut Tokens<'_>,
    ) -> Result<Items<Expression>, ParseError>
        requires { AreRead self.now.below.room (E.pre self.now.below.expression) (E.post self.now.below.expression)
            (S.pre self.now.below.statement) (S.post self.now.below.statement) }
        ensures { ReadsAs (map expression_tree)
            (rules.with_lambda self.now.below.room at (map expression_tree arguments) tokens.old) result tokens.new }
    {
        if sign_ahead(tokens, Sign::OpenBrace) {
            self.lambda_behind(at, arguments, tokens)
        } else {
            Ok(arguments)
        }
    }

    /// `lambda`, behind the arguments in parentheses.
    fn lambda_behind(
        &self,
        at: Context,
        arguments: Items<Expression>,
        tokens: &mut Tokens<'_>,
    ) -> Result<Items<Expression>, ParseError>
        requires { AreRead self.now.below.room (E.pre self.now.below.expression) (E.post self.now.below.expression)
            (S.pre self.now.below.statement) (S.post self.now.below.statement) }
        ensures { ReadsAs (map expression_tree)
            (rules.lambda_behind self.now.below.room at (map expression_tree arguments) tokens.old) result tokens.new }
    {
        let lambda = self.below.inner_lambda(at, tokens);
        let (mut arguments, lambda) = beside(arguments, lambda)?;
        arguments.push(lambda)?;
        Ok(arguments)
    }
}
