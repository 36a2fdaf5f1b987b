//! Operators, from the rows of precedence that bind least to prefixes. A chain groups to the left.

ghost use Rattle.kt_parser_blocks.specs.Below.{AreRead};
ghost use Rattle.kt_parser_steps.specs.Steps.{ReadsAs};
ghost use Rattle.kt_tree.specs.Bodies.{expression_tree};
ghost use Rattle.kt_parser_operators.specs.Rules as rules;
ghost use Rattle.kt_grammar_parsers.specs.Parsers.{repeat};
ghost use Rattle.kt_parser_steps.specs.Steps.{turn_tree};
ghost use Rattle.std.specs.Prelude.{◌≡◌};

use kt_grammar::Context;
use kt_parser_blocks::{Below, Precedence};
use kt_parser_steps::{
    BinaryLevel, ParseError, Tokens, Turn, beside, repeat, take_binary_operator, take_cast,
    take_prefix_operator, take_type_check,
};
use kt_parser_types::read_type;
use kt_tree::{BinaryOperator, Expression, PrefixOperator, Statement, Token};
use kt_tree_nodes::expressions::{binary, cast, prefix, type_check};
use std::alloc::Global;

/// The parser of the expressions that hold phrases of at most `room` levels.
#[derive(Clone, Copy)]
pub struct Operators<E, S> {
    /// Where it stands, and what reads the levels below.
    pub below: Below<E, S>,
}

/// Which operators the right operand may have: those that bind more than an operator of this row.
fn right_operand(level: BinaryLevel) -> Precedence
    ensures { result ≡ rules.right_operand level }
{
    match level {
        BinaryLevel::Disjunction => Precedence::Conjunction,
        BinaryLevel::Conjunction => Precedence::Equality,
        BinaryLevel::Equality => Precedence::Comparison,
        BinaryLevel::Comparison => Precedence::Test,
        BinaryLevel::Elvis => Precedence::Infix,
        BinaryLevel::Infix => Precedence::Additive,
        BinaryLevel::Additive => Precedence::Multiplicative,
        BinaryLevel::Multiplicative => Precedence::Cast,
    }
}

impl<
    E: Fn(Global, u32, Precedence, Context, &mut Tokens<'_>) -> Result<Expression, ParseError>
        + Copy,
    S: Fn(Global, u32, Context, &mut Tokens<'_>) -> Result<Statement, ParseError> + Copy,
> Operators<E, S> {
    /// An expression of one level more than it may hold, with the operators of a row and of those below it.
    pub fn whole_expression(
        &self,
        precedence: Precedence,
        at: Context,
        tokens: &mut Tokens<'_>,
    ) -> Result<Expression, ParseError>
        requires { AreRead self.now.below.room (E.pre self.now.below.expression) (E.post self.now.below.expression)
            (S.pre self.now.below.statement) (S.post self.now.below.statement) }
        ensures { ReadsAs expression_tree (rules.whole_expression precedence self.now.below.room at tokens.old)
            result tokens.new }
    {
        match precedence {
            Precedence::Disjunction => self.disjunction(at, tokens),
            Precedence::Conjunction => self.conjunction(at, tokens),
            Precedence::Equality => self.equality(at, tokens),
            Precedence::Comparison => self.comparison(at, tokens),
            Precedence::Test => self.test(at, tokens),
            Precedence::Infix => self.infixed(at, tokens),
            Precedence::Additive => self.additive(at, tokens),
            Precedence::Multiplicative => self.multiplicative(at, tokens),
            Precedence::Cast => self.cast(at, tokens),
            Precedence::Prefix => self.prefix(at, tokens),
        }
    }

    /// `left`, or `left operator right` where an operator of this row comes next and there is room for it.
    fn binary_turn(
        &self,
        level: BinaryLevel,
        at: Context,
        left: Expression,
        tokens: &mut Tokens<'_>,
    ) -> Result<Turn<Expression, Expression>, ParseError>
        requires { AreRead self.now.below.room (E.pre self.now.below.expression) (E.post self.now.below.expression)
            (S.pre self.now.below.statement) (S.post self.now.below.statement) }
        ensures { ReadsAs (turn_tree expression_tree expression_tree)
            (rules.binary_turn self.now.below.room at level (expression_tree left) tokens.old) result tokens.new }
    {
        let allowed = self.below.has_more(&left);
        match take_binary_operator(allowed, level, tokens) {
            Some((_, operator)) => self.binary_rest(level, at, operator, left, tokens),
            None => Ok(Turn::Done(left)),
        }
    }

    /// `n right`, behind the operator.
    fn binary_rest(
        &self,
        level: BinaryLevel,
        at: Context,
        operator: BinaryOperator,
        left: Expression,
        tokens: &mut Tokens<'_>,
    ) -> Result<Turn<Expression, Expression>, ParseError>
        requires { AreRead self.now.below.room (E.pre self.now.below.expression) (E.post self.now.below.expression)
            (S.pre self.now.below.statement) (S.post self.now.below.statement) }
        ensures { ReadsAs (turn_tree expression_tree expression_tree)
            (rules.binary_rest self.now.below.room at level operator (expression_tree left) tokens.old)
            result tokens.new }
    {
        tokens.skip_lines();
        let right = self
            .below
            .inner_expression(right_operand(level), at, tokens);
        let (left, right) = beside(left, right)?;
        Ok(Turn::More(binary(self.below.alloc, operator, left, right)?))
    }

    /// Operators of one row, behind the first operand.
    fn chain(
        &self,
        level: BinaryLevel,
        at: Context,
        first: Expression,
        tokens: &mut Tokens<'_>,
    ) -> Result<Expression, ParseError>
        requires { AreRead self.now.below.room (E.pre self.now.below.expression) (E.post self.now.below.expression)
            (S.pre self.now.below.statement) (S.post self.now.below.statement) }
        ensures { ReadsAs expression_tree
            (repeat (rules.binary_turn self.now.below.room at level) (expression_tree first) tokens.old)
            result tokens.new }
    {
        repeat(
            tokens,
            first,
            &|left: Expression, tokens: &mut Tokens<'_>| self.binary_turn(level, at, left, tokens),
        )
    }

    /// `conjunction (n '||' n conjunction)*`
    fn disjunction(&self, at: Context, tokens: &mut Tokens<'_>) -> Result<Expression, ParseError>
        requires { AreRead self.now.below.room (E.pre self.now.below.expression) (E.post self.now.below.expression)
            (S.pre self.now.below.statement) (S.post self.now.below.statement) }
        ensures { ReadsAs expression_tree (rules.disjunction self.now.below.room at tokens.old) result tokens.new }
    {
        let first = self.conjunction(at, tokens)?;
        self.chain(BinaryLevel::Disjunction, at, first, tokens)
    }

    /// `equality (n '&&' n equality)*`
    fn conjunction(&self, at: Context, tokens: &mut Tokens<'_>) -> Result<Expression, ParseError>
        requires { AreRead self.now.below.room (E.pre self.now.below.expression) (E.post self.now.below.expression)
            (S.pre self.now.below.statement) (S.post self.now.below.statement) }
        ensures { ReadsAs expression_tree (rules.conjunction self.now.below.room at tokens.old) result tokens.new }
    {
        let first = self.equality(at, tokens)?;
        self.chain(BinaryLevel::Conjunction, at, first, tokens)
    }

    /// `comparison (('==' | '!=') n comparison)*`
    fn equality(&self, at: Context, tokens: &mut Tokens<'_>) -> Result<Expression, ParseError>
        requires { AreRead self.now.below.room (E.pre self.now.below.expression) (E.post self.now.below.expression)
            (S.pre self.now.below.statement) (S.post self.now.below.statement) }
        ensures { ReadsAs expression_tree (rules.equality self.now.below.room at tokens.old) result tokens.new }
    {
        let first = self.comparison(at, tokens)?;
        self.chain(BinaryLevel::Equality, at, first, tokens)
    }

    /// One comparison at most: they make no chain.
    fn comparison(&self, at: Context, tokens: &mut Tokens<'_>) -> Result<Expression, ParseError>
        requires { AreRead self.now.below.room (E.pre self.now.below.expression) (E.post self.now.below.expression)
            (S.pre self.now.below.statement) (S.post self.now.below.statement) }
        ensures { ReadsAs expression_tree (rules.comparison self.now.below.room at tokens.old) result tokens.new }
    {
        let left = self.test(at, tokens)?;
        self.comparison_behind(at, left, tokens)
    }

    /// `(operator n right)?`, behind the left operand.
    fn comparison_behind(
        &self,
        at: Context,
        left: Expression,
        tokens: &mut Tokens<'_>,
    ) -> Result<Expression, ParseError>
        requires { AreRead self.now.below.room (E.pre self.now.below.expression) (E.post self.now.below.expression)
            (S.pre self.now.below.statement) (S.post self.now.below.statement) }
        ensures { ReadsAs expression_tree
            (rules.comparison_behind self.now.below.room at (expression_tree left) tokens.old) result tokens.new }
    {
        match self.binary_turn(BinaryLevel::Comparison, at, left, tokens)? {
            Turn::More(whole) | Turn::Done(whole) => Ok(whole),
        }
    }

    /// One `is` or `!is` at most.
    fn test(&self, at: Context, tokens: &mut Tokens<'_>) -> Result<Expression, ParseError>
        requires { AreRead self.now.below.room (E.pre self.now.below.expression) (E.post self.now.below.expression)
            (S.pre self.now.below.statement) (S.post self.now.below.statement) }
        ensures { ReadsAs expression_tree (rules.test self.now.below.room at tokens.old) result tokens.new }
    {
        let value = self.elvis(at, tokens)?;
        self.type_check_behind(value, tokens)
    }

    /// `(('is' | '!is') n type)?`, behind the value.
    fn type_check_behind(
        &self,
        value: Expression,
        tokens: &mut Tokens<'_>,
    ) -> Result<Expression, ParseError>
        requires { AreRead self.now.below.room (E.pre self.now.below.expression) (E.post self.now.below.expression)
            (S.pre self.now.below.statement) (S.post self.now.below.statement) }
        ensures { ReadsAs expression_tree
            (rules.type_check_behind self.now.below.room (expression_tree value) tokens.old) result tokens.new }
    {
        let allowed = self.below.has_more(&value);
        match take_type_check(allowed, tokens) {
            Some((_, negated)) => self.type_check_rest(value, negated, tokens),
            None => Ok(value),
        }
    }

    /// `n type`, behind `is` or `!is`.
    fn type_check_rest(
        &self,
        value: Expression,
        negated: bool,
        tokens: &mut Tokens<'_>,
    ) -> Result<Expression, ParseError>
        requires { AreRead self.now.below.room (E.pre self.now.below.expression) (E.post self.now.below.expression)
            (S.pre self.now.below.statement) (S.post self.now.below.statement) }
        ensures { ReadsAs expression_tree
            (rules.type_check_rest self.now.below.room (expression_tree value) negated tokens.old) result tokens.new }
    {
        tokens.skip_lines();
        let written = read_type(self.below.alloc, self.below.room + 1, tokens);
        let (value, written) = beside(value, written)?;
        Ok(type_check(self.below.alloc, value, negated, written)?)
    }

    /// `infixed (n '?:' n infixed)*`
    fn elvis(&self, at: Context, tokens: &mut Tokens<'_>) -> Result<Expression, ParseError>
        requires { AreRead self.now.below.room (E.pre self.now.below.expression) (E.post self.now.below.expression)
            (S.pre self.now.below.statement) (S.post self.now.below.statement) }
        ensures { ReadsAs expression_tree (rules.elvis self.now.below.room at tokens.old) result tokens.new }
    {
        let first = self.infixed(at, tokens)?;
        self.chain(BinaryLevel::Elvis, at, first, tokens)
    }

    /// `additive (infix n additive)*`, with `and`, `shl` or one of their kin between the operands.
    fn infixed(&self, at: Context, tokens: &mut Tokens<'_>) -> Result<Expression, ParseError>
        requires { AreRead self.now.below.room (E.pre self.now.below.expression) (E.post self.now.below.expression)
            (S.pre self.now.below.statement) (S.post self.now.below.statement) }
        ensures { ReadsAs expression_tree (rules.infixed self.now.below.room at tokens.old) result tokens.new }
    {
        let first = self.additive(at, tokens)?;
        self.chain(BinaryLevel::Infix, at, first, tokens)
    }

    /// `multiplicative (('+' | '-') n multiplicative)*`
    fn additive(&self, at: Context, tokens: &mut Tokens<'_>) -> Result<Expression, ParseError>
        requires { AreRead self.now.below.room (E.pre self.now.below.expression) (E.post self.now.below.expression)
            (S.pre self.now.below.statement) (S.post self.now.below.statement) }
        ensures { ReadsAs expression_tree (rules.additive self.now.below.room at tokens.old) result tokens.new }
    {
        let first = self.multiplicative(at, tokens)?;
        self.chain(BinaryLevel::Additive, at, first, tokens)
    }

    /// `cast (('*' | '/' | '%') n cast)*`
    fn multiplicative(&self, at: Context, tokens: &mut Tokens<'_>) -> Result<Expression, ParseError>
        requires { AreRead self.now.below.room (E.pre self.now.below.expression) (E.post self.now.below.expression)
            (S.pre self.now.below.statement) (S.post self.now.below.statement) }
        ensures { ReadsAs expression_tree (rules.multiplicative self.now.below.room at tokens.old) result tokens.new }
    {
        let first = self.cast(at, tokens)?;
        self.chain(BinaryLevel::Multiplicative, at, first, tokens)
    }

    /// `prefix (('as' | 'as?') n type)*`
    fn cast(&self, at: Context, tokens: &mut Tokens<'_>) -> Result<Expression, ParseError>
        requires { AreRead self.now.below.room (E.pre self.now.below.expression) (E.post self.now.below.expression)
            (S.pre self.now.below.statement) (S.post self.now.below.statement) }
        ensures { ReadsAs expression_tree (rules.cast self.now.below.room at tokens.old) result tokens.new }
    {
        let first = self.prefix(at, tokens)?;
        repeat(
            tokens,
            first,
            &|value: Expression, tokens: &mut Tokens<'_>| self.cast_turn(value, tokens),
        )
    }

    /// `value`, or `value ('as' | 'as?') type`.
    fn cast_turn(
        &self,
        value: Expression,
        tokens: &mut Tokens<'_>,
    ) -> Result<Turn<Expression, Expression>, ParseError>
        requires { AreRead self.now.below.room (E.pre self.now.below.expression) (E.post self.now.below.expression)
            (S.pre self.now.below.statement) (S.post self.now.below.statement) }
        ensures { ReadsAs (turn_tree expression_tree expression_tree)
            (rules.cast_turn self.now.below.room (expression_tree value) tokens.old) result tokens.new }
    {
        let allowed = self.below.has_more(&value);
        match take_cast(allowed, tokens) {
            Some((_, safe)) => self.cast_rest(value, safe, tokens),
            None => Ok(Turn::Done(value)),
        }
    }

    /// `n type`, behind `as` or `as?`.
    fn cast_rest(
        &self,
        value: Expression,
        safe: bool,
        tokens: &mut Tokens<'_>,
    ) -> Result<Turn<Expression, Expression>, ParseError>
        requires { AreRead self.now.below.room (E.pre self.now.below.expression) (E.post self.now.below.expression)
            (S.pre self.now.below.statement) (S.post self.now.below.statement) }
        ensures { ReadsAs (turn_tree expression_tree expression_tree)
            (rules.cast_rest self.now.below.room (expression_tree value) safe tokens.old) result tokens.new }
    {
        tokens.skip_lines();
        let written = read_type(self.below.alloc, self.below.room + 1, tokens);
        let (value, written) = beside(value, written)?;
        Ok(Turn::More(cast(self.below.alloc, value, safe, written)?))
    }

    /// `('-' | '!') operand`, or what has no prefix.
    fn prefix(&self, at: Context, tokens: &mut Tokens<'_>) -> Result<Expression, ParseError>
        requires { AreRead self.now.below.room (E.pre self.now.below.expression) (E.post self.now.below.expression)
            (S.pre self.now.below.statement) (S.post self.now.below.statement) }
        ensures { ReadsAs expression_tree (rules.prefix self.now.below.room at tokens.old) result tokens.new }
    {
        match take_prefix_operator(self.below.is_deep(), tokens) {
            Some((token, operator)) => self.prefix_rest(token, operator, at, tokens),
            None => self.postfix(at, tokens),
        }
    }

    /// `operand`, behind this `-` or `!`.
    fn prefix_rest(
        &self,
        start: &Token,
        operator: PrefixOperator,
        at: Context,
        tokens: &mut Tokens<'_>,
    ) -> Result<Expression, ParseError>
        requires { AreRead self.now.below.room (E.pre self.now.below.expression) (E.post self.now.below.expression)
            (S.pre self.now.below.statement) (S.post self.now.below.statement) }
        ensures { ReadsAs expression_tree (rules.prefix_rest self.now.below.room at start.now operator tokens.old)
            result tokens.new }
    {
        let operand = self.below.inner_expression(Precedence::Prefix, at, tokens)?;
        Ok(prefix(self.below.alloc, start.pos, operator, operand)?)
    }
}
