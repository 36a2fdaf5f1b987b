//! What one token stands for, where it stands for something.

ghost use Rattle.kt_grammar.specs.Terminals as spec;
ghost use Rattle.kt_parser_steps.specs.Steps.{binary_of};
ghost use Rattle.std.specs.Prelude.{◌≡◌, IfOk};

use kt_base::NoMemory;
use kt_tree::{
    AssignmentOperator, BinaryOperator, Keyword, Literal, PrefixOperator, RangeOperator, Sign,
    SoftKeyword, StepOperator, TextPart, Token, TokenKind,
};

/// The levels of the operators between two operands, from the one that binds least.
#[derive(Clone, Copy, Debug, PartialEq, Eq)]
pub enum BinaryLevel {
    Disjunction,
    Conjunction,
    Equality,
    Comparison,
    Elvis,
    /// Named functions, as `shl`.
    Infix,
    Additive,
    Multiplicative,
}

/// The operator of this level that the token is.
pub fn binary_operator(level: BinaryLevel, token: &Token) -> Option<BinaryOperator>
    ensures { result ≡ binary_of level token.now }
{
    match level {
        BinaryLevel::Disjunction => disjunction(token),
        BinaryLevel::Conjunction => conjunction(token),
        BinaryLevel::Equality => equality(token),
        BinaryLevel::Comparison => comparison(token),
        BinaryLevel::Elvis => elvis(token),
        BinaryLevel::Infix => infix_word(token),
        BinaryLevel::Additive => additive(token),
        BinaryLevel::Multiplicative => multiplicative(token),
    }
}

/// `||`
fn disjunction(token: &Token) -> Option<BinaryOperator>
    ensures { result ≡ spec.disjunction_of token.now }
{
    if token.is_sign(Sign::Disjunction) {
        Some(BinaryOperator::Disjunction)
    } else {
        None
    }
}

/// `&&`
fn conjunction(token: &Token) -> Option<BinaryOperator>
    ensures { result ≡ spec.conjunction_of token.now }
{
    if token.is_sign(Sign::Conjunction) {
        Some(BinaryOperator::Conjunction)
    } else {
        None
    }
}

/// `==` and `!=`
fn equality(token: &Token) -> Option<BinaryOperator>
    ensures { result ≡ spec.equality_of token.now }
{
    if token.is_sign(Sign::Equal) {
        Some(BinaryOperator::Equal)
    } else if token.is_sign(Sign::NotEqual) {
        Some(BinaryOperator::NotEqual)
    } else {
        None
    }
}

/// `<`, `>`, `<=` and `>=`
fn comparison(token: &Token) -> Option<BinaryOperator>
    ensures { result ≡ spec.comparison_of token.now }
{
    if token.is_sign(Sign::Less) {
        Some(BinaryOperator::Less)
    } else if token.is_sign(Sign::Greater) {
        Some(BinaryOperator::Greater)
    } else if token.is_sign(Sign::LessOrEqual) {
        Some(BinaryOperator::LessOrEqual)
    } else if token.is_sign(Sign::GreaterOrEqual) {
        Some(BinaryOperator::GreaterOrEqual)
    } else {
        None
    }
}

/// `?:`
fn elvis(token: &Token) -> Option<BinaryOperator>
    ensures { result ≡ spec.elvis_of token.now }
{
    if token.is_sign(Sign::Elvis) {
        Some(BinaryOperator::Elvis)
    } else {
        None
    }
}

/// `and`, `or`, `xor`, `shl`, `shr` and `ushr`
fn infix_word(token: &Token) -> Option<BinaryOperator>
    ensures { result ≡ spec.infix_of token.now }
{
    if token.is_soft_keyword(SoftKeyword::And) {
        Some(BinaryOperator::And)
    } else if token.is_soft_keyword(SoftKeyword::Or) {
        Some(BinaryOperator::Or)
    } else if token.is_soft_keyword(SoftKeyword::Xor) {
        Some(BinaryOperator::Xor)
    } else if token.is_soft_keyword(SoftKeyword::Shl) {
        Some(BinaryOperator::Shl)
    } else if token.is_soft_keyword(SoftKeyword::Shr) {
        Some(BinaryOperator::Shr)
    } else if token.is_soft_keyword(SoftKeyword::Ushr) {
        Some(BinaryOperator::Ushr)
    } else {
        None
    }
}

/// `+` and `-`
fn additive(token: &Token) -> Option<BinaryOperator>
    ensures { result ≡ spec.additive_of token.now }
{
    if token.is_sign(Sign::Plus) {
        Some(BinaryOperator::Plus)
    } else if token.is_sign(Sign::Minus) {
        Some(BinaryOperator::Minus)
    } else {
        None
    }
}

/// `*`, `/` and `%`
fn multiplicative(token: &Token) -> Option<BinaryOperator>
    ensures { result ≡ spec.multiplicative_of token.now }
{
    if token.is_sign(Sign::Times) {
        Some(BinaryOperator::Times)
    } else if token.is_sign(Sign::Divide) {
        Some(BinaryOperator::Divide)
    } else if token.is_sign(Sign::Remainder) {
        Some(BinaryOperator::Remainder)
    } else {
        None
    }
}

/// The operator in front of an operand that the token is.
pub fn prefix_operator(token: &Token) -> Option<PrefixOperator>
    ensures { result ≡ spec.prefix_of token.now }
{
    if token.is_sign(Sign::Minus) {
        Some(PrefixOperator::Negate)
    } else if token.is_sign(Sign::Not) {
        Some(PrefixOperator::Not)
    } else {
        None
    }
}

/// `is` or `!is`: whether it is `!is`.
pub fn type_check(token: &Token) -> Option<bool>
    ensures { result ≡ spec.type_check_of token.now }
{
    if token.is_keyword(Keyword::Is) {
        Some(false)
    } else if token.is_sign(Sign::NotIs) {
        Some(true)
    } else {
        None
    }
}

/// `as` or `as?`: whether it is `as?`.
pub fn cast(token: &Token) -> Option<bool>
    ensures { result ≡ spec.cast_of token.now }
{
    if token.is_keyword(Keyword::As) {
        Some(false)
    } else if token.is_sign(Sign::SafeAs) {
        Some(true)
    } else {
        None
    }
}

/// `.` or `?.`: whether it is `?.`.
pub fn member(token: &Token) -> Option<bool>
    ensures { result ≡ spec.member_of token.now }
{
    if token.is_sign(Sign::Dot) {
        Some(false)
    } else if token.is_sign(Sign::SafeDot) {
        Some(true)
    } else {
        None
    }
}

/// `val` or `var`: whether it is `var`.
pub fn variable(token: &Token) -> Option<bool>
    ensures { result ≡ spec.variable_of token.now }
{
    if token.is_keyword(Keyword::Val) {
        Some(false)
    } else if token.is_keyword(Keyword::Var) {
        Some(true)
    } else {
        None
    }
}

/// The assignment operator that the token is.
pub fn assignment_operator(token: &Token) -> Option<AssignmentOperator>
    ensures { result ≡ spec.assignment_of token.now }
{
    if token.is_sign(Sign::Assign) {
        Some(AssignmentOperator::Set)
    } else if token.is_sign(Sign::PlusAssign) {
        Some(AssignmentOperator::Add)
    } else if token.is_sign(Sign::MinusAssign) {
        Some(AssignmentOperator::Subtract)
    } else if token.is_sign(Sign::TimesAssign) {
        Some(AssignmentOperator::Multiply)
    } else if token.is_sign(Sign::DivideAssign) {
        Some(AssignmentOperator::Divide)
    } else if token.is_sign(Sign::RemainderAssign) {
        Some(AssignmentOperator::Remainder)
    } else {
        None
    }
}

/// `++` or `--`.
pub fn step_operator(token: &Token) -> Option<StepOperator>
    ensures { result ≡ spec.step_of token.now }
{
    if token.is_sign(Sign::Increment) {
        Some(StepOperator::Increment)
    } else if token.is_sign(Sign::Decrement) {
        Some(StepOperator::Decrement)
    } else {
        None
    }
}

/// `..` or `until`.
pub fn range_operator(token: &Token) -> Option<RangeOperator>
    ensures { result ≡ spec.range_of token.now }
{
    if token.is_sign(Sign::Range) {
        Some(RangeOperator::Through)
    } else if token.is_soft_keyword(SoftKeyword::Until) {
        Some(RangeOperator::Until)
    } else {
        None
    }
}

/// The literal that the token is, where it is one and no part of a string.
pub fn literal(token: &Token) -> Option<Literal>
    ensures { result ≡ spec.literal_of token.now }
{
    match &token.kind {
        TokenKind::Number(number) => Some(Literal::Number(*number)),
        TokenKind::Character(unit) => Some(Literal::Character(*unit)),
        TokenKind::Keyword(word) => keyword_literal(*word),
        _ => None,
    }
}

fn keyword_literal(word: Keyword) -> Option<Literal>
    ensures { result ≡ spec.keyword_literal word }
{
    match word {
        Keyword::True => Some(Literal::True),
        Keyword::False => Some(Literal::False),
        Keyword::Null => Some(Literal::Null),
        _ => None,
    }
}

/// The part of a string that the token is, where it is text.
pub fn text_part(token: &Token) -> Result<Option<TextPart>, NoMemory>
    ensures { IfOk result (λ part. part ≡ spec.text_of token.now) }
{
    match &token.kind {
        TokenKind::Run(units) => Ok(Some(TextPart::Run(units.clone()?))),
        TokenKind::Escape(unit) => Ok(Some(TextPart::Escape(*unit))),
        TokenKind::Dollar => Ok(Some(TextPart::Dollar)),
        _ => Ok(None),
    }
}
