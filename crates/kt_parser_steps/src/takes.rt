//! Tokens that stand for a value, taken where they are allowed.

ghost use Rattle.kt_grammar.specs.Readers as readers;
ghost use Rattle.kt_grammar.specs.Terminals.{Meaning, assignment_of, cast_of, literal_of, prefix_of, range_of, step_of, type_check_of, variable_of};
ghost use Rattle.kt_parser_steps.specs.Chosen.{FindsIf, found_token};
ghost use Rattle.kt_parser_steps.specs.Operators.{member_sign, operator_of};
ghost use Rattle.kt_parser_steps.specs.Steps.{EachMeans};

use crate::meanings::{
    BinaryLevel, assignment_operator, binary_operator, cast, literal, member, prefix_operator,
    range_operator, step_operator, type_check, variable,
};
use crate::steps::meant;
use crate::tokens::Tokens;
use kt_tree::{
    AssignmentOperator, BinaryOperator, Literal, PrefixOperator, RangeOperator, StepOperator, Token,
};

/// Takes the next token where it is allowed, and stands for something.
pub fn meant_if<'a, A: Drop, F: Fn(&Token) -> Option<A>>(
    allowed: bool,
    tokens: &mut Tokens<'a>,
    of: &F,
) -> Option<(&'a Token, A)>
    requires { F.IsAlwaysCallable of.now }
    ensures { (m : Meaning A) → EachMeans m (F.post of.now)
        → FindsIf allowed found_token (readers.meant m) tokens.old result tokens.new }
{
    if allowed { meant(tokens, of) } else { None }
}

/// Takes an operator of this row, behind line ends where the row has it so, and line ends behind it.
pub fn take_binary_operator<'a>(
    allowed: bool,
    level: BinaryLevel,
    tokens: &mut Tokens<'a>,
) -> Option<(&'a Token, BinaryOperator)>
    ensures { FindsIf allowed found_token (operator_of level) tokens.old result tokens.new }
{
    if !allowed {
        return None;
    }
    let place = tokens.rest();
    match level {
        BinaryLevel::Disjunction | BinaryLevel::Conjunction | BinaryLevel::Elvis => {
            tokens.skip_lines();
        }
        _ => {}
    }
    match meant(tokens, &|token: &Token| binary_operator(level, token)) {
        Some(found) => Some(found),
        None => {
            tokens.go_to(place);
            None
        }
    }
}

/// Takes `-` or `!` before an operand.
pub fn take_prefix_operator<'a>(
    allowed: bool,
    tokens: &mut Tokens<'a>,
) -> Option<(&'a Token, PrefixOperator)>
    ensures { FindsIf allowed found_token (readers.meant prefix_of) tokens.old result tokens.new }
{
    meant_if(allowed, tokens, &|token: &Token| prefix_operator(token))
}

/// Takes `is`, or `!is`, which is told as true.
pub fn take_type_check<'a>(allowed: bool, tokens: &mut Tokens<'a>) -> Option<(&'a Token, bool)>
    ensures { FindsIf allowed found_token (readers.meant type_check_of) tokens.old result tokens.new }
{
    meant_if(allowed, tokens, &|token: &Token| type_check(token))
}

/// Takes `as`, or `as?`, which is told as true.
pub fn take_cast<'a>(allowed: bool, tokens: &mut Tokens<'a>) -> Option<(&'a Token, bool)>
    ensures { FindsIf allowed found_token (readers.meant cast_of) tokens.old result tokens.new }
{
    meant_if(allowed, tokens, &|token: &Token| cast(token))
}

/// Takes `.`, or `?.`, which is told as true, also behind line ends. Where none comes, the cursor goes back.
pub fn take_member<'a>(allowed: bool, tokens: &mut Tokens<'a>) -> Option<(&'a Token, bool)>
    ensures { FindsIf allowed found_token member_sign tokens.old result tokens.new }
{
    if !allowed {
        return None;
    }
    let place = tokens.rest();
    tokens.skip_lines();
    match meant(tokens, &|token: &Token| member(token)) {
        Some(found) => Some(found),
        None => {
            tokens.go_to(place);
            None
        }
    }
}

/// Takes `val`, or `var`, which is told as true.
pub fn take_variable<'a>(allowed: bool, tokens: &mut Tokens<'a>) -> Option<(&'a Token, bool)>
    ensures { FindsIf allowed found_token (readers.meant variable_of) tokens.old result tokens.new }
{
    meant_if(allowed, tokens, &|token: &Token| variable(token))
}

/// Takes an operator of an assignment.
pub fn take_assignment_operator<'a>(
    allowed: bool,
    tokens: &mut Tokens<'a>,
) -> Option<(&'a Token, AssignmentOperator)>
    ensures { FindsIf allowed found_token (readers.meant assignment_of) tokens.old result tokens.new }
{
    meant_if(allowed, tokens, &|token: &Token| assignment_operator(token))
}

/// Takes `++` or `--`.
pub fn take_step_operator<'a>(
    allowed: bool,
    tokens: &mut Tokens<'a>,
) -> Option<(&'a Token, StepOperator)>
    ensures { FindsIf allowed found_token (readers.meant step_of) tokens.old result tokens.new }
{
    meant_if(allowed, tokens, &|token: &Token| step_operator(token))
}

/// Takes `..` or `until`.
pub fn take_range_operator<'a>(
    allowed: bool,
    tokens: &mut Tokens<'a>,
) -> Option<(&'a Token, RangeOperator)>
    ensures { FindsIf allowed found_token (readers.meant range_of) tokens.old result tokens.new }
{
    meant_if(allowed, tokens, &|token: &Token| range_operator(token))
}

/// Takes a literal that is no string.
pub fn take_literal<'a>(allowed: bool, tokens: &mut Tokens<'a>) -> Option<(&'a Token, Literal)>
    ensures { FindsIf allowed found_token (readers.meant literal_of) tokens.old result tokens.new }
{
    meant_if(allowed, tokens, &|token: &Token| literal(token))
}
