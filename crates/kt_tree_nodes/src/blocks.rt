//! Nodes of blocks and bodies, and of what `when` and `try` hold. Each says which tree it is seen as.

ghost use Rattle.kt_tree.specs.Bodies as tree;
ghost use Rattle.kt_tree.specs.Bodies.{block_tree, body_tree, catch_tree, condition_tree, conditions_of, entry_tree, expression_tree, statement_tree, statements_of};
ghost use Rattle.kt_tree.specs.Types.{type_tree};
ghost use Rattle.std.specs.Prelude.{◌≡◌, IfOk, map};

use kt_base::{Name, NoMemory, Pos};
use kt_tree::{
    Block, CatchBlock, ControlStructureBody, Expression, Statement, TypeReference, WhenCondition,
    WhenEntry,
};
use sqlite_items::{Boxed, Items};
use std::alloc::Global;

/// `'{' statements '}'`, with the place of the `}`
pub fn block(statements: Items<Statement>, end: Pos) -> Block
    ensures { block_tree result ≡ tree.block (statements_of (map statement_tree statements)) end }
{
    Block { statements, end }
}

/// A body that is a block
pub fn braces(block: Block) -> ControlStructureBody
    ensures { body_tree result ≡ tree.braces (block_tree block) }
{
    ControlStructureBody::Braces(block)
}

/// A body that is one statement
pub fn single(alloc: Global, statement: Statement) -> Result<ControlStructureBody, NoMemory>
    ensures { IfOk result (λ b. body_tree b ≡ tree.single (statement_tree statement)) }
{
    Ok(ControlStructureBody::Single(Boxed::new(alloc, statement)?))
}

/// `conditions '->' body`, and `'else' '->' body` where there are no conditions
pub fn entry(conditions: Items<WhenCondition>, body: ControlStructureBody) -> WhenEntry
    ensures { entry_tree result ≡ tree.entry (conditions_of (map condition_tree conditions)) (body_tree body) }
{
    WhenEntry { conditions, body }
}

/// `expr`, a condition of an entry
pub fn equals(alloc: Global, value: Expression) -> Result<WhenCondition, NoMemory>
    ensures { IfOk result (λ c. condition_tree c ≡ tree.equals (expression_tree value)) }
{
    Ok(WhenCondition::Equals(Boxed::new(alloc, value)?))
}

/// `'is' type`, and `'!is' type` where it is negated
pub fn of_type(negated: bool, written: TypeReference) -> WhenCondition
    ensures { condition_tree result ≡ tree.of_type negated (type_tree written) }
{
    WhenCondition::OfType(negated, written)
}

/// `'catch' '(' ID ':' type ')' block`
pub fn catch(name: Name, exception: TypeReference, body: Block) -> CatchBlock
    ensures { catch_tree result ≡ tree.catch name (type_tree exception) (block_tree body) }
{
    CatchBlock {
        name,
        exception,
        body,
    }
}
