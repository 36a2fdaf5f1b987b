//! Makers of the nodes of types, expressions, statements, blocks and declarations, for the code of a parser.
//!
//! Each takes the children of a node and says which tree the node is seen as. A maker that takes no place gives the node
//! the place of its first operand, which stands first in the text.
#![tactic(auto)]

pub mod blocks;
pub mod declarations;
pub mod expressions;
pub mod statements;
pub mod strings;
pub mod types;
