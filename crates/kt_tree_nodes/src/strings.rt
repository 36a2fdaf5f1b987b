//! Nodes of strings. Each says which tree it is seen as.

ghost use Rattle.kt_tree.specs.Bodies as tree;
ghost use Rattle.kt_tree.specs.Bodies.{expression_tree, part_tree, parts_of};
ghost use Rattle.std.specs.Prelude.{◌≡◌, IfOk, map};

use kt_base::{Name, NoMemory, Pos};
use kt_tree::{Expression, ExpressionKind, StringPart, TextPart};
use sqlite_items::{Boxed, Items};
use std::alloc::Global;

/// `'"' part* '"'`, at the place of the quote that opens it
pub fn template(at: Pos, parts: Items<StringPart>) -> Expression
    ensures { expression_tree result ≡ tree.template at (parts_of (map part_tree parts)) }
{
    Expression {
        at,
        kind: ExpressionKind::Template(parts),
    }
}

/// A run of characters, an escape, or a `$` before anything else
pub fn text(part: TextPart) -> StringPart
    ensures { part_tree result ≡ tree.text part }
{
    StringPart::Text(part)
}

/// `'$' ID`
pub fn name_part(name: Name) -> StringPart
    ensures { part_tree result ≡ tree.name_part name }
{
    StringPart::NamePart(name)
}

/// `'$' 'this'`
pub fn this_part() -> StringPart
    ensures { part_tree result ≡ tree.this_part }
{
    StringPart::ThisPart
}

/// `'${' expr '}'`
pub fn hole(alloc: Global, inner: Expression) -> Result<StringPart, NoMemory>
    ensures { IfOk result (λ p. part_tree p ≡ tree.hole (expression_tree inner)) }
{
    Ok(StringPart::Hole(Boxed::new(alloc, inner)?))
}
