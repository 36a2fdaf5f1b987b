//! What stands at the front of a text.

use kt_tree::{Keyword, Number, Sign};

/// What stands at the front of a text: the kind of a token without its text, or a blank.
#[derive(Clone, Copy)]
pub enum Shape {
    /// A space, a tab or a comment.
    Blank,
    NewLine,
    /// A word that is no keyword.
    Name,
    Keyword(Keyword),
    Number(Number),
    Character(u16),
    Sign(Sign),
    OpenQuote,
    CloseQuote,
    Run,
    Escape(u16),
    NamePart,
    ThisPart,
    OpenTemplate,
    Dollar,
}
