//! All classes, and those above each.

use class_headers::ClassTable;
use sqlite_items::Items;

/// All classes, each by its number, and for each the numbers of those above it.
#[derive(Drop)]
pub struct Hierarchy {
    pub headers: ClassTable,
    /// The class directly above.
    pub parents: Items<Option<usize>>,
    /// The classes and interfaces directly above.
    pub links: Items<Items<usize>>,
    /// The class, the one above it, and so on.
    pub chains: Items<Items<usize>>,
    /// All classes and interfaces above, and the class itself, ascending.
    pub supers: Items<Items<usize>>,
}
