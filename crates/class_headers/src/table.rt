//! The headers of all classes, by their numbers and by their names.

ghost use Rattle.class_headers.specs.Indexed.{FindsFields, FindsMethods, FindsVirtuals};
ghost use Rattle.class_headers.specs.Places.{number_of};
ghost use Rattle.std.specs.Prelude.{◌≡◌, IfOk, length};

use crate::headers::Header;
use crate::indexing::{index_fields, index_methods, index_names, index_virtuals};
use class_index::{MemberIndex, TextIndex};
use kt_base::NoMemory;
use sqlite_items::Items;
use std::alloc::Global;
use std::marker::Model;

/// The headers of all classes. The number of a class is its place among them.
///
/// Classes and members are found by name in logarithmic time and without memory.
#[derive(Drop)]
pub struct ClassTable {
    headers: Items<Header>,
    numbers: TextIndex,
    fields: MemberIndex,
    methods: MemberIndex,
    virtuals: MemberIndex,
}

impl Model for ClassTable {
    ghost use Rattle.std.specs.Prelude.{List};
    ghost use Rattle.class_headers.specs.Indexed.{IsIndexed};
    ghost use Rattle.class_headers.specs.declared.headers.Header.{Header};

    ghost Value = { List Header };

    ghost view = { λ t. t.headers };

    ghost invariant = { λ t. IsIndexed t.headers t.numbers t.fields t.methods t.virtuals };
}

impl ClassTable {
    /// The table of these headers.
    pub fn of(alloc: Global, headers: Items<Header>) -> Result<ClassTable, NoMemory>
        ensures { IfOk result (λ table. table ≡ headers) }
    {
        let numbers = index_names(alloc, headers.as_slice())?;
        let fields = index_fields(alloc, headers.as_slice())?;
        let methods = index_methods(alloc, headers.as_slice())?;
        let virtuals = index_virtuals(alloc, headers.as_slice())?;
        Ok(ClassTable {
            headers,
            numbers,
            fields,
            methods,
            virtuals,
        })
    }

    /// How many classes there are.
    pub fn len(&self) -> usize
        ensures { result ≡ length self.now }
    {
        self.headers.len()
    }

    /// The headers in order.
    pub fn as_slice(&self) -> &[Header]
        ensures { result.now ≡ self.now }
    {
        self.headers.as_slice()
    }

    /// The number of the class of a name, the first of several: `None` exactly where no class has it.
    pub fn number(&self, name: &[u8]) -> Option<usize>
        ensures { result ≡ number_of self.now name.now }
    {
        self.numbers.find(name)
    }

    /// The fields of each class, by name and descriptor: of several the first of the class.
    pub fn fields(&self) -> &MemberIndex
        ensures { FindsFields self.now result.now }
    {
        &self.fields
    }

    /// The methods of each class, by name and descriptor: of several the first of the class.
    pub fn methods(&self) -> &MemberIndex
        ensures { FindsMethods self.now result.now }
    {
        &self.methods
    }

    /// The same of the methods that are called with an object.
    pub fn virtuals(&self) -> &MemberIndex
        ensures { FindsVirtuals self.now result.now }
    {
        &self.virtuals
    }
}
