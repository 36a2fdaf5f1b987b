//! The members that a class has with those above it (JVMS SE 8 §5.4.3, §5.4.6).

ghost use Rattle.class_members.specs.Members.{chain_at, constructor_found, field_found, first_member, inherited_found};
ghost use Rattle.class_members.specs.Members.{interface_method_found, is_constructor_name, is_interface};
ghost use Rattle.class_members.specs.Members.{is_interface_at, method_found, row_or_none, selected, supers_at};
ghost use Rattle.class_members.specs.Finding.{FindsMembers, first_at, first_by};
ghost use Rattle.std.specs.Prelude.{◌≡◌, slice_get};

use crate::hierarchy::Hierarchy;
use class_headers::ClassTable;
use class_index::{MemberIndex, MemberKey};
use jvm_class_types::ClassFlags;
use sqlite_items::{Items, at};

/// What is looked for.
#[derive(Clone, Copy)]
pub enum MemberKind {
    /// A field.
    Field,
    /// A method.
    Method,
    /// A method that is called with an object.
    Virtual,
}

/// The members of a kind, by name and descriptor.
#[tactic(auto, using(crate::proofs::Finding::fields_found, crate::proofs::Finding::methods_found, crate::proofs::Finding::virtuals_found))]
fn index_of(headers: &ClassTable, kind: MemberKind) -> &MemberIndex
    ensures { FindsMembers headers.now kind result.now }
{
    match kind {
        MemberKind::Field => headers.fields(),
        MemberKind::Method => headers.methods(),
        MemberKind::Virtual => headers.virtuals(),
    }
}

/// The first of several classes that has a member of a key, and its place there.
fn first_at(index: &MemberIndex, classes: &[usize], key: MemberKey) -> Option<(usize, usize)>
    ensures { result ≡ first_at index.now key classes.now }
{
    match classes {
        [] => None,
        [class, rest @ ..] => match index.at(*class, key) {
            Some(place) => Some((*class, place)),
            None => first_at(index, rest, key),
        },
    }
}

fn first_by(
    index: &MemberIndex,
    classes: &[usize],
    name: &[u8],
    descriptor: &[u8],
) -> Option<(usize, usize)>
    ensures { result ≡ first_by index.now classes.now name.now descriptor.now }
{
    match index.key(name, descriptor) {
        None => None,
        Some(key) => first_at(index, classes, key),
    }
}

/// The first of several classes that declares a member, and its place there. For each class it takes logarithmic time.
#[tactic(auto, using(crate::proofs::Finding::first_found))]
pub fn first_declared(
    headers: &ClassTable,
    classes: &[usize],
    kind: MemberKind,
    name: &[u8],
    descriptor: &[u8],
) -> Option<(usize, usize)>
    ensures { result ≡ first_member headers.now kind name.now descriptor.now classes.now }
{
    first_by(index_of(headers, kind), classes, name, descriptor)
}

fn row_at(rows: &[Items<usize>], class: usize) -> &[usize]
    ensures { result.now ≡ row_or_none (slice_get rows.now class) }
{
    match at(rows, class) {
        None => &[],
        Some(row) => row.as_slice(),
    }
}

fn is_interface_class(flags: ClassFlags) -> bool
    ensures { result ≡ is_interface flags }
{
    match flags {
        ClassFlags::Interface => true,
        ClassFlags::Abstract | ClassFlags::Open | ClassFlags::Final => false,
    }
}

fn is_init(name: &[u8]) -> bool
    ensures { result ≡ is_constructor_name name.now }
{
    name == b"<init>".as_slice()
}

impl Hierarchy {
    /// A class, the one above it, and so on.
    pub fn chain(&self, class: usize) -> &[usize]
        ensures { result.now ≡ chain_at self.now class }
    {
        row_at(self.chains.as_slice(), class)
    }

    /// The classes and interfaces that a class is below, and itself, ascending.
    pub fn supers(&self, class: usize) -> &[usize]
        ensures { result.now ≡ supers_at self.now class }
    {
        row_at(self.supers.as_slice(), class)
    }

    /// Whether a class is there and an interface.
    pub fn is_interface(&self, class: usize) -> bool
        ensures { result ≡ is_interface_at self.now class }
    {
        match at(self.headers.as_slice(), class) {
            None => false,
            Some(header) => is_interface_class(header.flags),
        }
    }

    /// The class that declares a field that a class has, and its place there (§5.4.3.2).
    pub fn field(&self, class: usize, name: &[u8], descriptor: &[u8]) -> Option<(usize, usize)>
        ensures { result ≡ field_found self.now class name.now descriptor.now }
    {
        let classes = self.chain(class);
        first_declared(&self.headers, classes, MemberKind::Field, name, descriptor)
    }

    fn constructor(&self, class: usize, name: &[u8], descriptor: &[u8]) -> Option<(usize, usize)>
        ensures { result ≡ constructor_found self.now class name.now descriptor.now }
    {
        let classes = [class];
        first_declared(
            &self.headers,
            &classes,
            MemberKind::Method,
            name,
            descriptor,
        )
    }

    fn inherited(&self, class: usize, name: &[u8], descriptor: &[u8]) -> Option<(usize, usize)>
        ensures { result ≡ inherited_found self.now class name.now descriptor.now }
    {
        let headers = &self.headers;
        let classes = self.chain(class);
        match first_declared(headers, classes, MemberKind::Method, name, descriptor) {
            Some(found) => Some(found),
            None => {
                let classes = self.supers(class);
                first_declared(headers, classes, MemberKind::Method, name, descriptor)
            }
        }
    }

    /// The class that declares a method that a class has, and its place there (§5.4.3.3). A constructor isn't
    /// inherited.
    pub fn method(&self, class: usize, name: &[u8], descriptor: &[u8]) -> Option<(usize, usize)>
        ensures { result ≡ method_found self.now class name.now descriptor.now }
    {
        if is_init(name) {
            self.constructor(class, name, descriptor)
        } else {
            self.inherited(class, name, descriptor)
        }
    }

    /// The class that declares a method that an interface has, and its place there (§5.4.3.4).
    pub fn interface_method(
        &self,
        class: usize,
        name: &[u8],
        descriptor: &[u8],
    ) -> Option<(usize, usize)>
        ensures { result ≡ interface_method_found self.now class name.now descriptor.now }
    {
        let headers = &self.headers;
        let classes = [class, 0];
        match first_declared(headers, &classes, MemberKind::Method, name, descriptor) {
            Some(found) => Some(found),
            None => {
                let classes = self.supers(class);
                first_declared(headers, classes, MemberKind::Method, name, descriptor)
            }
        }
    }

    /// The class that declares the method that a call runs on an object of a class, and its place there (§5.4.6).
    pub fn selected(&self, class: usize, name: &[u8], descriptor: &[u8]) -> Option<(usize, usize)>
        ensures { result ≡ selected self.now class name.now descriptor.now }
    {
        let classes = self.chain(class);
        first_declared(
            &self.headers,
            classes,
            MemberKind::Virtual,
            name,
            descriptor,
        )
    }
}
