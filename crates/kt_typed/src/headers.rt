//! The headers of a file: what its declarations say, without their bodies. All of it is numbered in text order.

use kt_base::{Name, Pos};
use kt_tree::TextPart;
use kt_types_tree::{ClassKind, Hierarchy, KtType};
use sqlite_items::Items;

/// The headers of a file.
#[derive(Drop)]
pub struct Headers {
    /// The supertypes of each class by its row, and the bounds of all type parameters.
    pub hierarchy: Hierarchy,
    /// The classes by their rows in the hierarchy: first the throwables, then the classes, interfaces and enums of the
    /// file.
    pub classes: Items<DeclaredClass>,
    /// The functions at top level.
    pub functions: Items<DeclaredFunction>,
    pub constants: Items<DeclaredConstant>,
    /// The declarations of the file in text order.
    pub order: Items<DeclarationNumber>,
}

/// A declaration at top level, by its number.
#[derive(Clone, Copy, Debug, PartialEq, Eq)]
pub enum DeclarationNumber {
    Function(u32),
    /// By its row in the hierarchy.
    Class(u32),
    Constant(u32),
}

/// A type parameter.
#[derive(Drop)]
pub struct DeclaredTypeParameter {
    pub name: Name,
    /// Its row among the bounds of all type parameters.
    pub row: u32,
}

/// A parameter of a function.
#[derive(Drop)]
pub struct DeclaredParameter {
    pub name: Name,
    pub annotation: KtType,
}

/// What a function of a class overrides.
#[derive(Clone, Copy, Debug, PartialEq, Eq)]
pub enum Overridden {
    /// A function of a class: the row of that class, and the place among its functions.
    Function(u32, u32),
    /// `toString` of `Any`.
    ToString,
    /// `equals` of `Any`.
    Equals,
}

/// A function, at top level or in a class.
#[derive(Drop)]
pub struct DeclaredFunction {
    /// The place of the first token: a modifier, or `fun`.
    pub at: Pos,
    pub name: Name,
    pub type_parameters: Items<DeclaredTypeParameter>,
    pub parameters: Items<DeclaredParameter>,
    pub result: KtType,
    pub is_suspend: bool,
    /// Whether a function of a class below may override it.
    pub is_open: bool,
    /// Whether it has a body. One that has none is abstract, or of an interface.
    pub has_body: bool,
    /// The declaration that it overrides first: that of the first supertype in text order that has one. Its erased
    /// descriptor is that declaration's.
    pub overrides: Option<Overridden>,
}

/// A parameter of a constructor.
#[derive(Drop)]
pub struct ClassParameter {
    pub name: Name,
    pub annotation: KtType,
    /// The place, among the properties of the class, of the one that it declares; none where it is plain.
    pub property: Option<u32>,
}

/// A property that a class declares.
#[derive(Drop)]
pub struct DeclaredProperty {
    /// The place of `val` or `var`; for one that a parameter of the constructor declares, that of the class.
    pub at: Pos,
    pub name: Name,
    pub is_variable: bool,
    pub annotation: KtType,
}

/// An entry of an enum, and its place.
#[derive(Drop)]
pub struct DeclaredEntry {
    pub at: Pos,
    pub name: Name,
}

/// A member in the body of a class, by its place among the functions or the properties that the class declares.
#[derive(Clone, Copy, Debug, PartialEq, Eq)]
pub enum MemberNumber {
    Function(u32),
    Property(u32),
}

/// A class, an interface, an enum or a throwable. Its supertypes are in the hierarchy.
#[derive(Drop)]
pub struct DeclaredClass {
    /// The place of the first token: a modifier, or the first word. A throwable has line and column 0.
    pub at: Pos,
    pub name: Name,
    pub kind: ClassKind,
    /// Whether another class may extend it.
    pub is_open: bool,
    pub is_abstract: bool,
    pub type_parameters: Items<DeclaredTypeParameter>,
    /// The parameters of the constructor.
    pub parameters: Items<ClassParameter>,
    /// Those of the constructor's parameters first, then those of the body.
    pub properties: Items<DeclaredProperty>,
    pub functions: Items<DeclaredFunction>,
    /// The entries of an enum by their ordinals.
    pub entries: Items<DeclaredEntry>,
    /// The members of the body in text order.
    pub members: Items<MemberNumber>,
    /// The superclass whose constructor is called, where the class is written with one.
    pub superclass: Option<u32>,
}

/// The value of a constant.
#[derive(Drop)]
pub enum ConstantLiteral {
    Int(i32),
    Long(i64),
    Boolean(bool),
    /// One UTF-16 code unit.
    Char(u16),
    /// The parts of a string in order.
    Text(Items<TextPart>),
}

/// A `const val`.
#[derive(Drop)]
pub struct DeclaredConstant {
    /// The place of `const`.
    pub at: Pos,
    pub name: Name,
    pub annotation: KtType,
    pub value: ConstantLiteral,
}
