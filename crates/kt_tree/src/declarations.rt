//! Declarations and files. None of them contains another of its own kind.

use crate::bodies::{Block, Expression, Literal, TextPart};
use crate::types::TypeReference;
use kt_base::{Name, Pos};
use sqlite_items::Items;

/// A source file.
#[derive(Drop)]
pub struct FileTree {
    pub declarations: Items<Declaration>,
}

/// A declaration at top level.
#[derive(Drop)]
pub enum Declaration {
    Function(FunctionDeclaration),
    Class(ClassDeclaration),
    Interface(InterfaceDeclaration),
    Enum(EnumDeclaration),
    Constant(ConstantDeclaration),
}

/// A function, at top level or in a class or an interface.
#[derive(Drop)]
pub struct FunctionDeclaration {
    /// The place of the first token: a modifier, or `fun`.
    pub at: Pos,
    pub modifiers: FunctionModifiers,
    pub type_parameters: Items<TypeParameter>,
    pub name: Name,
    pub parameters: Items<Parameter>,
    pub result: Option<TypeReference>,
    pub body: Option<FunctionBody>,
}

/// The modifiers that stand before `fun`, in any order.
#[derive(Clone, Copy, Debug, PartialEq, Eq)]
pub struct FunctionModifiers {
    pub is_override: bool,
    pub is_open: bool,
    pub is_abstract: bool,
    pub is_suspend: bool,
}

/// A type parameter and its bound, where one is written.
#[derive(Drop)]
pub struct TypeParameter {
    pub name: Name,
    pub bound: Option<TypeReference>,
}

/// A parameter of a function.
#[derive(Drop)]
pub struct Parameter {
    pub name: Name,
    pub annotation: TypeReference,
}

/// The body of a function.
#[derive(Drop)]
pub enum FunctionBody {
    Braces(Block),
    /// `= expr`
    Result(Expression),
}

#[derive(Drop)]
pub struct ClassDeclaration {
    /// The place of the first token: a modifier, or `class`.
    pub at: Pos,
    pub modifiers: ClassModifiers,
    pub name: Name,
    pub type_parameters: Items<TypeParameter>,
    /// The parameters of the constructor. Without parentheses there are none.
    pub parameters: Items<ConstructorParameter>,
    pub supertypes: Items<Supertype>,
    pub members: Items<ClassMember>,
}

/// The modifiers that stand before `class`, in any order.
#[derive(Clone, Copy, Debug, PartialEq, Eq)]
pub struct ClassModifiers {
    pub is_open: bool,
    pub is_abstract: bool,
    pub is_data: bool,
}

/// A parameter of a constructor.
#[derive(Drop)]
pub struct ConstructorParameter {
    pub kind: ConstructorParameterKind,
    pub name: Name,
    pub annotation: TypeReference,
}

/// Whether a parameter of a constructor declares a property.
#[derive(Clone, Copy, Debug, PartialEq, Eq)]
pub enum ConstructorParameterKind {
    Plain,
    Val,
    Var,
}

/// A supertype, with the arguments for its constructor where parentheses are written.
#[derive(Drop)]
pub struct Supertype {
    /// The name and its type arguments.
    pub parent: TypeReference,
    pub arguments: Option<SuperArguments>,
}

/// The arguments for the constructor of a superclass.
#[derive(Drop)]
pub struct SuperArguments {
    /// The place of the first token of the first argument, and where there is none that of `(`.
    pub at: Pos,
    pub values: Items<Expression>,
}

/// A member of a class.
#[derive(Drop)]
pub enum ClassMember {
    Method(FunctionDeclaration),
    Property(PropertyDeclaration),
}

/// A property in the body of a class.
#[derive(Drop)]
pub struct PropertyDeclaration {
    /// The place of the first token: `val` or `var`.
    pub at: Pos,
    /// Whether it is a `var`.
    pub is_variable: bool,
    pub name: Name,
    pub annotation: TypeReference,
    pub initializer: Expression,
}

#[derive(Drop)]
pub struct InterfaceDeclaration {
    /// The place of `interface`.
    pub at: Pos,
    pub name: Name,
    pub type_parameters: Items<TypeParameter>,
    /// Each is a name and its type arguments.
    pub supertypes: Items<TypeReference>,
    pub functions: Items<FunctionDeclaration>,
}

#[derive(Drop)]
pub struct EnumDeclaration {
    /// The place of `enum`.
    pub at: Pos,
    pub name: Name,
    /// At least one.
    pub entries: Items<EnumEntry>,
}

/// An entry of an enum, and its place.
#[derive(Drop)]
pub struct EnumEntry {
    pub at: Pos,
    pub name: Name,
}

/// A `const val`.
#[derive(Drop)]
pub struct ConstantDeclaration {
    /// The place of `const`.
    pub at: Pos,
    pub name: Name,
    pub annotation: Option<TypeReference>,
    pub value: ConstantValue,
}

/// The value of a constant.
#[derive(Drop)]
pub enum ConstantValue {
    /// A literal; where the first is true, with a `-` before it.
    Literal(bool, Literal),
    /// A string all of whose parts are text.
    Text(Items<TextPart>),
}
