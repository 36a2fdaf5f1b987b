//! Nodes of declarations and of files. Each says which tree it is seen as.

ghost use Rattle.kt_grammar.specs.Declarations.{arguments_at};
ghost use Rattle.kt_tree.specs.Bodies.{block_tree, expression_tree};
ghost use Rattle.kt_tree.specs.Declarations as tree;
ghost use Rattle.kt_tree.specs.Declarations.{class_tree, constant_tree, constructor_parameter_tree, declaration_tree, file_tree, function_body_tree, function_tree, interface_tree, maybe_function_body, maybe_super_arguments, member_tree, property_tree, super_arguments_tree, supertype_tree, type_parameter_tree, typed_parameter_tree};
ghost use Rattle.kt_tree.specs.Types.{maybe_type, type_tree};
ghost use Rattle.kt_tree.specs.declared.declarations.ConstantValue.TheVariants as value;
ghost use Rattle.std.specs.Prelude.{◌≡◌, map};

use crate::expressions::place_of;
use kt_base::{Name, Pos};
use kt_tree::{
    Block, ClassDeclaration, ClassMember, ClassModifiers, ConstantDeclaration, ConstantValue,
    ConstructorParameter, ConstructorParameterKind, Declaration, EnumDeclaration, EnumEntry,
    Expression, FileTree, FunctionBody, FunctionDeclaration, FunctionModifiers,
    InterfaceDeclaration, Literal, Parameter, PropertyDeclaration, SuperArguments, Supertype,
    TextPart, Token, TypeParameter, TypeReference,
};
use sqlite_items::Items;

/// `ID (':' type)?`, a type parameter and its bound
pub fn type_parameter(name: Name, bound: Option<TypeReference>) -> TypeParameter
    ensures { type_parameter_tree result ≡ record { name = name; bound = maybe_type bound } }
{
    TypeParameter { name, bound }
}

/// `ID ':' type`
pub fn parameter(name: Name, annotation: TypeReference) -> Parameter
    ensures { typed_parameter_tree result ≡ record { name = name; annotation = type_tree annotation } }
{
    Parameter { name, annotation }
}

/// `block`, the body of a function
pub fn braces(block: Block) -> FunctionBody
    ensures { function_body_tree result ≡ tree.braces (block_tree block) }
{
    FunctionBody::Braces(block)
}

/// `'=' expr`, the body of a function
pub fn outcome(value: Expression) -> FunctionBody
    ensures { function_body_tree result ≡ tree.result (expression_tree value) }
{
    FunctionBody::Result(value)
}

/// `fmod* 'fun' tparams? ID '(' params? ')' (':' type)? (block | '=' expr)?`
pub fn function(
    at: Pos,
    modifiers: FunctionModifiers,
    type_parameters: Items<TypeParameter>,
    name: Name,
    parameters: Items<Parameter>,
    outcome: Option<TypeReference>,
    body: Option<FunctionBody>,
) -> FunctionDeclaration
    ensures { function_tree result ≡ record {
      at = at;
      modifiers = modifiers;
      type_parameters = map type_parameter_tree type_parameters;
      name =
          name;
      parameters = map typed_parameter_tree parameters;
      result = maybe_type outcome;
      body =
          maybe_function_body body;
    } }
{
    FunctionDeclaration {
        at,
        modifiers,
        type_parameters,
        name,
        parameters,
        result: outcome,
        body,
    }
}

/// `('val' | 'var')? ID ':' type`, a parameter of a constructor
pub fn constructor_parameter(
    kind: ConstructorParameterKind,
    declared: Parameter,
) -> ConstructorParameter
    ensures { constructor_parameter_tree result ≡ record {
      kind = kind;
      name = (typed_parameter_tree declared).name;
      annotation =
          (typed_parameter_tree declared).annotation;
    } }
{
    ConstructorParameter {
        kind,
        name: declared.name,
        annotation: declared.annotation,
    }
}

/// The place of the first argument, or of the `(` where there is none.
fn place_of_arguments(parenthesis: &Token, values: &[Expression]) -> Pos
    ensures { result ≡ arguments_at parenthesis.now (map expression_tree values.now) }
{
    match values {
        [first, ..] => place_of(first),
        [] => parenthesis.pos,
    }
}

/// `'(' args? ')'` behind a supertype, with the `(`
pub fn super_arguments(parenthesis: &Token, values: Items<Expression>) -> SuperArguments
    ensures { super_arguments_tree result ≡ record
        { at = arguments_at parenthesis.now (map expression_tree values); values = map expression_tree values } }
{
    let at = place_of_arguments(parenthesis, values.as_slice());
    SuperArguments { at, values }
}

/// `ID targs? ('(' args? ')')?`
pub fn supertype(parent: TypeReference, arguments: Option<SuperArguments>) -> Supertype
    ensures { supertype_tree result ≡ record { parent = type_tree parent; arguments = maybe_super_arguments arguments } }
{
    Supertype { parent, arguments }
}

/// `('val' | 'var') ID ':' type '=' expr`, a `var` where it is variable
pub fn property(
    at: Pos,
    variable: bool,
    declared: Parameter,
    initializer: Expression,
) -> PropertyDeclaration
    ensures { property_tree result ≡ record {
      at = at;
      is_variable = variable;
      name = (typed_parameter_tree declared).name;
      annotation =
          (typed_parameter_tree declared).annotation;
      initializer = expression_tree initializer;
    } }
{
    PropertyDeclaration {
        at,
        is_variable: variable,
        name: declared.name,
        annotation: declared.annotation,
        initializer,
    }
}

/// A member that is a function
pub fn method_member(method: FunctionDeclaration) -> ClassMember
    ensures { member_tree result ≡ tree.method (function_tree method) }
{
    ClassMember::Method(method)
}

/// A member that is a property
pub fn property_member(property: PropertyDeclaration) -> ClassMember
    ensures { member_tree result ≡ tree.property (property_tree property) }
{
    ClassMember::Property(property)
}

/// `('open' | 'abstract' | 'data')* 'class' ID tparams? ('(' cparams? ')')? (':' super (',' super)*)? ('{' members '}')?`
pub fn class(
    at: Pos,
    modifiers: ClassModifiers,
    name: Name,
    type_parameters: Items<TypeParameter>,
    parameters: Items<ConstructorParameter>,
    supertypes: Items<Supertype>,
    members: Items<ClassMember>,
) -> ClassDeclaration
    ensures { class_tree result ≡ record {
      at = at;
      modifiers = modifiers;
      name = name;
      type_parameters =
          map type_parameter_tree type_parameters;
      parameters = map constructor_parameter_tree parameters;
      supertypes =
          map supertype_tree supertypes;
      members = map member_tree members;
    } }
{
    ClassDeclaration {
        at,
        modifiers,
        name,
        type_parameters,
        parameters,
        supertypes,
        members,
    }
}

/// `'interface' ID tparams? (':' super (',' super)*)? ('{' functions '}')?`
pub fn interface(
    at: Pos,
    name: Name,
    type_parameters: Items<TypeParameter>,
    supertypes: Items<TypeReference>,
    functions: Items<FunctionDeclaration>,
) -> InterfaceDeclaration
    ensures { interface_tree result ≡ record {
      at = at;
      name = name;
      type_parameters = map type_parameter_tree type_parameters;
      supertypes =
          map type_tree supertypes;
      functions = map function_tree functions;
    } }
{
    InterfaceDeclaration {
        at,
        name,
        type_parameters,
        supertypes,
        functions,
    }
}

/// `ID`, an entry of an enum
pub fn enum_entry(at: Pos, name: Name) -> EnumEntry
    ensures { result ≡ record { at = at; name = name } }
{
    EnumEntry { at, name }
}

/// `'-'? literal`, the value of a constant, with a `-` where it is negative
pub fn constant_literal(negative: bool, literal: Literal) -> ConstantValue
    ensures { result ≡ value.Literal negative literal }
{
    ConstantValue::Literal(negative, literal)
}

/// A string all of whose parts are text, the value of a constant
pub fn constant_text(parts: Items<TextPart>) -> ConstantValue
    ensures { result ≡ value.Text parts }
{
    ConstantValue::Text(parts)
}

/// `'const' 'val' ID (':' type)? '=' value`
pub fn constant(
    at: Pos,
    name: Name,
    annotation: Option<TypeReference>,
    value: ConstantValue,
) -> ConstantDeclaration
    ensures { constant_tree result ≡ record { at = at; name = name; annotation = maybe_type annotation; value = value } }
{
    ConstantDeclaration {
        at,
        name,
        annotation,
        value,
    }
}

/// A function at top level
pub fn function_declaration(function: FunctionDeclaration) -> Declaration
    ensures { declaration_tree result ≡ tree.function (function_tree function) }
{
    Declaration::Function(function)
}

/// A class at top level
pub fn class_declaration(class: ClassDeclaration) -> Declaration
    ensures { declaration_tree result ≡ tree.class (class_tree class) }
{
    Declaration::Class(class)
}

/// An interface at top level
pub fn interface_declaration(interface: InterfaceDeclaration) -> Declaration
    ensures { declaration_tree result ≡ tree.interface (interface_tree interface) }
{
    Declaration::Interface(interface)
}

/// `'enum' 'class' ID '{' ID (',' ID)* '}'`
pub fn enum_declaration(at: Pos, name: Name, entries: Items<EnumEntry>) -> Declaration
    ensures { declaration_tree result ≡ tree.enum (record { at = at; name = name; entries = entries }) }
{
    Declaration::Enum(EnumDeclaration { at, name, entries })
}

/// A constant at top level
pub fn constant_declaration(constant: ConstantDeclaration) -> Declaration
    ensures { declaration_tree result ≡ tree.constant (constant_tree constant) }
{
    Declaration::Constant(constant)
}

/// A file, by its declarations in order
pub fn file(declarations: Items<Declaration>) -> FileTree
    ensures { file_tree result ≡ map declaration_tree declarations }
{
    FileTree { declarations }
}
