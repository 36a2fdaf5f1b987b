//! How many levels a declaration and a file have: the most of what they hold.

ghost use Rattle.kt_tree.specs.Bodies.{expression_tree};
ghost use Rattle.kt_tree.specs.Declarations.{
  class_tree,
  constructor_parameter_tree,
  declaration_tree,
  file_tree,
  function_tree,
  interface_tree,
  maybe_function_body,
  maybe_super_arguments,
  member_tree,
  supertype_tree,
  type_parameter_tree,
  typed_parameter_tree,
};
ghost use Rattle.kt_tree.specs.Levels as spec;
ghost use Rattle.kt_tree.specs.Levels.{counted, most};
ghost use Rattle.std.specs.Prelude.{◌≡◌, map};

use crate::bodies::{Expression, TextPart};
use crate::declarations::{
    ClassDeclaration, ClassMember, ConstantValue, ConstructorParameter, Declaration, FileTree,
    FunctionBody, FunctionDeclaration, InterfaceDeclaration, Parameter, SuperArguments, Supertype,
    TypeParameter,
};
use crate::levels::{annotation_levels, arguments_levels};

impl FileTree {
    /// How many levels the tree has. A node that no other node holds is at level 1, and each other one is one below the
    /// node that holds it. A file without any node has none.
    pub fn levels(&self) -> u32
        ensures { result ≡ counted (spec.file_levels (file_tree self.now)) }
    {
        let mut most = 0;
        for declaration in self.declarations.as_slice() {
            most = declaration.levels().max(most);
        }
        most
    }
}

impl Declaration {
    /// How many levels the declaration has.
    pub fn levels(&self) -> u32
        ensures { result ≡ counted (spec.declaration_levels (declaration_tree self.now)) }
    {
        match self {
            Declaration::Function(function) => function.levels(),
            Declaration::Class(class) => class.levels(),
            Declaration::Interface(interface) => interface.levels(),
            Declaration::Enum(_) => 0,
            Declaration::Constant(constant) => {
                annotation_levels(&constant.annotation).max(constant_value_levels(&constant.value))
            }
        }
    }
}

impl FunctionDeclaration {
    /// How many levels the function has.
    pub fn levels(&self) -> u32
        ensures { result ≡ counted (spec.function_levels (function_tree self.now)) }
    {
        let types = type_parameters_levels(self.type_parameters.as_slice());
        let parameters = function_parameters_levels(self.parameters.as_slice());
        let outcome = annotation_levels(&self.result);
        let body = function_body_levels(&self.body);
        types.max(parameters).max(outcome.max(body))
    }
}

fn function_body_levels(body: &Option<FunctionBody>) -> u32
    ensures { result ≡ counted (spec.function_body_levels (maybe_function_body body.now)) }
{
    match body {
        Some(FunctionBody::Braces(block)) => block.levels(),
        Some(FunctionBody::Result(value)) => value.levels(),
        None => 0,
    }
}

fn type_parameters_levels(parameters: &[TypeParameter]) -> u32
    ensures { result ≡ counted (most (map spec.type_parameter_levels (map type_parameter_tree parameters.now))) }
{
    let mut most = 0;
    for parameter in parameters {
        most = annotation_levels(&parameter.bound).max(most);
    }
    most
}

fn function_parameters_levels(parameters: &[Parameter]) -> u32
    ensures { result ≡ counted (most (map spec.typed_parameter_levels (map typed_parameter_tree parameters.now))) }
{
    let mut most = 0;
    for parameter in parameters {
        most = parameter.annotation.levels().max(most);
    }
    most
}

fn constructor_parameters_levels(parameters: &[ConstructorParameter]) -> u32
    ensures { result ≡ counted (most
        (map spec.constructor_parameter_levels (map constructor_parameter_tree parameters.now))) }
{
    let mut most = 0;
    for parameter in parameters {
        most = parameter.annotation.levels().max(most);
    }
    most
}

impl ClassDeclaration {
    /// How many levels the class has.
    pub fn levels(&self) -> u32
        ensures { result ≡ counted (spec.class_levels (class_tree self.now)) }
    {
        let types = type_parameters_levels(self.type_parameters.as_slice());
        let parameters = constructor_parameters_levels(self.parameters.as_slice());
        let supertypes = supertypes_levels(self.supertypes.as_slice());
        let members = members_levels(self.members.as_slice());
        types.max(parameters).max(supertypes.max(members))
    }
}

fn supertypes_levels(supertypes: &[Supertype]) -> u32
    ensures { result ≡ counted (most (map spec.supertype_levels (map supertype_tree supertypes.now))) }
{
    let mut most = 0;
    for supertype in supertypes {
        let arguments = super_arguments_levels(&supertype.arguments);
        most = supertype.parent.levels().max(arguments).max(most);
    }
    most
}

fn super_arguments_levels(arguments: &Option<SuperArguments>) -> u32
    ensures { result ≡ counted (spec.super_arguments_levels (maybe_super_arguments arguments.now)) }
{
    match arguments {
        Some(arguments) => values_levels(arguments.values.as_slice()),
        None => 0,
    }
}

fn values_levels(values: &[Expression]) -> u32
    ensures { result ≡ counted (most (map spec.levels (map expression_tree values.now))) }
{
    let mut most = 0;
    for value in values {
        most = value.levels().max(most);
    }
    most
}

fn members_levels(members: &[ClassMember]) -> u32
    ensures { result ≡ counted (most (map spec.member_levels (map member_tree members.now))) }
{
    let mut most = 0;
    for member in members {
        most = member_levels(member).max(most);
    }
    most
}

fn member_levels(member: &ClassMember) -> u32
    ensures { result ≡ counted (spec.member_levels (member_tree member.now)) }
{
    match member {
        ClassMember::Method(function) => function.levels(),
        ClassMember::Property(property) => {
            property
                .annotation
                .levels()
                .max(property.initializer.levels())
        }
    }
}

impl InterfaceDeclaration {
    /// How many levels the interface has.
    pub fn levels(&self) -> u32
        ensures { result ≡ counted (spec.interface_levels (interface_tree self.now)) }
    {
        let types = type_parameters_levels(self.type_parameters.as_slice());
        let supertypes = arguments_levels(self.supertypes.as_slice());
        let functions = functions_levels(self.functions.as_slice());
        types.max(supertypes.max(functions))
    }
}

fn functions_levels(functions: &[FunctionDeclaration]) -> u32
    ensures { result ≡ counted (most (map spec.function_levels (map function_tree functions.now))) }
{
    let mut most = 0;
    for function in functions {
        most = function.levels().max(most);
    }
    most
}

fn constant_value_levels(value: &ConstantValue) -> u32
    ensures { result ≡ spec.constant_value_levels value.now }
{
    match value {
        ConstantValue::Literal(negative, _) => u32::from(*negative) + 1,
        ConstantValue::Text(parts) => several(parts.as_slice()) + 1,
    }
}

/// The level that the parts of a string make, where it has several.
#[tactic(auto, using(crate::proofs::Parts::not_several, crate::proofs::Parts::is_several))]
fn several(parts: &[TextPart]) -> u32
    ensures { result ≡ spec.several parts.now }
{
    match parts {
        [_, _, ..] => 1,
        _ => 0,
    }
}
