//! The stage of declarations and of a file: the greatest of what they hold.

ghost use Rattle.kt_tree.specs.Declarations.{
  class_tree,
  constructor_parameter_tree,
  declaration_tree,
  file_tree,
  function_tree,
  interface_tree,
  member_tree,
  supertype_tree,
  type_parameter_tree,
  typed_parameter_tree,
};
ghost use Rattle.kt_tree.specs.Levels.{most};
ghost use Rattle.kt_tree.specs.Stages as spec;
ghost use Rattle.std.specs.Prelude.{◌≡◌, map};

use crate::declarations::{
    ClassDeclaration, ClassMember, ConstructorParameter, Declaration, EnumDeclaration, FileTree,
    FunctionBody, FunctionDeclaration, InterfaceDeclaration, Parameter, Supertype, TypeParameter,
};
use crate::stages::{annotation_stage, expressions_stage, name_stage, types_stage};

impl FileTree {
    /// How much of the language the file asks for: the first that holds of
    /// - 9 where a `suspend` or one of the names `launch`, `suspendCoroutine` and `Continuation` stands in it;
    /// - 8 where a lambda, a function type, `throw`, `try`, or the name of a throwable stands in it;
    /// - 4 where a class, an interface, an enum, `this`, type parameters, or type arguments that aren't behind `Array`
    ///   or `arrayOfNulls` stand in it;
    /// - 3 otherwise.
    pub fn stage(&self) -> u32
        ensures { result ≡ spec.file_stage (file_tree self.now) }
    {
        let mut most = 0;
        for declaration in self.declarations.as_slice() {
            most = declaration.stage().max(most);
        }
        most.max(3)
    }
}

impl Declaration {
    /// The stage of the declaration.
    pub(crate) fn stage(&self) -> u32
        ensures { result ≡ spec.declaration_stage (declaration_tree self.now) }
    {
        match self {
            Declaration::Function(function) => function.stage(),
            Declaration::Class(class) => class.stage(),
            Declaration::Interface(interface) => interface.stage(),
            Declaration::Enum(declared) => declared.stage(),
            Declaration::Constant(constant) => {
                name_stage(&constant.name).max(annotation_stage(&constant.annotation))
            }
        }
    }
}

impl FunctionDeclaration {
    /// The stage of the function.
    pub(crate) fn stage(&self) -> u32
        ensures { result ≡ spec.function_stage (function_tree self.now) }
    {
        let suspends = if self.modifiers.is_suspend { 9 } else { 0 };
        let types = type_parameters_stage(self.type_parameters.as_slice());
        let parameters = function_parameters_stage(self.parameters.as_slice());
        let outcome = annotation_stage(&self.result);
        let body = match &self.body {
            Some(FunctionBody::Braces(block)) => block.stage(),
            Some(FunctionBody::Result(value)) => value.stage(),
            None => 0,
        };
        let head = name_stage(&self.name).max(suspends);
        head.max(types.max(parameters).max(outcome.max(body)))
    }
}

fn type_parameters_stage(parameters: &[TypeParameter]) -> u32
    ensures { result ≡ most (map spec.type_parameter_stage (map type_parameter_tree parameters.now)) }
{
    let mut most = 0;
    for parameter in parameters {
        let held = name_stage(&parameter.name).max(annotation_stage(&parameter.bound));
        most = held.max(4).max(most);
    }
    most
}

fn function_parameters_stage(parameters: &[Parameter]) -> u32
    ensures { result ≡ most (map spec.typed_parameter_stage (map typed_parameter_tree parameters.now)) }
{
    let mut most = 0;
    for parameter in parameters {
        most = name_stage(&parameter.name)
            .max(parameter.annotation.stage())
            .max(most);
    }
    most
}

fn constructor_parameters_stage(parameters: &[ConstructorParameter]) -> u32
    ensures { result ≡ most (map spec.constructor_parameter_stage (map constructor_parameter_tree parameters.now)) }
{
    let mut most = 0;
    for parameter in parameters {
        most = name_stage(&parameter.name)
            .max(parameter.annotation.stage())
            .max(most);
    }
    most
}

impl ClassDeclaration {
    /// The stage of the class.
    pub(crate) fn stage(&self) -> u32
        ensures { result ≡ spec.class_stage (class_tree self.now) }
    {
        let head = name_stage(&self.name).max(4);
        let types = type_parameters_stage(self.type_parameters.as_slice());
        let parameters = constructor_parameters_stage(self.parameters.as_slice());
        let supertypes = supertypes_stage(self.supertypes.as_slice());
        let members = members_stage(self.members.as_slice());
        head.max(types.max(parameters).max(supertypes.max(members)))
    }
}

fn supertypes_stage(supertypes: &[Supertype]) -> u32
    ensures { result ≡ most (map spec.supertype_stage (map supertype_tree supertypes.now)) }
{
    let mut most = 0;
    for supertype in supertypes {
        let arguments = match &supertype.arguments {
            Some(arguments) => expressions_stage(arguments.values.as_slice()),
            None => 0,
        };
        most = supertype.parent.stage().max(arguments).max(most);
    }
    most
}

fn members_stage(members: &[ClassMember]) -> u32
    ensures { result ≡ most (map spec.member_stage (map member_tree members.now)) }
{
    let mut most = 0;
    for member in members {
        let held = match member {
            ClassMember::Method(function) => function.stage(),
            ClassMember::Property(property) => {
                let held = property
                    .annotation
                    .stage()
                    .max(property.initializer.stage());
                held.max(name_stage(&property.name))
            }
        };
        most = held.max(most);
    }
    most
}

impl InterfaceDeclaration {
    /// The stage of the interface.
    pub(crate) fn stage(&self) -> u32
        ensures { result ≡ spec.interface_stage (interface_tree self.now) }
    {
        let head = name_stage(&self.name).max(4);
        let types = type_parameters_stage(self.type_parameters.as_slice());
        let supertypes = types_stage(0, self.supertypes.as_slice());
        let functions = functions_stage(self.functions.as_slice());
        head.max(types.max(supertypes.max(functions)))
    }
}

fn functions_stage(functions: &[FunctionDeclaration]) -> u32
    ensures { result ≡ most (map spec.function_stage (map function_tree functions.now)) }
{
    let mut most = 0;
    for function in functions {
        most = function.stage().max(most);
    }
    most
}

impl EnumDeclaration {
    /// The stage of the enum.
    pub(crate) fn stage(&self) -> u32
        ensures { result ≡ spec.enum_stage self.now }
    {
        let mut most = name_stage(&self.name).max(4);
        for entry in self.entries.as_slice() {
            most = name_stage(&entry.name).max(most);
        }
        most
    }
}
