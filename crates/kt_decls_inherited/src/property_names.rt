//! Whether a declaration has a property of a name.

ghost use Rattle.kt_decls_inherited.specs.Properties as spec;
ghost use Rattle.kt_decls_rules.specs.Members.{constructor_properties, properties_of, property_name, value_name};
ghost use Rattle.kt_decls_rules.specs.Names.{is_name, taken_by_parameter};
ghost use Rattle.kt_tree.specs.Declarations.{constructor_parameter_tree, declaration_tree, member_tree};
ghost use Rattle.std.specs.List.{flat_map, list_any};
ghost use Rattle.std.specs.Prelude.{◌≡◌, codes, map, slice_get};

use kt_base::Name;
use kt_tree::{ClassMember, ConstructorParameter, ConstructorParameterKind, Declaration};
use sqlite_items::at;

/// Whether two names are one.
pub fn is_same(name: &[u8], other: &Name) -> bool
    ensures { result ≡ is_name name.now other.now }
{
    name == other.as_bytes()
}

/// Whether a parameter of a constructor is a property of this name.
fn is_parameter_named(parameter: &ConstructorParameter, name: &[u8]) -> bool
    ensures { result ≡ list_any (is_name name.now)
        (flat_map value_name (taken_by_parameter (constructor_parameter_tree parameter.now))) }
{
    match parameter.kind {
        ConstructorParameterKind::Plain => false,
        ConstructorParameterKind::Val => is_same(name, &parameter.name),
        ConstructorParameterKind::Var => is_same(name, &parameter.name),
    }
}

/// Whether a constructor has a property of this name.
fn is_in_constructor(parameters: &[ConstructorParameter], name: &[u8]) -> bool
    ensures { result ≡ list_any (is_name name.now)
        (constructor_properties (map constructor_parameter_tree parameters.now)) }
{
    for parameter in parameters {
        if is_parameter_named(parameter, name) {
            return true;
        }
    }
    false
}

/// Whether a member is a property of this name.
fn is_member_named(member: &ClassMember, name: &[u8]) -> bool
    ensures { result ≡ list_any (is_name name.now) (property_name (member_tree member.now)) }
{
    match member {
        ClassMember::Method(_) => false,
        ClassMember::Property(property) => is_same(name, &property.name),
    }
}

/// Whether the body of a class has a property of this name.
fn is_in_body(members: &[ClassMember], name: &[u8]) -> bool
    ensures { result ≡ list_any (is_name name.now) (flat_map property_name (map member_tree members.now)) }
{
    for member in members {
        if is_member_named(member, name) {
            return true;
        }
    }
    false
}

/// Whether a declaration has a property of this name.
fn has_property(declaration: &Declaration, name: &[u8]) -> bool
    ensures { result ≡ list_any (is_name name.now) (properties_of (declaration_tree declaration.now)) }
{
    match declaration {
        Declaration::Class(class) => {
            is_in_constructor(class.parameters.as_slice(), name)
                || is_in_body(class.members.as_slice(), name)
        }
        Declaration::Function(_) => false,
        Declaration::Interface(_) => false,
        Declaration::Enum(_) => false,
        Declaration::Constant(_) => false,
    }
}

fn is_message(name: &[u8]) -> bool
    ensures { result ≡ is_name name.now (codes "message") }
{
    name == b"message".as_slice()
}

/// Whether the declaration at a place has a property of this name; where none stands it is a throwable.
pub fn has_property_at(file: &[Declaration], place: usize, name: &[u8]) -> bool
    ensures { result ≡ list_any (is_name name.now)
        (spec.declared_or_message (slice_get (map declaration_tree file.now) place)) }
{
    match at(file, place) {
        Some(declaration) => has_property(declaration, name),
        None => is_message(name),
    }
}
