//! What class files name that isn't there.

ghost use Rattle.class_missing.specs.Missing.{file_missing, files_missing, first_in, first_of_names, is_missing};
ghost use Rattle.class_missing.specs.Missing.{missing_above};
ghost use Rattle.class_missing.specs.Missing.{lacks_body, missing_members, type_missing, when};
ghost use Rattle.std.specs.Prelude.{◌≡◌, ◌+◌, ◌<◌, ◌^◌, IfSome, find, is_some, length, option_map};
ghost use Rattle.std.specs.Str.{IsAscii};

use crate::abstracts::lacks_body;
use crate::descriptors::{is_missing, missing_class, missing_type};
use crate::entries::missing_of_entries;
use class_members::Hierarchy;
use jvm_class_types::{ClassFile, Field, Method};
use kt_base::Name;

fn first_missing_name<'a>(h: &Hierarchy, names: &'a [Name]) -> Option<&'a Name>
    ensures { option_map (λ n. n.now) result ≡ first_of_names h.now names.now }
{
    names.iter().find(|name| is_missing(h, name.as_bytes()))
}

fn missing_in_names<'a>(h: &Hierarchy, names: &'a [Name]) -> Option<&'a [u8]>
    ensures value { option_map (λ n. n.now) result ≡ first_of_names h.now names.now }
    ensures ascii { IfSome result (λ n. IsAscii n.now) }
{
    match first_missing_name(h, names) {
        None => None,
        Some(name) => Some(name.as_bytes()),
    }
}

fn type_misses(h: &Hierarchy, descriptor: &Name) -> bool
    ensures { result ≡ is_some (type_missing h.now descriptor.now) }
{
    missing_type(h, descriptor).is_some()
}

fn first_field<'a>(h: &Hierarchy, fields: &'a [Field]) -> Option<&'a Field>
    ensures { option_map (λ f. f.now) result ≡ find (λ f. is_some (type_missing h.now f.descriptor)) fields.now }
{
    fields.iter().find(|f| type_misses(h, &f.descriptor))
}

fn first_method<'a>(h: &Hierarchy, methods: &'a [Method]) -> Option<&'a Method>
    ensures { option_map (λ m. m.now) result ≡ find (λ m. is_some (type_missing h.now m.descriptor)) methods.now }
{
    methods.iter().find(|m| type_misses(h, &m.descriptor))
}

fn missing_in_fields<'a>(h: &Hierarchy, fields: &'a [Field]) -> Option<&'a [u8]>
    ensures value { option_map (λ n. n.now) result ≡ first_in (λ f. type_missing h.now f.descriptor) fields.now }
    ensures ascii { IfSome result (λ n. IsAscii n.now) }
{
    match first_field(h, fields) {
        None => None,
        Some(field) => missing_type(h, &field.descriptor),
    }
}

fn missing_in_methods<'a>(h: &Hierarchy, methods: &'a [Method]) -> Option<&'a [u8]>
    ensures value { option_map (λ n. n.now) result ≡ first_in (λ m. type_missing h.now m.descriptor) methods.now }
    ensures ascii { IfSome result (λ n. IsAscii n.now) }
{
    match first_method(h, methods) {
        None => None,
        Some(method) => missing_type(h, &method.descriptor),
    }
}

fn missing_in_members<'a>(h: &Hierarchy, class: &'a ClassFile) -> Option<&'a [u8]>
    ensures value { option_map (λ n. n.now) result ≡ missing_members h.now class.now }
    ensures ascii { IfSome result (λ n. IsAscii n.now) }
{
    match missing_in_fields(h, class.fields.as_slice()) {
        Some(name) => Some(name),
        None => missing_in_methods(h, class.methods.as_slice()),
    }
}

fn missing_above_class<'a>(h: &Hierarchy, class: &'a ClassFile) -> Option<&'a [u8]>
    ensures value { option_map (λ n. n.now) result ≡ missing_above h.now class.now }
    ensures ascii { IfSome result (λ n. IsAscii n.now) }
{
    match missing_class(h, class.super_class.as_bytes()) {
        Some(name) => Some(name),
        None => missing_in_names(h, class.interfaces.as_slice()),
    }
}

fn without_body<'a>(h: &Hierarchy, number: usize, class: &'a ClassFile) -> Option<&'a [u8]>
    ensures value { option_map (λ n. n.now) result ≡ when (lacks_body h.now number class.now.flags) class.now.name }
    ensures ascii { IfSome result (λ n. IsAscii n.now) }
{
    if lacks_body(h, number, class.flags) {
        Some(class.name.as_bytes())
    } else {
        None
    }
}

/// What a class file names that isn't there. The number of its class is given.
fn missing_in_file<'a>(h: &Hierarchy, number: usize, class: &'a ClassFile) -> Option<&'a [u8]>
    ensures value { option_map (λ n. n.now) result ≡ file_missing h.now number class.now }
    ensures ascii { IfSome result (λ n. IsAscii n.now) }
{
    match missing_of_entries(h, class.pool.entries()) {
        Some(name) => Some(name),
        None => match missing_above_class(h, class) {
            Some(name) => Some(name),
            None => match missing_in_members(h, class) {
                Some(name) => Some(name),
                None => without_body(h, number, class),
            },
        },
    }
}

/// What the first of several class files names that names something that isn't there: the class that is missing, or the
/// class in which the member is missing. The number of the first class is given.
pub fn first_missing<'a>(h: &Hierarchy, number: usize, classes: &'a [ClassFile]) -> Option<&'a [u8]>
    requires { number + length classes.now < 2 ^ 64 }
    ensures value { option_map (λ n. n.now) result ≡ files_missing h.now number classes.now }
    ensures ascii { IfSome result (λ n. IsAscii n.now) }
{
    match classes {
        [] => None,
        [class, rest @ ..] => match missing_in_file(h, number, class) {
            Some(name) => Some(name),
            None => first_missing(h, number + 1, rest),
        },
    }
}
