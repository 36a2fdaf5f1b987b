//! What code reads of objects and writes into them.

ghost use Rattle.mach_value.specs.Access as spec;
ghost use Rattle.std.specs.Option.{option_copied};
ghost use Rattle.std.specs.Prelude.{◌≡◌, slice_get, slice_set};

use crate::objects::{Instance, Object, Phase};
use crate::values::{Field, Value};
use sqlite_items::Items;

/// A write into an object. It does nothing where the object has no such place.
#[derive(Clone, Copy, Debug, PartialEq, Eq)]
pub enum Change {
    /// Of a field, by its place in the object.
    Field(usize, Value),
    /// Of an element of an array of `int`.
    Number(usize, i32),
    /// Of an element of an array of references.
    Element(usize, Value),
    /// Of the message of a throwable.
    Message(Value),
    /// Of how far an object of a class is.
    Phase(Phase),
}

/// Puts a value into a field, where there is that field.
fn set_field(fields: &mut Items<Field>, slot: usize, value: Value)
    ensures { fields.new ≡ spec.fields_with (slice_get fields.old slot) slot value fields.old }
{
    let Some(field) = fields.get(slot) else {
        return;
    };
    let kind = field.kind;
    let is_final = field.is_final;
    fields.set(
        slot,
        Field {
            value,
            kind,
            is_final,
        },
    );
}

/// Puts a number into an array, where it has that place.
fn set_number(numbers: &mut Items<i32>, at: usize, number: i32)
    ensures { numbers.new ≡ slice_set numbers.old at number }
{
    if at < numbers.len() {
        numbers.set(at, number);
    }
}

/// Puts a value into an array, where it has that place.
fn set_element(elements: &mut Items<Value>, at: usize, value: Value)
    ensures { elements.new ≡ slice_set elements.old at value }
{
    if at < elements.len() {
        elements.set(at, value);
    }
}

impl Object {
    /// The object of a class, or the throwable, that it is.
    pub fn instance(&self) -> Option<&Instance>
        ensures { option_copied result ≡ spec.instance_in self.now }
    {
        match self {
            Object::Throwable(_, instance) => Some(instance),
            Object::Instance(instance) => Some(instance),
            Object::Text(_)
            | Object::Int(_)
            | Object::Long(_)
            | Object::Bool(_)
            | Object::Char(_)
            | Object::Cell(_)
            | Object::Numbers(_)
            | Object::Elements(_) => None,
        }
    }

    /// What a field holds; none where there is no such field.
    pub fn field(&self, slot: usize) -> Option<Value>
        ensures { result ≡ spec.field_in slot self.now }
    {
        match self.instance() {
            Some(instance) => match instance.fields.get(slot) {
                Some(field) => Some(field.value),
                None => None,
            },
            None => None,
        }
    }

    /// An element of an array of `int`.
    pub fn number(&self, at: usize) -> Option<i32>
        ensures { result ≡ spec.number_in at self.now }
    {
        match self {
            Object::Numbers(numbers) => match numbers.get(at) {
                Some(number) => Some(*number),
                None => None,
            },
            Object::Text(_)
            | Object::Int(_)
            | Object::Long(_)
            | Object::Bool(_)
            | Object::Char(_)
            | Object::Cell(_)
            | Object::Elements(_)
            | Object::Throwable(_, _)
            | Object::Instance(_) => None,
        }
    }

    /// An element of an array of references.
    pub fn element(&self, at: usize) -> Option<Value>
        ensures { result ≡ spec.element_in at self.now }
    {
        match self {
            Object::Elements(elements) => match elements.get(at) {
                Some(element) => Some(*element),
                None => None,
            },
            Object::Text(_)
            | Object::Int(_)
            | Object::Long(_)
            | Object::Bool(_)
            | Object::Char(_)
            | Object::Cell(_)
            | Object::Numbers(_)
            | Object::Throwable(_, _)
            | Object::Instance(_) => None,
        }
    }

    /// How many elements an array has; none where it is no array.
    pub fn size(&self) -> Option<usize>
        ensures { result ≡ spec.size_in self.now }
    {
        match self {
            Object::Numbers(numbers) => Some(numbers.len()),
            Object::Elements(elements) => Some(elements.len()),
            Object::Text(_)
            | Object::Int(_)
            | Object::Long(_)
            | Object::Bool(_)
            | Object::Char(_)
            | Object::Cell(_)
            | Object::Throwable(_, _)
            | Object::Instance(_) => None,
        }
    }

    /// Puts a value into a field, where it has that field.
    fn set_field(&mut self, slot: usize, value: Value)
        ensures { self.new ≡ spec.object_with slot value self.old }
    {
        match self {
            Object::Throwable(_, instance) => set_field(&mut instance.fields, slot, value),
            Object::Instance(instance) => set_field(&mut instance.fields, slot, value),
            Object::Text(_)
            | Object::Int(_)
            | Object::Long(_)
            | Object::Bool(_)
            | Object::Char(_)
            | Object::Cell(_)
            | Object::Numbers(_)
            | Object::Elements(_) => {}
        }
    }

    /// Puts a number into an array of `int`, where it has that place.
    fn set_number(&mut self, at: usize, number: i32)
        ensures { self.new ≡ spec.with_number at number self.old }
    {
        match self {
            Object::Numbers(numbers) => set_number(numbers, at, number),
            Object::Text(_)
            | Object::Int(_)
            | Object::Long(_)
            | Object::Bool(_)
            | Object::Char(_)
            | Object::Cell(_)
            | Object::Elements(_)
            | Object::Throwable(_, _)
            | Object::Instance(_) => {}
        }
    }

    /// Puts a value into an array of references, where it has that place.
    fn set_element(&mut self, at: usize, value: Value)
        ensures { self.new ≡ spec.with_element at value self.old }
    {
        match self {
            Object::Elements(elements) => set_element(elements, at, value),
            Object::Text(_)
            | Object::Int(_)
            | Object::Long(_)
            | Object::Bool(_)
            | Object::Char(_)
            | Object::Cell(_)
            | Object::Numbers(_)
            | Object::Throwable(_, _)
            | Object::Instance(_) => {}
        }
    }

    /// Gives a throwable its message.
    fn set_message(&mut self, new: Value)
        ensures { self.new ≡ spec.with_message new self.old }
    {
        match self {
            Object::Throwable(message, _) => *message = new,
            Object::Text(_)
            | Object::Int(_)
            | Object::Long(_)
            | Object::Bool(_)
            | Object::Char(_)
            | Object::Cell(_)
            | Object::Numbers(_)
            | Object::Elements(_)
            | Object::Instance(_) => {}
        }
    }

    /// Puts an object of a class into another phase.
    fn set_phase(&mut self, phase: Phase)
        ensures { self.new ≡ spec.in_phase phase self.old }
    {
        match self {
            Object::Throwable(_, instance) => instance.phase = phase,
            Object::Instance(instance) => instance.phase = phase,
            Object::Text(_)
            | Object::Int(_)
            | Object::Long(_)
            | Object::Bool(_)
            | Object::Char(_)
            | Object::Cell(_)
            | Object::Numbers(_)
            | Object::Elements(_) => {}
        }
    }

    /// Makes a change.
    pub fn change(&mut self, change: Change)
        ensures { self.new ≡ spec.changed_by change self.old }
    {
        match change {
            Change::Field(slot, value) => self.set_field(slot, value),
            Change::Number(at, number) => self.set_number(at, number),
            Change::Element(at, value) => self.set_element(at, value),
            Change::Message(message) => self.set_message(message),
            Change::Phase(phase) => self.set_phase(phase),
        }
    }
}
