//! An import, node by node from behind.

ghost use Rattle.kt_base.specs.declared.lumps.Node.TheVariants as node;
ghost use Rattle.mach_value.specs.Imported as spec;
ghost use Rattle.mach_value.specs.Imported.{AreUnits, IsUnit, built, built_on, top_value, with_box, with_field, with_object};
ghost use Rattle.std.specs.Prelude.{◌≡◌, ◌+◌, take, drop, IfOk, OnOk};

use crate::class_names::ClassName;
use crate::heaps::Objects;
use crate::objects::{Instance, Object, Phase};
use crate::stack::Stack;
use crate::values::{Field, FieldKind, Value, is_true, unit_of};
use kt_base::{Name, NoMemory, Node, Text16};
use sqlite_items::Items;
use std::alloc::Global;

/// What is made of some nodes at the end of a lump.
#[derive(Drop)]
pub struct Built {
    /// The objects in the order in which they are made.
    pub objects: Objects,
    /// What no object holds yet, the first on top.
    pub fields: Stack<Field>,
}

/// The address behind so many objects; no heap has more objects than memory could hold.
fn address_behind(first: u64, count: usize) -> Result<u64, NoMemory>
    ensures { IfOk result (λ address. address ≡ first + count) }
{
    match first.checked_add(count as u64) {
        Some(address) => Ok(address),
        None => Err(NoMemory),
    }
}

/// A field of an object that comes in a lump.
pub fn final_field(kind: FieldKind, value: Value) -> Field
    ensures { result ≡ spec.final_field kind value }
{
    Field {
        value,
        kind,
        is_final: true,
    }
}

/// A truth value as a number.
fn truth(value: bool) -> Value
    ensures { result ≡ spec.truth value }
{
    if value { Value::Int(1) } else { Value::Int(0) }
}

/// One more field on top.
fn put_field(built: &mut Built, field: Field) -> Result<(), NoMemory>
    ensures { OnOk result (built.new ≡ with_field field built.old) }
{
    built.fields.push(field)
}

/// One more object, with a field on top that refers to it.
fn put_object(first: u64, built: &mut Built, object: Object) -> Result<(), NoMemory>
    ensures { OnOk result (built.new ≡ with_object first object built.old) }
{
    let address = address_behind(first, built.objects.len())?;
    built.objects.push(object)?;
    built.fields.push(Field::held(Value::Ref(address)))
}

/// Takes the topmost fields, as many as are asked for or all.
fn take_fields(
    alloc: Global,
    fields: &mut Stack<Field>,
    count: u32,
) -> Result<Items<Field>, NoMemory>
    ensures { IfOk result (λ taken. (taken ≡ take count fields.old) × (fields.new ≡ drop count fields.old)) }
{
    let mut taken = Items::new(alloc);
    for _turn in 0..count {
        match fields.pop() {
            Some(field) => taken.push(field)?,
            None => return Ok(taken),
        }
    }
    Ok(taken)
}

/// The object of a class with these fields, which is settled later.
fn received(alloc: Global, class: &Name, fields: Items<Field>) -> Result<Object, NoMemory>
    ensures { IfOk result (λ object. object ≡ spec.received class.now fields) }
{
    let class = ClassName::of(alloc, class.clone()?)?;
    Ok(Object::Instance(Instance {
        class,
        number: None,
        phase: Phase::Ready,
        fields,
    }))
}

/// Makes an object of a class, of the topmost fields.
fn build_object(
    alloc: Global,
    first: u64,
    class: &Name,
    count: u32,
    built: &mut Built,
) -> Result<(), NoMemory>
    ensures { OnOk result (built.new ≡ built_on first (node.Object class.now count) built.old) }
{
    let fields = take_fields(alloc, &mut built.fields, count)?;
    let object = received(alloc, class, fields)?;
    put_object(first, built, object)
}

/// Makes a string.
fn build_text(first: u64, text: &Text16, built: &mut Built) -> Result<(), NoMemory>
    ensures { OnOk result (built.new ≡ built_on first (node.Text text.now) built.old) }
{
    let text = text.clone()?;
    put_object(first, built, Object::Text(text))
}

/// Makes what a node is, of what the nodes behind it are.
pub fn build_node(alloc: Global, first: u64, next: &Node, built: &mut Built) -> Result<(), NoMemory>
    ensures made { OnOk result (built.new ≡ built_on first next.now built.old) }
    ensures unit { IsUnit next.now }
{
    match next {
        Node::Int(n) => put_field(built, final_field(FieldKind::Int, Value::Int(*n))),
        Node::Long(n) => put_field(built, final_field(FieldKind::Long, Value::Long(*n))),
        Node::Bool(b) => put_field(built, final_field(FieldKind::Bool, truth(*b))),
        Node::Char(c) => put_field(built, final_field(FieldKind::Char, Value::Int(*c as i32))),
        Node::Text(text) => build_text(first, text, built),
        Node::Null => put_field(built, Field::held(Value::Null)),
        Node::UnitNode => put_field(built, Field::held(Value::Ref(0))),
        Node::Cell(cell) => put_object(first, built, Object::Cell(*cell)),
        Node::Object(class, count) => build_object(alloc, first, class, *count, built),
    }
}

/// The box of an `int` in a field of this kind.
fn int_box(kind: FieldKind, number: i32) -> Option<Object>
    ensures { result ≡ spec.int_box kind number }
{
    match kind {
        FieldKind::Int => Some(Object::Int(number)),
        FieldKind::Bool => Some(Object::Bool(is_true(number))),
        FieldKind::Char => Some(Object::Char(unit_of(number))),
        FieldKind::Long | FieldKind::Reference => None,
    }
}

/// The box of a number; none for a reference.
pub fn box_of(field: Field) -> Option<Object>
    ensures { result ≡ spec.box_of field.kind field.value }
{
    match field.value {
        Value::Int(n) => int_box(field.kind, n),
        Value::Long(n) => Some(Object::Long(n)),
        Value::Null => None,
        Value::Ref(_) => None,
    }
}

/// The field of a whole lump, which no object holds.
pub fn take_top(fields: &mut Stack<Field>) -> Field
    ensures { result ≡ spec.top_of fields.old }
{
    match fields.pop() {
        Some(top) => top,
        None => Field::held(Value::Null),
    }
}

/// The value of a whole lump, whose number is put into a box.
pub fn box_top(first: u64, objects: &mut Objects, top: Field) -> Result<Value, NoMemory>
    ensures objects { OnOk result (objects.new ≡ with_box (spec.box_of top.kind top.value) objects.old) }
    ensures value { IfOk result (λ x. x ≡ top_value first (spec.box_of top.kind top.value) top.value objects.old) }
{
    match box_of(top) {
        Some(object) => {
            let address = address_behind(first, objects.len())?;
            objects.push(object)?;
            Ok(Value::Ref(address))
        }
        None => Ok(top.value),
    }
}

/// What is made of the nodes of a lump.
pub fn build(alloc: Global, first: u64, nodes: &[Node]) -> Result<Built, NoMemory>
    ensures made { IfOk result (λ b. b ≡ built first nodes.now) }
    ensures units { IfOk result (λ _. AreUnits nodes.now) }
{
    let mut made = Built {
        objects: Objects::new(alloc),
        fields: Stack::new(alloc),
    };
    let mut left = nodes.len();
    while left > 0 {
        left -= 1;
        build_node(alloc, first, &nodes[left], &mut made)?;
    }
    Ok(made)
}
