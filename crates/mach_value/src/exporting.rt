//! An export, step by step: by a list of what is still to be done, so that no graph is too deep.

ghost use Rattle.mach_value.specs.Exporting.{Advances};
ghost use Rattle.mach_value.specs.Exports as spec;
ghost use Rattle.mach_value.specs.Exports.{held, object_node, opened, leaf};
ghost use Rattle.mach_value.specs.Openings.{opening};
ghost use Rattle.mach_value.specs.Paths.{Enters, is_on};
ghost use Rattle.mach_value.specs.declared.exporting.Pending.TheVariants.{Enter, Leave};
ghost use Rattle.mach_value.specs.declared.values.Value.TheVariants.{Ref};
ghost use Rattle.std.specs.Prelude.{◌≡◌, [], ◌∷◌, ◌++◌, true, false};
ghost use Rattle.std.specs.Prelude.{map, Some, IfOk, OnOk, option_map, option_to_list};

use crate::exports::ExportErr;
use crate::heaps::Objects;
use crate::objects::{Instance, Object};
use crate::path::Path;
use crate::stack::Stack;
use crate::values::{Field, FieldKind, Value, is_true, unit_of};
use kt_base::{Name, NoMemory, Node};
use std::alloc::Global;

/// What is still to be done.
#[derive(Clone, Copy)]
pub enum Pending {
    /// Write the lump of what this field holds.
    Enter(Field),
    /// The object at this address is written with all that it holds.
    Leave(u64),
}

/// An export that goes on.
#[derive(Drop)]
pub struct Progress {
    /// What is written so far.
    pub nodes: Vec<Node>,
    /// The objects inside of which it is.
    pub path: Path,
    /// What is still to be done, the next on top.
    pub pending: Stack<Pending>,
}

/// The node of a value that may leave, and the fields that follow it.
#[derive(Drop)]
pub struct Opening<'a> {
    pub node: Node,
    /// The message of a throwable.
    pub message: Option<Field>,
    pub fields: &'a [Field],
}

/// What a number is in a field of this kind.
fn number_node(kind: FieldKind, number: i32) -> Node
    ensures { result ≡ spec.number_node kind number }
{
    match kind {
        FieldKind::Bool => Node::Bool(is_true(number)),
        FieldKind::Char => Node::Char(unit_of(number)),
        FieldKind::Int | FieldKind::Long | FieldKind::Reference => Node::Int(number),
    }
}

impl Opening<'_> {
    /// Whether no fields follow.
    fn holds_nothing(&self) -> bool
        ensures { result ≡ true → (opening self.now).fields ≡ [] }
    {
        match self.message {
            Some(_) => false,
            None => self.fields.is_empty(),
        }
    }
}

/// A node that no fields follow.
fn leaf<'a>(node: Node) -> Opening<'a>
    ensures { opening result ≡ record { node = node; fields = [] } }
{
    Opening {
        node,
        message: None,
        fields: &[],
    }
}

/// A number of fields as a node holds it. No object has more than memory could hold.
fn count_of(fields: usize) -> Result<u32, NoMemory>
    ensures { IfOk result (λ count. count ≡ fields) }
{
    if fields > 0xffff_ffff {
        return Err(NoMemory);
    }
    Ok(fields as u32)
}

/// An object of a class with its fields.
fn instance_opening(instance: &Instance) -> Result<Opening<'_>, NoMemory>
    ensures { IfOk result (λ found. Some (opening found) ≡ object_node instance.now.class instance.now.fields) }
{
    let fields = instance.fields.as_slice();
    let class = instance.class.name().clone()?;
    Ok(Opening {
        node: Node::Object(class, count_of(fields.len())?),
        message: None,
        fields,
    })
}

/// A throwable with its message and its fields.
fn throwable_opening(message: Value, instance: &Instance) -> Result<Opening<'_>, NoMemory>
    ensures { IfOk result (λ found. Some (opening found)
        ≡ object_node instance.now.class (held message ∷ instance.now.fields)) }
{
    let fields = instance.fields.as_slice();
    let class = instance.class.name().clone()?;
    Ok(Opening {
        node: Node::Object(class, count_of(fields.len() + 1)?),
        message: Some(Field::held(message)),
        fields,
    })
}

/// What leaves of an object; none where it may not.
fn opened_object(object: &Object) -> Result<Option<Opening<'_>>, NoMemory>
    ensures { IfOk result (λ found. option_map opening found ≡ spec.opened_object object.now) }
{
    match object {
        Object::Text(text) => Ok(Some(leaf(Node::Text(text.clone()?)))),
        Object::Int(n) => Ok(Some(leaf(Node::Int(*n)))),
        Object::Long(n) => Ok(Some(leaf(Node::Long(*n)))),
        Object::Bool(b) => Ok(Some(leaf(Node::Bool(*b)))),
        Object::Char(c) => Ok(Some(leaf(Node::Char(*c)))),
        Object::Cell(cell) => Ok(Some(leaf(Node::Cell(*cell)))),
        Object::Numbers(_) => Ok(None),
        Object::Elements(_) => Ok(None),
        Object::Throwable(message, instance) => Ok(Some(throwable_opening(*message, instance)?)),
        Object::Instance(instance) => Ok(Some(instance_opening(instance)?)),
    }
}

/// What leaves of the object at an address; none where it may not.
fn opened_at(
    alloc: Global,
    objects: &Objects,
    address: u64,
) -> Result<Option<Opening<'_>>, NoMemory>
    ensures { IfOk result (λ found. option_map opening found ≡ spec.opened_at objects.now address) }
{
    if address == 0 {
        return Ok(Some(leaf(Node::UnitNode)));
    }
    if address == 1 {
        let class = Name::of(alloc, b"java/lang/Object")?;
        return Ok(Some(leaf(Node::Object(class, 0))));
    }
    match objects.at(address) {
        Some(object) => opened_object(object),
        None => Ok(None),
    }
}

/// Puts fields on top, the first of them as the next.
fn push_fields(pending: &mut Stack<Pending>, fields: &[Field]) -> Result<(), NoMemory>
    ensures { OnOk result (pending.new ≡ map Enter fields.now ++ pending.old) }
{
    let mut left = fields.len();
    while left > 0 {
        left -= 1;
        pending.push(Pending::Enter(fields[left]))?;
    }
    Ok(())
}

/// Puts what an object holds on top.
fn push_inside(
    pending: &mut Stack<Pending>,
    message: Option<Field>,
    fields: &[Field],
) -> Result<(), NoMemory>
    ensures { OnOk result (pending.new
        ≡ map Enter (option_to_list message ++ fields.now) ++ pending.old) }
{
    push_fields(pending, fields)?;
    match message {
        Some(message) => pending.push(Pending::Enter(message)),
        None => Ok(()),
    }
}

/// Writes a node that no fields follow.
fn write(progress: &mut Progress, node: Node) -> Result<(), NoMemory>
    ensures nodes { OnOk result (progress.new.nodes.items ≡ progress.old.nodes.items ++ node ∷ []) }
    ensures pending { OnOk result (progress.new.pending ≡ progress.old.pending) }
    ensures path { OnOk result (progress.new.path ≡ progress.old.path) }
{
    progress.nodes.push(node)?;
    Ok(())
}

/// Goes into an object, whose fields come next.
fn enter(progress: &mut Progress, address: u64, found: Opening<'_>) -> Result<(), NoMemory>
    ensures nodes { OnOk result (progress.new.nodes.items
        ≡ progress.old.nodes.items ++ (opening found.entry).node ∷ []) }
    ensures pending { OnOk result (progress.new.pending
        ≡ map Enter (opening found.entry).fields ++ Leave address ∷ progress.old.pending) }
    ensures path { OnOk result (Enters progress.old.path progress.new.path address) }
{
    let Opening {
        node,
        message,
        fields,
    } = found;
    progress.nodes.push(node)?;
    progress.path.enter(address)?;
    progress.pending.push(Pending::Leave(address))?;
    push_inside(&mut progress.pending, message, fields)
}

/// Writes the object at an address, and goes into it where it holds anything.
#[tactic(auto, using(crate::proofs::Advancing::leaf_advances, crate::proofs::Advancing::enter_advances, crate::proofs::Advancing::short_advances))]
fn put_object(
    objects: &Objects,
    field: Field,
    address: u64,
    found: Opening<'_>,
    progress: &mut Progress,
) -> Result<(), ExportErr>
    requires refers { field.value ≡ Ref address }
    requires may { field.is_final ≡ true }
    requires new { is_on progress.old.path address ≡ false }
    requires found { Some (opening found) ≡ spec.opened_at objects.now address }
    ensures { Advances objects.now result (Enter field) progress.old progress.new }
{
    if found.holds_nothing() {
        let Opening { node, .. } = found;
        write(progress, node)?;
    } else {
        enter(progress, address, found)?;
    }
    Ok(())
}

/// Writes the lump of the object at an address, as far as its fields.
#[tactic(auto, using(crate::proofs::Advancing::cycle_advances, crate::proofs::Advancing::closed_advances, crate::proofs::Advancing::opens_as, crate::proofs::Advancing::short_advances))]
fn enter_object(
    alloc: Global,
    objects: &Objects,
    field: Field,
    address: u64,
    progress: &mut Progress,
) -> Result<(), ExportErr>
    requires refers { field.value ≡ Ref address }
    requires may { field.is_final ≡ true }
    ensures { Advances objects.now result (Enter field) progress.old progress.new }
{
    if progress.path.has(address) {
        return Err(ExportErr::NotShareable);
    }
    match opened_at(alloc, objects, address)? {
        Some(found) => put_object(objects, field, address, found, progress),
        None => Err(ExportErr::NotShareable),
    }
}

/// Writes a number or null.
#[tactic(auto, using(crate::proofs::Advancing::leaf_advances, crate::proofs::Advancing::short_advances))]
fn put_leaf(
    objects: &Objects,
    field: Field,
    node: Node,
    progress: &mut Progress,
) -> Result<(), ExportErr>
    requires { opened objects.now field ≡ leaf node }
    ensures { Advances objects.now result (Enter field) progress.old progress.new }
{
    write(progress, node)?;
    Ok(())
}

/// Writes the lump of what a field holds, as far as its fields.
#[tactic(auto, using(crate::proofs::Advancing::closed_advances))]
fn enter_field(
    alloc: Global,
    objects: &Objects,
    field: Field,
    progress: &mut Progress,
) -> Result<(), ExportErr>
    ensures { Advances objects.now result (Enter field) progress.old progress.new }
{
    if !field.is_final {
        return Err(ExportErr::NotShareable);
    }
    match field.value {
        Value::Int(n) => put_leaf(objects, field, number_node(field.kind, n), progress),
        Value::Long(n) => put_leaf(objects, field, Node::Long(n), progress),
        Value::Null => put_leaf(objects, field, Node::Null, progress),
        Value::Ref(address) => enter_object(alloc, objects, field, address, progress),
    }
}

/// One turn: writes the node of a field, or leaves an object.
#[tactic(auto, using(crate::proofs::Advancing::leave_advances))]
pub fn advance(
    alloc: Global,
    objects: &Objects,
    next: Pending,
    progress: &mut Progress,
) -> Result<(), ExportErr>
    ensures { Advances objects.now result next progress.old progress.new }
{
    match next {
        Pending::Enter(field) => enter_field(alloc, objects, field, progress),
        Pending::Leave(address) => {
            progress.path.leave(address);
            Ok(())
        }
    }
}
