//! The store on which code runs.

ghost use Rattle.kt_direct_values.specs.Agree.{Agrees, AgreesDone, Raises};
ghost use Rattle.kt_direct_values.specs.Forms.{fault_form, object_form, place_of, shape_form, store_form, value_form};
ghost use Rattle.kt_values.specs.Heap as heap;
ghost use Rattle.kt_values.specs.Runs as runs;
ghost use Rattle.kt_values.specs.Runs.{gave};
ghost use Rattle.kt_values.specs.Throwables as spec;
ghost use Rattle.kt_values.specs.Values.{instance};
ghost use Rattle.std.specs.Prelude.{◌≡◌, [], ◌∷◌, ◌++◌, IfOk, OnOk, map, slice_get, slice_set, option_map};

use crate::ends::{Abrupt, Fault, Stop};
use crate::faults::{fault_message, thrown_class};
use crate::values::{DirectObject, DirectShape, DirectValue};
use kt_base::{Answer, Event, Lump};
use sqlite_items::Items;
use std::alloc::{AllocError, Global};

/// The variables of the body that runs, the objects in the order in which they were made, the answers that are left,
/// the events so far, and the turns that are left.
#[derive(Drop)]
pub struct DirectStore<'a> {
    variables: Vec<DirectValue>,
    heap: Vec<DirectObject>,
    answers: &'a [Answer<Lump>],
    events: Vec<Event<Lump>>,
    turns: u32,
}

/// One more at the end.
pub fn put<T: Drop>(into: &mut Vec<T>, last: T) -> Result<(), AllocError>
    ensures { OnOk result (into.new.items ≡ into.old.items ++ last ∷ []) }
{
    into.push(last)?;
    Ok(())
}

/// A list of one value.
pub fn one_item(alloc: Global, only: DirectValue) -> Result<Items<DirectValue>, AllocError>
    ensures { IfOk result (λ all. all ≡ only ∷ []) }
{
    let mut all = Items::new(alloc);
    all.push(only)?;
    Ok(all)
}

/// The place of the object that a reference refers to.
fn place_of(x: &DirectValue) -> Option<usize>
    ensures { result ≡ place_of (value_form x.now) }
{
    match x {
        DirectValue::Reference(_, place) => Some(*place),
        DirectValue::Int(_)
        | DirectValue::Long(_)
        | DirectValue::Truth(_)
        | DirectValue::Character(_)
        | DirectValue::Text(_)
        | DirectValue::Null
        | DirectValue::Unit
        | DirectValue::Entry(_, _)
        | DirectValue::Cell(_)
        | DirectValue::Closure(_, _) => None,
    }
}

impl<'a> DirectStore<'a> {
    /// At the start: no variables, no objects and no events.
    pub fn new(alloc: Global, answers: &'a [Answer<Lump>], turns: u32) -> DirectStore<'a>
        ensures { store_form result ≡ record {
          variables = [];
          heap = [];
          world = record { answers = answers.now; events = []; turns = turns };
        } }
    {
        DirectStore {
            variables: Vec::new(alloc),
            heap: Vec::new(alloc),
            answers,
            events: Vec::new(alloc),
            turns,
        }
    }

    /// One turn is charged.
    pub fn charge(&mut self) -> Result<(), Abrupt>
        ensures { AgreesDone result (store_form self.new) (runs.charge (store_form self.old)) }
    {
        if self.turns == 0 {
            return Err(Abrupt::Stopped(Stop::TurnsSpent));
        }
        self.turns -= 1;
        Ok(())
    }

    /// The event is asked, and takes the next answer.
    pub fn ask(&mut self, event: Event<Lump>) -> Result<&'a Answer<Lump>, Abrupt>
        ensures { Agrees (λ a. a.now) result (store_form self.new) (runs.ask event (store_form self.old)) }
    {
        match self.answers {
            [] => Err(Abrupt::Stopped(Stop::Asks(event))),
            [answer, left @ ..] => {
                put(&mut self.events, event)?;
                self.answers = left;
                Ok(answer)
            }
        }
    }

    /// What stands in a local itself.
    pub fn local_slot(&self, n: u32) -> Result<&DirectValue, Abrupt>
        ensures { Agrees (λ x. value_form x.now) result (store_form self.now)
            (runs.or_unfit (slice_get (store_form self.now).variables n) (store_form self.now)) }
    {
        match self.variables.get(n as usize) {
            Some(x) => Ok(x),
            None => Err(Abrupt::Stopped(Stop::Unfit)),
        }
    }

    /// A local gets a value, where it is there.
    pub fn set_local_slot(&mut self, n: u32, new: DirectValue)
        ensures { store_form self.new ≡ record (store_form self.old) {
          variables = slice_set (store_form self.old).variables n (value_form new);
        } }
    {
        let at = n as usize;
        if at < self.variables.len() {
            self.variables[at] = new;
        }
    }

    /// Other variables; those before are given back.
    pub fn swap_variables(&mut self, new: Vec<DirectValue>) -> Vec<DirectValue>
        ensures now { store_form self.new ≡ record (store_form self.old) { variables = map value_form new.items } }
        ensures before { map value_form result.items ≡ (store_form self.old).variables }
    {
        std::mem::replace(&mut self.variables, new)
    }

    /// A new object, behind all others.
    pub fn make(
        &mut self,
        shape: DirectShape,
        slots: Items<DirectValue>,
    ) -> Result<DirectValue, AllocError>
        ensures { IfOk result (λ x. heap.make (shape_form shape) (map value_form slots) (store_form self.old)
            ≡ gave (value_form x) (store_form self.new)) }
    {
        let place = self.heap.len();
        put(&mut self.heap, DirectObject { shape, slots })?;
        Ok(DirectValue::Reference(shape, place))
    }

    /// The exception of a fault.
    fn exception(&mut self, alloc: Global, fault: Fault) -> Result<DirectValue, AllocError>
        ensures { IfOk result (λ x. heap.make (instance (spec.fault_class (fault_form fault)))
            (heap.text_or_null (spec.fault_message (fault_form fault)) ∷ []) (store_form self.old)
            ≡ gave (value_form x) (store_form self.new)) }
    {
        let message = fault_message(alloc, fault)?;
        let slots = one_item(alloc, message)?;
        self.make(DirectShape::Instance(thrown_class(fault).row()), slots)
    }

    /// The exception of a fault is made and thrown.
    pub fn raise(&mut self, alloc: Global, fault: Fault) -> Abrupt
        ensures { Raises (fault_form fault) result (store_form self.old) (store_form self.new) }
    {
        match self.exception(alloc, fault) {
            Ok(x) => Abrupt::Thrown(x),
            Err(_) => Abrupt::NoMemory,
        }
    }

    /// The object of a reference.
    pub fn object_of(&self, x: &DirectValue) -> Option<&DirectObject>
        ensures { option_map (λ o. object_form o.now) result
            ≡ heap.object_of (store_form self.now).heap (value_form x.now) }
    {
        match place_of(x) {
            Some(place) => self.heap.get(place),
            None => None,
        }
    }

    /// What stands in a slot of an object.
    pub fn read_slot(&self, x: &DirectValue, slot: usize) -> Result<&DirectValue, Abrupt>
        ensures { Agrees (λ x. value_form x.now) result (store_form self.now)
            (heap.read_slot (value_form x.now) slot (store_form self.now)) }
    {
        match self.object_of(x) {
            Some(object) => match object.slots.get(slot) {
                Some(found) => Ok(found),
                None => Err(Abrupt::Stopped(Stop::Unfit)),
            },
            None => Err(Abrupt::Stopped(Stop::Unfit)),
        }
    }

    /// A slot of an object gets a value.
    pub fn write_slot(
        &mut self,
        x: &DirectValue,
        slot: usize,
        new: DirectValue,
    ) -> Result<(), Abrupt>
        ensures { AgreesDone result (store_form self.new)
            (heap.write_slot (value_form x.now) slot (value_form new) (store_form self.old)) }
    {
        let Some(place) = place_of(x) else {
            return Err(Abrupt::Stopped(Stop::Unfit));
        };
        if place >= self.heap.len() {
            return Err(Abrupt::Stopped(Stop::Unfit));
        }
        let object = &mut self.heap[place];
        if slot >= object.slots.len() {
            return Err(Abrupt::Stopped(Stop::Unfit));
        }
        object.slots.set(slot, new);
        Ok(())
    }

    /// The events.
    pub fn into_events(self) -> Vec<Event<Lump>>
        ensures { result.items ≡ (store_form self.entry).world.events }
    {
        self.events
    }
}
