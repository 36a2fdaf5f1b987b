//! The heap of a coroutine.

ghost use Rattle.mach_value.specs.Access.{changed_at, put_at};
ghost use Rattle.mach_value.specs.Heaps.{address_behind, empty_heap, object_at};
ghost use Rattle.std.specs.Option.{option_copied};
ghost use Rattle.std.specs.Prelude.{◌≡◌, [], ◌∷◌, ◌++◌, ◌+◌, ◌<◌, ◌^◌, length, OnOk, OnErr};

use crate::accessing::Change;
use crate::objects::Object;
use kt_base::NoMemory;
use sqlite_items::Items;
use std::alloc::Global;
use std::marker::Model;

/// Objects in the order in which they were made. The first has address 2.
#[derive(Drop)]
pub struct Objects {
    list: Vec<Object>,
}

impl Model for Objects {
    ghost use Rattle.mach_value.specs.declared.objects.Object.{Object};
    ghost use Rattle.std.specs.Prelude.{List};

    ghost Value = { List Object };

    ghost view = { λ o. o.list.items };
}

impl Objects {
    /// None.
    pub fn new(alloc: Global) -> Objects
        ensures { result ≡ [] }
    {
        Objects {
            list: Vec::new(alloc),
        }
    }

    /// These.
    pub fn of(list: Vec<Object>) -> Objects
        ensures { result ≡ list.items }
    {
        Objects { list }
    }

    /// The object at an address.
    pub fn at(&self, address: u64) -> Option<&Object>
        ensures { option_copied result ≡ object_at self.now address }
    {
        if address < 2 {
            return None;
        }
        self.list.get((address - 2) as usize)
    }

    /// How many there are.
    pub fn len(&self) -> usize
        ensures value { result ≡ length self.now }
        ensures bound { result < 2 ^ 63 }
    {
        self.list.len()
    }

    /// The address of the object that is made next.
    pub fn next(&self) -> u64
        ensures { result ≡ address_behind self.now }
    {
        2 + self.list.len() as u64
    }

    /// One more.
    pub fn push(&mut self, object: Object) -> Result<(), NoMemory>
        ensures ok { OnOk result (self.new ≡ self.old ++ object ∷ []) }
        ensures err { OnErr result (self.new ≡ self.old) }
    {
        self.list.push(object)?;
        Ok(())
    }

    /// Makes a change of the object at an address, where there is one that has the place.
    pub fn change(&mut self, address: u64, change: Change)
        ensures { self.new ≡ changed_at change address self.old }
    {
        if address < 2 {
            return;
        }
        let place = (address - 2) as usize;
        if place >= self.list.len() {
            return;
        }
        let object = &mut self.list[place];
        object.change(change);
    }

    /// Puts another object to an address, where there is one.
    pub fn put(&mut self, address: u64, object: Object)
        ensures { self.new ≡ put_at address object self.old }
    {
        if address < 2 {
            return;
        }
        let place = (address - 2) as usize;
        if place < self.list.len() {
            self.list[place] = object;
        }
    }

    /// All of `more` behind the others.
    pub fn append(&mut self, more: Objects) -> Result<(), NoMemory>
        ensures ok { OnOk result (self.new ≡ self.old ++ more) }
        ensures err { OnErr result (self.new ≡ self.old) }
    {
        let Objects { mut list } = more;
        self.list.append(&mut list)?;
        Ok(())
    }
}

/// That a coroutine is to wait, once its last frame is gone.
#[derive(Clone, Copy, Debug, PartialEq, Eq)]
pub struct Note {
    /// The cell whose outcome it awaits.
    pub cell: u32,
    /// The address of the continuation that gets the outcome.
    pub continuation: u64,
}

/// The objects of one coroutine, with what it noted and which cells it may await.
///
/// Address 0 is the one object of `Unit`, address 1 the object that stands for a suspended call, of class
/// `java/lang/Object`. Behind them stand the objects in the order in which they were made.
#[derive(Drop)]
pub struct Heap {
    pub objects: Objects,
    /// Set while the coroutine is to wait once its last frame is gone.
    pub note: Option<Note>,
    /// The cells that it drew and hasn't awaited yet.
    pub awaitable: Items<u32>,
}

impl Heap {
    /// An empty one, without a note. It takes no memory.
    pub fn new(alloc: Global) -> Heap
        ensures { result ≡ empty_heap }
    {
        Heap {
            objects: Objects::new(alloc),
            note: None,
            awaitable: Items::new(alloc),
        }
    }
}
