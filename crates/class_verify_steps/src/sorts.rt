//! The sorts of values that local variables and returns have.

ghost use Rattle.class_verify_rules.specs.Acts.{Leave, Load, Store, fixed_load, fixed_store, leave};
ghost use Rattle.class_verify_steps.specs.Sorts.{sort_of};
ghost use Rattle.std.specs.Prelude.{◌≡◌, option_map};

use jvm_code_opcodes::{FixedLoad, FixedStore, ReturnOp};

/// The sort of value that a local variable, or a return, has.
#[derive(Clone, Copy)]
pub enum LocalSort {
    Int,
    Long,
    Reference,
}

/// What a load pushes whose opcode names the local variable, and which that is.
pub fn loaded_fixed(op: FixedLoad) -> (LocalSort, usize)
    ensures { fixed_load op ≡ Load (sort_of result.0) result.1 }
{
    match op {
        FixedLoad::Iload0 => (LocalSort::Int, 0),
        FixedLoad::Iload1 => (LocalSort::Int, 1),
        FixedLoad::Iload2 => (LocalSort::Int, 2),
        FixedLoad::Iload3 => (LocalSort::Int, 3),
        FixedLoad::Lload0 => (LocalSort::Long, 0),
        FixedLoad::Lload1 => (LocalSort::Long, 1),
        FixedLoad::Lload2 => (LocalSort::Long, 2),
        FixedLoad::Lload3 => (LocalSort::Long, 3),
        FixedLoad::Aload0 => (LocalSort::Reference, 0),
        FixedLoad::Aload1 => (LocalSort::Reference, 1),
        FixedLoad::Aload2 => (LocalSort::Reference, 2),
        FixedLoad::Aload3 => (LocalSort::Reference, 3),
    }
}

/// What a store takes whose opcode names the local variable, and which that is.
pub fn stored_fixed(op: FixedStore) -> (LocalSort, usize)
    ensures { fixed_store op ≡ Store (sort_of result.0) result.1 }
{
    match op {
        FixedStore::Istore0 => (LocalSort::Int, 0),
        FixedStore::Istore1 => (LocalSort::Int, 1),
        FixedStore::Istore2 => (LocalSort::Int, 2),
        FixedStore::Istore3 => (LocalSort::Int, 3),
        FixedStore::Lstore0 => (LocalSort::Long, 0),
        FixedStore::Lstore1 => (LocalSort::Long, 1),
        FixedStore::Lstore2 => (LocalSort::Long, 2),
        FixedStore::Lstore3 => (LocalSort::Long, 3),
        FixedStore::Astore0 => (LocalSort::Reference, 0),
        FixedStore::Astore1 => (LocalSort::Reference, 1),
        FixedStore::Astore2 => (LocalSort::Reference, 2),
        FixedStore::Astore3 => (LocalSort::Reference, 3),
    }
}

/// What a return gives: `None` where it gives no value.
pub fn left_sort(op: ReturnOp) -> Option<LocalSort>
    ensures { leave op ≡ Leave (option_map sort_of result) }
{
    match op {
        ReturnOp::Ireturn => Some(LocalSort::Int),
        ReturnOp::Lreturn => Some(LocalSort::Long),
        ReturnOp::Areturn => Some(LocalSort::Reference),
        ReturnOp::Return => None,
    }
}
