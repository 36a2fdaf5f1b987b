//! Stores into local variables (JVMS SE 8 §4.10.1.7).

ghost use Rattle.class_verify_rules.specs.Frames.{cut, stored};
ghost use Rattle.std.specs.Prelude.{◌≡◌, slice_set, suc};

use class_linked::Kind;

fn set_local(locals: &mut Vec<Kind>, local: usize, kind: Kind)
    ensures { locals.new.items ≡ slice_set locals.old.items local kind }
{
    if local < locals.len() {
        locals[local] = kind;
    }
}

/// A `long` whose second unit is stored to is no more.
fn cut_long(locals: &mut Vec<Kind>, local: usize)
    ensures { locals.new.items ≡ cut local locals.old.items }
{
    if local == 0 {
        return;
    }
    if let Some(Kind::Long) = locals.get(local - 1).copied() {
        set_local(locals, local - 1, Kind::Top);
    }
}

/// Stores a value of one unit.
pub fn store(locals: &mut Vec<Kind>, local: usize, kind: Kind)
    ensures { locals.new.items ≡ stored local kind locals.old.items }
{
    cut_long(locals, local);
    set_local(locals, local, kind);
}

/// Stores a `long`, which takes two units.
pub fn store_long(locals: &mut Vec<Kind>, local: usize)
    ensures { locals.new.items ≡ slice_set (stored local Kind.Long locals.old.items) (suc local) Kind.Top }
{
    store(locals, local, Kind::Long);
    if local < locals.len() {
        set_local(locals, local + 1, Kind::Top);
    }
}
