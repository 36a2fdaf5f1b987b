//! Locals by their names.

ghost use Rattle.kt_check_names.specs.Lookups as lookup;
ghost use Rattle.kt_check_names.specs.Views.{declared_in, scope_of};
ghost use Rattle.kt_check_rules.specs.States as spec;
ghost use Rattle.kt_check_rules.specs.States.{is_name};
ghost use Rattle.std.specs.List.{list_any};
ghost use Rattle.std.specs.Prelude.{◌≡◌, [], false};

use kt_base::Name;

/// A name, and the local that it means.
#[derive(Drop)]
pub struct NamedLocal {
    pub name: Name,
    pub number: u32,
}

/// The scopes round a place, the innermost first; the names of each in the order of the text.
#[derive(Clone, Copy)]
pub enum Frames<'a> {
    /// No scope
    Top,
    /// A scope, inside others
    Inside(&'a [NamedLocal], &'a Frames<'a>),
}

/// The last local of a name in a scope; else what was found before.
fn last_named(names: &[NamedLocal], name: &Name, before: Option<u32>) -> Option<u32>
    ensures { result ≡ lookup.last_named names.now name.now before }
{
    let mut found = before;
    for each in names {
        if each.name == *name {
            found = Some(each.number);
        }
    }
    found
}

/// The local that a name means.
#[cycle(named)]
#[tactic(auto, using(crate::proofs::InScopes::last_is))]
pub fn local_named(frames: &Frames, name: &Name) -> Option<u32>
    ensures { result ≡ spec.local_named (scope_of frames.now) name.now }
{
    match frames {
        Frames::Top => None,
        Frames::Inside(names, outer) => last_named(names, name, local_named(&*outer, name)),
    }
}

fn is_among(names: &[NamedLocal], name: &Name) -> bool
    ensures { result ≡ lookup.is_among names.now name.now false }
{
    let mut found = false;
    for each in names {
        if *name == each.name {
            found = true;
        }
    }
    found
}

/// Whether a name is declared in a scope.
#[tactic(auto, using(crate::proofs::InScopes::among_is))]
pub fn is_declared_in(names: &[NamedLocal], name: &Name) -> bool
    ensures { result ≡ list_any (is_name name.now) (declared_in names.now []) }
{
    is_among(names, name)
}
