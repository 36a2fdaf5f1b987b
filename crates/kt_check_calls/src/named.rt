//! What a called name means.

ghost use Rattle.kt_check_calls.specs.Targets.{target_form};
ghost use Rattle.kt_check_deciding.specs.Expressions as deciding;
ghost use Rattle.kt_check_deciding.specs.Outcomes.{there};
ghost use Rattle.kt_check_names.specs.Answers.{Answers};
ghost use Rattle.kt_check_names.specs.declared.known.Known as k;
ghost use Rattle.kt_check_places.specs.Places.{context_at, state_at};
ghost use Rattle.kt_check_rules.specs.Calls as spec;
ghost use Rattle.kt_tree.specs.Types.{type_tree};
ghost use Rattle.std.specs.Prelude.{◌≡◌, map};

use crate::built_ins::function_called;
use crate::functions::{calling, function_named};
use crate::targets::CallTarget;
use kt_base::Name;
use kt_check_names::Why;
use kt_check_names::scopes::local_named;
use kt_check_places::Place;
use kt_tree::TypeReference;
use kt_types_builtins::{BuiltInFunction, BuiltInThrowable};

/// Whether a built-in function isn't typed yet.
fn is_later(function: Option<BuiltInFunction>) -> bool
    ensures { result ≡ deciding.is_later function }
{
    match function {
        Some(function) => match function {
            BuiltInFunction::Launch => true,
            BuiltInFunction::SuspendCoroutine => true,
            BuiltInFunction::Println => false,
            BuiltInFunction::IntArray => false,
            BuiltInFunction::ArrayOfNulls => false,
        },
        None => false,
    }
}

/// Whether a call of a name isn't typed yet: of a local, of the constructor of a throwable, and of what suspends.
pub fn comes_later(p: &Place, name: &Name) -> bool
    ensures { (known : k.Known) → result ≡ deciding.comes_later (state_at p.now known) name.now }
{
    match local_named(p.frames, name) {
        Some(_) => true,
        None => match BuiltInThrowable::of_name(name.as_bytes()) {
            Some(_) => true,
            None => is_later(BuiltInFunction::of_name(name.as_bytes())),
        },
    }
}

/// A built-in function of a name.
fn built_in_named(
    p: &Place,
    name: &Name,
    written: &[TypeReference],
    count: usize,
) -> Result<CallTarget, Why>
    ensures { Answers target_form result
        (there (spec.built_in_named (context_at p.now) name.now (map type_tree written.now) count)) }
{
    match BuiltInFunction::of_name(name.as_bytes()) {
        Some(function) => function_called(p, function, written, count),
        None => Err(Why::Refused),
    }
}

/// What can be called by a name, with type arguments and so many arguments: a function of the file, else a built-in one.
#[tactic(auto, using(crate::proofs::Callables::named_is, crate::proofs::Callables::not_named, crate::proofs::Callables::none_named, crate::proofs::Callables::never_unbuilt))]
pub fn callable(
    p: &Place,
    name: &Name,
    written: &[TypeReference],
    count: usize,
) -> Result<CallTarget, Why>
    ensures { Answers target_form result
        (there (spec.callable (context_at p.now) name.now (map type_tree written.now) count)) }
{
    match function_named(p, name, count) {
        Some(function) => match calling(p, function, written) {
            Ok(target) => Ok(target),
            Err(Why::Refused) => built_in_named(p, name, written, count),
            Err(Why::NotBuilt) => Err(Why::NotBuilt),
            Err(Why::NoMemory) => Err(Why::NoMemory),
        },
        None => built_in_named(p, name, written, count),
    }
}
