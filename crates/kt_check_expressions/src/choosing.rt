//! Which of the types of an expression counts.

ghost use Rattle.kt_check_deciding.specs.Choosing as spec;
ghost use Rattle.kt_check_deciding.specs.Outcomes.{gives_some, there};
ghost use Rattle.kt_check_deciding.specs.Subtypes as subtypes;
ghost use Rattle.kt_check_expressions.specs.Types as types;
ghost use Rattle.kt_check_names.specs.Answers.{Answers, Reads};
ghost use Rattle.kt_check_names.specs.Views.{candidates_form, context_form, use_form};
ghost use Rattle.kt_check_rules.specs.Literals.{can_print};
ghost use Rattle.kt_check_rules.specs.States.{State};
ghost use Rattle.kt_typed.specs.Bodies.{expression_form};
ghost use Rattle.kt_types.specs.Kinds.{printable};
ghost use Rattle.kt_types_order.specs.Graph.{ClassesEnd};
ghost use Rattle.kt_types_tree.specs.Hierarchy.{hierarchy_form};
ghost use Rattle.kt_types_tree.specs.Types.{type_form};
ghost use Rattle.std.specs.Option.{option_copied};
ghost use Rattle.std.specs.Prelude.{◌≡◌, find, map, option_map};

use kt_check_names::{BodyContext, Candidates, Purpose, Why};
use kt_typed::TypedExpression;
use kt_types::kinds::is_printable;
use kt_types::subtyping::is_subtype;
use kt_types_tree::{Hierarchy, KtType};
use std::alloc::Global;

/// Whether the first type is a subtype of the second.
pub fn is_below(h: &Hierarchy, s: &KtType, t: &KtType) -> bool
    requires classes { ClassesEnd (hierarchy_form h.now) }
    ensures { result ≡ subtypes.is_below (hierarchy_form h.now) (type_form s.now) (type_form t.now) }
{
    is_subtype(h, s, t)
}

/// The first that is a subtype.
fn first_below<'a>(h: &Hierarchy, types: &'a [KtType], t: &KtType) -> Option<&'a KtType>
    requires classes { ClassesEnd (hierarchy_form h.now) }
    ensures { option_map type_form (option_copied result) ≡
        find (λ s. subtypes.is_below (hierarchy_form h.now) s (type_form t.now)) (map type_form types.now) }
{
    for each in types {
        if is_below(h, each, t) {
            return Some(each);
        }
    }
    None
}

/// The first that can be printed.
fn first_printable<'a>(h: &Hierarchy, types: &'a [KtType]) -> Option<&'a KtType>
    ensures { option_map type_form (option_copied result) ≡
        find (printable (hierarchy_form h.now)) (map type_form types.now) }
{
    for each in types {
        if is_printable(h, each) {
            return Some(each);
        }
    }
    None
}

/// A copy of it, where there is one.
fn copy_of(alloc: Global, t: Option<&KtType>) -> Result<KtType, Why>
    ensures { Answers type_form result (there (option_map type_form (option_copied t.entry))) }
{
    match t {
        Some(t) => Ok(t.copy(alloc)?),
        None => Err(Why::Refused),
    }
}

/// The type that counts for a use.
fn taken_type(
    alloc: Global,
    c: &BodyContext,
    purpose: Purpose,
    candidates: &[KtType],
) -> Result<KtType, Why>
    requires classes { ClassesEnd (hierarchy_form c.now.headers.now.hierarchy) }
    ensures { Answers type_form result
        (there (types.taken_type (context_form c.now) (use_form purpose.entry) (map type_form candidates.now))) }
{
    match purpose {
        Purpose::Unused => copy_of(alloc, candidates.first()),
        Purpose::AsValue => copy_of(alloc, candidates.first()),
        Purpose::Meeting(t) => copy_of(alloc, first_below(&c.headers.hierarchy, candidates, t)),
    }
}

/// The expression of the type that counts for its use.
pub fn taken(
    alloc: Global,
    c: &BodyContext,
    purpose: Purpose,
    r: Candidates,
) -> Result<TypedExpression, Why>
    requires classes { ClassesEnd (hierarchy_form c.now.headers.now.hierarchy) }
    ensures { (s : State) → Reads expression_form result s
        (gives_some (spec.taken (context_form c.now) (use_form purpose.entry) (candidates_form r)) s) }
{
    let Candidates { kind, types } = r;
    match taken_type(alloc, c, purpose, types.as_slice()) {
        Ok(of_type) => Ok(TypedExpression { of_type, kind }),
        Err(why) => {
            drop(kind);
            Err(why)
        }
    }
}

/// The expression of the first type that can be printed.
pub fn printed(alloc: Global, c: &BodyContext, r: Candidates) -> Result<TypedExpression, Why>
    ensures { (s : State) → Reads expression_form result s
        (gives_some (find (can_print (context_form c.now)) (candidates_form r)) s) }
{
    let Candidates { kind, types } = r;
    match copy_of(
        alloc,
        first_printable(&c.headers.hierarchy, types.as_slice()),
    ) {
        Ok(of_type) => Ok(TypedExpression { of_type, kind }),
        Err(why) => {
            drop(kind);
            Err(why)
        }
    }
}
