//! Whole classes (JVMS SE 8 §4.1).

ghost use Rattle.jvm_class_grammar.specs.File.{HasClassFile};
ghost use Rattle.jvm_class_judging.specs.Judging.{judge_class, judge_class_name, judge_field, judge_method, judge_this};
ghost use Rattle.jvm_class_judging.specs.Judging.{LaidMethod};
ghost use Rattle.jvm_class_tally.specs.Tallies.{judge_counted, judge_seq, tally};
ghost use Rattle.jvm_class_types.specs.Seen.{class_seen, field_seen, method_seen};
ghost use Rattle.std.specs.List.{AllByRecursion};
ghost use Rattle.std.specs.Prelude.{◌≡◌, ◌↔◌, map, IsTrue, None};

use crate::layout::are_laid;
use crate::methods::methods;
use jvm_class_tally::Tally;
use jvm_class_types::ClassFile;
use jvm_members_judging::fields::fields;
use jvm_members_judging::interfaces::interfaces;
use jvm_members_judging::names::class_name;
use jvm_pool_judging::are_entries;

/// The tally behind the interfaces, the fields and the methods of a class, and that it has no attributes.
fn members(class: &ClassFile, tally: Tally) -> Option<Tally>
    requires { AllByRecursion LaidMethod (map method_seen class.now.methods.items) }
    ensures { result ≡ judge_seq (judge_counted (judge_class_name class.now.pool))
        (λ interfaces. judge_seq (judge_counted (judge_field class.now.pool))
        (λ fields. judge_seq (judge_counted (judge_method class.now.pool class.now.name)) (λ methods. judge_this 0))) (
          class.now.interfaces.items,
          (
            map field_seen class.now.fields.items,
            (map method_seen class.now.methods.items, 0),
          ),
        ) tally }
{
    let tally = interfaces(&class.pool, &class.interfaces, tally)?;
    let tally = fields(&class.pool, &class.fields, tally)?;
    let tally = methods(&class.pool, &class.name, &class.methods, tally)?;
    tally.behind(2)
}

/// The tally behind a class.
fn judged(class: &ClassFile) -> Option<Tally>
    requires { AllByRecursion LaidMethod (map method_seen class.now.methods.items) }
    ensures { result ≡ judge_class class.now.pool (class_seen class.now) (tally 1 None) }
{
    let start = Tally {
        counter: 1,
        room: None,
    };
    let tally = start.behind(2)?;
    let tally = class_name(&class.pool, &class.name, tally)?;
    let tally = class_name(&class.pool, &class.super_class, tally)?;
    members(class, tally)
}

/// Whether a class has a class file: exactly where its pool and what it holds keep the rules of the format, and the
/// entries of its pool stand in the order of their first mention, each mentioned.
///
/// Takes no memory. What is mentioned is looked for in the pool, so the time is that of the mentions times the pool.
pub fn well_formed(class: &ClassFile) -> bool
    ensures { IsTrue result ↔ HasClassFile class.now.pool (class_seen class.now) }
{
    if !are_entries(class.pool.entries()) {
        return false;
    }
    if !are_laid(&class.methods) {
        return false;
    }
    match judged(class) {
        Some(tally) => tally.counter == class.pool.count(),
        None => false,
    }
}
