//! Methods (JVMS SE 8 §4.6).

ghost use Rattle.jvm_frames_judging.specs.Starts.{start_before};
ghost use Rattle.jvm_class_grammar.specs.Grammar.{at_start, is_abstract};
ghost use Rattle.jvm_class_judging.specs.Judging.{judge_method, judge_no_code, judge_some_code};
ghost use Rattle.jvm_class_judging.specs.Judging.{LaidMethod, LaidOption};
ghost use Rattle.jvm_class_tally.specs.Tallies.{judge_counted, judge_each, judge_one};
ghost use Rattle.jvm_class_types.specs.Seen.{code_seen, method_seen};
ghost use Rattle.std.specs.List.{AllByRecursion};
ghost use Rattle.std.specs.Prelude.{◌≡◌, map, option_map};

use crate::bodies::code_attribute;
use jvm_class_tally::Tally;
use jvm_class_types::{Code, Method, MethodFlags};
use jvm_frames_judging::starts::Start;
use jvm_members_judging::names::{method_descriptor, name};
use jvm_pool::Pool;
use kt_base::Name;

/// The tally behind that a method has no attributes, where it has no code.
fn no_code(pool: &Pool, code: &Option<Code>, tally: Tally) -> Option<Tally>
    ensures { result ≡ judge_no_code pool.now (option_map code_seen code.now) tally }
{
    match code {
        None => tally.behind(2),
        Some(_) => None,
    }
}

/// The tally behind the one attribute of a method, where it has code.
fn some_code(pool: &Pool, start: Start<'_>, code: &Option<Code>, tally: Tally) -> Option<Tally>
    requires { LaidOption (option_map code_seen code.now) }
    ensures { result ≡ judge_some_code pool.now (start_before start.entry) (option_map code_seen code.now) tally }
{
    match code {
        None => None,
        Some(code) => {
            let tally = tally.behind(2)?;
            code_attribute(pool, start, code, tally)
        }
    }
}

/// The tally behind the attributes of a method of a class: none of an abstract one, and else its code.
fn attributes(pool: &Pool, class: &Name, method: &Method, tally: Tally) -> Option<Tally>
    requires { LaidMethod (method_seen method.now) }
    ensures { result ≡ judge_one (is_abstract pool.now method.now.flags) (judge_no_code pool.now)
        (judge_some_code pool.now (at_start class.now method.now.flags method.now.name method.now.descriptor))
        (option_map code_seen method.now.code) tally }
{
    match method.flags {
        MethodFlags::Abstract => no_code(pool, &method.code, tally),
        MethodFlags::Instance | MethodFlags::Static => {
            let start = Start {
                class,
                flags: method.flags,
                name: &method.name,
                descriptor: &method.descriptor,
            };
            some_code(pool, start, &method.code, tally)
        }
    }
}

/// The tally behind a method of a class.
fn method(pool: &Pool, class: &Name, method: &Method, tally: Tally) -> Option<Tally>
    requires { LaidMethod (method_seen method.now) }
    ensures { result ≡ judge_method pool.now class.now (method_seen method.now) tally }
{
    let tally = tally.behind(2)?;
    let tally = name(pool, &method.name, tally)?;
    let tally = method_descriptor(pool, &method.descriptor, tally)?;
    attributes(pool, class, method, tally)
}

/// The tally behind each of these methods.
fn each(pool: &Pool, class: &Name, methods: &[Method], before: Tally) -> Option<Tally>
    requires { AllByRecursion LaidMethod (map method_seen methods.now) }
    ensures { result ≡ judge_each (judge_method pool.now class.now) (map method_seen methods.now) before }
{
    let mut tally = before;
    for one in methods {
        tally = method(pool, class, one, tally)?;
    }
    Some(tally)
}

/// The tally behind methods and their number.
pub(crate) fn methods(pool: &Pool, class: &Name, methods: &[Method], tally: Tally) -> Option<Tally>
    requires { AllByRecursion LaidMethod (map method_seen methods.now) }
    ensures { result ≡ judge_counted (judge_method pool.now class.now) (map method_seen methods.now) tally }
{
    let tally = tally.count(methods.len())?;
    each(pool, class, methods, tally)
}
