//! The stack that code needs.

ghost use Rattle.std.specs.Prelude.{◌≡◌, ◌+◌, ◌<◌, ◌≤◌, max, length, IfSome};
ghost use Rattle.jvm_class_first.specs.Heights.{height_after, highest_from, one_less};

use kt_base::Plain;

/// The greatest height of the stack while the code runs from an empty one: `None` exactly where an operand is missing.
pub fn max_stack(code: &[Plain]) -> Option<u16>
    requires { length code.now ≤ 512 }
    ensures { result ≡ highest_from code.now 0 }
{
    let mut height = 0;
    let mut highest = 0;
    for step in code {
        height = height_after(step, height)?;
        highest = greater(highest, height);
    }
    Some(highest)
}

/// The greater of two heights.
fn greater(a: u16, b: u16) -> u16
    ensures { result ≡ max a b }
{
    if a < b { b } else { a }
}

/// The height after a step: `None` exactly where an operand is missing.
fn height_after(step: &Plain, height: u16) -> Option<u16>
    requires { height < 512 }
    ensures value { result ≡ height_after step.now height }
    ensures most { IfSome result (λ after. after ≤ height + 1) }
{
    match step {
        Plain::Push(_) => Some(height + 1),
        Plain::Add | Plain::Sub | Plain::Mul => one_less(2, height),
        Plain::Print => one_less(1, height),
    }
}

/// The height less one, where it is as wanted.
fn one_less(wanted: u16, height: u16) -> Option<u16>
    requires { 1 ≤ wanted }
    ensures value { result ≡ one_less wanted height }
    ensures most { IfSome result (λ after. after ≤ height) }
{
    if wanted <= height {
        Some(height - 1)
    } else {
        None
    }
}
