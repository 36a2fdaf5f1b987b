//! The machine that runs the code of the first programs.

ghost use Rattle.std.specs.Prelude.{◌≡◌, ◌<◌, ◌+◌, ℤ, List, ◌∷◌, length, reverse};
ghost use Rattle.std.specs.Prelude.{Some, IsSome, IfOk, OnOk};
ghost use Rattle.kt_base.specs.StackCode.{stepped, Prints};
ghost use Rattle.ktrun.specs.FirstRuns.{text_of};

use kt_base::{NoMemory, Plain, Text16};
use std::alloc::Global;

/// What the code prints: its values in order.
pub fn printed_by(alloc: Global, code: &[Plain]) -> Result<Vec<i32>, NoMemory>
    requires { (values : List ℤ) × Prints code.now values }
    ensures { IfOk result (λ values. Prints code.now values.items) }
{
    let mut stack = Vec::new(alloc);
    let mut printed = Vec::new(alloc);
    for step in code {
        take_step(&mut stack, &mut printed, *step)?;
    }
    Ok(printed)
}

/// Takes one step.
fn take_step(stack: &mut Vec<i32>, printed: &mut Vec<i32>, step: Plain) -> Result<(), NoMemory>
    requires { IsSome (stepped step (reverse stack.old.items) printed.old.items) }
    ensures { OnOk result
        (stepped step (reverse stack.old.items) printed.old.items ≡ Some
        (record { stack = reverse stack.new.items; printed = printed.new.items })) }
{
    match step {
        Plain::Push(n) => stack.push(n)?,
        Plain::Add => {
            let (a, b) = operands(stack);
            stack.push(a.wrapping_add(b))?;
        }
        Plain::Sub => {
            let (a, b) = operands(stack);
            stack.push(a.wrapping_sub(b))?;
        }
        Plain::Mul => {
            let (a, b) = operands(stack);
            stack.push(a.wrapping_mul(b))?;
        }
        Plain::Print => printed.push(operand(stack))?,
    }
    Ok(())
}

/// Takes two operands, the upper one last.
fn operands(stack: &mut Vec<i32>) -> (i32, i32)
    requires { 1 < length stack.old.items }
    ensures { reverse stack.old.items ≡ result.1 ∷ result.0 ∷ reverse stack.new.items }
{
    let b = operand(stack);
    (operand(stack), b)
}

/// Takes the upper operand.
fn operand(stack: &mut Vec<i32>) -> i32
    requires { 0 < length stack.old.items }
    ensures taken { reverse stack.old.items ≡ result ∷ reverse stack.new.items }
    ensures one { length stack.old.items ≡ length stack.new.items + 1 }
{
    match stack.pop() {
        Some(n) => n,
        None => unreachable!(),
    }
}

/// The text of values that are printed: each in decimal on a line of its own.
pub fn text_of(alloc: Global, values: &[i32]) -> Result<Vec<u8>, NoMemory>
    ensures { IfOk result (λ text. text.items ≡ text_of values.now) }
{
    let mut text = Vec::new(alloc);
    for n in values {
        let decimal = n.to_string(alloc)?;
        Text16::of(alloc, decimal.as_str())?.put_utf8(&mut text)?;
        text.push(b'\n')?;
    }
    Ok(text)
}
