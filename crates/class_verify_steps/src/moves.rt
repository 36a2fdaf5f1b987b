//! How *pop*, *dup*, *swap* and their kin move operands (JVMS SE 8 §6.5).

ghost use Rattle.class_verify_rules.specs.Frames.{size_of};
ghost use Rattle.class_verify_rules.specs.Moves.{One, Two, moved};
ghost use Rattle.class_verify_steps.specs.Sorts.{Moved, size};
ghost use Rattle.std.specs.Prelude.{◌≡◌, ◌∷◌, IfOk, OnOk};

use class_linked::Kind;
use class_verify_frames::Operands;
use jvm_code_opcodes::StackOp;
use kt_base::NoMemory;

/// How many units an operand takes, where that is known.
#[derive(Clone, Copy)]
pub enum Units {
    One,
    Two,
    Neither,
}

fn units_of(kind: Kind) -> Units
    ensures { size_of kind ≡ size result }
{
    match kind {
        Kind::Top => Units::Neither,
        Kind::Long => Units::Two,
        Kind::Int | Kind::Null | Kind::Object(_) | Kind::Fresh(_) | Kind::FreshThis => Units::One,
    }
}

/// Drops one unit.
fn pop(stack: &mut Operands) -> Result<bool, NoMemory>
    ensures { IfOk result (λ fine. Moved (moved size_of StackOp.Pop stack.old) fine stack.new) }
{
    let Some(a) = stack.pop() else {
        return Ok(false);
    };
    match units_of(a) {
        Units::One => { Ok(true) }
        Units::Two => Ok(false),
        Units::Neither => Ok(false),
    }
}

/// Drops two units.
fn pop2(stack: &mut Operands) -> Result<bool, NoMemory>
    ensures { IfOk result (λ fine. Moved (moved size_of StackOp.Pop2 stack.old) fine stack.new) }
{
    let Some(a) = stack.pop() else {
        return Ok(false);
    };
    match units_of(a) {
        Units::One => {
            let Some(b) = stack.pop() else {
                return Ok(false);
            };
            match units_of(b) {
                Units::One => { Ok(true) }
                Units::Two => Ok(false),
                Units::Neither => Ok(false),
            }
        }
        Units::Two => { Ok(true) }
        Units::Neither => Ok(false),
    }
}

/// Copies one unit.
fn dup(stack: &mut Operands) -> Result<bool, NoMemory>
    ensures { IfOk result (λ fine. Moved (moved size_of StackOp.Dup stack.old) fine stack.new) }
{
    let Some(a) = stack.pop() else {
        return Ok(false);
    };
    match units_of(a) {
        Units::One => {
            stack.push(a)?;
            stack.push(a)?;
            Ok(true)
        }
        Units::Two => Ok(false),
        Units::Neither => Ok(false),
    }
}

/// Copies one unit below one.
fn dup_x1(stack: &mut Operands) -> Result<bool, NoMemory>
    ensures { IfOk result (λ fine. Moved (moved size_of StackOp.DupX1 stack.old) fine stack.new) }
{
    let Some(a) = stack.pop() else {
        return Ok(false);
    };
    match units_of(a) {
        Units::One => {
            let Some(b) = stack.pop() else {
                return Ok(false);
            };
            match units_of(b) {
                Units::One => {
                    stack.push(a)?;
                    stack.push(b)?;
                    stack.push(a)?;
                    Ok(true)
                }
                Units::Two => Ok(false),
                Units::Neither => Ok(false),
            }
        }
        Units::Two => Ok(false),
        Units::Neither => Ok(false),
    }
}

/// Copies one unit below two.
fn dup_x2(stack: &mut Operands) -> Result<bool, NoMemory>
    ensures { IfOk result (λ fine. Moved (moved size_of StackOp.DupX2 stack.old) fine stack.new) }
{
    let Some(a) = stack.pop() else {
        return Ok(false);
    };
    match units_of(a) {
        Units::One => {
            let Some(b) = stack.pop() else {
                return Ok(false);
            };
            match units_of(b) {
                Units::One => {
                    let Some(c) = stack.pop() else {
                        return Ok(false);
                    };
                    match units_of(c) {
                        Units::One => {
                            stack.push(a)?;
                            stack.push(c)?;
                            stack.push(b)?;
                            stack.push(a)?;
                            Ok(true)
                        }
                        Units::Two => Ok(false),
                        Units::Neither => Ok(false),
                    }
                }
                Units::Two => {
                    stack.push(a)?;
                    stack.push(b)?;
                    stack.push(a)?;
                    Ok(true)
                }
                Units::Neither => Ok(false),
            }
        }
        Units::Two => Ok(false),
        Units::Neither => Ok(false),
    }
}

/// Copies two units.
fn dup2(stack: &mut Operands) -> Result<bool, NoMemory>
    ensures { IfOk result (λ fine. Moved (moved size_of StackOp.Dup2 stack.old) fine stack.new) }
{
    let Some(a) = stack.pop() else {
        return Ok(false);
    };
    match units_of(a) {
        Units::One => {
            let Some(b) = stack.pop() else {
                return Ok(false);
            };
            match units_of(b) {
                Units::One => {
                    stack.push(b)?;
                    stack.push(a)?;
                    stack.push(b)?;
                    stack.push(a)?;
                    Ok(true)
                }
                Units::Two => Ok(false),
                Units::Neither => Ok(false),
            }
        }
        Units::Two => {
            stack.push(a)?;
            stack.push(a)?;
            Ok(true)
        }
        Units::Neither => Ok(false),
    }
}

/// Copies two units below one.
fn dup2_x1(stack: &mut Operands) -> Result<bool, NoMemory>
    ensures { IfOk result (λ fine. Moved (moved size_of StackOp.Dup2X1 stack.old) fine stack.new) }
{
    let Some(a) = stack.pop() else {
        return Ok(false);
    };
    match units_of(a) {
        Units::One => {
            let Some(b) = stack.pop() else {
                return Ok(false);
            };
            match units_of(b) {
                Units::One => {
                    let Some(c) = stack.pop() else {
                        return Ok(false);
                    };
                    match units_of(c) {
                        Units::One => {
                            stack.push(b)?;
                            stack.push(a)?;
                            stack.push(c)?;
                            stack.push(b)?;
                            stack.push(a)?;
                            Ok(true)
                        }
                        Units::Two => Ok(false),
                        Units::Neither => Ok(false),
                    }
                }
                Units::Two => Ok(false),
                Units::Neither => Ok(false),
            }
        }
        Units::Two => {
            let Some(b) = stack.pop() else {
                return Ok(false);
            };
            match units_of(b) {
                Units::One => {
                    stack.push(a)?;
                    stack.push(b)?;
                    stack.push(a)?;
                    Ok(true)
                }
                Units::Two => Ok(false),
                Units::Neither => Ok(false),
            }
        }
        Units::Neither => Ok(false),
    }
}

/// Swaps two units.
fn swap(stack: &mut Operands) -> Result<bool, NoMemory>
    ensures { IfOk result (λ fine. Moved (moved size_of StackOp.Swap stack.old) fine stack.new) }
{
    let Some(a) = stack.pop() else {
        return Ok(false);
    };
    match units_of(a) {
        Units::One => {
            let Some(b) = stack.pop() else {
                return Ok(false);
            };
            match units_of(b) {
                Units::One => {
                    stack.push(a)?;
                    stack.push(b)?;
                    Ok(true)
                }
                Units::Two => Ok(false),
                Units::Neither => Ok(false),
            }
        }
        Units::Two => Ok(false),
        Units::Neither => Ok(false),
    }
}

/// Copies two operands of one unit below two units.
fn dup2_x2_pair(stack: &mut Operands, a: Kind, b: Kind) -> Result<bool, NoMemory>
    requires first { size_of a ≡ One }
    requires second { size_of b ≡ One }
    ensures { IfOk result (λ fine. Moved (moved size_of StackOp.Dup2X2 (a ∷ b ∷ stack.old)) fine stack.new) }
{
    let Some(c) = stack.pop() else {
        return Ok(false);
    };
    match units_of(c) {
        Units::One => {
            let Some(d) = stack.pop() else {
                return Ok(false);
            };
            match units_of(d) {
                Units::One => {
                    push_pair(stack, a, b)?;
                    push_pair(stack, c, d)?;
                    push_pair(stack, a, b)?;
                    Ok(true)
                }
                Units::Two => Ok(false),
                Units::Neither => Ok(false),
            }
        }
        Units::Two => {
            push_pair(stack, a, b)?;
            stack.push(c)?;
            push_pair(stack, a, b)?;
            Ok(true)
        }
        Units::Neither => Ok(false),
    }
}

/// Pushes the second, and on it the first.
fn push_pair(stack: &mut Operands, a: Kind, b: Kind) -> Result<(), NoMemory>
    ensures { OnOk result (stack.new ≡ a ∷ b ∷ stack.old) }
{
    stack.push(b)?;
    stack.push(a)?;
    Ok(())
}

/// Copies an operand of two units below two units.
fn dup2_x2_long(stack: &mut Operands, a: Kind) -> Result<bool, NoMemory>
    requires { size_of a ≡ Two }
    ensures { IfOk result (λ fine. Moved (moved size_of StackOp.Dup2X2 (a ∷ stack.old)) fine stack.new) }
{
    let Some(b) = stack.pop() else {
        return Ok(false);
    };
    match units_of(b) {
        Units::One => {
            let Some(c) = stack.pop() else {
                return Ok(false);
            };
            match units_of(c) {
                Units::One => {
                    stack.push(a)?;
                    push_pair(stack, b, c)?;
                    stack.push(a)?;
                    Ok(true)
                }
                Units::Two => Ok(false),
                Units::Neither => Ok(false),
            }
        }
        Units::Two => {
            stack.push(a)?;
            push_pair(stack, a, b)?;
            Ok(true)
        }
        Units::Neither => Ok(false),
    }
}

/// Copies two units below two.
fn dup2_x2(stack: &mut Operands) -> Result<bool, NoMemory>
    ensures { IfOk result (λ fine. Moved (moved size_of StackOp.Dup2X2 stack.old) fine stack.new) }
{
    let Some(a) = stack.pop() else {
        return Ok(false);
    };
    match units_of(a) {
        Units::One => {
            let Some(b) = stack.pop() else {
                return Ok(false);
            };
            match units_of(b) {
                Units::One => dup2_x2_pair(stack, a, b),
                Units::Two => Ok(false),
                Units::Neither => Ok(false),
            }
        }
        Units::Two => dup2_x2_long(stack, a),
        Units::Neither => Ok(false),
    }
}

/// Moves the topmost operands: false exactly where these can't be moved so.
pub fn move_operands(op: StackOp, stack: &mut Operands) -> Result<bool, NoMemory>
    ensures { IfOk result (λ fine. Moved (moved size_of op stack.old) fine stack.new) }
{
    match op {
        StackOp::Pop => pop(stack),
        StackOp::Pop2 => pop2(stack),
        StackOp::Dup => dup(stack),
        StackOp::DupX1 => dup_x1(stack),
        StackOp::DupX2 => dup_x2(stack),
        StackOp::Dup2 => dup2(stack),
        StackOp::Dup2X1 => dup2_x1(stack),
        StackOp::Dup2X2 => dup2_x2(stack),
        StackOp::Swap => swap(stack),
    }
}
