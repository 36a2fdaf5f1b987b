//! Laws of an instruction and its bytes: functions that do nothing, whose contracts say them.

ghost use Rattle.std.specs.Prelude.{◌≡◌, ◌++◌, ℕ, List, Ok, Err, FitsSigned};
ghost use Rattle.std.specs.Int.{w32};
ghost use Rattle.std.specs.List.{AllByRecursion};
ghost use Rattle.jvm_code_instructions.specs.Table.{Row, row_of};
ghost use Rattle.jvm_code_instructions.specs.Widths.{HasRanges};
ghost use Rattle.jvm_code_instructions.specs.Spelling.{row_bytes, Allowed};
ghost use Rattle.jvm_code_instructions.specs.Reach.{Reaches};
ghost use Rattle.jvm_code_instructions.specs.Reading.{row_at};
ghost use Rattle.jvm_code_instructions.specs.declared.fault.Fault.TheVariants.{BadOpcode};
ghost use Rattle.jvm_code_instructions.specs.Same.{SameInstr};

use crate::instr::Instr;

/// An instruction that its row allows is read from its bytes, whatever follows them.
pub fn written_is_read(at: u32)
    ensures { (r : Row) (rest : List ℕ) → Allowed r → Reaches at r.operands
        → row_at at (row_bytes at r ++ rest) ≡ Ok (r, rest) }
{}

/// What is read is an instruction that its row allows, and the bytes begin with its own.
pub fn read_is_written(at: u32, bytes: &[u8])
    ensures { (r : Row) (rest : List ℕ) → row_at at bytes.now ≡ Ok (r, rest)
        → Allowed r × (bytes.now ≡ row_bytes at r ++ rest) }
{}

/// Where no instruction begins, none does with more bytes behind.
pub fn bad_opcode_stays(at: u32, bytes: &[u8])
    ensures { (more : List ℕ) → row_at at bytes.now ≡ Err BadOpcode → row_at at (bytes.now ++ more) ≡ Err BadOpcode }
{}

fn number_ranges(pairs: &[(i32, u32)])
    ensures { AllByRecursion (λ p. FitsSigned w32 p.0) pairs.now }
{
    for pair in pairs {
        let _number = pair.0;
    }
}

/// Reads each signed number of an instruction, whose type bounds it.
fn signed_numbers(instr: &Instr)
    ensures { HasRanges instr.now }
{
    match instr {
        Instr::Bipush { value } => {
            let _value = *value;
        }
        Instr::Sipush { value } => {
            let _value = *value;
        }
        Instr::Iinc { amount, .. } => {
            let _amount = *amount;
        }
        Instr::WideIinc { amount, .. } => {
            let _amount = *amount;
        }
        Instr::TableSwitch(table) => {
            let _low = table.low;
        }
        Instr::LookupSwitch(lookup) => number_ranges(&lookup.pairs),
        Instr::AconstNull
        | Instr::Iconst(_)
        | Instr::Lconst(_)
        | Instr::LdcW { .. }
        | Instr::Ldc2W { .. }
        | Instr::Load { .. }
        | Instr::LoadFixed(_)
        | Instr::LoadElement(_)
        | Instr::Store { .. }
        | Instr::StoreFixed(_)
        | Instr::StoreElement(_)
        | Instr::Stack(_)
        | Instr::Arithmetic(_)
        | Instr::Divide(_)
        | Instr::Negate(_)
        | Instr::Shift(_)
        | Instr::Bitwise(_)
        | Instr::Convert(_)
        | Instr::Lcmp
        | Instr::If { .. }
        | Instr::IfIcmp { .. }
        | Instr::IfAcmp { .. }
        | Instr::IfNull { .. }
        | Instr::Goto { .. }
        | Instr::GotoW { .. }
        | Instr::Return(_)
        | Instr::Field { .. }
        | Instr::Invoke { .. }
        | Instr::InvokeInterface { .. }
        | Instr::New { .. }
        | Instr::NewIntArray
        | Instr::AnewArray { .. }
        | Instr::ArrayLength
        | Instr::Athrow
        | Instr::Checkcast { .. }
        | Instr::Instanceof { .. }
        | Instr::WideLoad { .. }
        | Instr::WideStore { .. } => {}
    }
}

/// The opcode and the operands tell the instruction: the table loses nothing.
pub fn row_tells_instruction(one: &Instr, other: &Instr)
    requires { row_of one.now ≡ row_of other.now }
    ensures { SameInstr one.now other.now }
{
    signed_numbers(one);
    signed_numbers(other);
}
