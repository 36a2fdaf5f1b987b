//! Code to bytes.

ghost use Rattle.std.specs.Prelude.{◌≡◌, IfOk};
ghost use Rattle.jvm_code.specs.Spelling.{spelling};
ghost use Rattle.jvm_code.specs.Decoding.{rows, IsLaid};

use jvm_code_instructions::{Instr, put_instr};
use kt_base::NoMemory;
use std::alloc::Global;

/// The bytes of code that is `laid`, as the code array of a method has them (JVMS SE 8 §4.7.3): numbers big-endian,
/// targets by their distances, switches padded by their offsets. Fails only where memory runs out.
pub fn encode(alloc: Global, code: &[(u32, Instr)]) -> Result<Vec<u8>, NoMemory>
    requires { IsLaid (rows code.now) }
    ensures { IfOk result (λ v. v.items ≡ spelling (rows code.now)) }
{
    let mut out = Vec::new(alloc);
    for item in code {
        put_instr(&mut out, item.0, &item.1)?;
    }
    Ok(out)
}
