//! Constants, and the text of tokens.

ghost use Rattle.kt_direct_values.specs.Forms.{value_form};
ghost use Rattle.kt_meaning.specs.Literals as spec;
ghost use Rattle.kt_meaning.specs.Printing as printing;
ghost use Rattle.std.specs.List.{flat_map};
ghost use Rattle.std.specs.Prelude.{◌≡◌, ◌++◌, IfOk, OnOk};

use kt_base::Text16;
use kt_direct_values::DirectValue;
use kt_tree::TextPart;
use kt_typed::ConstantLiteral;
use std::alloc::{AllocError, Global};

/// Appends the units of a token of text.
pub fn put_units(into: &mut Vec<u16>, part: &TextPart) -> Result<(), AllocError>
    ensures { OnOk result (into.new.items ≡ into.old.items ++ printing.units_of part.now) }
{
    match part {
        TextPart::Run(units) => into.extend_from_slice(units.units())?,
        TextPart::Escape(unit) => into.push(*unit)?,
        TextPart::Dollar => into.push(b'$' as u16)?,
    }
    Ok(())
}

/// The text of a token.
pub fn token_text(alloc: Global, part: &TextPart) -> Result<Text16, AllocError>
    ensures { IfOk result (λ t. t ≡ printing.units_of part.now) }
{
    let mut units = Vec::new(alloc);
    put_units(&mut units, part)?;
    Ok(Text16::from_units(units))
}

/// The units of all.
fn all_units(alloc: Global, parts: &[TextPart]) -> Result<Vec<u16>, AllocError>
    ensures { IfOk result (λ units. units.items ≡ flat_map printing.units_of parts.now) }
{
    let mut units = Vec::new(alloc);
    for part in parts {
        put_units(&mut units, part)?;
    }
    Ok(units)
}

/// The value of a constant.
pub fn constant_value(alloc: Global, literal: &ConstantLiteral) -> Result<DirectValue, AllocError>
    ensures { IfOk result (λ x. value_form x ≡ spec.constant_literal literal.now) }
{
    match literal {
        ConstantLiteral::Int(n) => Ok(DirectValue::Int(*n)),
        ConstantLiteral::Long(n) => Ok(DirectValue::Long(*n)),
        ConstantLiteral::Boolean(b) => Ok(DirectValue::Truth(*b)),
        ConstantLiteral::Char(c) => Ok(DirectValue::Character(*c)),
        ConstantLiteral::Text(parts) => {
            let units = all_units(alloc, parts.as_slice())?;
            Ok(DirectValue::Text(Text16::from_units(units)))
        }
    }
}
