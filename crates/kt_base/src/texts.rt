//! Texts as the language has them: lists of UTF-16 code units.

ghost use Rattle.kt_base.specs.Text.{utf16_of, utf8_of, utf8_char, starts_with_pair};
ghost use Rattle.std.specs.Prelude.{◌≡◌, ◌<◌, ◌≤◌, [], ◌∷◌, ◌++◌, length, take, IsTrue, IfOk, OnOk, OnErr};
ghost use Rattle.std.specs.Char.Utf16.{utf16_chars, is_high_surrogate, is_low_surrogate, surrogate_pair_char};
ghost use Rattle.std.specs.Char.Utf16.{lone_unit_char};
ghost use Rattle.std.specs.Str.{chars};
ghost use Rattle.std.specs.Prelude.{◌==◌};
ghost use Rattle.std.specs.Cmp.{partial_equiv_from_equiv};
ghost use Rattle.std.specs.Cmp.Lexicographic.{pointwise, nat_list_eq_equiv};
ghost use Rattle.std.specs.Hash as fed;
ghost use Rattle.std.specs.Cmp.Rules.{hashing};
ghost use Rattle.std.proofs.Common.{rules};

use crate::errors::NoMemory;
use std::alloc::{AllocError, Global};
use std::hash::{Hash, Hasher};
use std::marker::Model;

/// A text: a list of UTF-16 code units, in which a surrogate may stand without a partner.
#[derive(Debug, Drop)]
pub struct Text16 {
    units: Vec<u16>,
}

impl Model for Text16 {
    ghost use Rattle.std.specs.Prelude.{ℕ, List};

    ghost Value = { List ℕ };

    ghost view = { λ t. t.units.items };
}

impl Text16 {
    /// The text of no units.
    pub fn new(alloc: Global) -> Text16
        ensures { result ≡ [] }
    {
        Text16 {
            units: Vec::new(alloc),
        }
    }

    /// The text of these units.
    pub fn from_units(units: Vec<u16>) -> Text16
        ensures { result ≡ units.items }
    {
        Text16 { units }
    }

    /// The UTF-16 code units of a text (Unicode §3.9, D91).
    pub fn of(alloc: Global, s: &str) -> Result<Text16, NoMemory>
        ensures { IfOk result (λ text. text ≡ utf16_of (chars s.now)) }
    {
        let mut units = Vec::new(alloc);
        for c in s.chars() {
            units.extend_from_slice(c.encode_utf16(&mut [0; 2]))?;
        }
        Ok(Text16 { units })
    }

    /// The code units in order.
    pub fn units(&self) -> &[u16]
        ensures { result.now ≡ self.now }
    {
        self.units.as_slice()
    }

    /// Appends the text in UTF-8 (Unicode §3.9, D92), with `?` for each surrogate that has no partner.
    pub fn put_utf8(&self, into: &mut Vec<u8>) -> Result<(), NoMemory>
        ensures ok { OnOk result (into.new.items ≡ into.old.items ++ utf8_of self.now) }
        ensures err { OnErr result (into.new.items ≡ into.old.items) }
    {
        let length = into.len();
        let outcome = put_units(into, self.units.as_slice());
        if outcome.is_err() {
            into.truncate(length);
        }
        outcome
    }
}

impl PartialEq for Text16 {
    ghost eq = { pointwise ◌==◌ };

    ghost laws = { partial_equiv_from_equiv nat_list_eq_equiv };

    fn eq(&self, other: &Text16) -> bool {
        self.units() == other.units()
    }
}

impl Eq for Text16 {
    ghost laws = { nat_list_eq_equiv };
}

impl Hash for Text16 {
    ghost hash_input = { fed.slice fed.u16 };

    ghost respects_eq = { Prim.search (hashing, rules) };

    fn hash<H: Hasher>(&self, state: &mut H) {
        self.units().hash(state);
    }
}

impl Clone for Text16 {
    ghost is_clone = { λ text copy. copy ≡ text };

    fn clone(&self) -> Result<Text16, AllocError> {
        let units = self.units.clone()?;
        Ok(Text16 { units })
    }
}

/// Appends the units in UTF-8, or only the first of them where memory runs out.
fn put_units(into: &mut Vec<u8>, units: &[u16]) -> Result<(), NoMemory>
    ensures ok { OnOk result (into.new.items ≡ into.old.items ++ utf8_of units.now) }
    ensures err { OnErr result (take (length into.old.items) into.new.items ≡ into.old.items) }
{
    let mut rest = units;
    while !rest.is_empty() {
        let (found, behind) = first_char(rest);
        put_char(into, found)?;
        rest = behind;
    }
    Ok(())
}

/// Appends the character in UTF-8, or `?`.
fn put_char(into: &mut Vec<u8>, found: Option<char>) -> Result<(), NoMemory>
    ensures ok { OnOk result (into.new.items ≡ into.old.items ++ utf8_char found) }
    ensures err { OnErr result (into.new.items ≡ into.old.items) }
{
    match found {
        Some(c) => into.extend_from_slice(c.encode_utf8(&mut [0; 4]).as_bytes())?,
        None => into.push(b'?')?,
    }
    Ok(())
}

/// The character that the first units spell, if they aren't a surrogate without a partner, and the units behind.
fn first_char(units: &[u16]) -> (Option<char>, &[u16])
    requires { 0 < length units.now }
    ensures first { utf16_chars units.now ≡ result.0 ∷ utf16_chars result.1.now }
    ensures shorter { length result.1.now < length units.now }
{
    if starts_with_pair(units) {
        (Some(pair_char(units[0], units[1])), &units[2..])
    } else {
        (lone_char(units[0]), &units[1..])
    }
}

/// Whether the first two units are a high and a low surrogate.
fn starts_with_pair(units: &[u16]) -> bool
    ensures pair { result ≡ starts_with_pair units.now }
    ensures two { IsTrue result → 2 ≤ length units.now }
{
    match units {
        [high, low, ..] => is_high_surrogate(*high) && is_low_surrogate(*low),
        _ => false,
    }
}

fn is_high_surrogate(unit: u16) -> bool
    ensures { result ≡ is_high_surrogate unit }
{
    0xD800 <= unit && unit < 0xDC00
}

fn is_low_surrogate(unit: u16) -> bool
    ensures { result ≡ is_low_surrogate unit }
{
    0xDC00 <= unit && unit < 0xE000
}

/// The character of two surrogates.
fn pair_char(high: u16, low: u16) -> char
    requires high_in { IsTrue (is_high_surrogate high) }
    requires low_in { IsTrue (is_low_surrogate low) }
    ensures { result ≡ surrogate_pair_char high low }
{
    let code = 0x1_0000 + (u32::from(high) - 0xD800) * 0x400 + (u32::from(low) - 0xDC00);
    char::from_u32(code).unwrap()
}

/// The character of a unit that is in no pair: none for a surrogate.
fn lone_char(unit: u16) -> Option<char>
    ensures { result ≡ lone_unit_char unit }
{
    char::from_u32(u32::from(unit))
}
