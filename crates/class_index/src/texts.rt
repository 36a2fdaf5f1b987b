//! Texts, each with a number.

ghost use Rattle.class_index.specs.Texts.{Adds, IsNumbered, IsNumbering, number_in, or_at};
ghost use Rattle.std.specs.Prelude.{◌≡◌, ℕ, List, IfOk, OnOk, None, Some, bytes_eq};

use kt_base::NoMemory;
use std::alloc::Global;
use std::collections::BTreeMap;

/// Texts, each with the number that it was first given.
#[derive(Drop)]
pub struct TextIndex {
    pub numbers: BTreeMap<Vec<u8>, usize>,
}

impl TextIndex {
    /// No text has a number.
    pub fn new(alloc: Global) -> TextIndex
        ensures none { (text : List ℕ) → number_in result text ≡ None }
        ensures numbering { IsNumbering result }
    {
        TextIndex {
            numbers: BTreeMap::new(alloc),
        }
    }

    /// The number of a text, in logarithmic time: `None` exactly where it has none.
    pub fn find(&self, text: &[u8]) -> Option<usize>
        ensures { result ≡ number_in self.now text.now }
    {
        self.numbers.get(text).copied()
    }

    fn insert(&mut self, alloc: Global, text: &[u8], number: usize) -> Result<(), NoMemory>
        requires { number_in self.old text.now ≡ None }
        ensures { OnOk result (Adds text.now number self.old self.new) }
    {
        let key = Vec::from_slice(alloc, text)?;
        let _before = self.numbers.insert(key, number)?;
        Ok(())
    }

    /// Gives a text a number, unless it has one.
    pub fn add(&mut self, alloc: Global, text: &[u8], number: usize) -> Result<(), NoMemory>
        ensures { OnOk result ((each : List ℕ) →
            number_in self.new each ≡ or_at (number_in self.old each) (bytes_eq text.now each) number) }
    {
        match self.find(text) {
            Some(_) => Ok(()),
            None => self.insert(alloc, text, number),
        }
    }

    /// The number of a text; one that no text has, where it had none.
    pub fn number_of(&mut self, alloc: Global, text: &[u8]) -> Result<usize, NoMemory>
        requires { IsNumbering self.old }
        ensures { IfOk result (IsNumbered text.now self.old self.new) }
    {
        match self.find(text) {
            Some(number) => Ok(number),
            None => {
                let number = self.numbers.len();
                self.insert(alloc, text, number)?;
                Ok(number)
            }
        }
    }
}
