//! What is known of the locals of a body at a place of it.

ghost use Rattle.kt_flow.specs.Facts as spec;
ghost use Rattle.kt_flow.specs.Rows.{facts_form, form_of};
ghost use Rattle.kt_flow.specs.Sameness.{same_type};
ghost use Rattle.kt_types_tree.specs.Types.{type_form};
ghost use Rattle.std.specs.Prelude.{◌≡◌, ◌<◌, ◌≤◌, ◌++◌, ◌∷◌, [], length, map, filter, IfOk, OnOk, OnErr};

use kt_base::NoMemory;
use kt_types_tree::KtType;
use kt_types_tree::copying::copy_all;
use sqlite_items::{Items, at};
use std::alloc::Global;

/// What is known of one local.
#[derive(Drop)]
pub struct LocalFacts {
    /// The types that tests gave, in the order learnt.
    pub types: Items<KtType>,
    /// Whether it is assigned on each path to the place.
    pub surely_assigned: bool,
    /// Whether it is assigned on some path to the place.
    pub maybe_assigned: bool,
}

/// What is known of the locals, by their numbers.
#[derive(Drop)]
pub struct Facts {
    pub alloc: Global,
    pub rows: Items<LocalFacts>,
}

/// Whether two types are the same.
#[tactic(auto, using(crate::proofs::Same::same_is))]
pub fn is_same_type(t: &KtType, other: &KtType) -> bool
    ensures { result ≡ same_type (type_form t.now) (type_form other.now) }
{
    t.is_same(other)
}

/// Whether a type is among others.
pub fn has_type(t: &KtType, types: &[KtType]) -> bool
    ensures { result ≡ spec.has_type (type_form t.now) (map type_form types.now) }
{
    for each in types {
        if is_same_type(t, each) {
            return true;
        }
    }
    false
}

/// Those of some types that are among others, in their order.
fn in_common(alloc: Global, types: &[KtType], others: &[KtType]) -> Result<Items<KtType>, NoMemory>
    ensures { IfOk result (λ common. map type_form common ≡
        filter (λ t. spec.has_type t (map type_form others.now)) (map type_form types.now)) }
{
    let mut common = Items::new(alloc);
    for t in types {
        if has_type(t, others) {
            common.push(t.copy(alloc)?)?;
        }
    }
    Ok(common)
}

impl Facts {
    /// Nothing is known, and nothing assigned. Takes no memory.
    pub fn empty(alloc: Global) -> Facts
        ensures { facts_form result ≡ spec.no_facts }
    {
        Facts {
            alloc,
            rows: Items::new(alloc),
        }
    }

    /// The facts in a row.
    fn types_in(&self, row: usize) -> &[KtType]
        ensures { map type_form result.now ≡ (facts_form self.now).types row }
    {
        match at(self.rows.as_slice(), row) {
            Some(row) => row.types.as_slice(),
            None => &[],
        }
    }

    /// Whether the local of a row is assigned on each path.
    fn surely_in(&self, row: usize) -> bool
        ensures { result ≡ (facts_form self.now).surely_assigned row }
    {
        match at(self.rows.as_slice(), row) {
            Some(row) => row.surely_assigned,
            None => false,
        }
    }

    /// Whether the local of a row is assigned on some path.
    fn maybe_in(&self, row: usize) -> bool
        ensures { result ≡ (facts_form self.now).maybe_assigned row }
    {
        match at(self.rows.as_slice(), row) {
            Some(row) => row.maybe_assigned,
            None => false,
        }
    }

    /// The facts of a local, in the order learnt.
    pub fn types_of(&self, local: u32) -> &[KtType]
        ensures { map type_form result.now ≡ (facts_form self.now).types local }
    {
        self.types_in(local as usize)
    }

    /// Whether a local is assigned on each path.
    pub fn is_surely_assigned(&self, local: u32) -> bool
        ensures { result ≡ (facts_form self.now).surely_assigned local }
    {
        self.surely_in(local as usize)
    }

    /// Whether a local is assigned on some path.
    pub fn is_maybe_assigned(&self, local: u32) -> bool
        ensures { result ≡ (facts_form self.now).maybe_assigned local }
    {
        self.maybe_in(local as usize)
    }

    /// There is a row for a local.
    #[tactic(auto, using(crate::proofs::Rows::grown))]
    fn grow(&mut self, local: u32) -> Result<(), NoMemory>
        ensures same { facts_form self.new ≡ facts_form self.old }
        ensures there { OnOk result (local < length self.new.rows) }
    {
        while self.rows.len() <= local as usize {
            self.rows.push(LocalFacts {
                types: Items::new(self.alloc),
                surely_assigned: false,
                maybe_assigned: false,
            })?;
        }
        Ok(())
    }

    /// The row of a local with one type more.
    fn learning(&self, local: u32, t: &KtType) -> Result<LocalFacts, NoMemory>
        ensures types { IfOk result (λ r. map type_form r.types ≡ (facts_form self.now).types local ++ type_form t.now ∷ []) }
        ensures surely { IfOk result (λ r. r.surely_assigned ≡ (facts_form self.now).surely_assigned local) }
        ensures maybe { IfOk result (λ r. r.maybe_assigned ≡ (facts_form self.now).maybe_assigned local) }
    {
        let mut types = copy_all(self.alloc, self.types_of(local))?;
        types.push(t.copy(self.alloc)?)?;
        Ok(LocalFacts {
            types,
            surely_assigned: self.is_surely_assigned(local),
            maybe_assigned: self.is_maybe_assigned(local),
        })
    }

    /// Behind a test that gives a type to a local: it stands last among its facts, where it isn't there yet. After
    /// `NoMemory` the facts are as before.
    #[tactic(auto, using(crate::proofs::Rows::learning, crate::proofs::Rows::known))]
    pub fn learn(&mut self, local: u32, t: &KtType) -> Result<(), NoMemory>
        ensures learnt { OnOk result (facts_form self.new ≡ spec.learn local (type_form t.now) (facts_form self.old)) }
        ensures same { OnErr result (facts_form self.new ≡ facts_form self.old) }
    {
        if has_type(t, self.types_of(local)) {
            Ok(())
        } else {
            self.grow(local)?;
            let row = self.learning(local, t)?;
            self.rows.set(local as usize, row);
            Ok(())
        }
    }

    /// Behind an assignment to a local: it is assigned, and what was known of its old value is forgotten. After
    /// `NoMemory` the facts are as before.
    #[tactic(auto, using(crate::proofs::Rows::assigning))]
    pub fn assign(&mut self, local: u32) -> Result<(), NoMemory>
        ensures assigned { OnOk result (facts_form self.new ≡ spec.assign local (facts_form self.old)) }
        ensures same { OnErr result (facts_form self.new ≡ facts_form self.old) }
    {
        self.grow(local)?;
        let row = LocalFacts {
            types: Items::new(self.alloc),
            surely_assigned: true,
            maybe_assigned: true,
        };
        self.rows.set(local as usize, row);
        Ok(())
    }

    /// How many rows at least one of both has.
    fn rows_with(&self, other: &Facts) -> usize
        ensures mine { length self.now.rows ≤ result }
        ensures theirs { length other.now.rows ≤ result }
    {
        if self.rows.len() < other.rows.len() {
            other.rows.len()
        } else {
            self.rows.len()
        }
    }

    /// A row where two paths join.
    fn met_row(&self, other: &Facts, row: usize) -> Result<LocalFacts, NoMemory>
        ensures types { IfOk result (λ r. map type_form r.types ≡
            (spec.meet (facts_form self.now) (facts_form other.now)).types row) }
        ensures surely { IfOk result (λ r. r.surely_assigned ≡
            (spec.meet (facts_form self.now) (facts_form other.now)).surely_assigned row) }
        ensures maybe { IfOk result (λ r. r.maybe_assigned ≡
            (spec.meet (facts_form self.now) (facts_form other.now)).maybe_assigned row) }
    {
        Ok(LocalFacts {
            types: in_common(self.alloc, self.types_in(row), other.types_in(row))?,
            surely_assigned: self.surely_in(row) && other.surely_in(row),
            maybe_assigned: self.maybe_in(row) || other.maybe_in(row),
        })
    }

    /// Where two paths join, this one of which stands first in the text: the facts that both have, in the order of this
    /// one; surely assigned is what both assign, maybe assigned what one does.
    #[tactic(auto, using(crate::proofs::Rows::none_met, crate::proofs::Rows::one_met, crate::proofs::Rows::all_met))]
    pub fn meet(&self, other: &Facts) -> Result<Facts, NoMemory>
        ensures { IfOk result (λ f. facts_form f ≡ spec.meet (facts_form self.now) (facts_form other.now)) }
    {
        let mut rows = Items::new(self.alloc);
        for row in 0..self.rows_with(other) {
            rows.push(self.met_row(other, row)?)?;
        }
        Ok(Facts {
            alloc: self.alloc,
            rows,
        })
    }
}
