//! The hierarchy of several classes.

ghost use Rattle.class_members.specs.Above.{AreChains, IsHierarchy, chain_of, climbed, links_of, list_of, parent_at, parent_of};
ghost use Rattle.std.specs.Prelude.{◌≡◌, ◌++◌, IfOk, OnOk, map};

use crate::hierarchy::Hierarchy;
use class_headers::{ClassTable, Header};
use class_supers::all_supers;
use kt_base::NoMemory;
use sqlite_items::{Items, at};
use std::alloc::Global;

fn number_above(headers: &ClassTable, header: &Header) -> Option<usize>
    ensures { result ≡ parent_of headers.now header.now }
{
    match &header.above {
        None => None,
        Some(name) => headers.number(name.as_slice()),
    }
}

fn push_found(numbers: &mut Items<usize>, number: Option<usize>) -> Result<(), NoMemory>
    ensures { OnOk result (numbers.new ≡ numbers.old ++ list_of number) }
{
    match number {
        None => {}
        Some(number) => numbers.push(number)?,
    }
    Ok(())
}

fn numbers_above(
    alloc: Global,
    headers: &ClassTable,
    header: &Header,
) -> Result<Items<usize>, NoMemory>
    ensures { IfOk result (λ numbers. numbers ≡ links_of headers.now header.now) }
{
    let mut numbers = Items::new(alloc);
    push_found(&mut numbers, number_above(headers, header))?;
    for name in header.interfaces.as_slice() {
        push_found(&mut numbers, headers.number(name.as_slice()))?;
    }
    Ok(numbers)
}

fn all_parents(alloc: Global, headers: &ClassTable) -> Result<Items<Option<usize>>, NoMemory>
    ensures { IfOk result (λ parents. parents ≡ map (parent_of headers.now) headers.now) }
{
    let mut parents = Items::new(alloc);
    for header in headers.as_slice() {
        parents.push(number_above(headers, header))?;
    }
    Ok(parents)
}

fn all_links(alloc: Global, headers: &ClassTable) -> Result<Items<Items<usize>>, NoMemory>
    ensures { IfOk result (λ links. links ≡ map (links_of headers.now) headers.now) }
{
    let mut links = Items::new(alloc);
    for header in headers.as_slice() {
        links.push(numbers_above(alloc, headers, header)?)?;
    }
    Ok(links)
}

fn parent(parents: &[Option<usize>], class: Option<usize>) -> Option<usize>
    ensures { result ≡ parent_at parents.now class }
{
    match class {
        None => None,
        Some(class) => match at(parents, class) {
            None => None,
            Some(above) => *above,
        },
    }
}

/// A class, the one above it, and so on, until none is above.
#[tactic(auto, using(crate::proofs::Chains::chain_next, crate::proofs::Chains::climbed_next, crate::proofs::Chains::chain_ends), unfolding(crate::specs::Above::climbed, crate::specs::Above::chain_below))]
fn chain(alloc: Global, parents: &[Option<usize>], class: usize) -> Result<Items<usize>, NoMemory>
    ensures { IfOk result (λ chain. chain ≡ chain_of parents.now class) }
{
    let mut chain = Items::new(alloc);
    let mut here = Some(class);
    for step in 0..parents.len() {
        match here {
            None => return Ok(chain),
            Some(next) => chain.push(next)?,
        }
        here = parent(parents, here);
    }
    Ok(chain)
}

fn all_chains(alloc: Global, parents: &[Option<usize>]) -> Result<Items<Items<usize>>, NoMemory>
    ensures { IfOk result (λ chains. AreChains parents.now chains) }
{
    let mut chains = Items::new(alloc);
    for class in 0..parents.len() {
        chains.push(chain(alloc, parents, class)?)?;
    }
    Ok(chains)
}

/// The hierarchy of these classes.
pub fn hierarchy_of(alloc: Global, headers: ClassTable) -> Result<Hierarchy, NoMemory>
    ensures { IfOk result (λ h. IsHierarchy headers h) }
{
    let parents = all_parents(alloc, &headers)?;
    let links = all_links(alloc, &headers)?;
    let chains = all_chains(alloc, parents.as_slice())?;
    let supers = all_supers(alloc, links.as_slice())?;
    Ok(Hierarchy {
        headers,
        parents,
        links,
        chains,
        supers,
    })
}
