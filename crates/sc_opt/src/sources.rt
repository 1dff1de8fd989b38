//! Where temporaries are read: copies where they come from.

ghost use Rattle.sc_opt.specs.Prelude.{assigned_at, copies_one, copy_source, facts_at, is_once, source_at, source_by};
ghost use Rattle.std.specs.Prelude.{◌≡◌, ℕ, map, IfOk};
ghost use Rattle.std.specs.List.{range_with_len};

use crate::facts::{Assigned, FactTable, Facts};
use sc_base::OutOfMemory;
use sqlite_items::Items;
use std::alloc::Global;

/// For each temporary below some number the one that is read for it.
pub type Sources = Items<u32>;

/// The facts of a temporary.
pub fn facts_at(facts: &FactTable, temp: u32) -> Facts
    ensures { result ≡ facts_at facts.now temp }
{
    match facts.get(temp as usize) {
        Some(known) => *known,
        None => Facts {
            assigned: Assigned::Nowhere,
            holds_word: true,
        },
    }
}

/// The one that is read for a temporary.
pub fn source_at(sources: &Sources, temp: u32) -> u32
    ensures { result ≡ source_at sources.now temp }
{
    match sources.get(temp as usize) {
        Some(source) => *source,
        None => temp,
    }
}

fn is_once(assigned: Assigned) -> bool
    ensures { result ≡ is_once assigned }
{
    match assigned {
        Assigned::Nowhere | Assigned::Several => false,
        _ => true,
    }
}

// Whether it is a copy of one that is assigned in one place.
fn copies_one(facts: &FactTable, assigned: Assigned) -> bool
    ensures { result ≡ copies_one (assigned_at facts.now) assigned }
{
    match assigned {
        Assigned::ByCopy(from) => is_once(facts_at(facts, from).assigned),
        _ => false,
    }
}

// By where those below are read.
fn source_by(facts: &FactTable, sources: &Sources, temp: u32) -> u32
    ensures { result ≡ source_by (assigned_at facts.now) (source_at sources.now) temp (assigned_at facts.now temp) }
{
    let Assigned::ByCopy(from) = facts_at(facts, temp).assigned else {
        return temp;
    };
    let other = facts_at(facts, from).assigned;
    if !is_once(other) {
        temp
    } else if from < temp {
        source_at(sources, from)
    } else if copies_one(facts, other) {
        temp
    } else {
        from
    }
}

/// For each temporary below a number.
pub fn sources_of(alloc: Global, temps: u32, facts: &FactTable) -> Result<Sources, OutOfMemory>
    ensures { IfOk result (λ sources. sources ≡ map (copy_source (assigned_at facts.now)) (range_with_len 0 temps)) }
{
    let mut sources = Sources::from_vec(Vec::with_capacity(alloc, temps as usize)?);
    for temp in 0..temps {
        let source = source_by(facts, &sources, temp);
        sources.push(source)?;
    }
    Ok(sources)
}
