//! Sets of compartments.
ghost use Rattle.std.specs.Prelude.{◌<◌, All, IfOk};

use sc_base::OutOfMemory;
use sc_event::CompId;
use sqlite_items::Items;
use std::alloc::Global;

/// A set of compartments, as the places of the ones in a word.
#[derive(Clone, Copy, Debug, PartialEq, Eq)]
pub struct CompSet {
    bits: u32,
}

impl CompSet {
    /// The set of nobody.
    pub fn empty() -> CompSet {
        CompSet { bits: 0 }
    }

    /// The set of all.
    pub fn full() -> CompSet {
        CompSet { bits: u32::MAX }
    }

    /// Each set among `count` compartments, that of nobody first; none where they are more than four.
    pub fn all(alloc: Global, count: usize) -> Result<Vec<CompSet>, OutOfMemory> {
        let sets: u32 = match count {
            1 => 2,
            2 => 4,
            3 => 8,
            4 => 16,
            _ => 0,
        };
        let mut all = Vec::new(alloc);
        for bits in 0..sets {
            all.push(CompSet { bits })?;
        }
        Ok(all)
    }

    /// Some sets among `count` compartments: each one where there are at most four, else that of nobody, that of all,
    /// and those of one and of two neighbours.
    pub fn samples(alloc: Global, count: usize) -> Result<Vec<CompSet>, OutOfMemory> {
        let mut samples = CompSet::all(alloc, count)?;
        if samples.len() > 0 {
            return Ok(samples);
        }
        samples.push(CompSet::empty())?;
        samples.push(CompSet::full())?;
        for number in 0..CompId::LIMIT {
            for pattern in [1, 3] {
                let bits = u32::wrapping_shl(pattern, number as u32);
                samples.push(CompSet { bits })?;
            }
        }
        Ok(samples)
    }

    /// Whether it has a compartment.
    pub fn has(self, comp: CompId) -> bool {
        self.bits.wrapping_shr(comp.number() as u32) & 1 == 1
    }

    /// Those of its compartments that are below this count.
    pub fn members(self, alloc: Global, count: usize) -> Result<Items<CompId>, OutOfMemory>
        ensures { IfOk result (All (λ comp. comp < count)) }
    {
        let mut comps: Items<CompId> = Items::new(alloc);
        for number in 0..CompId::LIMIT {
            let Some(comp) = CompId::new(number) else {
                return Ok(comps);
            };
            if (comp.number() as usize) < count && self.has(comp) {
                comps.push(comp)?;
            }
        }
        Ok(comps)
    }
}
