// The gaps of a zone by their first words, in two levels: so the first one that is wide enough is found soon.

ghost use Rattle.std.specs.Prelude.{◌≡◌, ◌≢◌, ◌<◌, ◌≤◌, ◌/◌, ◌==◌, ℕ, if◌then◌else◌, length, slice_index, vec_capacity};
ghost use Rattle.std.specs.Prelude.{IfNone, IfOk, IfSome, List};
ghost use Rattle.sc_zone.specs.Tables.{AreWidest, IsWidest};
ghost use Rattle.sc_zone.specs.Zone.{zone_words};

use crate::table::{first_from, number_at, put};
use sc_base::OutOfMemory;
use std::alloc::Global;

// How many places a chunk has, and how many chunks there are: the last is for the place at the zone's end.
const CHUNK: usize = 256;

const CHUNKS: usize = 257;

/// How many words the gap has that begins at each place of a zone: 0 where none does.
#[derive(Drop)]
pub(crate) struct Gaps {
    words: Vec<u32>,
    // The most of each chunk of places.
    widest: Vec<u32>,
    ghost room: { zone_words < vec_capacity words },
    ghost chunks: { length widest.items ≡ 257 },
    ghost are_widest: { AreWidest words.items widest.items },
}

impl Gaps {
    /// None, with room for all that a zone can have.
    pub fn new(alloc: Global) -> Result<Gaps, OutOfMemory>
        ensures { IfOk result (λ gaps. (k : ℕ) → slice_index gaps.words.items k ≡ 0) }
    {
        let words = Vec::with_capacity(alloc, CHUNK * CHUNKS)?;
        let widest = Vec::from_elem(alloc, 0, CHUNKS)?;
        Ok(Gaps { words, widest })
    }

    /// How many words the gap has that begins at a place.
    #[inline(always)]
    pub fn get(&self, place: usize) -> u32
        ensures { result ≡ slice_index self.now.words.items place }
    {
        number_at(&self.words, place)
    }

    /// Gives a place another number.
    pub fn set(&mut self, place: usize, words: u32)
        requires { place ≤ zone_words }
        ensures { (k : ℕ) →
            slice_index self.new.words.items k ≡ if k == place then words else slice_index self.old.words.items k }
    {
        let before = self.get(place);
        put(&mut self.words, place, words);
        let chunk = place / CHUNK;
        let widest = number_at(&self.widest, chunk);
        let now = widest_now(&self.words, place, before, widest);
        self.widest[chunk] = now;
    }

    /// The first place at which a gap of this many words or more begins.
    pub fn first_from(&self, words: u32) -> Option<usize>
        requires { 0 < words }
        ensures found { IfSome result (λ place. words ≤ slice_index self.now.words.items place) }
        ensures first { IfSome result (λ place. (k : ℕ) → k < place → slice_index self.now.words.items k < words) }
        ensures none { IfNone result ((k : ℕ) → slice_index self.now.words.items k < words) }
    {
        let chunk = first_from(&self.widest, 0, words)?;
        first_from(&self.words, CHUNK * chunk, words)
    }
}

// The most of a place's chunk, where only its own number is another than `before` since the most was `widest`.
fn widest_now(words: &[u32], place: usize, before: u32, widest: u32) -> u32
    requires { place ≤ zone_words }
    ensures { (old : List ℕ) → IsWidest old (place / 256) widest → slice_index old place ≡ before →
        ((k : ℕ) → k ≢ place → slice_index words.now k ≡ slice_index old k) →
        IsWidest words.now (place / 256) result }
{
    let own = number_at(words, place);
    if own >= widest {
        return own;
    }
    if before < widest {
        return widest;
    }
    greatest(words, place / CHUNK)
}

// The most of a chunk.
fn greatest(words: &[u32], chunk: usize) -> u32
    requires { chunk < 257 }
    ensures { IsWidest words.now chunk result }
{
    let end = words.len().min(CHUNK * chunk + CHUNK);
    let mut most = 0;
    for place in CHUNK * chunk..end {
        most = words[place].max(most);
    }
    most
}
