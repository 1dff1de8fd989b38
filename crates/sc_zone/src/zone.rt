ghost use Rattle.std.specs.Prelude.{◌≡◌, ◌≤◌, ◌<◌, ◌+◌, ◌==◌, ℕ, if◌then◌else◌, slice_index, vec_capacity, List, []};
ghost use Rattle.std.specs.Prelude.{None, Some, IfNone, IfOk, IfSome};
ghost use Rattle.sc_zone.specs.Gaps.{IsGap, gap_before, gap_from};
ghost use Rattle.sc_zone.specs.Zone.{least_free, starts_at, taken, with_span, without_span, words_at, zone_words};
ghost use Rattle.sc_zone.specs.declared.span.Span.{Span as Block};

use crate::Span;
use crate::gaps::Gaps;
use crate::table::{number_at, put};
use sc_base::OutOfMemory;
use std::alloc::Global;
use std::marker::Model;

/// How many words a zone has.
pub const ZONE_WORDS: u32 = 65_536;

/// The words between two blocks, before the first or after the last.
#[derive(Clone, Copy)]
struct Gap {
    place: u32,
    words: u32,
}

/// The blocks that were taken from a zone and not given back; contracts see their list, in the order of their places.
/// Room for all that can be is reserved at the start.
#[derive(Drop)]
pub struct Zone {
    // How many words the block has that begins at each place: 0 where none does.
    blocks: Vec<u32>,
    gaps: Gaps,
    // How many words the gap has that ends before each place: 0 where none does. There is none for the zone's end.
    gaps_before: Vec<u32>,
}

impl Model for Zone {
    ghost use Rattle.std.specs.Prelude.{List, ◌≤◌, vec_capacity};
    ghost use Rattle.sc_zone.specs.Tables.{AreTables, blocks_from};
    ghost use Rattle.sc_zone.specs.Zone.{zone_words};
    ghost use Rattle.sc_zone.specs.declared.span.Span.{Span};

    ghost Value = { List Span };

    ghost view = { λ zone. blocks_from 0 zone.blocks.items };

    ghost invariant = { λ zone. AreTables zone.blocks.items zone.gaps.words.items zone.gaps_before.items ×
        (zone_words ≤ vec_capacity zone.blocks) × (zone_words ≤ vec_capacity zone.gaps_before) };
}

impl Zone {
    /// A zone all of which is free.
    pub fn new(alloc: Global) -> Result<Zone, OutOfMemory>
        ensures { IfOk result (λ zone. zone ≡ []) }
    {
        let blocks = Vec::with_capacity(alloc, ZONE_WORDS as usize)?;
        let mut gaps = Gaps::new(alloc)?;
        let gaps_before = Vec::with_capacity(alloc, ZONE_WORDS as usize)?;
        gaps.set(0, ZONE_WORDS);
        Ok(Zone {
            blocks,
            gaps,
            gaps_before,
        })
    }

    /// How many words the block has that starts at a place.
    pub fn words_at(&self, place: u32) -> Option<u32>
        ensures { result ≡ words_at self.now place }
    {
        let words = number_at(&self.blocks, place as usize);
        if words == 0 {
            return None;
        }
        Some(words)
    }

    /// Takes this many words, from the least place from which they are free: `None` where they are free from none, or
    /// are none. Takes no memory.
    pub fn alloc(&mut self, words: u64) -> Option<u32>
        ensures place { result ≡ least_free self.old words }
        ensures spans { self.new ≡ taken words result self.old }
    {
        let words = count_of(words)?;
        let gap = self.first_gap(words)?;
        self.cut(gap, words);
        Some(gap.place)
    }

    /// Gives back the block that starts at a place; whether there is one. Takes no memory.
    pub fn free(&mut self, place: u32) -> bool
        ensures there { result ≡ starts_at self.old place }
        ensures spans { self.new ≡ without_span place self.old }
    {
        let Some(words) = self.words_at(place) else {
            return false;
        };
        let block = Span { place, words };
        let gap = self.joined(block);
        self.join(block, gap);
        true
    }

    // The first gap that has `words` words.
    fn first_gap(&self, words: u32) -> Option<Gap>
        requires { 0 < words }
        ensures gap { IfSome result (λ gap. IsGap 0 self.now gap.place gap.words) }
        ensures fits { IfSome result (λ gap. words ≤ gap.words) }
        ensures least { IfSome result (λ gap. least_free self.now words ≡ Some gap.place) }
        ensures none { IfNone result (least_free self.now words ≡ None) }
    {
        let place = self.gaps.first_from(words)?;
        let words = self.gaps.get(place);
        Some(Gap {
            place: place as u32,
            words,
        })
    }

    // Takes a block from the start of a gap.
    fn cut(&mut self, gap: Gap, words: u32)
        requires gap { IsGap 0 self.old gap.place gap.words }
        requires some { 0 < words }
        requires fits { words ≤ gap.words }
        ensures { self.new ≡ with_span (record { place = gap.place; words = words }) self.old }
    {
        let place = gap.place as usize;
        let rest = gap.words - words;
        put(&mut self.blocks, place, words);
        self.gaps.set(place, 0);
        self.gaps.set(place + words as usize, rest);
        put_before(&mut self.gaps_before, place + gap.words as usize, rest);
    }

    // The gap that there is once a block is given back.
    fn joined(&self, block: Span) -> Gap
        requires { words_at self.now block.place ≡ Some block.words }
        ensures place { result.place + gap_before 0 self.now block.place ≡ block.place }
        ensures words { result.words ≡
            gap_before 0 self.now block.place + block.words + gap_from 0 self.now (block.place + block.words) }
    {
        let before = number_at(&self.gaps_before, block.place as usize);
        let after = self.gaps.get((block.place + block.words) as usize);
        Gap {
            place: block.place - before,
            words: before + block.words + after,
        }
    }

    // Gives back a block, where this is the gap that there is then.
    fn join(&mut self, block: Span, gap: Gap)
        requires block { words_at self.old block.place ≡ Some block.words }
        requires place { gap.place + gap_before 0 self.old block.place ≡ block.place }
        requires words { gap.words ≡
            gap_before 0 self.old block.place + block.words + gap_from 0 self.old (block.place + block.words) }
        ensures { self.new ≡ without_span block.place self.old }
    {
        let place = block.place as usize;
        put(&mut self.blocks, place, 0);
        self.gaps.set(place + block.words as usize, 0);
        self.gaps.set(gap.place as usize, gap.words);
        put_before(&mut self.gaps_before, place, 0);
        put_before(
            &mut self.gaps_before,
            (gap.place + gap.words) as usize,
            gap.words,
        );
    }
}

// As many words, where a zone has them and they are not none.
fn count_of(words: u64) -> Option<u32>
    ensures some { IfSome result (λ count. (count ≡ words) × (0 < count) × (count ≤ zone_words)) }
    ensures none { IfNone result ((spans : List Block) → least_free spans words ≡ None) }
{
    if words == 0 {
        return None;
    }
    if words > u64::from(ZONE_WORDS) {
        return None;
    }
    Some(words as u32)
}

// Sets how many words the gap has that ends before a place, unless that is the zone's end.
fn put_before(gaps_before: &mut Vec<u32>, place: usize, words: u32)
    requires { zone_words ≤ vec_capacity gaps_before.old }
    ensures numbers { (k : ℕ) → k < zone_words → slice_index gaps_before.new.items k ≡
        if k == place then words else slice_index gaps_before.old.items k }
    ensures capacity { vec_capacity gaps_before.old ≤ vec_capacity gaps_before.new }
{
    if place < ZONE_WORDS as usize {
        put(gaps_before, place, words);
    }
}
