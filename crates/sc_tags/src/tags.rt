//! The compartment whose code runs, and the tags that it meets.

ghost use Rattle.sc_machine.specs.Place.{IsPlace};
ghost use Rattle.sc_tags.specs.TagHart.{are_own_data, bytes_of, is_own_code, place_of};
ghost use Rattle.sc_machine.specs.Prelude.{HasBytes};
ghost use Rattle.sc_tags.specs.Prelude.{first_bytes};
ghost use Rattle.std.specs.Prelude.{IsTrue, ◌≡◌, ◌%◌, ◌+◌, ◌<◌, ◌^◌, ◌≤◌};

use crate::memory::Memory;
use crate::owner::{all_tagged, are_untouched};
use crate::tag::{ByteTag, TagRange};
use sc_event::CompId;
use sc_image::Image;
use sc_machine::{Here, Program};
use sc_store::Store;
use std::marker::Model;

/// A compartment of an image, with the ranges that give other tags. Contracts see the image, the ranges and the
/// compartment's number.
#[derive(Drop)]
pub(crate) struct Tags<'a> {
    program: &'a Program,
    here: Here<'a>,
    ranges: &'a [TagRange],
}

impl<'a> Model for Tags<'a> {
    ghost use Rattle.sc_machine.specs.Place.{IsPlace};
    ghost use Rattle.sc_tags.specs.TagHart.{TagSite};
    ghost use Rattle.std.specs.Prelude.{◌≡◌};

    ghost Value = { TagSite };

    ghost view = { λ t. record { image = t.here.image; comp = t.here.comp; ranges = t.ranges.now } };

    ghost invariant = { λ t. (t.program.now ≡ t.here.image) × IsPlace t.here.image t.here.comp };
}

impl<'a> Tags<'a> {
    /// Looks a compartment up.
    pub fn of(program: &'a Program, ranges: &'a [TagRange], comp: CompId) -> Tags<'a>
        requires { IsPlace program.now comp }
        ensures image { result.image ≡ program.now }
        ensures comp { result.comp ≡ comp }
        ensures ranges { result.ranges ≡ ranges.now }
    {
        Tags {
            program,
            here: Here::of(program, comp),
            ranges,
        }
    }

    /// The compartment.
    pub fn here(&self) -> &Here<'a>
        ensures { result.now ≡ place_of self.now }
    {
        &self.here
    }

    /// Goes over to the compartment that runs now, with the memory focused on what belongs to it.
    pub fn follow<S: Store>(&mut self, memory: &mut Memory<S>, active: CompId)
        requires { IsPlace self.old.image active }
        ensures image { self.new.image ≡ self.old.image }
        ensures comp { self.new.comp ≡ active }
        ensures ranges { self.new.ranges ≡ self.old.ranges }
        ensures memory { bytes_of S.bytes memory.new ≡ bytes_of S.bytes memory.old }
    {
        if self.here.comp() != active {
            self.here = Here::of(self.program, active);
            memory.focus(active);
        }
    }

    /// Whether a whole word stands at an address whose bytes are all tagged as the compartment's code.
    pub fn are_code(&self, address: u32) -> bool
        ensures is { result ≡ is_own_code self.now address }
        ensures aligned { IsTrue result → address % 4 ≡ 0 }
        ensures there { IsTrue result → HasBytes (first_bytes self.now.image) address 4 }
        ensures within { IsTrue result → address + 4 < 2 ^ 32 }
    {
        if address % 4 != 0 {
            return false;
        }
        if are_untouched(self.ranges, address, 4) {
            return self.here.word_at(address).is_some();
        }
        let wanted = ByteTag::Code(self.here.comp());
        all_tagged(self.image(), self.ranges, wanted, address, 4)
    }

    /// Whether the `size` bytes at an address are all tagged as the compartment's data.
    pub fn are_data(&self, address: u32, size: u32) -> bool
        requires some { 0 < size }
        requires few { size ≤ 4 }
        requires end { address + size ≤ 2 ^ 32 }
        ensures are { result ≡ are_own_data self.now address size }
        ensures there { IsTrue result → HasBytes (first_bytes self.now.image) address size }
    {
        if are_untouched(self.ranges, address, size) {
            return self.here.are_data(address, size);
        }
        let wanted = ByteTag::Data(self.here.comp());
        all_tagged(self.image(), self.ranges, wanted, address, size)
    }

    /// The image.
    fn image(&self) -> &Image
        ensures { result.now ≡ self.now.image }
    {
        self.program.image()
    }
}
