// A region on pages.
#![tactic(auto)]

ghost use Rattle.std.specs.Prelude.{◌≡◌, ◌≤◌, ◌+◌, ◌^◌, ◌<◌};

use crate::Region;
use sc_pool::PAGE_BYTES;

// The addresses of a region, and the place of its first byte.
#[derive(Clone, Copy)]
pub(crate) struct Area {
    pub(crate) region: Region,
    pub(crate) first: usize,
    ghost few: { first ≤ 2 ^ 44 },
    ghost below: { region.start + region.bytes ≤ 2 ^ 32 },
}

impl Area {
    ghost use Rattle.sc_store.specs.Paged.{reaches, place_in};

    // A region without addresses.
    pub(crate) fn empty() -> Area
        ensures { result.region.bytes ≡ 0 }
    {
        Area {
            region: Region { start: 0, bytes: 0 },
            first: 0,
        }
    }

    // Whether this region has the `size` addresses from `at` on.
    #[inline(always)]
    pub(crate) fn reaches(&self, at: u32, size: usize) -> bool
        requires some { 0 < size }
        requires few { size ≤ 4 }
        ensures { result ≡ reaches at size self.now }
    {
        at.wrapping_sub(self.region.start) as usize + size <= self.region.bytes as usize
    }

    // The place of the byte at this address, where the places go on from page to page.
    #[inline(always)]
    pub(crate) fn place(&self, at: u32) -> usize
        requires { self.now.region.start ≤ at }
        ensures { result ≡ place_in at self.now }
    {
        self.first + (at - self.region.start) as usize
    }
}

impl Region {
    ghost use Rattle.sc_store.specs.Pages.{pages_of};

    // How many pages the region has, the last one in part.
    pub(crate) fn pages(&self) -> u32
        ensures { result ≡ pages_of self.now }
    {
        self.bytes.div_ceil(PAGE_BYTES as u32)
    }
}
