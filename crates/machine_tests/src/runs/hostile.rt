ghost use Rattle.std.specs.Prelude.{◌<◌};

use super::machines::{Part, STACK_TOP, START, image, second};
use super::plain::Plain;
use super::tagged::Tagged;
use sc_base::{Stop, TrapReason};
use sc_event::{CompId, Event};
use sc_image::Image;
use sc_tags::{ByteTag, TagRange};
use std::alloc::Global;
use std::test::Fail;

// Words from a seed.
#[derive(Drop)]
struct Words {
    state: u64,
}

impl Words {
    fn next(&mut self) -> u32 {
        self.state = self
            .state
            .wrapping_mul(6_364_136_223_846_793_005)
            .wrapping_add(1_442_695_040_888_963_407);
        (self.state >> 33) as u32
    }

    fn of<T: Copy, const N: usize>(&mut self, all: &[T; N]) -> T
        requires { 0 < N }
    {
        all[self.next() as usize % N]
    }

    // An instruction, of eight times one a word of any kind.
    fn instruction(&mut self) -> u32 {
        if self.next() % 8 == 0 {
            self.next()
        } else {
            self.of(&INSTRUCTIONS)
        }
    }

    // Some bytes of code or at the top of a stack.
    fn range(&mut self) -> TagRange {
        let comps = [CompId::first(), second()];
        let tags = [
            ByteTag::Code(self.of(&comps)),
            ByteTag::Data(self.of(&comps)),
            ByteTag::Unowned,
        ];
        let base = self.of(&[
            START,
            START + STRETCH,
            STACK_TOP - 32,
            STACK_TOP + STRETCH - 32,
        ]);
        TagRange {
            start: base.wrapping_add(self.next() % 64),
            bytes: self.next() % 16,
            tag: self.of(&tags),
        }
    }
}

const STRETCH: u32 = 0x10_0000;

// lui x5 of both codes and of the first data, and calls, returns, loads, stores and jumps there.
const INSTRUCTIONS: [u32; 20] = [
    0x010002b7, 0x011002b7, 0x100002b7, 0x000280e7, 0x010280e7, 0x00028067, 0x00008067, 0x00000073,
    0x00200893, 0x00100893, 0x00700513, 0xfea12e23, 0xffc12503, 0x0002a303, 0x0062a023, 0x0080006f,
    0xff9ff06f, 0xff010113, 0x00c10113, 0x00a28023,
];

// `A` and `B`, of 16 words each, which each may call a function of the other, read inputs and output.
fn hostile(alloc: Global, seed: u64) -> Result<Image, Fail> {
    let mut words = Words { state: seed };
    let mut codes = [[0; 16]; 2];
    for code in codes.iter_mut() {
        for word in code.iter_mut() {
            *word = words.instruction();
        }
    }
    let parts: [Part<'_>; 2] = [
        (
            b"\x01A\x03\x01\0\x01h\0\x01\x10\0\0\x01\x01\0\x01\0\0",
            &codes[0],
            &[],
        ),
        (
            b"\x01B\x03\x01\0\x01g\0\x01\0\0\x10\x01\x01\0\0\0\0",
            &codes[1],
            &[],
        ),
    ];
    image(alloc, &parts)
}

// The tag that the byte has in such an image: the code of each has 64 bytes, and there are no globals.
fn tag_at(ranges: &[TagRange], at: u32) -> ByteTag {
    let mut tag = ByteTag::Unowned;
    for (comp, code) in [(CompId::first(), START), (second(), START + STRETCH)] {
        if at.wrapping_sub(code) < 64 {
            tag = ByteTag::Code(comp);
        }
        if at.wrapping_sub(code.wrapping_add(0x0f00_0000)) < 0x1_0000 {
            tag = ByteTag::Data(comp);
        }
    }
    if tag == ByteTag::Unowned {
        return tag;
    }
    for range in ranges {
        if range.start <= at && at - range.start < range.bytes {
            tag = range.tag;
        }
    }
    tag
}

fn plain(alloc: Global, seed: u64) -> Result<Plain, Fail> {
    Ok(Plain::load(alloc, hostile(alloc, seed)?, &[], 10)?)
}

fn tagged(alloc: Global, seed: u64, ranges: &[TagRange]) -> Result<Tagged, Fail> {
    Ok(Tagged::load(alloc, hostile(alloc, seed)?, ranges)?)
}

// Whether both machines make the same run without ranges, and whether it begins with a call.
fn run_alike(alloc: Global, seed: u64) -> Result<(bool, bool), Fail> {
    let mut plain = plain(alloc, seed)?;
    let mut tagged = tagged(alloc, seed, &[])?;
    let same = tagged.run(200) == plain.run(200) && tagged.trace() == plain.trace();
    Ok((same, begins_with_a_call(&plain)))
}

fn begins_with_a_call(machine: &Plain) -> bool {
    matches!(machine.trace().first(), Some(Event::Call { .. }))
}

#[test]
fn runs_alike_without_ranges(rt: HostRuntime) -> Result<(), Fail> {
    let mut called = false;
    for seed in 0..500 {
        let (alike, calls) = run_alike(rt.alloc(), seed)?;
        assert!(rt; alike);
        called = called || calls;
    }
    assert!(rt; called);
    Ok(())
}

// The first half of a range, and the rest.
fn first_half(range: TagRange) -> TagRange {
    TagRange {
        bytes: range.bytes / 2,
        ..range
    }
}

fn last_half(range: TagRange) -> TagRange {
    let begin = range.bytes / 2;
    TagRange {
        start: range.start.wrapping_add(begin),
        bytes: range.bytes - begin,
        tag: range.tag,
    }
}

// Two ranges from a seed.
fn ranges(seed: u64) -> [TagRange; 2] {
    let mut words = Words { state: !seed };
    [words.range(), words.range()]
}

// The same with the second in two parts, the later one first.
fn ranges_in_parts(seed: u64) -> [TagRange; 3] {
    let both = ranges(seed);
    [both[0], last_half(both[1]), first_half(both[1])]
}

// Whether bytes from the first range's start on have the tags of a second evaluation.
fn has_tags(machine: &Tagged, ranges: &[TagRange; 2]) -> bool {
    (0..24).all(|k| {
        let at = ranges[0].start.wrapping_add(k);
        machine.tag(at) == tag_at(ranges, at)
    })
}

fn whole(alloc: Global, seed: u64) -> Result<Tagged, Fail> {
    tagged(alloc, seed, &ranges(seed))
}

fn in_parts(alloc: Global, seed: u64) -> Result<Tagged, Fail> {
    tagged(alloc, seed, &ranges_in_parts(seed))
}

// Whether two machines make the same run.
fn make_the_same_run(first: &mut Tagged, second: &mut Tagged) -> bool {
    first.run(200) == second.run(200) && first.trace() == second.trace()
}

// Whether a range does what its two parts do, and the tags are those of a second evaluation.
fn run_alike_in_parts(alloc: Global, seed: u64) -> Result<bool, Fail> {
    let mut whole = whole(alloc, seed)?;
    let mut parts = in_parts(alloc, seed)?;
    Ok(make_the_same_run(&mut whole, &mut parts) && has_tags(&whole, &ranges(seed)))
}

#[test]
fn runs_alike_with_ranges_in_parts(rt: HostRuntime) -> Result<(), Fail> {
    for seed in 0..500 {
        assert!(rt; run_alike_in_parts(rt.alloc(), seed)?);
    }
    Ok(())
}

// Runs the machine with regions up to a word of code. Where that word isn't code, the run stops there or at the jump to
// it: gives both stops, or twice the one that came earlier, and `None` where 200 steps don't suffice.
fn stops_without(plain: &mut Plain, word: u32) -> Option<[Stop; 2]> {
    let reason = TrapReason::BadJump;
    let mut from = plain.pc();
    for _ in 0..200 {
        let pc = plain.pc();
        if pc == word {
            return Some([Stop::Trap { reason, pc: from }, Stop::Trap { reason, pc }]);
        }
        from = pc;
        let stop = plain.run(1);
        if stop != Stop::StepsOut {
            return Some([stop, stop]);
        }
    }
    None
}

// Whether a run stops at a word of code that a range takes away where the machine with regions comes to it, if it does;
// and whether it comes to it.
fn stops_there(alloc: Global, seed: u64) -> Result<(bool, bool), Fail> {
    let start = START.wrapping_add((seed % 16) as u32 * 4);
    let taken = TagRange {
        start,
        bytes: 4,
        tag: ByteTag::Unowned,
    };
    let mut plain = plain(alloc, seed)?;
    let mut tagged = tagged(alloc, seed, &[taken])?;
    let Some(stops) = stops_without(&mut plain, start) else {
        return Ok((true, false));
    };
    let right = stops.contains(&tagged.run(200)) && tagged.trace() == plain.trace();
    Ok((right, plain.pc() == start))
}

#[test]
fn stops_at_what_is_not_code(rt: HostRuntime) -> Result<(), Fail> {
    let mut met = false;
    for seed in 0..500 {
        let (right, comes) = stops_there(rt.alloc(), seed)?;
        assert!(rt; right);
        met = met || comes;
    }
    assert!(rt; met);
    Ok(())
}
