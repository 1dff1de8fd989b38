// The command `exec`.
use memory_runs::Run;
use std::test::Fail;

// The compartment `M` outputs 7 and ends.
pub(crate) const SEVEN: [u8; 47] = [
    0x53, 0x43, 0x49, 0x4d, 1, 0, 1, 0, 0, 0, 0, 1, 1, 0x4d, 2, 0, 0, 0, 0, 20, 0, 0, 0, 0x13,
    0x05, 0x70, 0, 0x93, 0x08, 0x20, 0, 0x73, 0, 0, 0, 0x13, 0x05, 0, 0, 0x67, 0x80, 0, 0, 0, 0, 0,
    0,
];

// Why its first n bytes are no image, for each n.
const CAUSES: [u8; 47] = [
    1, 1, 1, 1, 2, 2, 3, 4, 4, 4, 4, 4, 5, 5, 5, 6, 6, 7, 7, 8, 8, 8, 8, 8, 8, 8, 8, 8, 8, 8, 8, 8,
    8, 8, 8, 8, 8, 8, 8, 8, 8, 8, 8, 8, 8, 8, 8,
];

// `A` jumps to the second word of `B`, whose export `f` begins at the first: lui t0,0x1100; jalr ra,4(t0).
const PAST_ENTRY: &[u8] = &[
    0x53, 0x43, 0x49, 0x4d, 1, 0, 2, 0, 0, 0, 0, 1, 1, 0x41, 0, 0, 0, 0, 0, 8, 0, 0, 0, 0xb7, 0x02,
    0x10, 0x01, 0xe7, 0x80, 0x42, 0, 0, 0, 0, 0, 1, 0x42, 0, 1, 0, 1, 0x66, 0, 0, 0, 0, 0x10, 0x01,
    0, 0, 8, 0, 0, 0, 0x67, 0x80, 0, 0, 0x67, 0x80, 0, 0, 0, 0, 0, 0,
];

// The same where `A` imports `f`.
const PAST_IMPORT: &[u8] = &[
    0x53, 0x43, 0x49, 0x4d, 1, 0, 2, 0, 0, 0, 0, 1, 1, 0x41, 0, 0, 0, 1, 0, 1, 0, 0, 8, 0, 0, 0,
    0xb7, 0x02, 0x10, 0x01, 0xe7, 0x80, 0x42, 0, 0, 0, 0, 0, 1, 0x42, 0, 1, 0, 1, 0x66, 0, 0, 0, 0,
    0x10, 0x01, 0, 0, 8, 0, 0, 0, 0x67, 0x80, 0, 0, 0x67, 0x80, 0, 0, 0, 0, 0, 0,
];

// `A` imports `f`, calls it, and then the environment by a number that there isn't: lui t0,0x1100; jalr ra,0(t0);
// ecall.
const CALL: &[u8] = &[
    0x53, 0x43, 0x49, 0x4d, 1, 0, 2, 0, 0, 0, 0, 1, 1, 0x41, 0, 0, 0, 1, 0, 1, 0, 0, 12, 0, 0, 0,
    0xb7, 0x02, 0x10, 0x01, 0xe7, 0x80, 0x02, 0, 0x73, 0, 0, 0, 0, 0, 0, 0, 1, 0x42, 0, 1, 0, 1,
    0x66, 0, 0, 0, 0, 0x10, 0x01, 0, 0, 8, 0, 0, 0, 0x67, 0x80, 0, 0, 0x67, 0x80, 0, 0, 0, 0, 0, 0,
];

// Half a word of globals stands on the stack's top, and a whole one is loaded: lhu a0,0(sp); lw a0,0(sp).
const HALF_WORD: &[u8] = &[
    0x53, 0x43, 0x49, 0x4d, 1, 0, 1, 0, 0, 0, 0, 1, 1, 0x4d, 0, 0, 0, 0, 0, 8, 0, 0, 0, 0x03, 0x55,
    0x01, 0, 0x03, 0x25, 0x01, 0, 2, 0, 0, 0, 0, 0,
];

// In version 2, `M` takes two words of its zone, outputs their address and ends: addi a0,x0,2; addi a1,x0,1;
// addi a7,x0,3; ecall; addi a7,x0,2; ecall; addi a0,x0,0; jalr x0,0(ra).
const TAKES: &[u8] = &[
    0x53, 0x43, 0x49, 0x4d, 2, 0, 1, 0, 0, 0, 0, 1, 1, 0x4d, 6, 0, 0, 0, 0, 32, 0, 0, 0, 0x13,
    0x05, 0x20, 0, 0x93, 0x05, 0x10, 0, 0x93, 0x08, 0x30, 0, 0x73, 0, 0, 0, 0x93, 0x08, 0x20, 0,
    0x73, 0, 0, 0, 0x13, 0x05, 0, 0, 0x67, 0x80, 0, 0, 0, 0, 0, 0,
];

// It gives back a block at 4, where there is none: addi a0,x0,4; addi a7,x0,4; ecall.
const GIVES_BACK: &[u8] = &[
    0x53, 0x43, 0x49, 0x4d, 2, 0, 1, 0, 0, 0, 0, 1, 1, 0x4d, 6, 0, 0, 0, 0, 12, 0, 0, 0, 0x13,
    0x05, 0x40, 0, 0x93, 0x08, 0x40, 0, 0x73, 0, 0, 0, 0, 0, 0, 0,
];

const RUNS: [(&[u8], &[u8]); 7] = [
    (&SEVEN, b"out M 7\nend M 0\nstop ended\n"),
    (PAST_ENTRY, b"stop trap badjump 0x01000004\n"),
    (PAST_IMPORT, b"stop trap badjump 0x01000004\n"),
    (CALL, b"call A B f\nret B A\nstop trap badcall 0x01000008\n"),
    (HALF_WORD, b"stop trap owner 0x01000004\n"),
    (TAKES, b"out M 268959744\nend M 0\nstop ended\n"),
    (GIVES_BACK, b"stop trap badfree 0x01000008\n"),
];

#[test]
fn an_image_is_run(rt: HostRuntime) -> Result<(), Fail> {
    for (image, want) in RUNS {
        for words in ["exec", "tags"] {
            let ran = Run::new(words, image).run(rt.alloc())?;
            assert!(rt; ran.wrote(0, want, b""));
        }
    }
    Ok(())
}

#[test]
fn a_prefix_of_an_image_is_refused_at_its_first_missing_field(rt: HostRuntime) -> Result<(), Fail> {
    for (length, cause) in CAUSES.iter().enumerate() {
        let want = format!(in rt.alloc(); "secomp: bad image {cause}\n")?;
        let ran = Run::new("exec", &SEVEN[..length]).run(rt.alloc())?;
        assert!(rt; ran.wrote(6, b"", want.as_bytes()));
    }
    Ok(())
}

#[test]
fn a_byte_after_an_image_is_bad(rt: HostRuntime) -> Result<(), Fail> {
    let mut longer = SEVEN.to_vec(rt.alloc())?;
    longer.push(0)?;
    let ran = Run::new("exec", &longer).run(rt.alloc())?;
    assert!(rt; ran.wrote(6, b"", b"secomp: bad image 9\n"));
    Ok(())
}
