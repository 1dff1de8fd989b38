// The commands that compile and run.
use chain_texts::programs::{GREATEST_OUTPUT, SEVEN};
use code_texts::CONSTANTS;
use memory_runs::Run;
use std::test::Fail;

#[test]
fn a_compiled_program_is_run_and_explained(rt: HostRuntime) -> Result<(), Fail> {
    let cases: [(&str, &[u8], &[u8]); 3] = [
        ("run", SEVEN, b"out Main 7\nend Main 0\nstop ended\n"),
        (
            "run",
            GREATEST_OUTPUT,
            b"out Main 2147483647\nend Main 0\nstop ended\n",
        ),
        (
            "explain",
            SEVEN,
            b"out Main 7\nend Main 0\nstop ended\nchain 0\n",
        ),
    ];
    for (word, text, want) in cases {
        let ran = Run::new(word, text).run(rt.alloc())?;
        assert!(rt; ran.wrote(0, want, b""));
    }
    Ok(())
}

#[test]
fn an_image_is_written_field_by_field(rt: HostRuntime) -> Result<(), Fail> {
    let fields: [&[u8]; 21] = [
        b"SCIM", // the mark
        &[2, 0], // the version
        &[1], // one compartment
        &[0], // which is the main one
        &[0, 0, 0, 1], // its entry, 0x01000000
        &[4], // the length of its name
        b"Main", // its name
        &[2], // it imports `output`
        &[0, 0], // no exports
        &[0, 0], // no imports
        &[60, 0, 0, 0], // the length of its code
        &[0x13, 0x01, 0xc1, 0xff, 0x23, 0x20, 0x11, 0], // addi sp,sp,-4; sw ra,0(sp)
        &[0x93, 0x01, 0x70, 0, 0x13, 0x85, 0x01, 0], // addi gp,x0,7; addi a0,gp,0
        &[0x93, 0x08, 0x20, 0, 0x73, 0, 0, 0], // addi a7,x0,2; ecall
        &[0x93, 0x01, 0, 0, 0x13, 0x85, 0x01, 0], // addi gp,x0,0; addi a0,gp,0
        &[0x83, 0x20, 0x01, 0, 0x13, 0x01, 0x41, 0], // lw ra,0(sp); addi sp,sp,4
        &[0x67, 0x80, 0, 0], // jalr x0,0(ra)
        &[0x13, 0x05, 0, 0], // at the closing brace: addi a0,x0,0
        &[0x83, 0x20, 0x01, 0, 0x13, 0x01, 0x41, 0], // lw ra,0(sp); addi sp,sp,4
        &[0x67, 0x80, 0, 0], // jalr x0,0(ra)
        &[0, 0, 0, 0], // no globals
    ];
    let mut want = Vec::new(rt.alloc());
    for field in fields {
        want.extend_from_slice(field)?;
    }
    let ran = Run::new("compile", SEVEN).run(rt.alloc())?;
    assert!(rt; ran.wrote(0, want.as_slice(), b""));
    Ok(())
}

// What `CONSTANTS` comes to.
const FOURTEEN: &[u8] = b"#pragma compartment Main
#pragma import Env output
void output(int v);
int main(void) {
  output(14);
  return 0;
}
";

#[test]
fn operators_on_constants_take_no_code(rt: HostRuntime) -> Result<(), Fail> {
    let folded = Run::new("compile", CONSTANTS).run(rt.alloc())?;
    let written = Run::new("compile", FOURTEEN).run(rt.alloc())?;
    assert_eq!(rt; folded.status, 0);
    assert_eq!(rt; folded.out.len(), written.out.len());
    Ok(())
}
