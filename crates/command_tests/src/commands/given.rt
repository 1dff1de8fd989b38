// The flag `--image` of `explain` and `judge`: an image stands before the text.
use chain_texts::programs::{SEVEN, STORE};
use memory_runs::{Ran, Run};
use sc_base::Text;
use std::alloc::Global;
use std::test::Fail;

// What the program's own image does.
const OWN_REPORT: &[u8] = b"call Main Net put 4 9
ret Net Main 9
out Main 9
end Main 0
stop ended
chain 1
replace Net after 1 OutOfBounds line 6
";

// The same faces as Store, with other code in `Net`.
const OTHER: &[u8] = b"#pragma compartment Main
#pragma import Net put
#pragma import Env output
int put(int i, int v);
void output(int v);
int main(void) {
  int r;
  r = put(4, 9);
  output(r);
  return 0;
}
#pragma compartment Net
#pragma export put
int put(int i, int v) {
  return 102;
}
";

const OTHER_REPORT: &[u8] = b"call Main Net put 4 9
ret Net Main 102
out Main 102
end Main 0
stop ended
given Net
chain 0
";

const OTHER_MEANING: &[u8] = b"call Main Net put 4 9
ret Net Main 102
out Main 102
end Main 0
stop ended
";

// Something before the image of a program, and something after it.
fn around_image(alloc: Global, before: &[u8], program: &[u8], after: &[u8]) -> Result<Text, Fail> {
    let image = Run::new("compile", program).run(alloc)?;
    let mut input = Text::new(alloc);
    input.append(before)?;
    input.append(image.out.as_slice())?;
    input.append(after)?;
    Ok(input)
}

#[test]
fn the_own_image_has_the_own_report(rt: HostRuntime) -> Result<(), Fail> {
    let input = around_image(rt.alloc(), b"", STORE, STORE)?;
    let ran = Run::new("explain --image", input.as_bytes()).run(rt.alloc())?;
    assert!(rt; ran.wrote(0, OWN_REPORT, b""));
    Ok(())
}

#[test]
fn a_given_compartment_is_named(rt: HostRuntime) -> Result<(), Fail> {
    let input = around_image(rt.alloc(), b"", OTHER, STORE)?;
    let ran = Run::new("explain --image", input.as_bytes()).run(rt.alloc())?;
    assert!(rt; ran.wrote(0, OTHER_REPORT, b""));
    Ok(())
}

#[test]
fn a_given_compartment_performs_in_the_first_text(rt: HostRuntime) -> Result<(), Fail> {
    let input = around_image(rt.alloc(), b"", OTHER, STORE)?;
    let text = Run::new("explain --image --show 0", input.as_bytes()).run(rt.alloc())?;
    assert!(rt; text.status == 0);
    let ran = Run::new("meaning", text.out.as_slice()).run(rt.alloc())?;
    assert!(rt; ran.wrote(0, OTHER_MEANING, b""));
    Ok(())
}

#[test]
fn a_given_compartment_is_compromised_from_the_start(rt: HostRuntime) -> Result<(), Fail> {
    let cases: [(&[u8], &[u8]); 2] = [
        (
            b"policy p\nstate s\non s ret Net Main > 5 deny\npolicy end\n",
            b"verdict violated after 1 by Net rule 1 compromised\n",
        ),
        (
            b"policy p\nstate s\non s out Main > 5 deny\npolicy end\n",
            b"verdict violated after 2 by Main rule 1 clean\n",
        ),
    ];
    for (policy, line) in cases {
        let input = around_image(rt.alloc(), policy, OTHER, STORE)?;
        let mut want = Text::new(rt.alloc());
        want.append(OTHER_REPORT)?;
        want.append(line)?;
        let ran = Run::new("judge --image", input.as_bytes()).run(rt.alloc())?;
        assert!(rt; ran.wrote(0, want.as_bytes(), b""));
    }
    Ok(())
}

#[test]
fn an_image_that_is_not_there_is_bad(rt: HostRuntime) -> Result<(), Fail> {
    let ran = Run::new("explain --image", STORE).run(rt.alloc())?;
    assert!(rt; ran.wrote(6, b"", b"secomp: bad image 1\n"));
    let image = Run::new("compile", STORE).run(rt.alloc())?;
    let bytes = image.out.as_slice();
    let ran = Run::new("explain --image", &bytes[..bytes.len().saturating_sub(1)]).run(rt.alloc())?;
    assert!(rt; ran.wrote(6, b"", b"secomp: bad image 8\n"));
    let ran = Run::new("explain --image", bytes).run(rt.alloc())?;
    assert!(rt; ran.wrote(3, b"", b"secomp: refused interface line 0\n"));
    Ok(())
}

#[test]
fn the_image_of_another_program_differs(rt: HostRuntime) -> Result<(), Fail> {
    let input = around_image(rt.alloc(), b"", SEVEN, STORE)?;
    let ran = Run::new("explain --image", input.as_bytes()).run(rt.alloc())?;
    assert!(rt; ran.wrote(15, b"", b"secomp: image differs\n"));
    Ok(())
}

#[test]
fn the_policy_is_read_first(rt: HostRuntime) -> Result<(), Fail> {
    let input = around_image(rt.alloc(), b"policy p\n", STORE, STORE)?;
    let ran = Run::new("judge --image", input.as_bytes()).run(rt.alloc())?;
    assert!(rt; ran.wrote(14, b"", b"secomp: bad policy line 2\n"));
    Ok(())
}

// What is answered for a text of that many blanks after an image.
fn blanks_after_image(alloc: Global, blanks: u32) -> Result<Ran, Fail> {
    let mut text = Text::new(alloc);
    for _ in 0..blanks {
        text.append(b" ")?;
    }
    let input = around_image(alloc, b"", STORE, text.as_bytes())?;
    let ran = Run::new("explain --image", input.as_bytes()).run(alloc)?;
    Ok(ran)
}

#[test]
fn the_text_after_an_image_has_its_own_limit(rt: HostRuntime) -> Result<(), Fail> {
    let within = blanks_after_image(rt.alloc(), 1_048_576)?;
    assert!(rt; within.status == 3);
    let beyond = blanks_after_image(rt.alloc(), 1_048_577)?;
    assert!(rt; beyond.wrote(5, b"", b"secomp: too long 1048576\n"));
    Ok(())
}
