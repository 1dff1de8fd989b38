// Texts that aren't taken.
use memory_runs::Run;
use std::test::Fail;

const WITHOUT_ITS_BRACE: &[u8] = b"#pragma compartment Main
#pragma import Env output
void output(int v);
int main(void) {
  output(7);
  return 0;
";

const WITH_A_WIDE_NUMBER: &[u8] = b"#pragma compartment Main
#pragma import Env output
void output(int v);
int main(void) {
  output(4294967296);
  return 0;
}
";

const SECTION_IN_A_COMMENT: &[u8] = b"/*
#pragma compartment Main
*/
";

#[test]
fn a_text_is_refused_at_the_first_phase_that_it_fails(rt: HostRuntime) -> Result<(), Fail> {
    let cases: [(&[u8], &[u8]); 4] = [
        (WITHOUT_ITS_BRACE, b"secomp: refused syntax line 6\n"),
        (WITH_A_WIDE_NUMBER, b"secomp: refused lex line 5\n"),
        (SECTION_IN_A_COMMENT, b"secomp: refused lex line 1\n"),
        (
            b"\nint main(void) { return 0; }",
            b"secomp: refused syntax line 2\n",
        ),
    ];
    for (text, err) in cases {
        for word in ["meaning", "explain"] {
            let ran = Run::new(word, text).run(rt.alloc())?;
            assert!(rt; ran.wrote(3, b"", err));
        }
    }
    Ok(())
}
