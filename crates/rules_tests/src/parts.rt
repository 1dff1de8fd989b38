// A text that is accepted keeps its bytes, and knows where its sections are.
use sc_event::CompId;
use sc_types::SourceText;
use std::test::Fail;

const PREAMBLE: &[u8] = b"// Two compartments.

";

const MAIN: &[u8] = b"#pragma compartment Main
#pragma import Seven seven
int seven(void);
int main(void) {
  return seven();
}

";

const SEVEN: &[u8] = b"#pragma compartment Seven
#pragma export seven
int seven(void) {
  return 7;
}
";

#[test]
fn keeps_the_parts_of_a_text(rt: HostRuntime) -> Result<(), Fail> {
    let mut bytes = Vec::new(rt.alloc());
    for part in [PREAMBLE, MAIN, SEVEN] {
        bytes.extend_from_slice(part)?;
    }
    let text = SourceText::read(rt.alloc(), bytes.as_slice())?;
    assert!(rt; text.bytes() == bytes.as_slice());
    assert!(rt; text.preamble() == PREAMBLE);
    let interfaces = text.program().interfaces();
    assert!(rt; interfaces.comps.len() == 2);
    assert!(rt; text.section(CompId::first()) == MAIN);
    let second = CompId::new(1).expect(&rt, "a number below 32");
    assert!(rt; text.section(second) == SEVEN);
    Ok(())
}
