// Lowering takes time in proportion to a program's nodes. The times are printed, and not tested.
use code_texts::append;
use sc_base::OutOfMemory;
use sc_lower::lower;
use sc_tac::Tac;
use sc_types::SourceText;
use std::alloc::Global;
use std::test::Fail;
use std::time::Instant;

// The last four digits of a number.
fn digits(number: u32) -> [u8; 4] {
    [
        b'0' + (number / 1000 % 10) as u8,
        b'0' + (number / 100 % 10) as u8,
        b'0' + (number / 10 % 10) as u8,
        b'0' + (number % 10) as u8,
    ]
}

const BEGIN: &[u8] = b"#pragma compartment Main
int table[16];
";

// What follows the number in the name of a function.
const FUNCTION: &[u8] = b"(int a, int b) {
  int i;
  int sum = 0;
  for (i = 0; i < b; i++) {
    sum = sum + a * i;
    if (sum > 1000 && i != 7) {
      table[i & 15] = sum - table[a & 15];
    }
  }
  return sum;
}
";

const MAIN: &[u8] = b"int main(void) {
  return 0;
}
";

// A small function with a loop, a branch and an array.
fn append_function(text: &mut Vec<u8>, number: u32) -> Result<(), OutOfMemory> {
    append(text, &[b"int f", &digits(number), FUNCTION])
}

// A program of `count` small functions.
fn many_functions(alloc: Global, count: u32) -> Result<Vec<u8>, OutOfMemory> {
    let mut text = Vec::from_slice(alloc, BEGIN)?;
    for number in 0..count {
        append_function(&mut text, number)?;
    }
    text.extend_from_slice(MAIN)?;
    Ok(text)
}

fn nodes_of(code: &Tac) -> u32 {
    let mut nodes = 0u32;
    for section in code.tree().sections.as_slice() {
        for function in section.functions.as_slice() {
            nodes = nodes.saturating_add(function.tree().nodes);
        }
    }
    nodes
}

#[test]
fn lowering_is_timed(rt: HostRuntime) -> Result<(), Fail> {
    for count in [250, 1_000, 4_000] {
        let text = many_functions(rt.alloc(), count)?;
        let source = SourceText::read(rt.alloc(), text.as_slice())?;
        let start = Instant::now(&rt)?;
        let code = lower(rt.alloc(), source.program())?;
        let nanos = start.elapsed(&rt)?.as_nanos();
        let nodes = nodes_of(&code);
        let bytes = text.len();
        let _ = println!(rt; "{bytes} bytes, {nodes} nodes: lowered in {nanos} ns");
        assert!(rt; nodes > 0);
    }
    Ok(())
}
