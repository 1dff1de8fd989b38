// The intervals of temporaries in the code of whole programs.
use code_texts::{lowered, repeated};
use sc_base::OutOfMemory;
use sc_live::intervals;
use sc_tac::Tac;
use std::alloc::Global;
use std::test::Fail;

/// Of an interval: its first point and its last.
type Ends = (u32, u32);

// Point 6 is the loop's start, 42 its end. Its head is 7 to 16, with a `Break` at 16, its body 17 to 29, with a call at
// 24, and its `next` 30 to 41.
const LOOP: &[u8] = b"#pragma compartment M
int add(int a, int b) {
  return a + b;
}
int main(void) {
  int i;
  for (i = 0; i < 3; i++) {
    i = add(i, 1);
  }
  return i;
}
";

// The intervals of each function, one function after the other.
fn ends_in(alloc: Global, code: &Tac) -> Result<Vec<Ends>, OutOfMemory> {
    let mut found = Vec::new(alloc);
    for section in code.tree().sections.as_slice() {
        for function in section.functions.as_slice() {
            for interval in intervals(alloc, function)?.as_slice() {
                found.push((interval.first, interval.last))?;
            }
        }
    }
    Ok(found)
}

#[test]
fn intervals_end_where_a_value_is_read(rt: HostRuntime) -> Result<(), Fail> {
    let code = lowered(rt.alloc(), LOOP)?;
    let found = ends_in(rt.alloc(), &code)?;
    let want: [Ends; 17] = [
        (1, 8),
        (5, 8),
        (9, 10),
        (1, 4),
        (3, 4),
        (8, 13),
        (12, 13),
        (14, 15),
        (18, 23),
        (22, 23),
        (25, 28),
        (27, 28),
        (31, 36),
        (35, 36),
        (37, 40),
        (39, 40),
        (44, 47),
    ];
    assert_eq!(rt; found.as_slice(), want.as_slice());
    Ok(())
}

const BEGIN: &[u8] = b"#pragma compartment M
int main(void) {
  int x = 0;
";

const END: &[u8] = b"  return x;
}
";

// Each of these statements has the same code, so its intervals are those of the one before it, further on.
#[test]
fn many_temporaries(rt: HostRuntime) -> Result<(), Fail> {
    let text = repeated(rt.alloc(), BEGIN, b"  x = x + 1;\n", 1_000, END)?;
    let code = lowered(rt.alloc(), text.as_slice())?;
    let found = ends_in(rt.alloc(), &code)?;
    for (first, last) in found.as_slice() {
        assert!(rt; last.wrapping_sub(*first) < 8);
    }
    assert_eq!(rt; found.len(), 4_003);
    Ok(())
}
