// Images that are a program's own but for given compartments.
use chain_texts::{EVENTS, STEPS};
use sc_chain::{ImageFault, explain, explain_image};
use sc_compile::compile;
use sc_core::{Cause, Explanation};
use sc_image::Image;
use sc_types::SourceText;
use std::alloc::Global;
use std::test::Fail;

// `Main` writes at the index that it gets from `Net`, which is in bounds.
const OWN: &[u8] = b"#pragma compartment Main
#pragma import Net get
#pragma import Env output
int get(void);
void output(int v);
int a[4];
int b[4];
int main(void) {
  int i;
  i = get();
  a[i] = 7;
  output(b[1]);
  return 0;
}
#pragma compartment Net
#pragma export get
int seen = 1;
int get(void) { return 2; }
";

// The same faces, with another `Net`, whose index isn't in bounds.
const OTHER: &[u8] = b"#pragma compartment Main
#pragma import Net get
#pragma import Env output
int get(void);
void output(int v);
int a[4];
int b[4];
int main(void) {
  int i;
  i = get();
  a[i] = 7;
  output(b[1]);
  return 0;
}
#pragma compartment Net
#pragma export get
int seen = 1;
int get(void) { return 5; }
";

// The same code, with another global of `Net`.
const GLOBAL: &[u8] = b"#pragma compartment Main
#pragma import Net get
#pragma import Env output
int get(void);
void output(int v);
int a[4];
int b[4];
int main(void) {
  int i;
  i = get();
  a[i] = 7;
  output(b[1]);
  return 0;
}
#pragma compartment Net
#pragma export get
int seen = 2;
int get(void) { return 2; }
";

// An export of another name.
const RENAMED: &[u8] = b"#pragma compartment Main
#pragma import Net take
#pragma import Env output
int take(void);
void output(int v);
int main(void) {
  int r;
  r = take();
  output(r);
  return 0;
}
#pragma compartment Net
#pragma export take
int seen = 1;
int take(void) { return 2; }
";

fn image_of(alloc: Global, text: &[u8]) -> Result<Image, Fail> {
    let source = SourceText::read(alloc, text)?;
    let image = compile(alloc, source.program())?;
    Ok(image)
}

// The account by the first program of a run of the image of the second one.
fn explained(alloc: Global, text: &[u8]) -> Result<Result<Explanation, ImageFault>, Fail> {
    let source = SourceText::read(alloc, OWN)?;
    let image = image_of(alloc, text)?;
    Ok(explain_image(alloc, &source, image, &[], STEPS, EVENTS))
}

// The numbers of the given compartments, as the digits of a number.
fn given(explanation: &Explanation) -> u32 {
    let mut digits: u32 = 0;
    for comp in explanation.given.as_slice() {
        digits = digits
            .wrapping_mul(10)
            .wrapping_add(u32::from(comp.number()) + 1);
    }
    digits
}

#[test]
fn the_own_image_has_nobody_given(rt: HostRuntime) -> Result<(), Fail> {
    let source = SourceText::read(rt.alloc(), OWN)?;
    let own = explain(rt.alloc(), &source, &[], STEPS, EVENTS)?;
    let other = explained(rt.alloc(), OWN)??;
    assert!(rt; given(&other) == 0);
    assert!(rt; given(&own) == 0);
    assert!(rt; other.links.len() == 0);
    assert!(rt; own.trace.as_slice() == other.trace.as_slice());
    Ok(())
}

#[test]
fn a_chain_begins_with_the_given_compartments(rt: HostRuntime) -> Result<(), Fail> {
    let explanation = explained(rt.alloc(), OTHER)??;
    assert!(rt; given(&explanation) == 2);
    assert!(rt; explanation.links.len() == 1);
    let link = explanation.links.get(0).ok_or("no link")?;
    assert!(rt; link.comp.number() == 0);
    assert!(rt; link.after == 2);
    assert!(rt; link.cause == Cause::OutOfBounds);
    Ok(())
}

#[test]
fn a_compartment_with_other_globals_is_given(rt: HostRuntime) -> Result<(), Fail> {
    let explanation = explained(rt.alloc(), GLOBAL)??;
    assert!(rt; given(&explanation) == 2);
    assert!(rt; explanation.links.len() == 0);
    Ok(())
}

#[test]
fn another_program_differs(rt: HostRuntime) -> Result<(), Fail> {
    let differs = match explained(rt.alloc(), RENAMED)? {
        Err(ImageFault::Differs) => true,
        _ => false,
    };
    assert!(rt; differs);
    Ok(())
}
