// Who stopped the machine: each reason by a program, the chain's last text read again.
use chain_texts::{EVENTS, STEPS};
use sc_base::Stop;
use sc_chain::{explain, explain_image};
use sc_compile::compile;
use sc_core::{Cause, Explanation, TrapOrigin};
use sc_types::SourceText;
use std::alloc::Global;
use std::test::Fail;

// A store through null after the last event, in a compartment that another one calls.
const NULL: &[u8] = b"#pragma compartment Main
#pragma import Net put
int put(int v);
int main(void) {
  int r;
  r = put(3);
  return r;
}
#pragma compartment Net
#pragma export put
#pragma import Env output
void output(int v);
int put(int v) {
  int *p;
  output(v);
  p = 0;
  *p = v;
  return v;
}
";

// The same faces: `Net` outputs and returns.
const WHOLE: &[u8] = b"#pragma compartment Main
#pragma import Net put
int put(int v);
int main(void) {
  int r;
  r = put(3);
  return r;
}
#pragma compartment Net
#pragma export put
#pragma import Env output
void output(int v);
int put(int v) {
  output(v);
  return v;
}
";

// A recursion that doesn't end.
const DEEP: &[u8] = b"#pragma compartment Main
int down(int n) {
  int x[1000];
  x[n] = n;
  n = down(n);
  return x[n];
}
int main(void) {
  return down(1);
}
";

// The stack is full after some fifty frames; the meaning goes on, and after two hundred a null pointer is used.
const BOTH: &[u8] = b"#pragma compartment Main
int down(int n) {
  int x[300];
  int *p;
  x[1] = n;
  if (n == 0) {
    p = 0;
    *p = 1;
    return 0;
  }
  n = down(n - 1);
  return x[1];
}
int main(void) {
  return down(200);
}
";

// `Main` writes past its array, which the chain says of it, and `Net` then stores through null.
const CHAINED: &[u8] = b"#pragma compartment Main
#pragma import Net put
#pragma import Env output
int put(int v);
void output(int v);
int a[2];
int b[4];
int main(void) {
  int i;
  output(1);
  i = 3;
  a[i] = 7;
  output(b[1]);
  i = put(2);
  return i;
}
#pragma compartment Net
#pragma export put
int put(int v) {
  int *p;
  p = 0;
  *p = v;
  return v;
}
";

// The account of a run with at most these steps, and with at most these events and no more than `EVENTS`.
fn explained(alloc: Global, text: &[u8], steps: u32, events: u32) -> Result<Explanation, Fail> {
    let source = SourceText::read(alloc, text)?;
    let explanation = explain(alloc, &source, &[], steps, events.min(EVENTS))?;
    Ok(explanation)
}

// Whether a trap stopped the machine in the compartment of that number, for that reason.
fn is_trapped(explanation: &Explanation, comp: u8, origin: TrapOrigin) -> bool {
    let Stop::Trap { .. } = explanation.stop else {
        return false;
    };
    match explanation.trapped {
        Some(trapped) => trapped.comp.number() == comp && trapped.origin == origin,
        None => false,
    }
}

#[test]
fn a_fault_after_the_last_event_has_its_line(rt: HostRuntime) -> Result<(), Fail> {
    let explanation = explained(rt.alloc(), NULL, STEPS, EVENTS)?;
    let origin = TrapOrigin::Blamed {
        cause: Cause::NullUse,
        line: 9,
    };
    assert!(rt; explanation.links.len() == 0);
    assert!(rt; is_trapped(&explanation, 1, origin));
    Ok(())
}

#[test]
fn a_recursion_without_end_fills_its_stack(rt: HostRuntime) -> Result<(), Fail> {
    let explanation = explained(rt.alloc(), DEEP, STEPS, EVENTS)?;
    assert!(rt; is_trapped(&explanation, 0, TrapOrigin::FullStack));
    Ok(())
}

#[test]
fn a_blame_comes_before_a_full_stack(rt: HostRuntime) -> Result<(), Fail> {
    let explanation = explained(rt.alloc(), BOTH, STEPS, EVENTS)?;
    let origin = TrapOrigin::Blamed {
        cause: Cause::NullUse,
        line: 8,
    };
    assert!(rt; is_trapped(&explanation, 0, origin));
    Ok(())
}

#[test]
fn who_traps_need_not_be_in_the_chain(rt: HostRuntime) -> Result<(), Fail> {
    let explanation = explained(rt.alloc(), CHAINED, STEPS, EVENTS)?;
    let origin = TrapOrigin::Blamed {
        cause: Cause::NullUse,
        line: 6,
    };
    assert!(rt; explanation.links.len() == 1);
    let link = explanation.links.get(0).ok_or("no link")?;
    assert!(rt; link.comp.number() == 0);
    assert!(rt; is_trapped(&explanation, 1, origin));
    Ok(())
}

#[test]
fn no_trap_names_nobody(rt: HostRuntime) -> Result<(), Fail> {
    let ended = explained(rt.alloc(), WHOLE, STEPS, EVENTS)?;
    assert!(rt; ended.stop == Stop::Ended);
    assert!(rt; ended.trapped == None);
    // A store through null comes after two events: where these are all, the machine stops before it.
    let few = explained(rt.alloc(), NULL, STEPS, 2)?;
    assert!(rt; few.stop == Stop::EventsOut);
    assert!(rt; few.trapped == None);
    Ok(())
}

// The least number of steps with which the machine doesn't stop for want of steps.
fn least_steps(alloc: Global, text: &[u8], most: u32) -> Result<u32, Fail> {
    for steps in 0..most {
        let explanation = explained(alloc, text, steps, EVENTS)?;
        if explanation.stop != Stop::StepsOut {
            return Ok(steps);
        }
    }
    Ok(most)
}

#[test]
fn the_last_step_is_the_trap(rt: HostRuntime) -> Result<(), Fail> {
    let least = least_steps(rt.alloc(), NULL, 400)?;
    assert!(rt; 1 <= least && least < 400);
    let origin = TrapOrigin::Blamed {
        cause: Cause::NullUse,
        line: 9,
    };
    let explanation = explained(rt.alloc(), NULL, least, EVENTS)?;
    assert!(rt; is_trapped(&explanation, 1, origin));
    let fewer = explained(rt.alloc(), NULL, least - 1, EVENTS)?;
    assert!(rt; fewer.stop == Stop::StepsOut);
    assert!(rt; fewer.trapped == None);
    Ok(())
}

#[test]
fn a_given_compartment_is_replaced(rt: HostRuntime) -> Result<(), Fail> {
    let source = SourceText::read(rt.alloc(), WHOLE)?;
    let other = SourceText::read(rt.alloc(), NULL)?;
    let image = compile(rt.alloc(), other.program())?;
    let explanation = explain_image(rt.alloc(), &source, image, &[], STEPS, EVENTS)?;
    assert!(rt; explanation.given.len() == 1);
    assert!(rt; is_trapped(&explanation, 1, TrapOrigin::Replaced));
    Ok(())
}
