use sc_base::{Name, Stop, Text};
use sc_core::{Cause, Explanation, Link};
use sc_event::{Args, CompId, Event, Imports, Interface, Interfaces, Params, Proto, Scalar};
use sc_monitor::{Verdict, judge};
use sc_policy::{PolicyFault, read_policy};
use sqlite_items::Items;
use std::alloc::Global;

fn interface(alloc: Global, text: &[u8], export: Option<Proto>) -> Option<Interface> {
    let mut exports = Items::new(alloc);
    if let Some(export) = export {
        exports.push(export).ok()?;
    }
    Some(Interface {
        name: Name::new(text)?,
        exports,
        imports: Imports::new(alloc),
    })
}

// `Main` calls `put` of `Net`, which was replaced after the call.
fn fixture(alloc: Global) -> Option<(Interfaces, Explanation)> {
    let main = CompId::first();
    let net = CompId::new(1)?;
    let put = Proto {
        name: Name::new(b"put")?,
        params: Params::new(alloc),
        result: Some(Scalar::Int),
    };
    let mut comps = Items::new(alloc);
    comps.push(interface(alloc, b"Main", None)?).ok()?;
    comps.push(interface(alloc, b"Net", Some(put))?).ok()?;
    let mut trace = Items::new(alloc);
    trace
        .push(Event::Call {
            from: main,
            to: net,
            index: 0,
            args: Args::from_slice(alloc, &[4, 9])?,
        })
        .ok()?;
    trace
        .push(Event::Ret {
            from: net,
            to: main,
            value: Some(9),
        })
        .ok()?;
    trace
        .push(Event::Out {
            comp: main,
            value: 9,
        })
        .ok()?;
    let mut links = Items::new(alloc);
    links
        .push(Link {
            comp: net,
            after: 1,
            cause: Cause::OutOfBounds,
            line: 6,
            text: Text::new(alloc),
        })
        .ok()?;
    let stop = Stop::StepsOut;
    Some((
        Interfaces { comps, main },
        Explanation {
            trace,
            stop,
            trapped: None,
            given: Items::new(alloc),
            links,
        },
    ))
}

fn verdict_by(alloc: Global, policy: &[u8]) -> Option<Verdict> {
    let (interfaces, explanation) = fixture(alloc)?;
    if explanation.trace.len() > 3 {
        return None;
    }
    let read = read_policy(alloc, policy).ok()?;
    Some(judge(&read.policy, &interfaces, &explanation))
}

#[test]
fn the_first_violation_is_told(rt: HostRuntime) {
    let alloc = rt.alloc();
    let violated = |after, comp, rule, compromised| {
        Some(Verdict::Violated {
            after,
            comp,
            rule,
            compromised,
        })
    };
    let main = CompId::first();
    let out = verdict_by(
        alloc,
        b"policy Small\nstate s\non s out Main > 5 deny\npolicy end\n",
    );
    assert!(rt; out == violated(2, main, 1, false));
    let ret = verdict_by(
        alloc,
        b"policy Small\nstate s\non s ret Net Main > 5 deny\npolicy end\n",
    );
    assert!(rt;
        matches!(
            ret,
            Some(Verdict::Violated {
                after: 1,
                rule: 1,
                compromised: true,
                ..
            })
        )
    );
    let input = verdict_by(
        alloc,
        b"policy Small\nstate s\non s in * deny\npolicy end\n",
    );
    assert!(rt; input == Some(Verdict::Holds { state: 0 }));
    let names = b"policy to\nstate to\nstate deny\non to call * Net put arg 2 >= -0 to deny\n\
        on deny ret Net * to to\non to out * != -9 deny\npolicy end\n";
    assert!(rt; verdict_by(alloc, names) == violated(2, main, 3, false));
}

fn bad_line(alloc: Global, policy: &[u8]) -> Option<u32> {
    match read_policy(alloc, policy) {
        Err(PolicyFault::Bad { line }) => Some(line),
        _ => None,
    }
}

#[test]
fn bad_lines_are_told(rt: HostRuntime) {
    let alloc = rt.alloc();
    assert!(rt; bad_line(alloc, b"") == Some(1));
    assert!(rt; bad_line(alloc, b"policy end\npolicy end\n") == Some(2));
    assert!(rt;
        bad_line(
            alloc,
            b"policy a\nstate s\non u out Main deny\npolicy end\n"
        ) == Some(3)
    );
    assert!(rt; bad_line(alloc, b"policy a\nstate s\nstate s\npolicy end\n") == Some(3));
    assert!(rt; bad_line(alloc, b"policy a\nstate s\non s out Main deny\nstate t\n") == Some(4));
    assert!(rt; bad_line(alloc, b"policy a\nstate s\npolicy end") == Some(3));
    assert!(rt;
        bad_line(
            alloc,
            b"policy a\nstate s\non s call a b c arg 9 = 1 deny\n"
        ) == Some(3)
    );
    assert!(rt; bad_line(alloc, b"policy a\nstate s\non s out a = 2147483648 deny\n") == Some(3));
    assert!(rt; bad_line(alloc, b"policy a\nstate s\non s  out a deny\n") == Some(3));
    assert!(rt; bad_line(alloc, b"policy a\nstate s\non s out a = -2147483648 to s\n") == Some(4));
    let rest = match read_policy(alloc, b"policy a\nstate s\npolicy end\npolicy end\n") {
        Ok(read) => read.rest,
        Err(_) => 0,
    };
    assert_eq!(rt; rest, 28);
}
