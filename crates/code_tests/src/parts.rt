use sc_event::{Action, Args, CompId, Entry, Event, Row};
use sc_script::part;
use std::alloc::Global;
use std::test::Fail;

fn call(alloc: Global, from: CompId, to: CompId, index: u16, word: u32) -> Event {
    let args = Args::from_slice(alloc, &[word]).unwrap();
    Event::Call {
        from,
        to,
        index,
        args,
    }
}

fn ret(from: CompId, to: CompId, word: u32) -> Event {
    let value = Some(word);
    Event::Ret { from, to, value }
}

#[test]
fn a_compartment_that_is_entered_again(rt: HostRuntime) -> Result<(), Fail> {
    let alloc = rt.alloc();
    let main = CompId::first();
    let a = CompId::new(1).unwrap();
    let b = CompId::new(2).unwrap();
    let trace = [
        call(alloc, main, a, 0, 2),
        call(alloc, a, b, 0, 5),
        call(alloc, b, a, 1, 6),
        ret(a, b, 11),
        ret(b, a, 11),
        ret(a, main, 22),
    ];
    let rows = [
        Row {
            entry: Entry::Export(0),
            number: 0,
            action: Action::Call {
                to: b,
                index: 0,
                args: Args::from_slice(alloc, &[5]).unwrap(),
            },
        },
        Row {
            entry: Entry::Export(1),
            number: 1,
            action: Action::Ret(Some(11)),
        },
        Row {
            entry: Entry::Export(0),
            number: 2,
            action: Action::Ret(Some(22)),
        },
    ];
    let script = part(alloc, &trace, main, a)?;
    assert!(rt; script.as_slice() == rows.as_slice());
    Ok(())
}

#[test]
fn nothing_happened_yet(rt: HostRuntime) -> Result<(), Fail> {
    let script = part(rt.alloc(), &[], CompId::first(), CompId::first())?;
    assert!(rt; script.as_slice().is_empty());
    Ok(())
}
