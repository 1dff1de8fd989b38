use sc_base::{Name, Stop, TrapReason};
use sc_core::{Cause, RunEnd, SourceRun};
use sc_event::{
    CompId, Import, Imports, Interface, InterfaceList, Interfaces, Params, Proto, Protos, Scalar,
    Trace,
};
use sc_report::{check_text, meaning_text, run_text};
use std::alloc::Global;
use std::test::Fail;

const CHECKED: &[u8] =
    b"compartment Main\nexport get int unsigned\nimport Main get int unsigned\nimport Env output void int\nmain Main\n";

fn name(text: &[u8]) -> Result<Name, Fail> {
    Ok(Name::new(text).ok_or("no name")?)
}

// `int get(unsigned)`
fn export(alloc: Global) -> Result<Proto, Fail> {
    Ok(Proto {
        name: name(b"get")?,
        params: Params::from_slice(alloc, &[Scalar::Unsigned]).ok_or("too many")?,
        result: Some(Scalar::Int),
    })
}

fn interfaces(alloc: Global) -> Result<Interfaces, Fail> {
    let mut exports = Protos::new(alloc);
    exports.push(export(alloc)?)?;
    let mut imports = Imports::new(alloc);
    let comp = CompId::first();
    imports.push(Import::Function { comp, index: 0 })?;
    imports.push(Import::Output)?;
    let mut comps = InterfaceList::new(alloc);
    comps.push(Interface {
        name: name(b"Main")?,
        exports,
        imports,
    })?;
    Ok(Interfaces { comps, main: comp })
}

#[test]
fn prints_interfaces(rt: HostRuntime) -> Result<(), Fail> {
    let interfaces = interfaces(rt.alloc())?;
    let text = check_text(rt.alloc(), &interfaces)?;
    assert!(rt; text.as_bytes() == CHECKED);
    Ok(())
}

#[test]
fn prints_ends(rt: HostRuntime) -> Result<(), Fail> {
    let interfaces = interfaces(rt.alloc())?;
    let end = RunEnd::Blamed {
        comp: CompId::first(),
        cause: Cause::NullUse,
        line: 10,
    };
    let trace = Trace::new(rt.alloc());
    let text = meaning_text(rt.alloc(), &interfaces, &SourceRun { trace, end })?;
    assert!(rt; text.as_bytes() == b"stop blamed Main NullUse 10\n".as_slice());
    Ok(())
}

#[test]
fn prints_stops(rt: HostRuntime) -> Result<(), Fail> {
    let interfaces = interfaces(rt.alloc())?;
    let stop = Stop::Trap {
        reason: TrapReason::Illegal,
        pc: 0x1234,
    };
    let text = run_text(rt.alloc(), &interfaces, &[], stop)?;
    assert!(rt; text.as_bytes() == b"stop trap illegal 0x00001234\n".as_slice());
    Ok(())
}
