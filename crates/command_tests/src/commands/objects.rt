// The commands `object` and `link`.
use chain_texts::programs::{SEVEN, STORE};
use memory_runs::{Ran, Run};
use sc_base::{OutOfMemory, Text};
use std::alloc::Global;
use std::test::Fail;

// The objects of these sections of a text, one after the other.
fn objects(alloc: Global, commands: &[&str], text: &[u8]) -> Result<Text, OutOfMemory> {
    let mut bytes = Text::new(alloc);
    for command in commands {
        let ran = Run::new(command, text).run(alloc)?;
        bytes.append(ran.out.as_slice())?;
    }
    Ok(bytes)
}

// What is written of the objects of these sections of Store.
fn linked(alloc: Global, commands: &[&str]) -> Result<Ran, OutOfMemory> {
    let bytes = objects(alloc, commands, STORE)?;
    Run::new("link", bytes.as_bytes()).run(alloc)
}

const MAIN: &str = "object --section Main";

const NET: &str = "object --section=Net";

#[test]
fn objects_are_linked_to_the_compiled_image(rt: HostRuntime) -> Result<(), Fail> {
    let want = Run::new("compile", STORE).run(rt.alloc())?;
    for commands in [[NET, MAIN], [MAIN, NET]] {
        let ran = linked(rt.alloc(), &commands)?;
        assert!(rt; ran.wrote(0, want.out.as_slice(), b""));
    }
    Ok(())
}

#[test]
fn objects_that_do_not_belong_together_are_not_linked(rt: HostRuntime) -> Result<(), Fail> {
    let missing = linked(rt.alloc(), &[MAIN])?;
    assert!(rt; missing.wrote(12, b"", b"secomp: object missing Net\n"));
    let twice = linked(rt.alloc(), &[MAIN, NET, MAIN])?;
    assert!(rt; twice.wrote(12, b"", b"secomp: object twice Main\n"));
    let mut bytes = objects(rt.alloc(), &[MAIN, NET], STORE)?;
    let other = objects(rt.alloc(), &[MAIN], SEVEN)?;
    bytes.append(other.as_bytes())?;
    let differ = Run::new("link", bytes.as_bytes()).run(rt.alloc())?;
    assert!(rt; differ.wrote(12, b"", b"secomp: objects differ 0 2\n"));
    Ok(())
}

#[test]
fn the_first_bad_object_is_named(rt: HostRuntime) -> Result<(), Fail> {
    let none = Run::new("link", b"").run(rt.alloc())?;
    assert!(rt; none.wrote(11, b"", b"secomp: bad object 0 1\n"));
    let mut bytes = objects(rt.alloc(), &[NET], STORE)?;
    bytes.append(b"SCOB\x02\x00")?;
    let second = Run::new("link", bytes.as_bytes()).run(rt.alloc())?;
    assert!(rt; second.wrote(11, b"", b"secomp: bad object 1 2\n"));
    Ok(())
}

#[test]
fn a_section_has_to_be_there(rt: HostRuntime) -> Result<(), Fail> {
    let ran = Run::new("object --section Web", STORE).run(rt.alloc())?;
    assert!(rt; ran.wrote(13, b"", b"secomp: no section Web\n"));
    Ok(())
}
