use crate::object_sections::{MENDED, RENAMED, STORE, image_bytes, object_bytes};
use sc_base::Text;
use sc_event::Event;
use sc_image::write_image;
use sc_machine::Machine;
use sc_object::{JoinFault, Objects, ObjectsFault, link_objects, read_objects};
use sc_store::FlatStore;
use std::alloc::Global;
use std::test::Fail;

// The bytes of several objects, one after the other.
fn joined(alloc: Global, first: &Text, second: &Text) -> Result<Text, Fail> {
    let mut bytes = Text::new(alloc);
    bytes.append(first.as_bytes())?;
    bytes.append(second.as_bytes())?;
    Ok(bytes)
}

/// The objects whose bytes stand one after the other, of no more bytes than are read.
pub fn objects_of(alloc: Global, bytes: &[u8]) -> Result<Objects, ObjectsFault> {
    if bytes.len() >= 4_294_967_296 {
        return Err(ObjectsFault::OutOfMemory);
    }
    read_objects(alloc, bytes)
}

#[test]
fn links_to_the_image(rt: HostRuntime) -> Result<(), Fail> {
    let main = object_bytes(rt.alloc(), STORE, 0)?;
    let net = object_bytes(rt.alloc(), STORE, 1)?;
    let bytes = joined(rt.alloc(), &net, &main)?;
    let objects = objects_of(rt.alloc(), bytes.as_bytes())?;
    let image = link_objects(rt.alloc(), &objects)?;
    let text = write_image(rt.alloc(), &image)?;
    let compiled = image_bytes(rt.alloc(), STORE)?;
    assert_eq!(rt; text.as_bytes(), compiled.as_bytes());
    Ok(())
}

#[test]
fn another_section_is_in_no_object(rt: HostRuntime) -> Result<(), Fail> {
    let one = object_bytes(rt.alloc(), STORE, 0)?;
    let other = object_bytes(rt.alloc(), MENDED, 0)?;
    assert_eq!(rt; one.as_bytes(), other.as_bytes());
    let own = object_bytes(rt.alloc(), STORE, 1)?;
    let mended = object_bytes(rt.alloc(), MENDED, 1)?;
    assert!(rt; own.as_bytes() != mended.as_bytes());
    Ok(())
}

#[test]
fn runs_with_a_mended_section(rt: HostRuntime) -> Result<(), Fail> {
    let main = object_bytes(rt.alloc(), STORE, 0)?;
    let net = object_bytes(rt.alloc(), MENDED, 1)?;
    let bytes = joined(rt.alloc(), &main, &net)?;
    let objects = objects_of(rt.alloc(), bytes.as_bytes())?;
    let image = link_objects(rt.alloc(), &objects)?;
    let mut machine = Machine::<FlatStore>::load(rt.alloc(), image, &[], 16)?;
    let _stop = machine.run(1000);
    let trace = machine.trace();
    assert!(rt; trace.len() == 4);
    assert!(rt; matches!(&trace[2], Event::Out { value: 0, .. }));
    Ok(())
}

// The fault of linking, where there is one.
fn fault(alloc: Global, bytes: &Text) -> Result<Option<JoinFault>, Fail> {
    let objects = objects_of(alloc, bytes.as_bytes())?;
    match link_objects(alloc, &objects) {
        Ok(_) => Ok(None),
        Err(fault) => Ok(Some(fault)),
    }
}

fn is_missing(fault: Option<JoinFault>) -> bool {
    match fault {
        Some(JoinFault::Missing { .. }) => true,
        _ => false,
    }
}

fn is_twice(fault: Option<JoinFault>, index: u32) -> bool {
    match fault {
        Some(JoinFault::Twice { second, .. }) => second == index,
        _ => false,
    }
}

fn differs(fault: Option<JoinFault>, index: u32) -> bool {
    match fault {
        Some(JoinFault::Differ { second }) => second == index,
        _ => false,
    }
}

#[test]
fn refuses_what_does_not_fit(rt: HostRuntime) -> Result<(), Fail> {
    let main = object_bytes(rt.alloc(), STORE, 0)?;
    let net = object_bytes(rt.alloc(), STORE, 1)?;
    let web = object_bytes(rt.alloc(), RENAMED, 1)?;
    let missing = fault(rt.alloc(), &main)?;
    assert!(rt; is_missing(missing));
    let twice = joined(rt.alloc(), &net, &net)?;
    let twice = fault(rt.alloc(), &twice)?;
    assert!(rt; is_twice(twice, 1));
    let differ = joined(rt.alloc(), &main, &web)?;
    let differ = fault(rt.alloc(), &differ)?;
    assert!(rt; differs(differ, 1));
    Ok(())
}
