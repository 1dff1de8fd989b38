use crate::object_links::objects_of;
use crate::object_sections::{STORE, object_bytes};
use sc_base::Text;
use sc_object::ObjectsFault;
use std::alloc::Global;
use std::test::Fail;

// The index and the number of the cause, `None` where there is none.
fn cause(alloc: Global, bytes: &[u8]) -> Option<(u32, u8)> {
    match objects_of(alloc, bytes) {
        Err(ObjectsFault::Bad { index, cause }) => Some((index, cause.number())),
        _ => None,
    }
}

// The bytes with another one at a place.
fn changed(alloc: Global, bytes: &[u8], at: usize, byte: u8) -> Result<Text, Fail> {
    let mut text = Text::new(alloc);
    for (place, old) in bytes.iter().enumerate() {
        text.push(if place == at { byte } else { *old })?;
    }
    Ok(text)
}

#[test]
fn nothing_is_a_bad_object(rt: HostRuntime) {
    assert!(rt; cause(rt.alloc(), b"") == Some((0, 1)));
}

#[test]
fn cut_objects_have_causes_in_order(rt: HostRuntime) -> Result<(), Fail> {
    let main = object_bytes(rt.alloc(), STORE, 0)?;
    let bytes = main.as_bytes();
    let mut latest = 1;
    for size in 0..bytes.len() {
        let Some((index, cause)) = cause(rt.alloc(), &bytes[..size]) else {
            return Err(Fail::new("a cut object is read"));
        };
        assert!(rt; index == 0 && latest <= cause && cause < 9);
        latest = cause;
    }
    assert!(rt; cause(rt.alloc(), bytes) == None);
    Ok(())
}

#[test]
fn fields_have_their_causes(rt: HostRuntime) -> Result<(), Fail> {
    let main = object_bytes(rt.alloc(), STORE, 0)?;
    let bytes = main.as_bytes();
    for (at, byte, number) in [
        (0, 0, 1),
        (4, 2, 2),
        (6, 33, 3),
        (7, 2, 3),
        (8, 2, 3),
        (9, 0, 4),
    ] {
        let text = changed(rt.alloc(), bytes, at, byte)?;
        assert!(rt; cause(rt.alloc(), text.as_bytes()) == Some((0, number)));
    }
    Ok(())
}
