use sc_image::{ImageFault, image_interfaces, read_image, write_image};
use std::alloc::Global;
use std::test::Fail;

// The image of `seven` in version 2: a compartment `M` that outputs 7 and returns 0.
pub(crate) const SEVEN: &[u8] = b"SCIM\x02\x00\x01\x00\x00\x00\x00\x01\
\x01M\x02\x00\x00\x00\x00\
\x14\x00\x00\x00\
\x13\x05\x70\x00\x93\x08\x20\x00\x73\x00\x00\x00\x13\x05\x00\x00\x67\x80\x00\x00\
\x00\x00\x00\x00";

#[test]
fn reads_and_writes_an_image(rt: HostRuntime) -> Result<(), Fail> {
    let image = read_image(rt.alloc(), SEVEN)?;
    let text = write_image(rt.alloc(), &image)?;
    assert_eq!(rt; text.as_bytes(), SEVEN);
    let interfaces = image_interfaces(rt.alloc(), &image)?;
    assert!(rt; interfaces.comps.len() == 1);
    Ok(())
}

// The number of the cause, 0 where there is none.
pub(crate) fn cause(alloc: Global, bytes: &[u8]) -> u8 {
    match read_image(alloc, bytes) {
        Err(ImageFault::Bad(cause)) => cause.number(),
        _ => 0,
    }
}

#[test]
fn gives_the_cause(rt: HostRuntime) {
    assert!(rt; cause(rt.alloc(), &SEVEN[..3]) == 1);
    assert!(rt; cause(rt.alloc(), &SEVEN[..11]) == 4);
    assert!(rt; cause(rt.alloc(), &SEVEN[..46]) == 8);
    assert!(rt; cause(rt.alloc(), SEVEN) == 0);
}
