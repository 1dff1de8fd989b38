use crate::runs::images::SEVEN;
use sc_image::{given_in, read_image, read_image_part, write_image};
use std::alloc::Global;
use std::test::Fail;

// The image of `seven` with another code, which outputs 6.
const SIX: &[u8] = b"SCIM\x02\x00\x01\x00\x00\x00\x00\x01\
\x01M\x02\x00\x00\x00\x00\
\x14\x00\x00\x00\
\x13\x05\x60\x00\x93\x08\x20\x00\x73\x00\x00\x00\x13\x05\x00\x00\x67\x80\x00\x00\
\x00\x00\x00\x00";

// It with another permission: that to read inputs too.
const READER: &[u8] = b"SCIM\x02\x00\x01\x00\x00\x00\x00\x01\
\x01M\x03\x00\x00\x00\x00\
\x14\x00\x00\x00\
\x13\x05\x60\x00\x93\x08\x20\x00\x73\x00\x00\x00\x13\x05\x00\x00\x67\x80\x00\x00\
\x00\x00\x00\x00";

// How many compartments are given in an image, or `None` where others see a difference.
fn count_given(alloc: Global, own: &[u8], image: &[u8]) -> Result<Option<usize>, Fail> {
    let own = read_image(alloc, own)?;
    let image = read_image(alloc, image)?;
    match given_in(alloc, &own, &image)? {
        None => Ok(None),
        Some(given) => Ok(Some(given.len())),
    }
}

#[test]
fn finds_the_given_compartments(rt: HostRuntime) -> Result<(), Fail> {
    let same = count_given(rt.alloc(), SEVEN, SEVEN)?;
    assert!(rt; same == Some(0));
    let other = count_given(rt.alloc(), SEVEN, SIX)?;
    assert!(rt; other == Some(1));
    let seen = count_given(rt.alloc(), SEVEN, READER)?;
    assert!(rt; seen.is_none());
    Ok(())
}

#[test]
fn reads_the_image_that_bytes_begin_with(rt: HostRuntime) -> Result<(), Fail> {
    let mut bytes = Vec::from_slice(rt.alloc(), SEVEN)?;
    bytes.extend_from_slice(SIX)?;
    let (image, place) = read_image_part(rt.alloc(), bytes.as_slice())?;
    assert!(rt; place == SEVEN.len());
    let text = write_image(rt.alloc(), &image)?;
    assert_eq!(rt; text.as_bytes(), SEVEN);
    assert!(rt; read_image_part(rt.alloc(), &SIX[..46]).is_err());
    Ok(())
}
