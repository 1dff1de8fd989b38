use sc_base::OutOfMemory;
use std::alloc::Global;

/// Appends these parts to a text.
pub fn append(text: &mut Vec<u8>, parts: &[&[u8]]) -> Result<(), OutOfMemory> {
    for part in parts {
        text.extend_from_slice(part)?;
    }
    Ok(())
}

/// A text in which a part stands so often.
pub fn repeated(
    alloc: Global,
    before: &[u8],
    part: &[u8],
    count: usize,
    following: &[u8],
) -> Result<Vec<u8>, OutOfMemory> {
    let mut text = Vec::new(alloc);
    text.extend_from_slice(before)?;
    for _ in 0..count {
        text.extend_from_slice(part)?;
    }
    text.extend_from_slice(following)?;
    Ok(text)
}
