use sc_alloc::assign;
use sc_base::OutOfMemory;
use sc_frame::{fits, lay};
use sc_live::intervals;
use sc_tac::{Frame, Places, TacFn};
use std::alloc::Global;

/// The places of a function's temporaries, and its frame.
#[derive(Drop)]
pub(crate) struct Laid {
    pub(crate) places: Places,
    pub(crate) frame: Frame,
}

/// The places of a function's temporaries and its frame, if that fits.
pub(crate) fn lay_out(alloc: Global, function: &TacFn) -> Result<Option<Laid>, OutOfMemory> {
    let places = assign(alloc, &intervals(alloc, function)?)?;
    if places.as_slice().len() != function.tree().temps as usize || !fits(function) {
        return Ok(None);
    }
    let frame = lay(alloc, function, &places)?;
    Ok(Some(Laid { places, frame }))
}
