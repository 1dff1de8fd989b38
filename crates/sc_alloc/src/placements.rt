use sc_tac::{Interval, Place};

/// An interval, and the place that it got.
#[derive(Clone, Copy)]
pub struct Placement {
    pub interval: Interval,
    pub place: Place,
}
