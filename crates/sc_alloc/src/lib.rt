//! Places of temporaries by linear scan (Poletto and Sarkar, Linear Scan Register Allocation).
#![tactic(auto)]

mod placements;
mod places;
mod registers;
mod scan;
mod slots;

pub use places::assign;
