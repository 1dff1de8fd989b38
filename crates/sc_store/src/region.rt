// A run of addresses.
#![tactic(auto)]

/// The addresses from `start` on, as many as `bytes`.
#[derive(Clone, Copy, Debug, PartialEq, Eq)]
pub struct Region {
    /// The first address.
    pub start: u32,
    /// How many addresses there are. There may be none.
    pub bytes: u32,
}
