/// A read or a write that failed. What failed, and why, isn't reported.
#[derive(Clone, Copy, Debug, PartialEq, Eq)]
pub struct Failed;
