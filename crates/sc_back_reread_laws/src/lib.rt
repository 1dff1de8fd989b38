//! Texts in which sections are replaced by ones that perform are read again.
#![tactic(auto)]

mod laws;

pub use laws::{names_are_identifiers, performing_texts_are_read, replaced_texts_are_read};
