//! What the sections of a text declare, the lines at which they break rules, and the rules of names (C11 6.2.1, 6.2.3):
//! whether each name that a text uses is declared where it stands, and no name is declared twice.
#![tactic(auto)]

mod body;
mod broken;
mod decl;
mod distinct;
mod section;
mod section_names;
mod types;

pub use broken::{BrokenLines, line_of_text};
pub use section::broken_name;
