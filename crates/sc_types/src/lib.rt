//! Which texts are programs: the trees of a text are tried by the rules of names, types, interfaces and counts, and the
//! program is built. A text that is accepted is kept with its sections and its program. How much a program may hold:
//! sections, parameters, exports and imports, cells of variables and structs, nodes and declarations.
#![tactic(auto)]

mod acceptance;
mod counts;
mod laws;
mod lines;
mod nodes;
mod sizes;
mod text;

pub use acceptance::type_program;
pub use laws::{accepted_or_fails, accepted_or_refused, one_phase, one_program};
pub use sc_parse_read::TextFault;
pub use text::SourceText;
