//! Names, events and traces: what a run of a split program emits, and how it is printed.
#![tactic(auto)]

mod args;
mod comp_id;
mod event;
mod interface;
mod legality;
mod line;
mod params;
mod row;

pub use args::Args;
pub use comp_id::{CompId, CompIds};
pub use event::{Event, Trace};
pub use interface::{Import, Imports, Interface, InterfaceList, Interfaces, Proto, Protos, Scalar};
pub use legality::legal;
pub use line::{append_event, event_text};
pub use params::Params;
pub use row::{Action, Entry, Row, Script};
pub use sc_base::{Name, NameTable, OutOfMemory, Text};
