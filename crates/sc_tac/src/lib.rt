//! Structured three-address code: between programs and the machine's instructions.
#![tactic(auto)]

mod branches;
mod copies;
mod frame;
mod function;
mod heap;
mod interval;
mod laws;
mod machine_code;
mod place;
mod program;
mod registers;
mod stmt;
mod weigh;

pub use copies::{copy_globals, copy_interfaces, copy_structs};
pub use frame::{Frame, FrameTree, Offsets};
pub use function::{ObjectCells, TacFn, TacFnTree, TacFns};
pub use interval::{Interval, Intervals};
pub use laws::{code_obeys, places_are_clear, wrapped_code_agrees};
pub use machine_code::{Code, CodeTree, Instrs, Relocation, Relocations, Target};
pub use place::{Place, Places};
pub use program::{Tac, TacSection, TacSections, TacTree};
pub use registers::reg_count;
pub use stmt::{Constant, TacOp, TacStmt, TacStmts, Temps};
