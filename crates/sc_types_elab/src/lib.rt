//! Elaboration: the program of a text is built from the trees of its sections, and the rules of types are judged on
//! what is built.
#![tactic(auto)]

mod calls;
mod function;
mod globals;
mod members;
mod program;
mod section;
mod tree_ty;
mod typing;

pub use members::build_structs;
pub use program::{build_program, into_program};
pub use sc_types_elab_expr::{MOST_CELLS, Structs, type_of_name};
pub use section::build_tags;
pub use tree_ty::type_of;
pub use typing::broken_type;
