//! The machine that runs images. Its runs are those of the images' meaning, in however many pieces
//! they are taken, and take no memory.
#![tactic(auto)]

mod calling;
mod environment;
mod execute;
mod hart;
mod heap;
mod here;
mod jump;
mod loading;
mod machine;
mod memory;
mod own_view;
mod program;
mod quick;
mod returning;
mod run;
mod zones;

pub use calling::{Callee, call_out};
pub use environment::environment_call;
pub use hart::Hart;
pub use here::Here;
pub use jump::{branch_target, jump_target};
pub use loading::{start_hart, start_memory};
pub use machine::{LoadFault, Machine};
pub use memory::{load_size, loaded, put, store_size};
pub use own_view::OwnView;
pub use program::Program;
pub use returning::leave;
pub use run::stopped;
pub use sc_base::{Stop, TrapReason};
pub use zones::Zones;
