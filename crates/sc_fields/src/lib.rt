//! Fields of binary files: each is read with the cause that it has where it is missing, incomplete or bad, and written.
//! Numbers are little-endian.
#![tactic(auto)]

mod fault;
mod import;
mod reading;
mod writing;

pub use fault::FieldFault;
pub use import::{ImportPart, ImportParts};
pub use reading::{
    bytes_at, code_at, comp_id_at, comp_name_at, globals_at, imports_at, mark_at, name_at, u8_at,
    u8_up_to, u16_at, u16_up_to, u32_at,
};
pub use writing::{
    append_code, append_globals, append_imports, append_name, append_u16, append_u32,
};
