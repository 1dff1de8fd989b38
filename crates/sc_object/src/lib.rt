//! Objects: sections compiled one by one, their bytes, and the images that they are linked to.
#![tactic(auto)]

mod compiling;
mod fault;
mod laws;
mod linking;
mod objects;
mod parts;
mod reading;
mod rules;
mod same;
mod writing;

pub use compiling::object;
pub use fault::{BadObject, ObjectsFault};
pub use laws::{
    bytes_name_one_list, joins_but_for, link_is_compile, object_is_read_again,
    objects_are_separate, objects_or_bad, one_first_bad,
};
pub use linking::{JoinFault, link_objects};
pub use objects::{Object, Objects};
pub use parts::{Face, FaceExport, FaceExports, Faces, ObjectParts};
pub use reading::read_objects;
pub use writing::write_object;
