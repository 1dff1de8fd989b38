//! Linking: the image of a program, from the codes of its functions.
#![tactic(auto)]

mod bytes;
mod code;
mod comp;
mod entry;
mod image;
mod laws;
mod layout;
mod relocate;
mod sections;

pub use image::link;
pub use laws::linked_images_hold;
