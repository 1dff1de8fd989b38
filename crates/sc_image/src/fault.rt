//! Why bytes are not read as an image.

ghost use Rattle.std.specs.Prelude.{◌≡◌};
ghost use Rattle.sc_image.specs.Reading.{cause_number, image_fault};

use sc_fields::FieldFault;
use thiserror::Error;

/// The first thing that is wrong with the bytes, in the order of the file.
#[derive(Clone, Copy, Debug, PartialEq, Eq, Error)]
pub enum BadImage {
    /// The four bytes `SCIM`.
    #[error("the mark SCIM is missing")]
    Mark,
    /// The version of the format.
    #[error("an unknown version of the format")]
    Version,
    /// How many compartments there are.
    #[error("a bad count of compartments")]
    Count,
    /// The main compartment and the entry.
    #[error("a bad main compartment or entry")]
    Start,
    /// A compartment's name and flags.
    #[error("a bad name or bad flags of a compartment")]
    Compartment,
    /// A compartment's exports.
    #[error("bad exports of a compartment")]
    Exports,
    /// A compartment's imports.
    #[error("bad imports of a compartment")]
    Imports,
    /// A compartment's code and globals.
    #[error("bad code or globals of a compartment")]
    Contents,
    /// A rule on the whole image, where every field is good.
    #[error("parts that don't fit together")]
    Whole,
}

impl BadImage {
    /// The number by which the cause is reported, 1 to 9 in the order of the fields.
    pub fn number(self) -> u8
        ensures { result ≡ cause_number self }
    {
        match self {
            BadImage::Mark => 1,
            BadImage::Version => 2,
            BadImage::Count => 3,
            BadImage::Start => 4,
            BadImage::Compartment => 5,
            BadImage::Exports => 6,
            BadImage::Imports => 7,
            BadImage::Contents => 8,
            BadImage::Whole => 9,
        }
    }
}

/// Why no image was read.
#[derive(Clone, Copy, Debug, PartialEq, Eq, Error)]
pub enum ImageFault {
    #[error("a bad image: {0}")]
    Bad(BadImage),
    #[error("out of memory")]
    OutOfMemory,
}

impl From<FieldFault<BadImage>> for ImageFault {
    ghost from_gives = { λ fault e. e ≡ image_fault fault };

    fn from(fault: FieldFault<BadImage>) -> ImageFault {
        match fault {
            FieldFault::Bad(cause) => ImageFault::Bad(cause),
            FieldFault::OutOfMemory => ImageFault::OutOfMemory,
        }
    }
}
