ghost use Rattle.std.specs.Prelude.{◌≡◌};
ghost use Rattle.sc_image.specs.WellFormed.{IsWellFormed};

use crate::ImageParts;
use std::marker::Model;

/// The version of the format that images are written in.
pub(crate) const LATEST_VERSION: u16 = 2;

/// A program that the machine can run. Contracts see its parts, which are well formed.
#[derive(Drop)]
pub struct Image {
    parts: ImageParts,
}

impl Model for Image {
    ghost use Rattle.sc_image.specs.declared.parts.ImageParts.{ImageParts};
    ghost use Rattle.sc_image.specs.WellFormed.{IsWellFormed};

    ghost Value = { ImageParts };

    ghost view = { λ image. image.parts };

    ghost invariant = { λ image. IsWellFormed image.parts };
}

impl Image {
    /// The image of these parts.
    pub fn new(parts: ImageParts) -> Image
        requires well_formed { IsWellFormed parts }
        ensures { result ≡ parts }
    {
        Image { parts }
    }

    /// What the image is made of.
    pub fn parts(&self) -> &ImageParts
        ensures parts { result.now ≡ self.now }
        ensures well_formed { IsWellFormed self.now }
    {
        &self.parts
    }
}
