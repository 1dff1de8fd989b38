// The laws, each the contract of a function with nothing to do.

ghost use Rattle.sc_linker.specs.Prelude.{LinkedImagesHold};

/// A linked image is well formed and says its program's interfaces; in it each function's code, each export's entry and
/// each global stands where the layout says, and who may call whom is as the interfaces say.
pub fn linked_images_hold()
    ensures { LinkedImagesHold }
{}
