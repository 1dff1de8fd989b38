//! What holds of all accounts.

ghost use Rattle.sc_chain.specs.Prelude.{OwnImagesAreExplained, RobustSafety};

use sc_types::one_program;

/// In the program's own image nobody is given, and its account is the one that `explain` gives.
pub fn own_images_are_explained()
    ensures { OwnImagesAreExplained }
{
    one_program();
}

/// Robust safety (Abate et al., When Good Components Go Bad, 2018). To know what the machine does whatever code the given
/// compartments have, it suffices to look at texts: what all of them keep to in which these compartments perform, the
/// machine's trace keeps to as well, up to the first undefined behaviour of another compartment.
pub fn robust_safety()
    ensures { RobustSafety }
{}
