//! The compartments in which an image differs from a program's own image.

ghost use Rattle.sc_base.specs.Prelude.{most_compartments};
ghost use Rattle.sc_image.specs.Prelude.{AreGiven, IsButFor, differing, is_kept, is_same_inside_at, is_same_outside};
ghost use Rattle.sc_image.specs.Prelude.{is_seen_alike};
ghost use Rattle.std.specs.Cmp.Lexicographic.{pointwise};
ghost use Rattle.std.specs.Prelude.{◌≡◌, ◌≤◌, ℕ, Bool, IfNone, IfOk, IfSome, length};

use crate::layout::comp_id;
use crate::same::{is_same_inside, is_same_outside};
use crate::{CompPart, Image, ImageParts};
use sc_base::OutOfMemory;
use sc_event::CompIds;
use std::alloc::Global;

/// The compartments in which an image differs from a program's own image, in the order of their numbers. The answer is
/// `None` where other compartments would see the difference: another main compartment, another number of compartments,
/// or another name, permission, export or import of a compartment. An image that begins at another entry differs in
/// the main compartment.
pub fn given_in(alloc: Global, own: &Image, image: &Image) -> Result<Option<CompIds>, OutOfMemory>
    ensures given { IfOk result (λ found. IfSome found (AreGiven own.now image.now)) }
    ensures none { IfOk result (λ found. IfNone found ((set : ℕ → Bool) → ¬ IsButFor set own.now image.now)) }
{
    let own = own.parts();
    let image = image.parts();
    if !is_seen_alike(own, image) {
        return Ok(None);
    }
    let given = differing(alloc, own, image)?;
    Ok(Some(given))
}

// Whether the main compartment is the same, and the compartments are the same for one another.
fn is_seen_alike(own: &ImageParts, image: &ImageParts) -> bool
    ensures { result ≡ is_seen_alike own.now image.now }
{
    image.main.number() == own.main.number()
        && are_same_outside(image.comps.as_slice(), own.comps.as_slice())
}

#[tactic(auto, using(crate::proofs::Alike::places))]
fn are_same_outside(comps: &[CompPart], others: &[CompPart]) -> bool
    ensures { result ≡ pointwise is_same_outside comps.now others.now }
{
    if comps.len() != others.len() {
        return false;
    }
    for i in 0..comps.len() {
        if !is_same_outside(&comps[i], &others[i]) {
            return false;
        }
    }
    true
}

// The compartments that are not the program's own ones.
fn differing(alloc: Global, own: &ImageParts, image: &ImageParts) -> Result<CompIds, OutOfMemory>
    requires { length own.now.comps ≤ most_compartments }
    ensures { IfOk result (λ given. given ≡ differing own.now image.now) }
{
    let mut given = CompIds::new(alloc);
    for c in 0..own.comps.len() {
        if !is_kept(own, image, c) {
            given.push(comp_id(c))?;
        }
    }
    Ok(given)
}

// Whether compartment c is the program's own one and, if it is the main one, begins at its own entry.
fn is_kept(own: &ImageParts, image: &ImageParts, c: usize) -> bool
    ensures { result ≡ is_kept own.now image.now c }
{
    is_same_inside_at(image.comps.as_slice(), own.comps.as_slice(), c)
        && (c != usize::from(own.main.number()) || image.entry == own.entry)
}

// Whether both have a compartment c, with the same inside.
fn is_same_inside_at(comps: &[CompPart], others: &[CompPart], c: usize) -> bool
    ensures { result ≡ is_same_inside_at comps.now others.now c }
{
    match comps.get(c) {
        None => false,
        Some(comp) => match others.get(c) {
            None => false,
            Some(other) => is_same_inside(comp, other),
        },
    }
}
