//! A loaded image, with what its compartments may call.
#![tactic(auto, unfolding(sc_image::specs::Step::execute_by))]

ghost use Rattle.std.specs.Prelude.{◌≡◌, All, IfOk, IfErr, IfSome, IsTrue};
ghost use Rattle.sc_image.specs.Calls.{imported_by, may_call_export};
ghost use Rattle.sc_machine.specs.Passing.{IsCallee, AreCallees};

use crate::calling::Callee;
use sc_event::CompId;
use sc_image::layout::comp_id;
use sc_image::{Image, ImportPart};
use sqlite_items::{Items, at};
use std::alloc::{AllocError, Global};
use std::marker::Model;

/// Functions that a compartment may call, in the order of their addresses. Contracts see the list.
type Callees = Items<Callee>;

/// An image, with the functions that each of its compartments may call. Contracts see the image.
#[derive(Drop)]
pub struct Program {
    image: Image,
    callees: Vec<Callees>,
}

impl Model for Program {
    ghost use Rattle.sc_image.specs.declared.parts.ImageParts.{ImageParts};
    ghost use Rattle.sc_machine.specs.Passing.{AreCallees};

    ghost Value = { ImageParts };

    ghost view = { λ p. p.image };

    ghost invariant = { λ p. AreCallees p.image 0 p.callees.items };
}

impl Program {
    /// Looks up what the image's compartments may call. Where memory wants, the image comes back.
    pub fn new(alloc: Global, image: Image) -> Result<Program, Image>
        ensures program { IfOk result (λ program. program ≡ image) }
        ensures back { IfErr result (λ back. back ≡ image) }
    {
        match all_callees(alloc, &image) {
            Ok(callees) => Ok(Program { image, callees }),
            Err(_) => Err(image),
        }
    }

    pub fn image(&self) -> &Image
        ensures { result.now ≡ self.now }
    {
        &self.image
    }

    /// Functions that the compartment may call, in the order of their addresses.
    pub fn callees(&self, comp: CompId) -> &[Callee]
        ensures { All (IsCallee self.now comp) result.now }
    {
        match at(&self.callees, comp.number() as usize) {
            Some(callees) => callees.as_slice(),
            None => &[],
        }
    }
}

/// What each compartment may call.
#[tactic(auto, using(crate::proofs::Callees::callees_more))]
fn all_callees(alloc: Global, image: &Image) -> Result<Vec<Callees>, AllocError>
    ensures { IfOk result (λ all. AreCallees image.now 0 all.items) }
{
    let count = image.parts().comps.len();
    let mut all = Vec::new(alloc);
    for number in 0..count {
        all.push(callees_of(alloc, image, comp_id(number))?)?;
    }
    Ok(all)
}

/// What a compartment may call, in the order of the addresses.
fn callees_of(alloc: Global, image: &Image, caller: CompId) -> Result<Callees, AllocError>
    ensures { IfOk result (All (IsCallee image.now caller)) }
{
    let imports = imports(image, caller);
    let mut callees = Vec::with_capacity(alloc, imports.len())?;
    for import in imports {
        if let Some(callee) = imported(image, caller, import) {
            callees.push(callee)?;
        }
    }
    callees.sort_unstable_by_key(|callee| callee.entry);
    Ok(Items::from_vec(callees))
}

/// The function that an import of the caller leads to.
fn imported(image: &Image, caller: CompId, import: &ImportPart) -> Option<Callee>
    requires { IsTrue (may_call_export image.now caller import.now.comp import.now.index) }
    ensures { IfSome result (IsCallee image.now caller) }
{
    let comp = image.parts().comps.get(import.comp.number() as usize)?;
    let export = comp.exports.get(import.index as usize)?;
    Some(Callee {
        entry: export.entry,
        comp: import.comp,
        index: import.index,
        params: export.params,
    })
}

/// What the compartment imports.
fn imports(image: &Image, comp: CompId) -> &[ImportPart]
    ensures { result.now ≡ imported_by image.now comp }
{
    match image.parts().comps.get(comp.number() as usize) {
        Some(part) => part.imports.as_slice(),
        None => &[],
    }
}
