ghost use Rattle.std.specs.Prelude.{◌≡◌, [], ◌∷◌, ◌++◌, IfOk, OnOk};
ghost use Rattle.std.specs.Option.{option_copied};
ghost use Rattle.sc_object.specs.Linking.{face_for};
ghost use Rattle.sc_object.specs.WellFormed.{AreObjects, IsObject};

use crate::{Face, ObjectParts};
use sc_base::OutOfMemory;
use sc_event::CompId;
use sqlite_items::Items;
use std::alloc::Global;
use std::marker::Model;

/// A section that was compiled on its own. Contracts see its parts, whose bytes have no cause.
#[derive(Drop)]
pub struct Object {
    parts: ObjectParts,
}

impl Model for Object {
    ghost use Rattle.sc_object.specs.declared.parts.ObjectParts.{ObjectParts};
    ghost use Rattle.sc_object.specs.WellFormed.{IsObject};

    ghost Value = { ObjectParts };

    ghost view = { λ object. object.parts };

    ghost invariant = { λ object. IsObject object.parts };
}

impl Object {
    /// The object of these parts.
    pub fn new(parts: ObjectParts) -> Object
        requires good { IsObject parts }
        ensures { result ≡ parts }
    {
        Object { parts }
    }

    /// What the object is made of.
    pub fn parts(&self) -> &ObjectParts
        ensures parts { result.now ≡ self.now }
        ensures good { IsObject self.now }
    {
        &self.parts
    }

    /// What the object is made of, moved out.
    pub fn into_parts(self) -> ObjectParts
        ensures parts { result ≡ self }
        ensures good { IsObject self }
    {
        let Object { parts } = self;
        parts
    }
}

/// One object or more, fewer than 4,294,967,296. Contracts see the list of their parts.
#[derive(Drop)]
pub struct Objects {
    items: Items<ObjectParts>,
}

impl Model for Objects {
    ghost use Rattle.std.specs.Prelude.{List};
    ghost use Rattle.sc_object.specs.declared.parts.ObjectParts.{ObjectParts};
    ghost use Rattle.sc_object.specs.WellFormed.{AreObjects};

    ghost Value = { List ObjectParts };

    ghost view = { λ objects. objects.items };

    ghost invariant = { λ objects. AreObjects objects.items };
}

impl Objects {
    /// A first object.
    pub fn new(alloc: Global, first: Object) -> Result<Objects, OutOfMemory>
        ensures { IfOk result (λ objects. objects ≡ first ∷ []) }
    {
        let mut items = Items::new(alloc);
        items.push(first.into_parts())?;
        Ok(Objects { items })
    }

    /// The objects of these parts.
    pub(crate) fn from_items(items: Items<ObjectParts>) -> Objects
        requires good { AreObjects items }
        ensures { result ≡ items }
    {
        Objects { items }
    }

    /// The objects in order.
    pub fn as_slice(&self) -> &[ObjectParts]
        ensures parts { result.now ≡ self.now }
        ensures good { AreObjects self.now }
    {
        self.items.as_slice()
    }

    /// What the first object says of a compartment.
    pub fn face(&self, comp: CompId) -> Option<&Face>
        ensures { option_copied result ≡ face_for self.now comp }
    {
        match self.items.get(0) {
            None => None,
            Some(head) => head.faces.get(usize::from(comp.number())),
        }
    }

    /// Adds an object after the others. As many as 4,294,967,295 take no more.
    pub fn push(&mut self, object: Object) -> Result<(), OutOfMemory>
        ensures { OnOk result (self.new ≡ self.old ++ object ∷ []) }
    {
        if self.items.len() as u64 >= u64::from(u32::MAX) {
            return Err(OutOfMemory);
        }
        self.items.push(object.into_parts())?;
        Ok(())
    }
}
