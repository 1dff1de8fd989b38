ghost use Rattle.sc_emit_select.specs.Prelude.{at_hand, is_place, object_offset, operand, register_count, register_of};
ghost use Rattle.sc_emit_select.specs.Prelude.{slot_offset};
ghost use Rattle.std.specs.Prelude.{◌≡◌, ◌<◌, IsTrue, IfSome, length, slice_get};

use crate::needs::Needs;
use rv_code::Reg;
use sc_tac::{Frame, Place, Places};

/// Where the values of a function lie, which temporaries are read there, and whether its loops end with their tests.
#[derive(Clone, Copy)]
pub struct Homes<'a> {
    pub frame: &'a Frame,
    pub places: &'a Places,
    pub needs: &'a Needs,
    pub near: bool,
}

impl Homes<'_> {
    /// The place of a temporary.
    pub fn place_of(&self, temp: u32) -> Option<Place>
        ensures same { result ≡ slice_get self.now.places.now temp }
        ensures known { IfSome result (λ place. IsTrue (is_place (length self.now.places.now) place)) }
    {
        self.places.as_slice().get(temp as usize).copied()
    }

    /// The register in which a temporary's value is at hand.
    pub fn operand(&self, scratch: Reg, temp: u32) -> Reg
        ensures { result ≡ operand self.now.frame.now self.now.places.now scratch temp }
    {
        match self.place_of(temp) {
            Some(Place::Register(register)) => register_of(register),
            _ => scratch,
        }
    }

    /// The offset of a slot.
    pub fn slot_offset(&self, slot: u32) -> u32
        ensures { result ≡ slot_offset self.now.frame.now slot }
    {
        self.frame
            .tree()
            .slots
            .get(slot as usize)
            .copied()
            .unwrap_or(0)
    }

    /// The offset of a variable's object.
    pub fn object_offset(&self, object: u32) -> u32
        ensures { result ≡ object_offset self.now.frame.now object }
    {
        self.frame
            .tree()
            .objects
            .get(object as usize)
            .copied()
            .unwrap_or(0)
    }
}

/// The machine's register of that number among those for temporaries.
pub(crate) fn register_of(register: u8) -> Reg
    requires { register < register_count }
    ensures { result ≡ register_of register }
{
    let number = match register {
        0..2 => register + 3,
        2..4 => register + 6,
        _ => register + 14,
    };
    Reg::new(number).unwrap()
}
