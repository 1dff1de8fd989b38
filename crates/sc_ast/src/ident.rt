ghost use Rattle.std.specs.Prelude.{◌≡◌, IsTrue};
ghost use Rattle.sc_ast.specs.Identifiers.{is_ident, ident_of};

use sc_base::{Name, is_reserved};
use std::marker::Model;

/// A name that a program may declare: an identifier of 1 to 63 bytes that is no reserved word. Contracts see its bytes.
#[derive(Clone, Copy, PartialEq, Eq)]
pub struct Ident {
    name: Name,
}

impl Model for Ident {
    ghost use Rattle.std.specs.Prelude.{List, ℕ, IsTrue};
    ghost use Rattle.sc_ast.specs.Identifiers.{is_ident};

    ghost Value = { List ℕ };

    ghost view = { λ ident. ident.name };

    ghost invariant = { λ ident. IsTrue (is_ident ident.name) };

    ghost inverse = { λ text. record { name = text } };
}

impl Ident {
    /// The name as an identifier, `None` where it is a reserved word.
    pub fn new(name: Name) -> Option<Ident>
        ensures { result ≡ ident_of name }
    {
        if is_reserved(name.as_bytes()) {
            None
        } else {
            Some(Ident { name })
        }
    }

    /// The bytes, 1 to 63 of them.
    pub fn as_bytes(&self) -> &[u8]
        ensures value { result.now ≡ self.now }
        ensures ident { IsTrue (is_ident self.now) }
    {
        self.name.as_bytes()
    }

    /// The name, for compartment and directive lines, where reserved words may stand too.
    pub fn name(&self) -> Name
        ensures value { result ≡ self.now }
        ensures ident { IsTrue (is_ident self.now) }
    {
        self.name
    }
}
