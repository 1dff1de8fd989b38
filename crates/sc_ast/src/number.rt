ghost use Rattle.std.specs.Prelude.{◌≡◌, ◌≤◌, IsTrue};
ghost use Rattle.sc_ast.specs.Numbers.{fits, number_typed, array_length};

use std::marker::Model;

/// An integer constant (C11 6.4.4.1) of type `unsigned int`, or of type `int` and then at most 2147483647.
#[derive(Clone, Copy, PartialEq, Eq)]
pub struct Literal {
    value: u32,
    unsigned: bool,
}

impl Model for Literal {
    ghost use Rattle.std.specs.Prelude.{IsTrue};
    ghost use Rattle.sc_ast.specs.Numbers.{Number, fits};

    ghost Value = { Number };

    ghost view = { λ literal. record { value = literal.value; unsigned = literal.unsigned } };

    ghost invariant = { λ literal. IsTrue (fits (record { value = literal.value; unsigned = literal.unsigned })) };

    ghost inverse = { λ number. record { value = number.value; unsigned = number.unsigned } };
}

impl Literal {
    /// The literal of this value, `None` where its type doesn't hold the value.
    pub fn new(value: u32, unsigned: bool) -> Option<Literal>
        ensures { result ≡ number_typed value unsigned }
    {
        if unsigned || value <= 2_147_483_647 {
            Some(Literal { value, unsigned })
        } else {
            None
        }
    }

    /// The value, at most 2147483647 where the type is `int`.
    pub fn value(&self) -> u32
        ensures value { result ≡ self.now.value }
        ensures fits { IsTrue (fits self.now) }
    {
        self.value
    }

    /// Whether the type is `unsigned int`.
    pub fn is_unsigned(&self) -> bool
        ensures value { result ≡ self.now.unsigned }
        ensures fits { IsTrue (fits self.now) }
    {
        self.unsigned
    }
}

/// The length of an array in elements, at least 1 (C11 6.7.6.2). Contracts see the number.
#[derive(Clone, Copy, PartialEq, Eq)]
pub struct ArrayLength {
    elements: u32,
}

impl Model for ArrayLength {
    ghost use Rattle.std.specs.Prelude.{ℕ, ◌≤◌};

    ghost Value = { ℕ };

    ghost view = { λ array. array.elements };

    ghost invariant = { λ array. 1 ≤ array.elements };

    ghost inverse = { λ elements. record { elements = elements } };
}

impl ArrayLength {
    /// The length of an array of this number of elements, `None` for 0.
    pub fn new(elements: u32) -> Option<ArrayLength>
        ensures { result ≡ array_length elements }
    {
        if elements >= 1 {
            Some(ArrayLength { elements })
        } else {
            None
        }
    }

    /// The number of elements.
    pub fn elements(self) -> u32
        ensures value { result ≡ self }
        ensures positive { 1 ≤ result }
    {
        self.elements
    }
}
