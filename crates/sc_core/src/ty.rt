ghost use Rattle.sc_core.specs.Prelude.{common, decayed, is_array, is_integer, is_pointer, is_unsigned, is_unsigned_op};
ghost use Rattle.sc_core.specs.Prelude.{pointer_to, same_base, same_ty, starred, target, type_goes};
ghost use Rattle.std.specs.Prelude.{◌≡◌, suc, IfOk};

use sc_base::{BinaryOp, OutOfMemory};

/// A type that has no `*` and is no array. A struct is a place in its section's list of structs.
#[derive(Clone, Copy, Debug, PartialEq, Eq)]
pub enum BaseTy {
    /// `int`
    Int,
    /// `unsigned int`
    Unsigned,
    /// `struct`
    Struct(u32),
}

impl BaseTy {
    /// Whether two types without a `*` are one.
    pub fn same(self, other: BaseTy) -> bool
        ensures { result ≡ same_base self other }
    {
        match (self, other) {
            (BaseTy::Int, BaseTy::Int) => true,
            (BaseTy::Unsigned, BaseTy::Unsigned) => true,
            (BaseTy::Struct(m), BaseTy::Struct(n)) => m == n,
            _ => false,
        }
    }
}

/// A type (C11 6.2.5): a base, a number of `*`, and a length where it is an array.
#[derive(Clone, Copy, Debug, PartialEq, Eq)]
pub enum Ty {
    /// `int`
    Int,
    /// `unsigned int`
    Unsigned,
    /// `struct`
    Struct(u32),
    /// A pointer, with at least one `*`.
    Pointer {
        stars: u64,
        base: BaseTy,
    },
    /// An array of at least one element, whose type is the base with this number of `*`.
    Array {
        stars: u64,
        base: BaseTy,
        length: u32,
    },
}

impl Ty {
    /// The type with this number of `*`.
    pub fn starred(stars: u64, base: BaseTy) -> Ty
        ensures { result ≡ starred stars base }
    {
        if stars > 0 {
            return Ty::Pointer { stars, base };
        }
        match base {
            BaseTy::Int => Ty::Int,
            BaseTy::Unsigned => Ty::Unsigned,
            BaseTy::Struct(number) => Ty::Struct(number),
        }
    }

    /// Whether the type is `int` or `unsigned int`.
    pub fn is_integer(self) -> bool
        ensures { result ≡ is_integer self }
    {
        match self {
            Ty::Int => true,
            Ty::Unsigned => true,
            _ => false,
        }
    }

    /// Whether the type is `unsigned int`.
    pub fn is_unsigned(self) -> bool
        ensures { result ≡ is_unsigned self }
    {
        match self {
            Ty::Unsigned => true,
            _ => false,
        }
    }

    /// Whether the type is that of an array.
    pub fn is_array(self) -> bool
        ensures { result ≡ is_array self }
    {
        match self {
            Ty::Array { .. } => true,
            _ => false,
        }
    }

    /// Whether the value of a place of this type is a pointer (C11 6.3.2.1p3).
    pub fn is_pointer(self) -> bool
        ensures { result ≡ is_pointer self }
    {
        match self {
            Ty::Pointer { .. } => true,
            Ty::Array { .. } => true,
            _ => false,
        }
    }

    /// Whether two types are one. Structs are distinguished by their numbers in the section.
    pub fn same(self, other: Ty) -> bool
        ensures { result ≡ same_ty self other }
    {
        match (self, other) {
            (Ty::Int, Ty::Int) => true,
            (Ty::Unsigned, Ty::Unsigned) => true,
            (Ty::Struct(m), Ty::Struct(n)) => m == n,
            (
                Ty::Pointer { stars, base },
                Ty::Pointer {
                    stars: more,
                    base: other,
                },
            ) => stars == more && base.same(other),
            (
                Ty::Array {
                    stars,
                    base,
                    length,
                },
                Ty::Array {
                    stars: more,
                    base: other,
                    length: count,
                },
            ) => stars == more && base.same(other) && length == count,
            _ => false,
        }
    }

    /// The type of the value of a place (C11 6.3.2.1p3). There is no memory for more than 18446744073709551615 `*`.
    pub fn decayed(self) -> Result<Ty, OutOfMemory>
        ensures { IfOk result (λ value. value ≡ decayed self) }
    {
        match self {
            Ty::Array { stars, base, .. } => Ok(Ty::Pointer {
                stars: one_more(stars)?,
                base,
            }),
            other => Ok(other),
        }
    }

    /// What the value of a place of this type points to, `None` where it is no pointer.
    pub fn pointed(self) -> Option<Ty>
        ensures { result ≡ target (decayed self) }
    {
        match self {
            Ty::Pointer { stars, base } => Some(Ty::starred(stars.saturating_sub(1), base)),
            Ty::Array { stars, base, .. } => Some(Ty::starred(stars, base)),
            _ => None,
        }
    }

    /// The type of a pointer to a place of this type, `None` for an array. There is no memory for more than
    /// 18446744073709551615 `*`.
    pub fn pointer_to(self) -> Result<Option<Ty>, OutOfMemory>
        ensures { IfOk result (λ pointer. pointer ≡ pointer_to self) }
    {
        let (stars, base) = match self {
            Ty::Int => (1, BaseTy::Int),
            Ty::Unsigned => (1, BaseTy::Unsigned),
            Ty::Struct(number) => (1, BaseTy::Struct(number)),
            Ty::Pointer { stars, base } => (one_more(stars)?, base),
            Ty::Array { .. } => return Ok(None),
        };
        Ok(Some(Ty::Pointer { stars, base }))
    }

    /// The type of a result of two integers (C11 6.3.1.8).
    pub fn common(self, other: Ty) -> Ty
        ensures { result ≡ common self other }
    {
        match (self, other) {
            (Ty::Unsigned, _) => Ty::Unsigned,
            (_, Ty::Unsigned) => Ty::Unsigned,
            _ => Ty::Int,
        }
    }

    /// Whether a value of this type goes into a place of another (C11 6.5.16.1).
    pub fn goes_into(self, place: Ty) -> bool
        ensures { result ≡ type_goes place self }
    {
        place.is_integer() && self.is_integer() || place.is_pointer() && place.same(self)
    }
}

// One `*` more.
fn one_more(stars: u64) -> Result<u64, OutOfMemory>
    ensures { IfOk result (λ more. more ≡ suc stars) }
{
    match stars.checked_add(1) {
        Some(more) => Ok(more),
        None => Err(OutOfMemory),
    }
}

/// Whether an operator between operands of these types works on `unsigned int` (C11 6.3.1.8p1, 6.5.7p3).
pub fn is_unsigned_op(op: BinaryOp, left: Ty, right: Ty) -> bool
    ensures { result ≡ is_unsigned_op op left right }
{
    match op {
        BinaryOp::ShiftLeft => left.is_unsigned(),
        BinaryOp::ShiftRight => left.is_unsigned(),
        _ => left.is_unsigned() || right.is_unsigned(),
    }
}
