//! The rules of types on expressions, by what is judged of their parts (C11 6.5).

ghost use Rattle.std.specs.Prelude.{◌≡◌, ◌&&◌, nat_le, IfOk};
ghost use Rattle.sc_core.specs.Typing.{is_int, points, is_address, is_scalar, is_target, both_ints, same_pointers};
ghost use Rattle.sc_core.specs.Typing.{are_equatable, are_ordered, sum_fits, difference_fits, binary_fits, unary_fits};
ghost use Rattle.sc_core.specs.Typing.{literal_fits, is_type, goes_into};
ghost use Rattle.sc_core.specs.Types.{most_cells};

use crate::structs::MOST_CELLS;
use sc_base::{BinaryOp, OutOfMemory, UnaryOp};
use sc_core::Ty;
use std::marker::Model;

/// What is judged of an expression: its type, whether it has it, and whether it is a place or a null pointer.
#[derive(Clone, Copy)]
pub struct Judged {
    pub ty: Ty,
    pub fits: bool,
    pub place: bool,
    pub null: bool,
}

impl Model for Judged {
    ghost use Rattle.sc_core.specs.Typing as typing;

    ghost Value = { typing.Judged };

    ghost view = { λ judged. record { ty = judged.ty; fits = judged.fits; place = judged.place; null = judged.null } };

    ghost inverse = { λ judged.
        record { ty = judged.ty; fits = judged.fits; place = judged.place; null = judged.null } };
}

impl Judged {
    /// Whether it is an integer.
    pub fn is_int(self) -> bool
        ensures { result ≡ is_int self }
    {
        self.fits && self.ty.is_integer()
    }

    /// Whether it is a pointer.
    pub fn points(self) -> bool
        ensures { result ≡ points self }
    {
        self.fits && self.ty.is_pointer()
    }

    /// Whether it is a pointer that is no literal.
    pub fn is_address(self) -> bool
        ensures { result ≡ is_address self }
    {
        self.points() && !self.null
    }

    /// Whether it may be a condition (C11 6.2.5p21).
    pub fn is_scalar(self) -> bool
        ensures { result ≡ is_scalar self }
    {
        self.is_int() || self.is_address()
    }

    /// Whether it is a place that can be stored to.
    pub fn is_target(self) -> bool
        ensures { result ≡ is_target self }
    {
        self.fits && self.place
    }

    /// Whether it points to what has this type, where `pointed` is what it points to.
    pub fn points_to(self, pointed: Option<Ty>, ty: Ty) -> bool
        ensures { result ≡ (is_address self && is_type pointed ty) }
    {
        self.is_address() && is_type(pointed, ty)
    }

    /// Whether an index into it gives this type, where `pointed` is what it points to.
    pub fn is_indexed(self, index: Judged, pointed: Option<Ty>, ty: Ty) -> bool
        ensures { result ≡ (is_address self && (is_int index && is_type pointed ty)) }
    {
        self.is_address() && index.is_int() && is_type(pointed, ty)
    }

    /// Whether its address has this type, where `pointer` is that of a pointer to it.
    pub fn has_address(self, pointer: Option<Ty>, ty: Ty) -> bool
        ensures { result ≡ (self.fits && (self.place && is_type pointer ty)) }
    {
        self.fits && self.place && is_type(pointer, ty)
    }

    /// Whether it goes into a place of this type (C11 6.5.16.1).
    pub fn goes_into(self, place: Ty) -> Result<bool, OutOfMemory>
        ensures { IfOk result (λ goes. goes ≡ goes_into place self) }
    {
        let value = self.ty.decayed()?;
        Ok(self.fits && value.goes_into(place))
    }
}

fn both_ints(a: Judged, b: Judged) -> bool
    ensures { result ≡ both_ints a b }
{
    a.is_int() && b.is_int()
}

fn same_pointers(a: Judged, b: Judged) -> Result<bool, OutOfMemory>
    ensures { IfOk result (λ same. same ≡ same_pointers a b) }
{
    let left = a.ty.decayed()?;
    let right = b.ty.decayed()?;
    Ok(left.same(right))
}

fn are_equatable(a: Judged, b: Judged) -> Result<bool, OutOfMemory>
    ensures { IfOk result (λ fit. fit ≡ are_equatable a b) }
{
    let same = same_pointers(a, b)?;
    Ok(both_ints(a, b) || a.points() && b.points() && same && !(a.null && b.null))
}

fn are_ordered(a: Judged, b: Judged) -> Result<bool, OutOfMemory>
    ensures { IfOk result (λ fit. fit ≡ are_ordered a b) }
{
    let same = same_pointers(a, b)?;
    Ok(both_ints(a, b) || a.is_address() && b.is_address() && same)
}

fn sum_fits(a: Judged, b: Judged, ty: Ty) -> Result<bool, OutOfMemory>
    ensures { IfOk result (λ fits. fits ≡ sum_fits a b ty) }
{
    let left = a.ty.decayed()?;
    let right = b.ty.decayed()?;
    Ok(
        both_ints(a, b) && ty.same(a.ty.common(b.ty))
            || a.is_address() && b.is_int() && ty.same(left)
            || a.is_int() && b.is_address() && ty.same(right),
    )
}

fn difference_fits(a: Judged, b: Judged, ty: Ty) -> Result<bool, OutOfMemory>
    ensures { IfOk result (λ fits. fits ≡ difference_fits a b ty) }
{
    let left = a.ty.decayed()?;
    let same = same_pointers(a, b)?;
    Ok(
        both_ints(a, b) && ty.same(a.ty.common(b.ty))
            || a.is_address() && b.is_int() && ty.same(left)
            || a.is_address() && b.is_address() && same && ty.same(Ty::Int),
    )
}

/// Whether an operator gives this type (C11 6.5.5 to 6.5.14).
pub fn binary_fits(op: BinaryOp, a: Judged, b: Judged, ty: Ty) -> Result<bool, OutOfMemory>
    ensures { IfOk result (λ fits. fits ≡ binary_fits op a b ty) }
{
    match op {
        BinaryOp::OrElse | BinaryOp::AndAlso => {
            Ok(a.is_scalar() && b.is_scalar() && ty.same(Ty::Int))
        }
        BinaryOp::Equal | BinaryOp::NotEqual => {
            let fit = are_equatable(a, b)?;
            Ok(fit && ty.same(Ty::Int))
        }
        BinaryOp::Less | BinaryOp::Greater | BinaryOp::LessEqual | BinaryOp::GreaterEqual => {
            let fit = are_ordered(a, b)?;
            Ok(fit && ty.same(Ty::Int))
        }
        BinaryOp::ShiftLeft | BinaryOp::ShiftRight => Ok(both_ints(a, b) && ty.same(a.ty)),
        BinaryOp::Add => sum_fits(a, b, ty),
        BinaryOp::Sub => difference_fits(a, b, ty),
        _ => Ok(both_ints(a, b) && ty.same(a.ty.common(b.ty))),
    }
}

/// Whether an operator gives this type (C11 6.5.3.3).
pub fn unary_fits(op: UnaryOp, of: Judged, ty: Ty) -> bool
    ensures { result ≡ unary_fits op of ty }
{
    match op {
        UnaryOp::Not => of.is_scalar() && ty.same(Ty::Int),
        _ => of.is_int() && ty.same(of.ty),
    }
}

/// Whether there is a type, and it is this one.
pub fn is_type(there: Option<Ty>, ty: Ty) -> bool
    ensures { result ≡ is_type there ty }
{
    match there {
        None => false,
        Some(there) => there.same(ty),
    }
}

/// Whether `sizeof` of a type with `cells` cells has its type (C11 6.5.3.4).
pub fn sizeof_fits(cells: u32) -> bool
    ensures { result ≡ nat_le cells most_cells }
{
    cells <= MOST_CELLS
}

/// Whether a literal of type `int` or `unsigned int` has its type (C11 6.4.4.1).
pub fn literal_fits(word: u32, ty: Ty) -> bool
    ensures { result ≡ literal_fits word ty }
{
    match ty {
        Ty::Int => word <= 2_147_483_647,
        Ty::Unsigned => true,
        Ty::Pointer { .. } => word == 0,
        _ => false,
    }
}
