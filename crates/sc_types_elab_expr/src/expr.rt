ghost use Rattle.sc_types_elab_expr.specs.Prelude.{Suits, beside, binary_typed, expr_in, going_to, is_zero_literal};
ghost use Rattle.sc_types_elab_expr.specs.Prelude.{literal_typed, member_offset, member_ty, no_ty, or_int, unary_ty};
ghost use Rattle.sc_types_elab_expr.specs.Prelude.{sizeof_typed, variable_typed, visible};
ghost use Rattle.sc_core.specs.Prelude.{Scope, decayed, is_address, judged, pointer_to, target};
ghost use Rattle.std.specs.Prelude.{◌≡◌, ◌&&◌, true, false, is_some, IfOk};
ghost use Rattle.sc_core.specs.declared.expr.TypedKind;

use crate::judged::{Judged, binary_fits, literal_fits, sizeof_fits, unary_fits};
use crate::scope::{FunctionScope, SectionScope, found};
use crate::ty::{binary_ty, unary_ty};
use crate::type_name::cells_under;
use crate::variables::Found;
use sc_ast::{ExprTree, Literal};
use sc_base::{BinaryOp, OutOfMemory, UnaryOp};
use sc_core::{BaseTy, Ty, TypedExpr, TypedKind, TypedMember, VarRef};
use sqlite_items::Boxed;
use std::alloc::Global;

/// An expression with its types, and what is judged of it.
#[derive(Drop)]
pub struct Built {
    pub expr: TypedExpr,
    pub judged: Judged,
}

/// An expression with its types. There is no memory for more than 18446744073709551615 `*`.
#[tactic(auto, unfolding(crate::specs::Seen::expr_in))]
pub fn build_expr(
    alloc: Global,
    section: &SectionScope,
    function: &FunctionScope,
    expr: &ExprTree,
) -> Result<Built, OutOfMemory>
    ensures expr { IfOk result (λ built. built.expr ≡ expr_in section.now function.now expr.now) }
    ensures judged { (scope : Scope) → Suits (visible section.now function.now) scope →
        IfOk result (λ built. built.judged ≡ judged scope built.expr) }
{
    match expr {
        ExprTree::Literal(literal) => Ok(literal_built(*literal)),
        ExprTree::Variable(name) => Ok(variable_built(found(
            section,
            function,
            &name.get().name(),
        ))),
        ExprTree::Unary { op, of } => {
            let of = build_expr(alloc, section, function, of.get())?;
            unary_built(alloc, *op, of)
        }
        ExprTree::Binary { op, left, right } => {
            let left = build_expr(alloc, section, function, left.get())?;
            let right = build_expr(alloc, section, function, right.get())?;
            binary_built(alloc, *op, left, right)
        }
        ExprTree::Index { base, index } => {
            let base = build_expr(alloc, section, function, base.get())?;
            let index = build_expr(alloc, section, function, index.get())?;
            index_built(alloc, base, index)
        }
        ExprTree::Member { base, name } => {
            let base = build_expr(alloc, section, function, base.get())?;
            let member = section
                .structs
                .member(Some(base.expr.ty), &name.get().name());
            member_built(alloc, base, member)
        }
        ExprTree::Arrow { base, name } => {
            let base = build_expr(alloc, section, function, base.get())?;
            let member = section
                .structs
                .member(base.expr.ty.pointed(), &name.get().name());
            arrow_built(alloc, base, member)
        }
        ExprTree::Deref(of) => {
            let of = build_expr(alloc, section, function, of.get())?;
            deref_built(alloc, of)
        }
        ExprTree::Address(of) => {
            let of = build_expr(alloc, section, function, of.get())?;
            address_built(alloc, of)
        }
        ExprTree::SizeOf(of) => Ok(sizeof_built(cells_under(
            &section.tags,
            &section.structs,
            of.get(),
        ))),
    }
}

#[tactic(auto, using(crate::proofs::Parts::literal_judged))]
fn literal_built(literal: Literal) -> Built
    ensures expr { result.expr ≡ literal_typed literal }
    ensures judged { (scope : Scope) → result.judged ≡ judged scope result.expr }
{
    let ty = if literal.is_unsigned() {
        Ty::Unsigned
    } else {
        Ty::Int
    };
    let value = literal.value();
    Built {
        expr: TypedExpr {
            ty,
            kind: TypedKind::Literal { value },
        },
        judged: Judged {
            ty,
            fits: literal_fits(value, ty),
            place: false,
            null: false,
        },
    }
}

#[tactic(auto, using(crate::proofs::Parts::sizeof_judged))]
fn sizeof_built(cells: u32) -> Built
    ensures expr { result.expr ≡ sizeof_typed cells }
    ensures judged { (scope : Scope) → result.judged ≡ judged scope result.expr }
{
    Built {
        expr: TypedExpr {
            ty: Ty::Unsigned,
            kind: TypedKind::SizeOf { cells },
        },
        judged: Judged {
            ty: Ty::Unsigned,
            fits: sizeof_fits(cells),
            place: false,
            null: false,
        },
    }
}

// The type of what isn't there, which nothing fits.
fn no_ty() -> Ty
    ensures { result ≡ no_ty }
{
    Ty::Pointer {
        stars: 0,
        base: BaseTy::Int,
    }
}

fn variable_typed(found: Option<Found>) -> TypedExpr
    ensures { result ≡ variable_typed found }
{
    match found {
        None => TypedExpr {
            ty: no_ty(),
            kind: TypedKind::Variable(VarRef::Global(0)),
        },
        Some(found) => TypedExpr {
            ty: found.ty(),
            kind: TypedKind::Variable(found.variable()),
        },
    }
}

// A variable fits where it is declared.
fn variable_built(found: Option<Found>) -> Built
    ensures expr { result.expr ≡ variable_typed found }
    ensures judged { result.judged ≡ record {
      ty = (variable_typed found).ty;
      fits = is_some found;
      place = true;
      null = false;
    } }
{
    let expr = variable_typed(found);
    let judged = Judged {
        ty: expr.ty,
        fits: found.is_some(),
        place: true,
        null: false,
    };
    Built { expr, judged }
}

#[tactic(auto, using(crate::proofs::Parts::unary_judged))]
fn unary_built(alloc: Global, op: UnaryOp, of: Built) -> Result<Built, OutOfMemory>
    ensures expr { IfOk result (λ built. built.expr ≡
        record { ty = unary_ty op of.expr.ty; kind = TypedKind.Unary op of.expr }) }
    ensures judged { (scope : Scope) → of.judged ≡ judged scope of.expr →
        IfOk result (λ built. built.judged ≡ judged scope built.expr) }
{
    let Built { expr: of, judged } = of;
    let ty = unary_ty(op, of.ty);
    let judged = Judged {
        ty,
        fits: unary_fits(op, judged, ty),
        place: false,
        null: false,
    };
    let of = Boxed::new(alloc, of)?;
    let kind = TypedKind::Unary { op, of };
    Ok(Built {
        expr: TypedExpr { ty, kind },
        judged,
    })
}

#[tactic(auto, using(crate::proofs::Parts::binary_judged))]
fn binary_built(
    alloc: Global,
    op: BinaryOp,
    left: Built,
    right: Built,
) -> Result<Built, OutOfMemory>
    ensures expr { IfOk result (λ built. built.expr ≡ binary_typed op left.expr right.expr) }
    ensures judged { (scope : Scope) → left.judged ≡ judged scope left.expr → right.judged ≡ judged scope right.expr →
        IfOk result (λ built. built.judged ≡ judged scope built.expr) }
{
    let left_ty = left.expr.ty;
    let right_ty = right.expr.ty;
    let ty = binary_ty(op, left_ty, right_ty)?;
    let left = beside(op, right_ty, left)?;
    let right = beside(op, left_ty, right)?;
    let judged = Judged {
        ty,
        fits: binary_fits(op, left.judged, right.judged, ty)?,
        place: false,
        null: false,
    };
    let left = Boxed::new(alloc, left.expr)?;
    let right = Boxed::new(alloc, right.expr)?;
    let kind = TypedKind::Binary { op, left, right };
    Ok(Built {
        expr: TypedExpr { ty, kind },
        judged,
    })
}

#[tactic(auto, using(crate::proofs::Parts::index_judged))]
fn index_built(alloc: Global, base: Built, index: Built) -> Result<Built, OutOfMemory>
    ensures expr { IfOk result (λ built. built.expr ≡
        record { ty = or_int (target (decayed base.expr.ty)); kind = TypedKind.Index base.expr index.expr }) }
    ensures judged { (scope : Scope) → base.judged ≡ judged scope base.expr → index.judged ≡ judged scope index.expr →
        IfOk result (λ built. built.judged ≡ judged scope built.expr) }
{
    let pointed = base.expr.ty.pointed();
    let ty = pointed.unwrap_or(Ty::Int);
    let judged = Judged {
        ty,
        fits: base.judged.is_indexed(index.judged, pointed, ty),
        place: true,
        null: false,
    };
    let base = Boxed::new(alloc, base.expr)?;
    let index = Boxed::new(alloc, index.expr)?;
    let kind = TypedKind::Index { base, index };
    Ok(Built {
        expr: TypedExpr { ty, kind },
        judged,
    })
}

// A member fits where the struct has it.
fn member_built(
    alloc: Global,
    base: Built,
    member: Option<TypedMember>,
) -> Result<Built, OutOfMemory>
    ensures expr { IfOk result (λ built. built.expr ≡
        record { ty = member_ty member; kind = TypedKind.Member base.expr (member_offset member) }) }
    ensures judged { IfOk result (λ built. built.judged ≡
        record {
          ty = member_ty member;
          fits = base.judged.fits && (base.judged.place && is_some member);
          place = true;
          null = false;
        }) }
{
    let (ty, offset) = typed_offset(member);
    let judged = Judged {
        ty,
        fits: base.judged.fits && base.judged.place && member.is_some(),
        place: true,
        null: false,
    };
    let base = Boxed::new(alloc, base.expr)?;
    let kind = TypedKind::Member { base, offset };
    Ok(Built {
        expr: TypedExpr { ty, kind },
        judged,
    })
}

// A member fits where the struct has it.
fn arrow_built(
    alloc: Global,
    base: Built,
    member: Option<TypedMember>,
) -> Result<Built, OutOfMemory>
    ensures expr { IfOk result (λ built. built.expr ≡
        record { ty = member_ty member; kind = TypedKind.Arrow base.expr (member_offset member) }) }
    ensures judged { IfOk result (λ built. built.judged ≡
        record { ty = member_ty member; fits = is_address base.judged && is_some member; place = true; null = false }) }
{
    let (ty, offset) = typed_offset(member);
    let judged = Judged {
        ty,
        fits: base.judged.is_address() && member.is_some(),
        place: true,
        null: false,
    };
    let base = Boxed::new(alloc, base.expr)?;
    let kind = TypedKind::Arrow { base, offset };
    Ok(Built {
        expr: TypedExpr { ty, kind },
        judged,
    })
}

// A member's type and its offset.
fn typed_offset(member: Option<TypedMember>) -> (Ty, u32)
    ensures { result ≡ (member_ty member, member_offset member) }
{
    match member {
        None => (no_ty(), 0),
        Some(member) => (member.ty, member.offset),
    }
}

#[tactic(auto, using(crate::proofs::Parts::deref_judged))]
fn deref_built(alloc: Global, of: Built) -> Result<Built, OutOfMemory>
    ensures expr { IfOk result (λ built. built.expr ≡
        record { ty = or_int (target (decayed of.expr.ty)); kind = TypedKind.Deref of.expr }) }
    ensures judged { (scope : Scope) → of.judged ≡ judged scope of.expr →
        IfOk result (λ built. built.judged ≡ judged scope built.expr) }
{
    let pointed = of.expr.ty.pointed();
    let ty = pointed.unwrap_or(Ty::Int);
    let judged = Judged {
        ty,
        fits: of.judged.points_to(pointed, ty),
        place: true,
        null: false,
    };
    let of = Boxed::new(alloc, of.expr)?;
    let kind = TypedKind::Deref(of);
    Ok(Built {
        expr: TypedExpr { ty, kind },
        judged,
    })
}

#[tactic(auto, using(crate::proofs::Parts::address_judged))]
fn address_built(alloc: Global, of: Built) -> Result<Built, OutOfMemory>
    ensures expr { IfOk result (λ built. built.expr ≡
        record { ty = or_int (pointer_to of.expr.ty); kind = TypedKind.Address of.expr }) }
    ensures judged { (scope : Scope) → of.judged ≡ judged scope of.expr →
        IfOk result (λ built. built.judged ≡ judged scope built.expr) }
{
    let pointer = of.expr.ty.pointer_to()?;
    let ty = pointer.unwrap_or(Ty::Int);
    let judged = Judged {
        ty,
        fits: of.judged.has_address(pointer, ty),
        place: false,
        null: false,
    };
    let of = Boxed::new(alloc, of.expr)?;
    let kind = TypedKind::Address(of);
    Ok(Built {
        expr: TypedExpr { ty, kind },
        judged,
    })
}

fn is_zero(expr: &TypedExpr) -> bool
    ensures { result ≡ is_zero_literal expr.now }
{
    match &expr.kind {
        TypedKind::Literal { value } => *value == 0,
        _ => false,
    }
}

/// An expression on its way to a place of this type: where it is a pointer's, a literal of value 0 is null (C11
/// 6.3.2.3p3).
#[tactic(auto, using(crate::proofs::Parts::null_judged))]
pub fn going_to(place: Ty, built: Built) -> Result<Built, OutOfMemory>
    ensures expr { IfOk result (λ going. going.expr ≡ going_to place built.expr) }
    ensures judged { (scope : Scope) → built.judged ≡ judged scope built.expr →
        IfOk result (λ going. going.judged ≡ judged scope going.expr) }
{
    if place.is_pointer() && is_zero(&built.expr) {
        null_built(place, built.expr.kind)
    } else {
        Ok(built)
    }
}

fn null_built(place: Ty, kind: TypedKind) -> Result<Built, OutOfMemory>
    ensures expr { IfOk result (λ null. null.expr ≡ record { ty = decayed place; kind = kind }) }
    ensures judged { IfOk result (λ null. null.judged ≡
        record { ty = decayed place; fits = true; place = false; null = true }) }
{
    let ty = place.decayed()?;
    let judged = Judged {
        ty,
        fits: true,
        place: false,
        null: true,
    };
    Ok(Built {
        expr: TypedExpr { ty, kind },
        judged,
    })
}

// An operand of `==` or `!=` may be null beside a pointer.
fn beside(op: BinaryOp, other: Ty, built: Built) -> Result<Built, OutOfMemory>
    ensures expr { IfOk result (λ operand. operand.expr ≡ beside op other built.expr) }
    ensures judged { (scope : Scope) → built.judged ≡ judged scope built.expr →
        IfOk result (λ operand. operand.judged ≡ judged scope operand.expr) }
{
    match op {
        BinaryOp::Equal | BinaryOp::NotEqual => going_to(other, built),
        _ => Ok(built),
    }
}
