//! Code in the making.

ghost use Rattle.sc_lower.specs.Prelude.{loaded, most_nodes};
ghost use Rattle.std.specs.Prelude.{◌≡◌, ◌<◌, ◌++◌, ◌∷◌, [], suc, IfOk};
ghost use Rattle.sc_core.specs.declared.value.Want;

use sc_base::OutOfMemory;
use sc_core::{Ty, TypedStruct, Want};
use sc_tac::{TacStmt, TacStmts};
use std::alloc::Global;

/// Where an expression stands: the structs of its section, and how many parameters its function has.
#[derive(Clone, Copy)]
pub struct Scope<'a> {
    pub structs: &'a [TypedStruct],
    pub params: u8,
}

/// Code, the temporary in which it leaves what it computes, and the next free one.
#[derive(Drop)]
pub struct Code {
    pub stmts: TacStmts,
    pub at: u32,
    pub next: u32,
}

/// Code that leaves nothing in a temporary, and the next free one.
#[derive(Drop)]
pub struct Fragment {
    pub stmts: TacStmts,
    pub next: u32,
}

/// Statements, and one after them that assigns the temporary `free`.
pub fn assigned(first: TacStmts, stmt: TacStmt, free: u32) -> Result<Code, OutOfMemory>
    requires { free < most_nodes }
    ensures { IfOk result (λ code. code ≡ record { stmts = first ++ stmt ∷ []; at = free; next = suc free }) }
{
    let mut stmts = first;
    stmts.push(stmt)?;
    Ok(Code {
        stmts,
        at: free,
        next: free + 1,
    })
}

/// The code with a statement after it that assigns the temporary in which the code left its value.
pub fn with_last(code: Code, last: TacStmt) -> Result<Code, OutOfMemory>
    ensures { IfOk result (λ longer. longer ≡ record {
      stmts = code.stmts ++ last ∷ [];
      at = code.at;
      next = code.next;
    }) }
{
    let mut stmts = code.stmts;
    stmts.push(last)?;
    Ok(Code {
        stmts,
        at: code.at,
        next: code.next,
    })
}

/// The code with a statement after it that assigns the next free temporary.
pub fn with_result(code: Code, last: TacStmt) -> Result<Code, OutOfMemory>
    requires { code.next < most_nodes }
    ensures { IfOk result (λ longer. longer ≡ record {
      stmts = code.stmts ++ last ∷ [];
      at = code.next;
      next = suc code.next;
    }) }
{
    let mut stmts = code.stmts;
    stmts.push(last)?;
    Ok(Code {
        stmts,
        at: code.next,
        next: code.next + 1,
    })
}

/// A place of this type, or what stands there. The value of an array is its place (C11 6.3.2.1p3).
pub fn loaded(place: Code, ty: Ty, want: Want) -> Result<Code, OutOfMemory>
    ensures { IfOk result (λ code. code ≡ record {
      stmts = place.stmts ++ loaded ty want place.at;
      at = place.at;
      next = place.next;
    }) }
{
    let mut code = place;
    match want {
        Want::Place => Ok(code),
        Want::Value => {
            if !ty.is_array() {
                code.stmts.push(TacStmt::Load {
                    dest: code.at,
                    place: code.at,
                    pointer: ty.is_pointer(),
                })?;
            }
            Ok(code)
        }
    }
}

/// No code.
pub fn nothing(alloc: Global, free: u32) -> Fragment
    ensures { result ≡ record { stmts = []; next = free } }
{
    Fragment {
        stmts: TacStmts::new(alloc),
        next: free,
    }
}

/// Statements, and one after them that assigns no temporary.
pub fn extended(first: TacStmts, stmt: TacStmt, free: u32) -> Result<Fragment, OutOfMemory>
    ensures { IfOk result (λ fragment. fragment ≡ record { stmts = first ++ stmt ∷ []; next = free }) }
{
    let mut stmts = first;
    stmts.push(stmt)?;
    Ok(Fragment { stmts, next: free })
}

/// The code with a statement after it that assigns no temporary.
pub fn ended(code: Code, last: TacStmt) -> Result<Fragment, OutOfMemory>
    ensures { IfOk result (λ fragment. fragment ≡ record { stmts = code.stmts ++ last ∷ []; next = code.next }) }
{
    let mut stmts = code.stmts;
    stmts.push(last)?;
    Ok(Fragment {
        stmts,
        next: code.next,
    })
}

/// A fragment after other statements.
pub fn after(first: TacStmts, rest: Fragment) -> Result<Fragment, OutOfMemory>
    ensures { IfOk result (λ fragment. fragment ≡ record { stmts = first ++ rest.stmts; next = rest.next }) }
{
    let mut stmts = first;
    stmts.append(rest.stmts)?;
    Ok(Fragment {
        stmts,
        next: rest.next,
    })
}
