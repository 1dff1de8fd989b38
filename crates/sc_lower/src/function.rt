//! Functions: how they are entered, their variables, and their code.

ghost use Rattle.sc_lower.specs.Prelude.{beyond, body_code, cells_of, entry_of, export_called, exports_of, fragment_of};
ghost use Rattle.sc_lower.specs.Prelude.{in_turn, init_code, inits_code, local_beyond, local_nodes, lowered_function};
ghost use Rattle.sc_lower.specs.Prelude.{main_name, most_cells, most_exports, most_nodes, most_params, nodes, total};
ghost use Rattle.sc_lower.specs.Prelude.{variables};
ghost use Rattle.sc_event.specs.Prelude.{comp_at};
ghost use Rattle.std.specs.Prelude.{◌≡◌, ◌≤◌, ◌<◌, ◌+◌, ◌++◌, ◌==◌, ◌&&◌, bytes_eq, map, length, IfOk, IfSome};
ghost use Rattle.std.specs.List.{position, All};
ghost use Rattle.std.specs.Option.{option_copied};
ghost use Rattle.sc_event.specs.declared.interface.Proto.{Proto};
ghost use Rattle.sc_core.specs.declared.section.TypedParam.{TypedParam};

use crate::code::{Fragment, Scope, after, assigned, ended, nothing};
use crate::expr::lower_expr;
use crate::nodes::function_nodes;
use crate::selection::place_code;
use crate::stmt::lower_stmts;
use sc_base::{Name, OutOfMemory};
use sc_core::{Ty, TypedFunction, TypedLocal, TypedParam, TypedStruct, VarRef, Want, cells_of};
use sc_event::{CompId, Entry, Interfaces, Proto};
use sc_tac::{ObjectCells, TacFnTree, TacStmt, TacStmts};
use std::alloc::Global;

// The initialiser of the local of this number is assigned (C11 6.7.9p11).
fn lower_init(
    alloc: Global,
    scope: &Scope,
    number: u32,
    local: &TypedLocal,
    free: u32,
) -> Result<Fragment, OutOfMemory>
    requires fits { free + local_nodes local.now ≤ most_nodes }
    requires near { local_beyond local.now ≡ 0 }
    requires number { number < most_nodes }
    ensures made { IfOk result (λ fragment. fragment ≡
        fragment_of (init_code scope.now.structs.now scope.now.params number local.now local.now.init free)) }
    ensures few { IfOk result (λ fragment. fragment.next ≤ free + local_nodes local.now) }
{
    match &local.init {
        None => Ok(nothing(alloc, free)),
        Some(value) => {
            let code = lower_expr(alloc, scope, Want::Value, value, free, TacStmts::new(alloc))?;
            let variable = place_code(scope.params, VarRef::Local(number), code.next);
            let place = assigned(TacStmts::new(alloc), variable, code.next)?;
            let last = TacStmt::Store {
                place: place.at,
                value: code.at,
            };
            after(code.stmts, ended(place, last)?)
        }
    }
}

// The initialisers in order.
fn lower_inits(alloc: Global, scope: &Scope, locals: &[TypedLocal]) -> Result<Fragment, OutOfMemory>
    requires fits { total (map local_nodes locals.now) ≤ most_nodes }
    requires near { total (map local_beyond locals.now) ≡ 0 }
    ensures made { IfOk result (λ fragment. fragment ≡
        fragment_of (in_turn (inits_code scope.now.structs.now scope.now.params 0 locals.now) 0)) }
    ensures few { IfOk result (λ fragment. fragment.next ≤ total (map local_nodes locals.now)) }
{
    let mut stmts = TacStmts::new(alloc);
    let mut next = 0;
    let mut number = 0;
    for local in locals {
        let fragment = lower_init(alloc, scope, number, local, next)?;
        stmts.append(fragment.stmts)?;
        next = fragment.next;
        number += 1;
    }
    Ok(Fragment { stmts, next })
}

// The initialisers, then the statements.
fn lower_body(
    alloc: Global,
    structs: &[TypedStruct],
    function: &TypedFunction,
    params: u8,
) -> Result<Fragment, OutOfMemory>
    requires counted { params ≡ length function.now.params }
    requires few { nodes function.now ≤ most_nodes }
    requires near { beyond function.now ≡ 0 }
    ensures { IfOk result (λ fragment. fragment ≡ fragment_of (body_code structs.now function.now 0)) }
{
    let scope = Scope { structs, params };
    let inits = lower_inits(alloc, &scope, function.locals.as_slice())?;
    let body = lower_stmts(alloc, &scope, &function.body, inits.next)?;
    after(inits.stmts, body)
}

fn has_name(proto: &Proto, name: &Name) -> bool
    ensures { result ≡ bytes_eq name.now proto.now.name }
{
    name.as_bytes() == proto.name.as_bytes()
}

fn exports_of(interfaces: &Interfaces, comp: CompId) -> &[Proto]
    ensures { result.now ≡ exports_of (comp_at interfaces.now comp) }
{
    match interfaces.comp(comp) {
        None => &[],
        Some(interface) => interface.exports.as_slice(),
    }
}

fn export_place(exports: &[Proto], name: &Name) -> Option<usize>
    ensures place { result ≡ position {X = Proto} (λ proto. bytes_eq name.now proto.name) exports.now }
    ensures within { IfSome result (λ place. place < length exports.now) }
{
    exports.iter().position(|proto| has_name(proto, name))
}

// The export of this name.
fn export_called(interfaces: &Interfaces, comp: CompId, name: &Name) -> Option<Entry>
    requires { length (exports_of (comp_at interfaces.now comp)) ≤ most_exports }
    ensures { result ≡ export_called interfaces.now comp name.now }
{
    match export_place(exports_of(interfaces, comp), name) {
        None => None,
        Some(place) => Some(Entry::Export(place as u16)),
    }
}

// How a function of this name is entered.
fn entry_of(interfaces: &Interfaces, comp: CompId, name: &Name) -> Option<Entry>
    requires { length (exports_of (comp_at interfaces.now comp)) ≤ most_exports }
    ensures { result ≡ entry_of interfaces.now comp name.now }
{
    let main = comp.number() == interfaces.main.number();
    if main && name.as_bytes() == b"main".as_slice() {
        return Some(Entry::Main);
    }
    export_called(interfaces, comp, name)
}

// The cells of each variable, parameters first.
fn object_cells(
    alloc: Global,
    structs: &[TypedStruct],
    function: &TypedFunction,
) -> Result<ObjectCells, OutOfMemory>
    requires param_cells { All (λ param. cells_of structs.now param.ty ≤ most_cells) function.now.params }
    requires local_cells { All (λ local. cells_of structs.now local.ty ≤ most_cells) function.now.locals }
    ensures { IfOk result (λ cells. cells ≡ variables structs.now function.now) }
{
    let mut cells = param_cells(alloc, structs, function.params.as_slice())?;
    for local in function.locals.as_slice() {
        cells.push(few_cells(structs, local.ty))?;
    }
    Ok(cells)
}

fn param_cells(
    alloc: Global,
    structs: &[TypedStruct],
    params: &[TypedParam],
) -> Result<ObjectCells, OutOfMemory>
    requires { All (λ param. cells_of structs.now param.ty ≤ most_cells) params.now }
    ensures { IfOk result (λ cells. cells ≡ map {A = TypedParam} (λ param. cells_of structs.now param.ty) params.now) }
{
    let mut cells = ObjectCells::new(alloc);
    for param in params {
        cells.push(few_cells(structs, param.ty))?;
    }
    Ok(cells)
}

fn few_cells(structs: &[TypedStruct], ty: Ty) -> u32
    requires { cells_of structs.now ty ≤ most_cells }
    ensures { result ≡ cells_of structs.now ty }
{
    cells_of(structs, ty) as u32
}

fn param_count(function: &TypedFunction) -> u8
    requires { length function.now.params ≤ most_params }
    ensures { result ≡ length function.now.params }
{
    function.params.len() as u8
}

/// What a function of the section of this number is made of.
pub fn function_tree(
    alloc: Global,
    interfaces: &Interfaces,
    comp: CompId,
    structs: &[TypedStruct],
    function: &TypedFunction,
) -> Result<TacFnTree, OutOfMemory>
    requires few_params { length function.now.params ≤ most_params }
    requires few_nodes { nodes function.now ≤ most_nodes }
    requires near { beyond function.now ≡ 0 }
    requires few_exports { length (exports_of (comp_at interfaces.now comp)) ≤ most_exports }
    requires param_cells { All (λ param. cells_of structs.now param.ty ≤ most_cells) function.now.params }
    requires local_cells { All (λ local. cells_of structs.now local.ty ≤ most_cells) function.now.locals }
    ensures { IfOk result (λ tree. tree ≡ lowered_function interfaces.now comp structs.now function.now) }
{
    let params = param_count(function);
    let body = lower_body(alloc, structs, function, params)?;
    Ok(TacFnTree {
        comp,
        name: function.name,
        entry: entry_of(interfaces, comp, &function.name),
        params,
        result: function.result.is_some(),
        temps: body.next,
        objects: object_cells(alloc, structs, function)?,
        nodes: function_nodes(function, params as u32),
        body: body.stmts,
    })
}
