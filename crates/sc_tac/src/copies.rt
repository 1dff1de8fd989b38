//! Copies of what code keeps of its source.

ghost use Rattle.std.specs.Prelude.{◌≡◌, IfOk};

use sc_base::OutOfMemory;
use sc_core::{TypedGlobal, TypedGlobals, TypedStruct, TypedStructs};
use sc_event::{Interface, InterfaceList, Interfaces, Params, Proto, Protos};
use sqlite_items::Items;
use std::alloc::Global;

fn copy_struct(alloc: Global, from: &TypedStruct) -> Result<TypedStruct, OutOfMemory>
    ensures { IfOk result (λ copy. copy ≡ from.now) }
{
    Ok(TypedStruct {
        name: from.name,
        members: Items::from_slice(alloc, from.members.as_slice())?,
        cells: from.cells,
    })
}

/// The structs of a section.
pub fn copy_structs(alloc: Global, structs: &[TypedStruct]) -> Result<TypedStructs, OutOfMemory>
    ensures { IfOk result (λ copies. copies ≡ structs.now) }
{
    let mut copies = TypedStructs::new(alloc);
    for from in structs {
        copies.push(copy_struct(alloc, from)?)?;
    }
    Ok(copies)
}

fn copy_global(alloc: Global, global: &TypedGlobal) -> Result<TypedGlobal, OutOfMemory>
    ensures { IfOk result (λ copy. copy ≡ global.now) }
{
    Ok(TypedGlobal {
        name: global.name,
        ty: global.ty,
        init: Items::from_slice(alloc, global.init.as_slice())?,
    })
}

/// The globals of a section.
pub fn copy_globals(alloc: Global, globals: &[TypedGlobal]) -> Result<TypedGlobals, OutOfMemory>
    ensures { IfOk result (λ copies. copies ≡ globals.now) }
{
    let mut copies = TypedGlobals::new(alloc);
    for global in globals {
        copies.push(copy_global(alloc, global)?)?;
    }
    Ok(copies)
}

// A function has at most 8 parameters, which take no memory.
fn copy_proto(alloc: Global, proto: &Proto) -> Proto
    ensures { result ≡ proto.now }
{
    Proto {
        name: proto.name,
        params: Params::from_slice(alloc, proto.params.as_slice()).unwrap(),
        result: proto.result,
    }
}

fn copy_protos(alloc: Global, protos: &[Proto]) -> Result<Protos, OutOfMemory>
    ensures { IfOk result (λ copies. copies ≡ protos.now) }
{
    let mut copies = Protos::new(alloc);
    for proto in protos {
        copies.push(copy_proto(alloc, proto))?;
    }
    Ok(copies)
}

fn copy_interface(alloc: Global, interface: &Interface) -> Result<Interface, OutOfMemory>
    ensures { IfOk result (λ copy. copy ≡ interface.now) }
{
    Ok(Interface {
        name: interface.name,
        exports: copy_protos(alloc, interface.exports.as_slice())?,
        imports: Items::from_slice(alloc, interface.imports.as_slice())?,
    })
}

/// The interfaces of a program.
pub fn copy_interfaces(alloc: Global, interfaces: &Interfaces) -> Result<Interfaces, OutOfMemory>
    ensures { IfOk result (λ copy. copy ≡ interfaces.now) }
{
    let mut comps = InterfaceList::new(alloc);
    for interface in interfaces.comps.as_slice() {
        comps.push(copy_interface(alloc, interface)?)?;
    }
    Ok(Interfaces {
        comps,
        main: interfaces.main,
    })
}
