ghost use Rattle.sc_base.specs.Prelude.{most_params};
ghost use Rattle.sc_image.specs.Prelude.{image_import, image_interface, image_interfaces, image_proto};
ghost use Rattle.std.specs.Prelude.{◌≡◌, ◌≤◌, [], ◌∷◌, ◌++◌, if◌then◌else◌, map, replicate, All, IfOk, OnOk};
ghost use Rattle.sc_event.specs.declared.interface.Scalar.TheVariants.{Int};

use crate::{CompPart, ExportPart, Image, ImportPart};
use sc_base::OutOfMemory;
use sc_event::{
    Import, Imports, Interface, InterfaceList, Interfaces, Params, Proto, Protos, Scalar,
};
use std::alloc::Global;

/// The interfaces of the image's compartments. An image doesn't distinguish `int` and `unsigned int`: every parameter
/// and every result is an `int`.
pub fn image_interfaces(alloc: Global, image: &Image) -> Result<Interfaces, OutOfMemory>
    ensures { IfOk result (λ interfaces. interfaces ≡ image_interfaces image.now) }
{
    let parts = image.parts();
    let mut comps = InterfaceList::new(alloc);
    for comp in parts.comps.as_slice() {
        comps.push(interface_of(alloc, comp)?)?;
    }
    Ok(Interfaces {
        comps,
        main: parts.main,
    })
}

fn interface_of(alloc: Global, comp: &CompPart) -> Result<Interface, OutOfMemory>
    requires { All (λ export. export.params ≤ most_params) comp.now.exports }
    ensures { IfOk result (λ interface. interface ≡ image_interface comp.now) }
{
    let exports = protos_of(alloc, comp.exports.as_slice())?;
    let imports = imports_of(alloc, comp)?;
    Ok(Interface {
        name: comp.name,
        exports,
        imports,
    })
}

fn protos_of(alloc: Global, exports: &[ExportPart]) -> Result<Protos, OutOfMemory>
    requires { All (λ export. export.params ≤ most_params) exports.now }
    ensures { IfOk result (λ protos. protos ≡ map image_proto exports.now) }
{
    let mut protos = Protos::new(alloc);
    for export in exports {
        protos.push(proto_of(alloc, export))?;
    }
    Ok(protos)
}

fn proto_of(alloc: Global, export: &ExportPart) -> Proto
    requires { export.now.params ≤ most_params }
    ensures { result ≡ image_proto export.now }
{
    Proto {
        name: export.name,
        params: ints(alloc, export.params),
        result: if export.result {
            Some(Scalar::Int)
        } else {
            None
        },
    }
}

// `count` parameters, each an `int`.
#[tactic(auto, using(crate::proofs::Keeping::ints_taken))]
fn ints(alloc: Global, count: u8) -> Params
    requires { count ≤ most_params }
    ensures { result ≡ replicate count Int }
{
    let all = [Scalar::Int; 8];
    match Params::from_slice(alloc, &all[..usize::from(count)]) {
        Some(params) => params,
        None => unreachable!(),
    }
}

fn imports_of(alloc: Global, comp: &CompPart) -> Result<Imports, OutOfMemory>
    ensures { IfOk result (λ imports. imports ≡ (image_interface comp.now).imports) }
{
    let mut imports = Imports::new(alloc);
    push_if(&mut imports, comp.input, Import::Input)?;
    push_if(&mut imports, comp.output, Import::Output)?;
    push_functions(&mut imports, comp.imports.as_slice())?;
    Ok(imports)
}

fn push_if(imports: &mut Imports, is_there: bool, import: Import) -> Result<(), OutOfMemory>
    ensures { OnOk result (imports.new ≡ imports.old ++ (if is_there then import ∷ [] else [])) }
{
    if is_there {
        imports.push(import)?;
    }
    Ok(())
}

fn push_functions(imports: &mut Imports, others: &[ImportPart]) -> Result<(), OutOfMemory>
    ensures { OnOk result (imports.new ≡ imports.old ++ map image_import others.now) }
{
    for other in others {
        imports.push(import_of(*other))?;
    }
    Ok(())
}

fn import_of(import: ImportPart) -> Import
    ensures { result ≡ image_import import }
{
    Import::Function {
        comp: import.comp,
        index: import.index,
    }
}
