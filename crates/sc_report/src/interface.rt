ghost use Rattle.sc_event.specs.Prelude.{spaced_names};
ghost use Rattle.std.specs.Prelude.{◌≡◌, ◌++◌, flat_map, map, IfOk, OnOk};
ghost use Rattle.sc_event.specs.declared.interface.Import.TheVariants.{Function};
ghost use Rattle.sc_report.specs.Check.{scalar_word, result_word, params_end, types_end, function_end, export_report};
ghost use Rattle.sc_report.specs.Check.{function_report, import_report, comp_line, interface_text, main_line};
ghost use Rattle.sc_report.specs.Check.{check_text};

use sc_base::{OutOfMemory, Text};
use sc_event::{CompId, Import, Interface, Interfaces, Proto, Scalar};
use std::alloc::Global;

/// The compartments with their exports and imports, and the main compartment. An imported function is listed where the
/// interfaces have it.
pub fn check_text(alloc: Global, interfaces: &Interfaces) -> Result<Text, OutOfMemory>
    ensures { IfOk result (λ text. text ≡ check_text interfaces.now) }
{
    let mut text = Text::new(alloc);
    for comp in interfaces.comps.as_slice() {
        append_interface(&mut text, interfaces, comp)?;
    }
    append_main(&mut text, interfaces.comp_name(interfaces.main))?;
    Ok(text)
}

fn append_main(text: &mut Text, name: &[u8]) -> Result<(), OutOfMemory>
    ensures { OnOk result (text.new ≡ text.old ++ main_line name.now) }
{
    text.append(b"main ")?;
    text.append(name)?;
    text.push(b'\n')
}

fn append_interface(
    text: &mut Text,
    interfaces: &Interfaces,
    comp: &Interface,
) -> Result<(), OutOfMemory>
    ensures { OnOk result (text.new ≡ text.old ++ interface_text interfaces.now comp.now) }
{
    append_comp(text, comp.name.as_bytes())?;
    append_exports(text, comp.exports.as_slice())?;
    append_imports(text, interfaces, comp.imports.as_slice())
}

fn append_comp(text: &mut Text, name: &[u8]) -> Result<(), OutOfMemory>
    ensures { OnOk result (text.new ≡ text.old ++ comp_line name.now) }
{
    text.append(b"compartment ")?;
    text.append(name)?;
    text.push(b'\n')
}

fn append_exports(text: &mut Text, exports: &[Proto]) -> Result<(), OutOfMemory>
    ensures { OnOk result (text.new ≡ text.old ++ flat_map export_report exports.now) }
{
    for export in exports {
        append_export(text, export)?;
    }
    Ok(())
}

fn append_export(text: &mut Text, export: &Proto) -> Result<(), OutOfMemory>
    ensures { OnOk result (text.new ≡ text.old ++ export_report export.now) }
{
    text.append(b"export")?;
    append_function(text, export)
}

fn append_imports(
    text: &mut Text,
    interfaces: &Interfaces,
    imports: &[Import],
) -> Result<(), OutOfMemory>
    ensures { OnOk result (text.new ≡ text.old ++ flat_map (import_report interfaces.now) imports.now) }
{
    for import in imports {
        append_import(text, interfaces, *import)?;
    }
    Ok(())
}

fn append_import(
    text: &mut Text,
    interfaces: &Interfaces,
    import: Import,
) -> Result<(), OutOfMemory>
    ensures { OnOk result (text.new ≡ text.old ++ import_report interfaces.now import) }
{
    match import {
        Import::Input => text.append(b"import Env input int\n"),
        Import::Output => text.append(b"import Env output void int\n"),
        Import::Function { comp, index } => append_imported(text, interfaces, comp, index),
    }
}

fn append_imported(
    text: &mut Text,
    interfaces: &Interfaces,
    comp: CompId,
    index: u16,
) -> Result<(), OutOfMemory>
    ensures { OnOk result (text.new ≡ text.old ++ import_report interfaces.now (Function comp index)) }
{
    match interfaces.export(comp, index) {
        None => text.append(b""),
        Some(export) => append_function_of(text, interfaces.comp_name(comp), export),
    }
}

fn append_function_of(text: &mut Text, comp: &[u8], export: &Proto) -> Result<(), OutOfMemory>
    ensures { OnOk result (text.new ≡ text.old ++ function_report comp.now export.now) }
{
    text.append(b"import ")?;
    text.append(comp)?;
    append_function(text, export)
}

// A function's name and types, as the last things of a line.
fn append_function(text: &mut Text, export: &Proto) -> Result<(), OutOfMemory>
    ensures { OnOk result (text.new ≡ text.old ++ function_end export.now) }
{
    text.push(b' ')?;
    text.append(export.name.as_bytes())?;
    append_types(text, export)
}

fn append_types(text: &mut Text, export: &Proto) -> Result<(), OutOfMemory>
    ensures { OnOk result (text.new ≡ text.old ++ types_end export.now) }
{
    text.push(b' ')?;
    text.append(result_word(export.result))?;
    append_params(text, export.params.as_slice())
}

fn append_params(text: &mut Text, params: &[Scalar]) -> Result<(), OutOfMemory>
    ensures { OnOk result (text.new ≡ text.old ++ params_end params.now) }
{
    append_words(text, params)?;
    text.push(b'\n')
}

fn append_words(text: &mut Text, params: &[Scalar]) -> Result<(), OutOfMemory>
    ensures { OnOk result (text.new ≡ text.old ++ spaced_names (map scalar_word params.now)) }
{
    for param in params {
        text.push(b' ')?;
        text.append(scalar_word(*param))?;
    }
    Ok(())
}

fn result_word(scalar: Option<Scalar>) -> &'static [u8]
    ensures { result.now ≡ result_word scalar }
{
    match scalar {
        None => b"void",
        Some(scalar) => scalar_word(scalar),
    }
}

fn scalar_word(scalar: Scalar) -> &'static [u8]
    ensures { result.now ≡ scalar_word scalar }
{
    match scalar {
        Scalar::Int => b"int",
        Scalar::Unsigned => b"unsigned",
    }
}
