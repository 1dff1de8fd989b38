//! Whole sections.

ghost use Rattle.sc_back.specs.Prelude.{HasNext, back_text, declarations_text, directives_text, export_text};
ghost use Rattle.sc_back.specs.Prelude.{functions_text, import_line, import_text, main_text, proto_line, proto_text};
ghost use Rattle.sc_back.specs.Prelude.{section_text};
ghost use Rattle.std.specs.Prelude.{◌≡◌, ◌≤◌, ◌++◌, All, codes, flat_map, length, IfOk, OnOk};
ghost use Rattle.std.specs.Option.{option_copied, option_map_or};
ghost use Rattle.sc_event.specs.declared.interface.Import.TheVariants.{Function};

use crate::function::{Performer, append_function};
use crate::head::append_head;
use sc_base::{OutOfMemory, Text};
use sc_event::{CompId, Import, Interface, Interfaces, Proto, Row, Scalar};
use std::alloc::Global;

fn append_export(text: &mut Text, export: &Proto) -> Result<(), OutOfMemory>
    ensures { OnOk result (text.new ≡ text.old ++ export_text export.now) }
{
    text.append(b"#pragma export ")?;
    text.append(export.name.as_bytes())?;
    text.push(b'\n')
}

fn append_exports(text: &mut Text, exports: &[Proto]) -> Result<(), OutOfMemory>
    ensures { OnOk result (text.new ≡ text.old ++ flat_map export_text exports.now) }
{
    for export in exports {
        append_export(text, export)?;
    }
    Ok(())
}

fn append_import_line(text: &mut Text, owner: &[u8], name: &[u8]) -> Result<(), OutOfMemory>
    ensures { OnOk result (text.new ≡ text.old ++ import_line owner.now name.now) }
{
    text.append(b"#pragma import ")?;
    text.append(owner)?;
    text.push(b' ')?;
    text.append(name)?;
    text.push(b'\n')
}

fn append_import(
    text: &mut Text,
    interfaces: &Interfaces,
    import: Import,
) -> Result<(), OutOfMemory>
    ensures { OnOk result (text.new ≡ text.old ++ import_text interfaces.now import) }
{
    match import {
        Import::Input => append_import_line(text, b"Env", b"input"),
        Import::Output => append_import_line(text, b"Env", b"output"),
        Import::Function { comp, index } => match interfaces.export(comp, index) {
            None => text.append(b""),
            Some(f) => append_import_line(text, interfaces.comp_name(comp), f.name.as_bytes()),
        },
    }
}

fn append_imports(
    text: &mut Text,
    interfaces: &Interfaces,
    imports: &[Import],
) -> Result<(), OutOfMemory>
    ensures { OnOk result (text.new ≡ text.old ++ flat_map (import_text interfaces.now) imports.now) }
{
    for import in imports {
        append_import(text, interfaces, *import)?;
    }
    Ok(())
}

fn append_proto_line(
    text: &mut Text,
    name: &[u8],
    params: &[Scalar],
    promised: Option<Scalar>,
) -> Result<(), OutOfMemory>
    requires { length params.now ≤ 8 }
    ensures { OnOk result (text.new ≡ text.old ++ proto_line (record {
      name = name.now;
      params = params.now;
      result = promised;
    })) }
{
    append_head(text, name, params, promised)?;
    text.append(b";\n")
}

fn append_proto(text: &mut Text, interfaces: &Interfaces, import: Import) -> Result<(), OutOfMemory>
    ensures { OnOk result (text.new ≡ text.old ++ proto_text interfaces.now import) }
{
    match import {
        Import::Input => append_proto_line(text, b"input", &[], Some(Scalar::Int)),
        Import::Output => append_proto_line(text, b"output", &[Scalar::Int], None),
        Import::Function { comp, index } => match interfaces.export(comp, index) {
            None => text.append(b""),
            Some(f) => append_proto_line(text, f.name.as_bytes(), f.params.as_slice(), f.result),
        },
    }
}

fn append_protos(
    text: &mut Text,
    interfaces: &Interfaces,
    imports: &[Import],
) -> Result<(), OutOfMemory>
    ensures { OnOk result (text.new ≡ text.old ++ flat_map (proto_text interfaces.now) imports.now) }
{
    for import in imports {
        append_proto(text, interfaces, *import)?;
    }
    Ok(())
}

fn append_functions(
    text: &mut Text,
    interfaces: &Interfaces,
    rows: &[Row],
    exports: &[Proto],
) -> Result<(), OutOfMemory>
    requires { All HasNext rows.now }
    ensures { OnOk result (text.new ≡ text.old ++ functions_text interfaces.now rows.now 0 exports.now) }
{
    for place in 0..exports.len() {
        let export = &exports[place];
        let performer = Performer {
            export: Some(place),
            name: export.name.as_bytes(),
            params: export.params.as_slice(),
            promised: export.result,
        };
        append_function(text, interfaces, rows, &performer)?;
    }
    Ok(())
}

fn append_main(
    text: &mut Text,
    interfaces: &Interfaces,
    comp: CompId,
    rows: &[Row],
) -> Result<(), OutOfMemory>
    requires { All HasNext rows.now }
    ensures { OnOk result (text.new ≡ text.old ++ main_text interfaces.now comp rows.now) }
{
    if comp != interfaces.main {
        return text.append(b"");
    }
    let performer = Performer {
        export: None,
        name: b"main",
        params: &[],
        promised: Some(Scalar::Int),
    };
    append_function(text, interfaces, rows, &performer)
}

fn append_heading(text: &mut Text, name: &[u8]) -> Result<(), OutOfMemory>
    ensures { OnOk result (text.new ≡ text.old ++ (codes "#pragma compartment " ++ (name.now ++ codes "\n"))) }
{
    text.append(b"#pragma compartment ")?;
    text.append(name)?;
    text.push(b'\n')
}

// The compartment line and the directives.
fn append_directives(
    text: &mut Text,
    interfaces: &Interfaces,
    interface: &Interface,
) -> Result<(), OutOfMemory>
    ensures { OnOk result (text.new ≡ text.old ++ directives_text interfaces.now interface.now) }
{
    append_heading(text, interface.name.as_bytes())?;
    append_exports(text, interface.exports.as_slice())?;
    append_imports(text, interfaces, interface.imports.as_slice())?;
    Ok(())
}

// The prototypes, the counter and the functions.
fn append_declarations(
    text: &mut Text,
    interfaces: &Interfaces,
    comp: CompId,
    rows: &[Row],
    interface: &Interface,
) -> Result<(), OutOfMemory>
    requires { All HasNext rows.now }
    ensures { OnOk result (text.new ≡ text.old ++ declarations_text interfaces.now comp rows.now interface.now) }
{
    append_protos(text, interfaces, interface.imports.as_slice())?;
    text.append(b"unsigned int bt_n;\n")?;
    append_functions(text, interfaces, rows, interface.exports.as_slice())?;
    append_main(text, interfaces, comp, rows)?;
    Ok(())
}

fn append_section(
    text: &mut Text,
    interfaces: &Interfaces,
    comp: CompId,
    rows: &[Row],
    interface: &Interface,
) -> Result<(), OutOfMemory>
    requires { All HasNext rows.now }
    ensures { OnOk result (text.new ≡ text.old ++ section_text interfaces.now comp rows.now interface.now) }
{
    append_directives(text, interfaces, interface)?;
    append_declarations(text, interfaces, comp, rows, interface)?;
    Ok(())
}

/// The text of a section by which a compartment performs these rows and nothing else: it tests a counter of its actions
/// before each. Empty where there is no such compartment.
pub fn back_section(
    alloc: Global,
    interfaces: &Interfaces,
    comp: CompId,
    rows: &[Row],
) -> Result<Text, OutOfMemory>
    requires { All HasNext rows.now }
    ensures { IfOk result (λ text. text ≡ back_text interfaces.now comp rows.now) }
{
    let mut text = Text::new(alloc);
    if let Some(interface) = interfaces.comp(comp) {
        append_section(&mut text, interfaces, comp, rows, interface)?;
    }
    Ok(text)
}
