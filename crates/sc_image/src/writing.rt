ghost use Rattle.sc_image.specs.Prelude.{FitsItsFields, comp_bytes, export_bytes, exports_bytes, flags, image_bytes};
ghost use Rattle.std.specs.Prelude.{◌≡◌, ◌^◌, ◌<◌, ◌++◌, length, flat_map, All, IfOk, OnOk};

use crate::image::LATEST_VERSION;
use crate::{CompPart, ExportPart, Image};
use sc_base::{OutOfMemory, Text};
use sc_fields::{append_code, append_globals, append_imports, append_name, append_u16, append_u32};
use std::alloc::Global;

/// The bytes of the image.
pub fn write_image(alloc: Global, image: &Image) -> Result<Text, OutOfMemory>
    ensures { IfOk result (λ text. text ≡ image_bytes image.now) }
{
    let parts = image.parts();
    let comps = parts.comps.as_slice();
    let mut text = Text::new(alloc);
    text.append(b"SCIM")?;
    append_u16(&mut text, LATEST_VERSION)?;
    text.push(comps.len() as u8)?;
    text.push(parts.main.number())?;
    append_u32(&mut text, parts.entry)?;
    append_comps(&mut text, comps)?;
    Ok(text)
}

fn append_comps(text: &mut Text, comps: &[CompPart]) -> Result<(), OutOfMemory>
    requires { All FitsItsFields comps.now }
    ensures { OnOk result (text.new ≡ text.old ++ flat_map comp_bytes comps.now) }
{
    for comp in comps {
        append_comp(text, comp)?;
    }
    Ok(())
}

fn append_comp(text: &mut Text, comp: &CompPart) -> Result<(), OutOfMemory>
    requires { FitsItsFields comp.now }
    ensures { OnOk result (text.new ≡ text.old ++ comp_bytes comp.now) }
{
    append_name(text, &comp.name)?;
    text.push(flags(comp))?;
    append_exports(text, comp.exports.as_slice())?;
    append_imports(text, comp.imports.as_slice())?;
    append_code(text, comp.code.as_slice())?;
    append_globals(text, comp.globals.as_bytes())
}

fn flags(comp: &CompPart) -> u8
    ensures { result ≡ flags comp.now }
{
    u8::from(comp.input) + 2 * u8::from(comp.output) + 4 * u8::from(comp.heap)
}

fn append_exports(text: &mut Text, exports: &[ExportPart]) -> Result<(), OutOfMemory>
    requires { length exports.now < 2 ^ 16 }
    ensures { OnOk result (text.new ≡ text.old ++ exports_bytes exports.now) }
{
    append_u16(text, exports.len() as u16)?;
    for export in exports {
        append_export(text, export)?;
    }
    Ok(())
}

fn append_export(text: &mut Text, export: &ExportPart) -> Result<(), OutOfMemory>
    ensures { OnOk result (text.new ≡ text.old ++ export_bytes export.now) }
{
    append_name(text, &export.name)?;
    text.push(export.params)?;
    text.push(u8::from(export.result))?;
    append_u32(text, export.entry)
}
