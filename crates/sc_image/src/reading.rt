//! Images read from their bytes. After the public functions, each function takes a field from the start of the bytes
//! that are left.

ghost use Rattle.sc_image.specs.Prelude.{AreBytesOf, BeginWith, bad, bad_part, image_at, image_in, most_flags};
ghost use Rattle.sc_image.specs.Prelude.{parts_at, read_comp, read_exports};
ghost use Rattle.sc_image.specs.Prelude.{version_at};
ghost use Rattle.sc_fields.specs.Prelude.{Gives, fields_at, number_that};
ghost use Rattle.sc_base.specs.Prelude.{is_between, most_compartments};
ghost use Rattle.std.specs.Prelude.{◌≡◌, ◌≤◌, None, Some, IfOk, OnOk, IsErrOf};
ghost use Rattle.sc_image.specs.Reading.{read_export};
ghost use Rattle.sc_image.specs.declared.fault.BadImage.TheVariants.{Count};
ghost use Rattle.sc_image.specs.declared.fault.ImageFault.TheVariants.{Bad};

use crate::image::LATEST_VERSION;
use crate::layout::{MOST_GLOBALS, STRETCH};
use crate::rules::keeps_rules;
use crate::{
    BadImage, CompPart, CompParts, ExportPart, ExportParts, Image, ImageFault, ImageParts,
};
use sc_event::CompId;
use sc_fields::{
    FieldFault, code_at, comp_id_at, comp_name_at, globals_at, imports_at, mark_at, name_at, u8_at,
    u8_up_to, u16_at, u16_up_to, u32_at,
};
use std::alloc::Global;

/// Why a field of an image was not read.
type BadField = FieldFault<BadImage>;

/// The most exports of a compartment.
const MOST_EXPORTS: u16 = 4096;

/// The most parameters of an export.
const MOST_PARAMS: u8 = 8;

/// The image that the bytes are, or why they are none: the cause of the first field, in the order of the file, that is
/// missing, incomplete or bad. A file that isn't at fault is read unless memory runs out.
pub fn read_image(alloc: Global, bytes: &[u8]) -> Result<Image, ImageFault>
    ensures image { IfOk result (λ image. AreBytesOf image bytes.now) }
    ensures good { OnOk result (bad bytes.now ≡ None) }
    ensures bad { (cause : BadImage) → IsErrOf result (Bad cause) → bad bytes.now ≡ Some cause }
{
    let parts = image_of(alloc, bytes)?;
    Ok(Image::new(parts))
}

/// The image with which the bytes begin and the place after it, or why they begin with none: the cause of the first
/// field, in the order of the file, that is missing, incomplete or bad. The bytes after the image are not looked at.
pub fn read_image_part(alloc: Global, bytes: &[u8]) -> Result<(Image, usize), ImageFault>
    ensures image { IfOk result (λ read. BeginWith read.0 read.1 bytes.now) }
    ensures good { OnOk result (bad_part bytes.now ≡ None) }
    ensures bad { (cause : BadImage) → IsErrOf result (Bad cause) → bad_part bytes.now ≡ Some cause }
{
    let mut rest = bytes;
    let parts = image_at(alloc, &mut rest)?;
    let place = bytes.len() - rest.len();
    Ok((Image::new(parts), place))
}

#[tactic(auto, unfolding(crate::specs::Reading::image_in))]
fn image_of(alloc: Global, bytes: &[u8]) -> Result<ImageParts, BadField>
    ensures { Gives (λ parts. parts) result (image_in bytes.now) }
{
    let mut rest = bytes;
    let parts = image_at(alloc, &mut rest)?;
    if !rest.is_empty() {
        return Err(BadField::Bad(BadImage::Whole));
    }
    Ok(parts)
}

#[tactic(auto, unfolding(crate::specs::Reading::image_at))]
fn image_at(alloc: Global, bytes: &mut &[u8]) -> Result<ImageParts, BadField>
    ensures { Gives (λ x. (x, bytes.new.now)) result (image_at bytes.old.now) }
{
    mark_at(BadImage::Mark, b"SCIM", bytes)?;
    let version = version_at(bytes)?;
    let parts = parts_at(alloc, version, bytes)?;
    let keeps = keeps_rules(alloc, &parts)?;
    if !keeps {
        return Err(BadField::Bad(BadImage::Whole));
    }
    Ok(parts)
}

#[tactic(auto, unfolding(crate::specs::Reading::parts_at))]
fn parts_at(alloc: Global, version: u16, bytes: &mut &[u8]) -> Result<ImageParts, BadField>
    ensures { Gives (λ x. (x, bytes.new.now)) result (parts_at version bytes.old.now) }
{
    let count = count_at(bytes)?;
    let main = comp_id_at(BadImage::Start, count, bytes)?;
    let entry = u32_at(BadImage::Start, bytes)?;
    let comps = comps_at(alloc, version, count, bytes)?;
    Ok(ImageParts { main, entry, comps })
}

fn version_at(bytes: &mut &[u8]) -> Result<u16, BadField>
    ensures { Gives (λ x. (x, bytes.new.now)) result (version_at bytes.old.now) }
{
    let version = u16_at(BadImage::Version, bytes)?;
    if version < 1 || version > LATEST_VERSION {
        return Err(BadField::Bad(BadImage::Version));
    }
    Ok(version)
}

fn count_at(bytes: &mut &[u8]) -> Result<u8, BadField>
    ensures count { Gives (λ x. (x, bytes.new.now)) result
        (number_that (is_between 1 most_compartments) Count 1 bytes.old.now) }
    ensures within { IfOk result (λ count. count ≤ most_compartments) }
{
    let count = u8_at(BadImage::Count, bytes)?;
    if count < 1 || count > CompId::LIMIT {
        return Err(BadField::Bad(BadImage::Count));
    }
    Ok(count)
}

fn comps_at(
    alloc: Global,
    version: u16,
    count: u8,
    bytes: &mut &[u8],
) -> Result<CompParts, BadField>
    requires { count ≤ most_compartments }
    ensures { Gives (λ x. (x, bytes.new.now)) result (fields_at (read_comp version count) count bytes.old.now) }
{
    let mut comps = CompParts::new(alloc);
    for _ in 0..count {
        let comp = comp_at(alloc, version, count, bytes)?;
        comps.push(comp)?;
    }
    Ok(comps)
}

// The greatest flags of a compartment.
fn most_flags(version: u16) -> u8
    ensures { result ≡ most_flags version }
{
    if version == 1 { 3 } else { 7 }
}

#[tactic(auto, unfolding(crate::specs::Reading::read_comp))]
fn comp_at(alloc: Global, version: u16, comps: u8, bytes: &mut &[u8]) -> Result<CompPart, BadField>
    requires { comps ≤ most_compartments }
    ensures { Gives (λ x. (x, bytes.new.now)) result (read_comp version comps bytes.old.now) }
{
    let name = comp_name_at(BadImage::Compartment, bytes)?;
    let flags = u8_up_to(BadImage::Compartment, most_flags(version), bytes)?;
    let exports = exports_at(alloc, bytes)?;
    let imports = imports_at(alloc, BadImage::Imports, comps, bytes)?;
    let code = code_at(alloc, BadImage::Contents, STRETCH, bytes)?;
    let globals = globals_at(alloc, BadImage::Contents, MOST_GLOBALS, bytes)?;
    Ok(CompPart {
        name,
        input: flags % 2 == 1,
        output: flags / 2 % 2 == 1,
        heap: flags / 4 == 1,
        exports,
        imports,
        code,
        globals,
    })
}

#[tactic(auto, unfolding(crate::specs::Reading::read_exports))]
fn exports_at(alloc: Global, bytes: &mut &[u8]) -> Result<ExportParts, BadField>
    ensures { Gives (λ x. (x, bytes.new.now)) result (read_exports bytes.old.now) }
{
    let count = u16_up_to(BadImage::Exports, MOST_EXPORTS, bytes)?;
    several_exports(alloc, count, bytes)
}

fn several_exports(alloc: Global, count: u16, bytes: &mut &[u8]) -> Result<ExportParts, BadField>
    ensures { Gives (λ x. (x, bytes.new.now)) result (fields_at read_export count bytes.old.now) }
{
    let mut exports = ExportParts::new(alloc);
    for _ in 0..count {
        let export = export_at(bytes)?;
        exports.push(export)?;
    }
    Ok(exports)
}

#[tactic(auto, unfolding(crate::specs::Reading::read_export))]
fn export_at(bytes: &mut &[u8]) -> Result<ExportPart, BadField>
    ensures { Gives (λ x. (x, bytes.new.now)) result (read_export bytes.old.now) }
{
    let name = name_at(BadImage::Exports, bytes)?;
    let params = u8_up_to(BadImage::Exports, MOST_PARAMS, bytes)?;
    let result = u8_up_to(BadImage::Exports, 1, bytes)?;
    let entry = u32_at(BadImage::Exports, bytes)?;
    Ok(ExportPart {
        name,
        params,
        result: result == 1,
        entry,
    })
}
