// The objects that tests link.
use sc_base::Text;
use sc_compile::compile;
use sc_event::CompId;
use sc_image::write_image;
use sc_object::{object, write_object};
use sc_types::SourceText;
use std::alloc::Global;
use std::test::Fail;

/// A program of two sections, whose `put` is blamed where its index is 4.
pub const STORE: &[u8] = b"#pragma compartment Main
#pragma import Net put
#pragma import Env output
int put(int i, int v);
void output(int v);
int main(void) {
  int r;
  r = put(4, 9);
  output(r);
  return 0;
}
#pragma compartment Net
#pragma export put
int buf[4];
int key;
int put(int i, int v) {
  buf[i] = v;
  return key;
}
";

/// The same, with a `put` that keeps to its array.
pub const MENDED: &[u8] = b"#pragma compartment Main
#pragma import Net put
#pragma import Env output
int put(int i, int v);
void output(int v);
int main(void) {
  int r;
  r = put(4, 9);
  output(r);
  return 0;
}
#pragma compartment Net
#pragma export put
int buf[4];
int key;
int put(int i, int v) {
  buf[i & 3] = v;
  return key;
}
";

/// The same again, where another section has another name.
pub const RENAMED: &[u8] = b"#pragma compartment Main
#pragma import Web put
#pragma import Env output
int put(int i, int v);
void output(int v);
int main(void) {
  int r;
  r = put(4, 9);
  output(r);
  return 0;
}
#pragma compartment Web
#pragma export put
int put(int i, int v) {
  return v;
}
";

/// The bytes of the object of a section, none where there is none of this number.
pub fn object_bytes(alloc: Global, text: &[u8], number: u8) -> Result<Text, Fail> {
    let source = SourceText::read(alloc, text)?;
    let program = source.program();
    match CompId::new(number) {
        Some(comp) if usize::from(number) < program.interfaces().comps.len() => {
            let object = object(alloc, program, comp)?;
            Ok(write_object(alloc, &object)?)
        }
        _ => Ok(Text::new(alloc)),
    }
}

/// The bytes of the image of a text.
pub fn image_bytes(alloc: Global, text: &[u8]) -> Result<Text, Fail> {
    let source = SourceText::read(alloc, text)?;
    let image = compile(alloc, source.program())?;
    Ok(write_image(alloc, &image)?)
}
