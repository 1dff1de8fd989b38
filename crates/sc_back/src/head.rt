//! Heads of functions.

ghost use Rattle.sc_back.specs.Prelude.{after_comma, head_text, param_text, param_texts, params_text, result_text};
ghost use Rattle.sc_back.specs.Prelude.{type_text};
ghost use Rattle.std.specs.Prelude.{◌≡◌, ◌++◌, ◌≤◌, suc, codes, flat_map, length, OnOk};

use itoa::Buffer;
use sc_base::{OutOfMemory, Text};
use sc_event::Scalar;

fn type_text(ty: Scalar) -> &'static [u8]
    ensures { result.now ≡ type_text ty }
{
    match ty {
        Scalar::Int => b"int",
        Scalar::Unsigned => b"unsigned int",
    }
}

fn result_text(result_type: Option<Scalar>) -> &'static [u8]
    ensures { result.now ≡ result_text result_type }
{
    match result_type {
        None => b"void",
        Some(ty) => type_text(ty),
    }
}

// A parameter of this number.
fn append_param(text: &mut Text, number: usize, ty: Scalar) -> Result<(), OutOfMemory>
    ensures { OnOk result (text.new ≡ text.old ++ param_text number ty) }
{
    let mut buffer = Buffer::new();
    text.append(type_text(ty))?;
    text.append(b" bt_")?;
    text.append(buffer.format(number).as_bytes())
}

fn append_next_param(text: &mut Text, number: usize, ty: Scalar) -> Result<(), OutOfMemory>
    ensures { OnOk result (text.new ≡ text.old ++ after_comma (param_text number ty)) }
{
    text.append(b", ")?;
    append_param(text, number, ty)
}

// Parameters after the first.
fn append_more_params(text: &mut Text, params: &[Scalar]) -> Result<(), OutOfMemory>
    requires { suc (length params.now) ≤ 8 }
    ensures { OnOk result (text.new ≡ text.old ++ flat_map after_comma (param_texts 1 params.now)) }
{
    for place in 0..params.len() {
        append_next_param(text, place + 1, params[place])?;
    }
    Ok(())
}

fn append_params(text: &mut Text, params: &[Scalar]) -> Result<(), OutOfMemory>
    requires { length params.now ≤ 8 }
    ensures { OnOk result (text.new ≡ text.old ++ params_text params.now) }
{
    let [first, rest @ ..] = params else {
        return text.append(b"void");
    };
    append_param(text, 0, *first)?;
    append_more_params(text, rest)
}

/// A function's head.
pub fn append_head(
    text: &mut Text,
    name: &[u8],
    params: &[Scalar],
    result_type: Option<Scalar>,
) -> Result<(), OutOfMemory>
    requires { length params.now ≤ 8 }
    ensures { OnOk result (text.new ≡ text.old ++ head_text (record {
      name = name.now;
      params = params.now;
      result = result_type;
    })) }
{
    text.append(result_text(result_type))?;
    text.push(b' ')?;
    text.append(name)?;
    text.push(b'(')?;
    append_params(text, params)?;
    text.push(b')')
}
