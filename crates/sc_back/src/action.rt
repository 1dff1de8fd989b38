//! The statements that perform actions.

ghost use Rattle.sc_back.specs.Prelude.{action_text, after_comma, call_text, joined, return_text, value_text};
ghost use Rattle.sc_back.specs.Prelude.{value_texts};
ghost use Rattle.std.specs.Prelude.{◌≡◌, ◌++◌, ◌∷◌, [], None, codes, flat_map, OnOk};
ghost use Rattle.sc_event.specs.declared.interface.Scalar.TheVariants as scalar;

use itoa::Buffer;
use sc_base::{OutOfMemory, Text};
use sc_event::{Action, Interfaces, Proto, Scalar};

/// A word as an expression of its type.
pub fn append_value(text: &mut Text, ty: Scalar, word: u32) -> Result<(), OutOfMemory>
    ensures { OnOk result (text.new ≡ text.old ++ value_text ty word) }
{
    match ty {
        Scalar::Int => append_int(text, word),
        Scalar::Unsigned => append_unsigned(text, word),
    }
}

fn append_int(text: &mut Text, word: u32) -> Result<(), OutOfMemory>
    ensures { OnOk result (text.new ≡ text.old ++ value_text scalar.Int word) }
{
    if word == 2_147_483_648 {
        text.append(b"-2147483647 - 1")
    } else {
        text.append_signed(word)
    }
}

fn append_unsigned(text: &mut Text, word: u32) -> Result<(), OutOfMemory>
    ensures { OnOk result (text.new ≡ text.old ++ value_text scalar.Unsigned word) }
{
    let mut buffer = Buffer::new();
    text.append(buffer.format(word).as_bytes())?;
    text.push(b'u')
}

fn append_next_value(text: &mut Text, ty: Scalar, word: u32) -> Result<(), OutOfMemory>
    ensures { OnOk result (text.new ≡ text.old ++ after_comma (value_text ty word)) }
{
    text.append(b", ")?;
    append_value(text, ty, word)
}

// Values after the first.
fn append_more_values(text: &mut Text, types: &[Scalar], words: &[u32]) -> Result<(), OutOfMemory>
    ensures { OnOk result (text.new ≡ text.old ++ flat_map after_comma (value_texts types.now words.now)) }
{
    let [ty, types @ ..] = types else {
        return text.append(b"");
    };
    let [word, words @ ..] = words else {
        return text.append(b"");
    };
    append_next_value(text, *ty, *word)?;
    append_more_values(text, types, words)
}

fn append_values(text: &mut Text, types: &[Scalar], words: &[u32]) -> Result<(), OutOfMemory>
    ensures { OnOk result (text.new ≡ text.old ++ joined (value_texts types.now words.now)) }
{
    let [ty, types @ ..] = types else {
        return text.append(b"");
    };
    let [word, words @ ..] = words else {
        return text.append(b"");
    };
    append_value(text, *ty, *word)?;
    append_more_values(text, types, words)
}

fn append_call(
    text: &mut Text,
    name: &[u8],
    params: &[Scalar],
    args: &[u32],
) -> Result<(), OutOfMemory>
    ensures { OnOk result (text.new ≡ text.old ++ call_text args.now (record {
      name = name.now;
      params = params.now;
      result = None;
    })) }
{
    text.append(name)?;
    text.push(b'(')?;
    append_values(text, params, args)?;
    text.append(b");")
}

fn append_return(text: &mut Text, ty: Option<Scalar>, word: Option<u32>) -> Result<(), OutOfMemory>
    ensures { OnOk result (text.new ≡ text.old ++ return_text ty word) }
{
    let (Some(ty), Some(word)) = (ty, word) else {
        return text.append(b"return;");
    };
    text.append(b"return ")?;
    append_value(text, ty, word)?;
    text.push(b';')
}

/// An action of a function with this result.
pub fn append_action(
    text: &mut Text,
    interfaces: &Interfaces,
    promised: Option<Scalar>,
    action: &Action,
) -> Result<(), OutOfMemory>
    ensures { OnOk result (text.new ≡ text.old ++ action_text interfaces.now promised action.now) }
{
    match action {
        Action::Call { to, index, args } => match interfaces.export(*to, *index) {
            None => text.append(b""),
            Some(f) => append_call(
                text,
                f.name.as_bytes(),
                f.params.as_slice(),
                args.as_slice(),
            ),
        },
        Action::Ret(word) => append_return(text, promised, *word),
        Action::Out(word) => append_call(text, b"output", &[Scalar::Int], &[*word]),
        Action::In(_) => append_call(text, b"input", &[], &[]),
        Action::End(word) => append_return(text, Some(Scalar::Int), Some(*word)),
    }
}
