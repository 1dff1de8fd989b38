ghost use Rattle.std.specs.Prelude.{◌≡◌, ◌≤◌, ℕ, IfOk, IfErr, IsErrOf, Some, None};
ghost use Rattle.sc_edge.specs.Edge.{Rose};
ghost use Rattle.sc_top.specs.declared.input.ReadFault.TheVariants as faults;
ghost use Rattle.sc_top.specs.Answer.{IsWhole, IsInput};
ghost use Rattle.sc_top.specs.Command.{limit_of};
ghost use Rattle.sc_top.specs.Failure.{IsInputCause};
ghost use Rattle.sc_top.specs.Fetching.{Fetches};

use crate::command::limit;
use crate::failure::Failure;
use sc_base::{OutOfMemory, Text};
use sc_edge::Source;
use sc_top_words::Command;
use std::alloc::Global;

// As many bytes as one read asks for at most.
const PIECE: usize = 4096;

/// Why the input couldn't be read.
#[derive(Clone, Copy, Debug, PartialEq, Eq)]
pub(crate) enum ReadFault {
    Source,
    Memory,
}

impl From<OutOfMemory> for ReadFault {
    ghost from_gives = { λ _ fault. fault ≡ faults.Memory };

    fn from(_: OutOfMemory) -> ReadFault {
        ReadFault::Memory
    }
}

/// Reads to the end, or until more bytes than the limit came.
#[tactic(auto, using(crate::proofs::Streams::reading))]
pub(crate) fn read_text<S: Source>(
    alloc: Global,
    source: &mut S,
    limit: u32,
) -> Result<Text, ReadFault>
    ensures bytes { IfOk result (λ text. Fetches limit (S.left source.old) (S.left source.new) text) }
    ensures fault { IsErrOf result ReadFault.Source → Rose (S.faults source.old) (S.faults source.new) }
    ensures faults { S.faults source.old ≤ S.faults source.new }
{
    let most = limit as usize + 1;
    let mut text = Text::new(alloc);
    let mut piece = [0; PIECE];
    while text.as_bytes().len() < most {
        let room = PIECE.min(most - text.as_bytes().len());
        let taken = source
            .read(&mut piece[..room])
            .map_err(|_| ReadFault::Source)?;
        if taken == 0 {
            return Ok(text);
        }
        text.append(&piece[..taken])?;
    }
    Ok(text)
}

/// Reads the whole of the input, which is refused where more bytes came than the limit.
fn read_whole<S: Source>(alloc: Global, source: &mut S, limit: u32) -> Result<Text, Failure>
    ensures whole { IfOk result (IsWhole limit (S.left source.old) (S.left source.new)) }
    ensures cause { IfErr result
        (IsInputCause (Some limit) (S.left source.old) (S.left source.new)
        (S.faults source.old) (S.faults source.new)) }
{
    let text = read_text(alloc, source, limit)?;
    if text.as_bytes().len() > limit as usize {
        return Err(Failure::TooLong { limit });
    }
    Ok(text)
}

/// Reads the whole input of a command, which is empty where it reads nothing.
pub(crate) fn read_input<S: Source>(
    alloc: Global,
    command: &Command,
    source: &mut S,
) -> Result<Text, Failure>
    ensures input { IfOk result (IsInput (limit_of command.now) (S.left source.old) (S.left source.new)) }
    ensures cause { IfErr result
        (IsInputCause (limit_of command.now) (S.left source.old) (S.left source.new)
        (S.faults source.old) (S.faults source.new)) }
    ensures unread { limit_of command.now ≡ None → source.new ≡ source.old }
{
    match limit(command) {
        Some(limit) => read_whole(alloc, source, limit),
        None => Ok(Text::new(alloc)),
    }
}
