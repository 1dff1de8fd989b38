ghost use Rattle.sc_top_words.specs.Prelude.{IsReading, command, is_bare, kind_of, parsed};
ghost use Rattle.std.specs.Prelude.{◌≡◌, ◌≢◌, Some, None, IfOk, IsErrOf, map};
ghost use Rattle.std.specs.List.{list_any};
ghost use Rattle.std.specs.String.{string_bytes};
ghost use Rattle.clap.specs.declared.error.kind.ErrorKind.TheVariants as kind;

use crate::application::application;
use crate::values::command_with;
use crate::{Command, WordsFault};
use clap::error::ErrorKind;
use clap::{ArgMatches, Error};
use std::alloc::Global;

/// The command that the words are, without the program's own name before them. Where memory runs out, that is the
/// answer whatever the words are.
#[tactic(auto, unfolding(crate::specs::Words::command))]
pub fn read_command(alloc: Global, words: &[String]) -> Result<Command, WordsFault>
    ensures ok { IfOk result (λ read. command (map string_bytes words.now) ≡ Some read) }
    ensures usage { IsErrOf result WordsFault.Usage → command (map string_bytes words.now) ≡ None }
{
    let matches = parse(alloc, words)?;
    let Some((name, options)) = matches.subcommand() else {
        return Err(WordsFault::Usage);
    };
    command_with(alloc, name, options)
}

// The options by their names, apart from what their values mean.
fn parse<'a>(alloc: Global, words: &'a [String]) -> Result<ArgMatches<'a>, WordsFault>
    ensures ok { IfOk result (IsReading (map string_bytes words.entry.now)) }
    ensures usage { IsErrOf result WordsFault.Usage → parsed (map string_bytes words.entry.now) ≡ None }
{
    if has_bare(words) {
        return Err(WordsFault::Usage);
    }
    let application = application(alloc)?;
    match application.try_get_matches_from(words) {
        Ok(matches) => Ok(matches),
        Err(error) => Err(fault_of(&error)),
    }
}

fn has_bare(words: &[String]) -> bool
    ensures { result ≡ list_any (λ word. is_bare (string_bytes word)) words.now }
{
    words.iter().any(|word| is_bare(word.as_str()))
}

// Whether the word begins with a hyphen and names no option: `-`, `--` or one hyphen before something else.
fn is_bare(word: &str) -> bool
    ensures { result ≡ is_bare word.now }
{
    let bytes = word.as_bytes();
    bytes.starts_with(b"-") && (!bytes.starts_with(b"--") || bytes.len() == 2)
}

fn fault_of(error: &Error) -> WordsFault
    ensures usage { result ≡ WordsFault.Usage → kind_of error.now ≢ kind.OutOfMemory }
    ensures memory { result ≡ WordsFault.OutOfMemory → kind_of error.now ≡ kind.OutOfMemory }
{
    match error.kind() {
        ErrorKind::OutOfMemory => WordsFault::OutOfMemory,
        _ => WordsFault::Usage,
    }
}
