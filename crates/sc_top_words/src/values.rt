ghost use Rattle.sc_base.specs.Prelude.{Text};
ghost use Rattle.sc_top_words.specs.Prelude.{HasAccountFlags, HasFlags, IsFlag, command_with, data_range, events};
ghost use Rattle.sc_top_words.specs.Prelude.{explain, flag_text, found_of, inputs, judge, limit, make};
ghost use Rattle.sc_top_words.specs.Prelude.{meaning_options, number_within, object, run_options, section, section_name};
ghost use Rattle.sc_top_words.specs.Prelude.{tags, text_to_show};
ghost use Rattle.std.specs.Prelude.{◌≡◌, Bool, Some, None, IfOk, IsErrOf, codes, option_and_then, option_map};
ghost use Rattle.clap.specs.Words.{first_value, one_text};

use crate::numbers::{read_list, read_number};
use crate::ranges::read_range;
use crate::{
    Command, DataRange, ExplainOptions, JudgeOptions, MakeOptions, MeaningOptions, ObjectOptions,
    RunOptions, WordsFault,
};
use clap::ArgMatches;
use sc_base::Name;
use sqlite_items::Items;
use std::alloc::Global;

/// How many steps or turns a run has at most.
const MOST_STEPS: u32 = 16_777_216;

/// How many events a run emits at most.
const MOST_EVENTS: u32 = 4_096;

/// The command of this name with these options.
pub(crate) fn command_with(
    alloc: Global,
    name: &str,
    options: &ArgMatches<'_>,
) -> Result<Command, WordsFault>
    ensures ok { (flag : Text → Bool) → HasFlags name.now (found_of options.now) flag
        → IfOk result (λ read. command_with name.now (first_value (found_of options.now)) flag ≡ Some read) }
    ensures usage { (flag : Text → Bool) → HasFlags name.now (found_of options.now) flag
        → IsErrOf result WordsFault.Usage → command_with name.now (first_value (found_of options.now)) flag ≡ None }
{
    if name == "check" {
        Ok(Command::Check)
    } else if name == "meaning" {
        meaning(alloc, options)
    } else if name == "compile" {
        Ok(Command::Compile)
    } else if name == "object" {
        object(options)
    } else if name == "link" {
        Ok(Command::Link)
    } else if name == "run" {
        Ok(Command::Run(run_options(alloc, options)?))
    } else if name == "exec" {
        Ok(Command::Exec(run_options(alloc, options)?))
    } else if name == "tags" {
        tags(alloc, options)
    } else if name == "explain" {
        explain(alloc, options)
    } else if name == "judge" {
        judge(alloc, options)
    } else if name == "make" {
        make(options)
    } else {
        Err(WordsFault::Usage)
    }
}

fn meaning(alloc: Global, options: &ArgMatches<'_>) -> Result<Command, WordsFault>
    ensures ok { IfOk result (λ read. option_map Command.Meaning
        (meaning_options (first_value (found_of options.now))) ≡ Some read) }
    ensures usage { IsErrOf result WordsFault.Usage → meaning_options (first_value (found_of options.now)) ≡ None }
{
    let turns = limit(options, "turns").ok_or(WordsFault::Usage)?;
    let events = events(options).ok_or(WordsFault::Usage)?;
    let inputs = inputs(alloc, options)?;
    Ok(Command::Meaning(MeaningOptions {
        turns,
        events,
        inputs,
    }))
}

fn run_options(alloc: Global, options: &ArgMatches<'_>) -> Result<RunOptions, WordsFault>
    ensures ok { IfOk result (λ read. run_options (first_value (found_of options.now)) ≡ Some read) }
    ensures usage { IsErrOf result WordsFault.Usage → run_options (first_value (found_of options.now)) ≡ None }
{
    let steps = limit(options, "steps").ok_or(WordsFault::Usage)?;
    let events = events(options).ok_or(WordsFault::Usage)?;
    let inputs = inputs(alloc, options)?;
    Ok(RunOptions {
        steps,
        events,
        inputs,
    })
}

fn tags(alloc: Global, options: &ArgMatches<'_>) -> Result<Command, WordsFault>
    ensures ok { IfOk result (λ read. tags (first_value (found_of options.now)) ≡ Some read) }
    ensures usage { IsErrOf result WordsFault.Usage → tags (first_value (found_of options.now)) ≡ None }
{
    let run = run_options(alloc, options)?;
    let range = data_range(options).ok_or(WordsFault::Usage)?;
    Ok(Command::Tags(run, range))
}

fn explain(alloc: Global, options: &ArgMatches<'_>) -> Result<Command, WordsFault>
    ensures ok { (flag : Text → Bool) → HasAccountFlags (found_of options.now) flag
        → IfOk result (λ read. option_map Command.Explain (explain (first_value (found_of options.now)) flag) ≡
        Some read) }
    ensures usage { (flag : Text → Bool) → IsErrOf result WordsFault.Usage
        → explain (first_value (found_of options.now)) flag ≡ None }
{
    let run = run_options(alloc, options)?;
    let image = is_set(options, "image");
    let trapped = is_set(options, "trapped");
    let show = text_to_show(options).ok_or(WordsFault::Usage)?;
    Ok(Command::Explain(ExplainOptions {
        run,
        image,
        trapped,
        show,
    }))
}

fn judge(alloc: Global, options: &ArgMatches<'_>) -> Result<Command, WordsFault>
    ensures ok { (flag : Text → Bool) → HasAccountFlags (found_of options.now) flag
        → IfOk result (λ read. option_map Command.Judge (judge (first_value (found_of options.now)) flag) ≡
        Some read) }
    ensures usage { (flag : Text → Bool) → IsErrOf result WordsFault.Usage
        → judge (first_value (found_of options.now)) flag ≡ None }
{
    let run = run_options(alloc, options)?;
    let image = is_set(options, "image");
    let trapped = is_set(options, "trapped");
    Ok(Command::Judge(JudgeOptions {
        run,
        image,
        trapped,
    }))
}

fn object(options: &ArgMatches<'_>) -> Result<Command, WordsFault>
    ensures ok { IfOk result (λ read. option_map Command.Object
        (object (first_value (found_of options.now))) ≡ Some read) }
    ensures usage { IsErrOf result WordsFault.Usage → object (first_value (found_of options.now)) ≡ None }
{
    let section = section(options).ok_or(WordsFault::Usage)?;
    Ok(Command::Object(ObjectOptions { section }))
}

fn make(options: &ArgMatches<'_>) -> Result<Command, WordsFault>
    ensures ok { (flag : Text → Bool) → IsFlag (found_of options.now) flag (codes "summary")
        → IfOk result (λ read. option_map Command.Make (make (first_value (found_of options.now)) flag) ≡ Some read) }
    ensures usage { (flag : Text → Bool) → IsErrOf result WordsFault.Usage
        → make (first_value (found_of options.now)) flag ≡ None }
{
    let size = number_of(options, "size", 1, 1_000).ok_or(WordsFault::Usage)?;
    let seed = number_of(options, "seed", 0, u32::MAX).ok_or(WordsFault::Usage)?;
    let summary = is_set(options, "summary");
    Ok(Command::Make(MakeOptions {
        size,
        seed,
        summary,
    }))
}

// Whether the flag is given.
fn is_set(options: &ArgMatches<'_>, name: &str) -> bool
    ensures { (given : Bool) → one_text (found_of options.now) name.now ≡ Some (flag_text given) → result ≡ given }
{
    options.get_flag(name)
}

fn number_of(options: &ArgMatches<'_>, name: &str, low: u32, high: u32) -> Option<u32>
    ensures { result ≡ option_and_then (number_within low high) (first_value (found_of options.now) name.now) }
{
    match options.get_str(name) {
        None => None,
        Some(text) => read_number(text, low, high),
    }
}

// The name of a section.
fn section(options: &ArgMatches<'_>) -> Option<Name>
    ensures { result ≡ section (first_value (found_of options.now)) }
{
    match options.get_str("section") {
        None => None,
        Some(text) => section_name(text),
    }
}

// The text as a name that a section may have: `Env` is the environment's.
fn section_name(text: &str) -> Option<Name>
    ensures { result ≡ section_name text.now }
{
    if text == "Env" {
        None
    } else {
        Name::new(text.as_bytes())
    }
}

// How many steps or turns a run has at most.
fn limit(options: &ArgMatches<'_>, name: &str) -> Option<u32>
    ensures { result ≡ limit (first_value (found_of options.now) name.now) }
{
    match options.get_str(name) {
        None => Some(1_000_000),
        Some(text) => read_number(text, 0, MOST_STEPS),
    }
}

// How many events a run emits at most.
fn events(options: &ArgMatches<'_>) -> Option<u32>
    ensures { result ≡ events (first_value (found_of options.now) (codes "events")) }
{
    match options.get_str("events") {
        None => Some(1_024),
        Some(text) => read_number(text, 0, MOST_EVENTS),
    }
}

fn inputs(alloc: Global, options: &ArgMatches<'_>) -> Result<Items<i32>, WordsFault>
    ensures ok { IfOk result (λ list. inputs (first_value (found_of options.now) (codes "in")) ≡ Some list) }
    ensures usage { IsErrOf result WordsFault.Usage → inputs (first_value (found_of options.now) (codes "in")) ≡ None }
{
    match options.get_str("in") {
        None => Ok(Items::new(alloc)),
        Some(text) => read_list(alloc, text),
    }
}

// Which text of the chain is printed, if the option is given.
fn text_to_show(options: &ArgMatches<'_>) -> Option<Option<u32>>
    ensures { result ≡ text_to_show (first_value (found_of options.now) (codes "show")) }
{
    match options.get_str("show") {
        None => Some(None),
        Some(text) => read_number(text, 0, 32).map(Some),
    }
}

// Which bytes are tagged as data, if the option is given.
fn data_range(options: &ArgMatches<'_>) -> Option<Option<DataRange>>
    ensures { result ≡ data_range (first_value (found_of options.now) (codes "data")) }
{
    match options.get_str("data") {
        None => Some(None),
        Some(text) => read_range(text).map(Some),
    }
}
