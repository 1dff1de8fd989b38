ghost use Rattle.sc_top_words.specs.Prelude.{IsArgumentOf, IsCommandOf, app_of, application, explain_form, flag_rule};
ghost use Rattle.sc_top_words.specs.Prelude.{judge_form, make_form, object_form, top, valued_rule, with_values};
ghost use Rattle.std.specs.Prelude.{◌≡◌, ◌∷◌, [], codes, true, false, IfOk};

use clap::{Arg, ArgAction, Command};
use std::alloc::{AllocError, Global};

/// The commands and their options, for the parse.
pub(crate) fn application<'a>(alloc: Global) -> Result<Command<'a>, AllocError>
    ensures { IfOk result (λ secomp. app_of secomp ≡ application) }
{
    top(alloc)
        .subcommand(Command::new(alloc, "check"))?
        .subcommand(running(alloc, "meaning", "turns")?)?
        .subcommand(Command::new(alloc, "compile"))?
        .subcommand(object(alloc)?)?
        .subcommand(Command::new(alloc, "link"))?
        .subcommand(running(alloc, "run", "steps")?)?
        .subcommand(running(alloc, "exec", "steps")?)?
        .subcommand(tags(alloc)?)?
        .subcommand(explain(alloc)?)?
        .subcommand(judge(alloc)?)?
        .subcommand(make(alloc)?)
}

// Nothing but the words that the product itself knows: no program name before them, no help and no version.
fn top<'a>(alloc: Global) -> Command<'a>
    ensures { app_of result ≡ record { top = top; subs = [] } }
{
    Command::new(alloc, "secomp")
        .no_binary_name(true)
        .disable_help_flag(true)
        .disable_help_subcommand(true)
        .subcommand_required(true)
}

// A command that runs something, up to a limit of this name.
fn running<'a>(alloc: Global, name: &'a str, limit: &'a str) -> Result<Command<'a>, AllocError>
    ensures { IfOk result (IsCommandOf name.entry.now
        (with_values (limit.entry.now ∷ codes "events" ∷ codes "in" ∷ []))) }
{
    Command::new(alloc, name)
        .arg(valued(alloc, limit))?
        .arg(valued(alloc, "events"))?
        .arg(valued(alloc, "in"))
}

fn tags<'a>(alloc: Global) -> Result<Command<'a>, AllocError>
    ensures { IfOk result (IsCommandOf (codes "tags")
        (with_values (codes "steps" ∷ codes "events" ∷ codes "in" ∷ codes "data" ∷ []))) }
{
    running(alloc, "tags", "steps")?.arg(valued(alloc, "data"))
}

fn explain<'a>(alloc: Global) -> Result<Command<'a>, AllocError>
    ensures { IfOk result (IsCommandOf (codes "explain") explain_form) }
{
    running(alloc, "explain", "steps")?
        .arg(valued(alloc, "show"))?
        .arg(flags(alloc, "image"))?
        .arg(flags(alloc, "trapped"))
}

fn judge<'a>(alloc: Global) -> Result<Command<'a>, AllocError>
    ensures { IfOk result (IsCommandOf (codes "judge") judge_form) }
{
    running(alloc, "judge", "steps")?
        .arg(flags(alloc, "image"))?
        .arg(flags(alloc, "trapped"))
}

fn object<'a>(alloc: Global) -> Result<Command<'a>, AllocError>
    ensures { IfOk result (IsCommandOf (codes "object") object_form) }
{
    Command::new(alloc, "object").arg(needed(alloc, "section"))
}

fn make<'a>(alloc: Global) -> Result<Command<'a>, AllocError>
    ensures { IfOk result (IsCommandOf (codes "make") make_form) }
{
    Command::new(alloc, "make")
        .arg(needed(alloc, "size"))?
        .arg(needed(alloc, "seed"))?
        .arg(flags(alloc, "summary"))
}

// An option with a value.
fn valued<'a>(alloc: Global, name: &'a str) -> Arg<'a>
    ensures { IsArgumentOf (valued_rule false name.entry.now) result }
{
    Arg::new(alloc, name).long(name).action(ArgAction::Set)
}

// An option with a value that has to be given.
fn needed<'a>(alloc: Global, name: &'a str) -> Arg<'a>
    ensures { IsArgumentOf (valued_rule true name.entry.now) result }
{
    Arg::new(alloc, name)
        .long(name)
        .action(ArgAction::Set)
        .required(true)
}

// A flag, an option without a value.
fn flags<'a>(alloc: Global, name: &'a str) -> Arg<'a>
    ensures { IsArgumentOf (flag_rule name.entry.now) result }
{
    Arg::new(alloc, name).long(name).action(ArgAction::SetTrue)
}
