ghost use Rattle.sc_top.specs.Prelude.{Answers, Command, IsBounded, IsOutput, IsOutputCause, IsSilent, IsWithin};
ghost use Rattle.sc_top.specs.Prelude.{Prints, Says, status_by, status_text};
ghost use Rattle.sc_top_words.specs.Prelude.{command};
ghost use Rattle.std.specs.Prelude.{◌≡◌, ◌≢◌, ◌⊎◌, None, Some, map, IfOk, IfErr, IsErrOf};
ghost use Rattle.std.specs.String.{string_bytes};
ghost use Rattle.sc_top.specs.declared.failure.Failure.{Failure};
ghost use Rattle.sc_top.specs.declared.status.Status.{Status};

use crate::Status;
use crate::chain::explain;
use crate::exec::execute;
use crate::failure::Failure;
use crate::input::read_input;
use crate::judge::judge;
use crate::link::link;
use crate::make::make;
use crate::object::object;
use crate::output::write_text;
use crate::printing::print;
use crate::tags::tags;
use crate::text::{check, compiled, meaning, run};
use sc_base::Text;
use sc_edge::{Sink, Source};
use sc_object::{bytes_name_one_list, one_first_bad};
use sc_policy::{one_policy, policy_or_bad};
use sc_top_words::{Command, read_command};
use sc_types::{accepted_or_refused, one_phase, one_program};
use std::alloc::Global;

/// Runs the program on its words, without its own name before them. A status other than `Done` is printed on `err`.
pub fn secomp<S: Source, O: Sink, E: Sink>(
    alloc: Global,
    words: &[String],
    source: &mut S,
    out: &mut O,
    err: &mut E,
) -> Status
    ensures answer { Answers (command (map string_bytes words.now)) (record {
      left = S.left source.old;
      left_after = S.left source.new;
      read_faults = S.faults source.old;
      read_faults_after = S.faults source.new;
      written = O.written out.old;
      written_after = O.written out.new;
      write_faults = O.faults out.old;
      write_faults_after = O.faults out.new;
    }) result }

    // Words that are no command, or one that reads nothing, leave the source; nothing is written unless the whole
    // output is there and taken at least in part.
    ensures unread { IsSilent (command (map string_bytes words.now)) → source.new ≡ source.old }
    ensures untouched { result ≢ Status.Done → result ≢ Status.WriteFault → out.new ≡ out.old }

    ensures printed { Prints (status_text result) (E.written err.old) (E.written err.new)
        (E.faults err.old) (E.faults err.new) }
{
    accepted_or_refused();
    one_phase();
    one_program();
    one_policy();
    policy_or_bad();
    bytes_name_one_list();
    one_first_bad();
    let status = status_by(answer(alloc, words, source, out));
    print(err, &status);
    status
}

fn status_by(outcome: Result<(), Failure>) -> Status
    ensures { result ≡ status_by outcome }
{
    match outcome {
        Ok(()) => Status::Done,
        Err(failure) => Status::from(failure),
    }
}

#[tactic(auto, using(crate::proofs::Answers::read_says, crate::proofs::Answers::output_says))]
fn answer<S: Source, O: Sink>(
    alloc: Global,
    words: &[String],
    source: &mut S,
    out: &mut O,
) -> Result<(), Failure>
    ensures no_command { command (map string_bytes words.now) ≡ None →
        IsErrOf result Failure.Usage ⊎ IsErrOf result Failure.OutOfMemory }
    ensures unread { IsSilent (command (map string_bytes words.now)) → source.new ≡ source.old }
    ensures says { (c : Command) → command (map string_bytes words.now) ≡ Some c → Says c (record {
      left = S.left source.old;
      left_after = S.left source.new;
      read_faults = S.faults source.old;
      read_faults_after = S.faults source.new;
      written = O.written out.old;
      written_after = O.written out.new;
      write_faults = O.faults out.old;
      write_faults_after = O.faults out.new;
    }) (status_by result) }
    ensures untouched { (failure : Failure) → IsErrOf result failure → failure ≢ Failure.WriteFault →
        out.new ≡ out.old }
{
    let command = read_command(alloc, words)?;
    let bytes = read_input(alloc, &command, source)?;
    let text = output(alloc, &command, bytes)?;
    match write_text(out, text.as_bytes()) {
        Ok(()) => Ok(()),
        Err(_) => Err(Failure::WriteFault),
    }
}

// The command's output for these bytes.
fn output(alloc: Global, command: &Command, bytes: Text) -> Result<Text, Failure>
    requires bounded { IsBounded command.now }
    requires within { IsWithin command.now bytes }
    ensures ok { IfOk result (IsOutput command.now bytes) }
    ensures cause { IfErr result (IsOutputCause command.now bytes) }
{
    match command {
        Command::Check => check(alloc, bytes.as_bytes()),
        Command::Meaning(options) => meaning(alloc, options, bytes.as_bytes()),
        Command::Compile => compiled(alloc, bytes.as_bytes()),
        Command::Object(options) => object(alloc, options, bytes.as_bytes()),
        Command::Link => link(alloc, bytes),
        Command::Run(options) => run(alloc, options, bytes.as_bytes()),
        Command::Exec(options) => execute(alloc, options, bytes.as_bytes()),
        Command::Tags(options, range) => tags(alloc, options, *range, bytes.as_bytes()),
        Command::Explain(options) => explain(alloc, options, bytes.as_bytes()),
        Command::Judge(options) => judge(alloc, options, bytes.as_bytes()),
        Command::Make(options) => Ok(make(alloc, options)?),
    }
}
