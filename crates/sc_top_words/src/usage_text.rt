ghost use Rattle.sc_top_words.specs.Prelude.{usage_text};
ghost use Rattle.std.specs.Prelude.{◌≡◌};

/// The commands and their options on one screen, for somebody who sees the program for the first time.
#[tactic(auto, unfolding(crate::specs::Usage::usage_text))]
pub fn usage() -> &'static [u8]
    ensures { result.now ≡ usage_text }
{
    b"secomp: usage
  secomp COMMAND [OPTION]... <INPUT     options as --name value or --name=value
  check     what the compartments of a text import and export
  meaning   what the text does by the meaning of its source
  compile   its machine image
  object    one section's part of that image
  link      the machine image of all sections' objects
  run       what the machine does on the image of a text
  explain   the same, and the sections to replace so that the source does it too
  judge     the same for a text after a policy, and what the policy says of it
  exec      what the machine does on an image
  tags      what a machine that protects by tags on bytes does on an image
  make      a program made from two numbers, with no input
options, each at most once; in parentheses what holds where one is not given
  --turns N    meaning: at most N turns, 0 to 16777216 (1000000)
  --steps N    run, exec, tags, explain, judge: N steps, 0 to 16777216 (1000000)
  --events M   with --turns or --steps: at most M events, 0 to 4096 (1024)
  --in LIST    likewise: 1 to 65536 signed 32-bit inputs (none), as --in=-5,3
  --data S,B,C tags: B bytes from address S on are compartment C's data (none)
  --show K     explain: only the text after K replacements, 0 to 32
  --image      explain, judge: run the image that stands before the text
  --trapped    explain, judge: also who stopped the machine, where a trap did
  --section C  object, needed: the name of the section
  --size K --seed N  make, both needed: 1 to 1000 functions; N up to 4294967295
  --summary    make: a summary of the program in place of its text
"
}
