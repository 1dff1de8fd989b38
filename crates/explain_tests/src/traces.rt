// Programs with what they read, and traces for which texts are made.
use crate::drawn::drawn;
use chain_texts::programs::INPUTS;
use sc_chain::explain;
use sc_event::Trace;
use sc_run::run_source;
use sc_types::SourceText;
use std::alloc::Global;
use std::test::Fail;

// The turns of meanings, and the steps of the machine.
const STEPS: u32 = 100_000;

// The events of runs: the most that the law speaks of.
const EVENTS: u32 = 4096;

// The most events of traces that no run emits.
const DRAWN: usize = 24;

/// What a run reads, as numbers and as a word of the command line.
#[derive(Clone, Copy)]
pub struct Inputs<'a> {
    pub numbers: &'a [i32],
    pub word: &'a str,
}

// The requests to the accounts, the third of which is too long.
const REQUESTS: Inputs = Inputs {
    numbers: &[
        3, 1, 2, 500, 3, 2, 2, 200, 5, 1, 3, 40, 7, 99, 3, 2, 5, 10, 0,
    ],
    word: "--in=3,1,2,500,3,2,2,200,5,1,3,40,7,99,3,2,5,10,0",
};

// A negative number, and fewer than are read.
const TWO_NUMBERS: Inputs = Inputs {
    numbers: &[-5, 3],
    word: "--in=-5,3",
};

impl Inputs<'_> {
    /// What a program reads.
    pub fn of(text: &[u8]) -> Inputs<'static> {
        if text == INPUTS {
            TWO_NUMBERS
        } else {
            REQUESTS
        }
    }
}

/// A part of a text, and how often it stands there.
type Repeated = (&'static [u8], usize);

const HEAD: &[u8] = b"#pragma compartment Main
#pragma import Env output
void output(int v);
int main(void) {
";

const OUTPUT: &[u8] = b"  output(1);\n";

const TAIL: &[u8] = b"  return 0;\n}\n";

const RETURN: &[u8] = b"#pragma compartment Main\nint main(void) {\n  return ";

/// Long and deep programs: as many outputs as a run may emit by default, one less, a text of the greatest length, and
/// operators and brackets up to the greatest height.
pub const LONG: [&[Repeated]; 5] = [
    &[(HEAD, 1), (OUTPUT, 1024), (TAIL, 1)],
    &[(HEAD, 1), (OUTPUT, 1023), (TAIL, 1)],
    &[
        (HEAD, 1),
        (b"  output(7);\n", 1),
        (TAIL, 1),
        (b" ", 1_048_461),
    ],
    &[(RETURN, 1), (b"~", 254), (b"1;\n}\n", 1)],
    &[
        (RETURN, 1),
        (b"(", 1023),
        (b"1", 1),
        (b")", 1023),
        (b";\n}\n", 1),
    ],
];

/// Programs with the interfaces of images that are run as they are: one that writes 7, and two whose second one returns
/// nothing and has no events of its own.
pub const LIKE_IMAGES: [&[u8]; 2] = [
    b"#pragma compartment M
#pragma import Env output
void output(int v);
int main(void) {
  output(7);
  return 0;
}
",
    b"#pragma compartment A
#pragma import B f
void f(void);
int main(void) {
  f();
  while (1) { }
}
#pragma compartment B
#pragma export f
void f(void) {
}
",
];

/// The text of which these are the parts.
pub fn long_text(alloc: Global, parts: &[Repeated]) -> Result<Vec<u8>, Fail> {
    let mut text = Vec::new(alloc);
    for (part, count) in parts {
        for _ in 0..*count {
            text.extend_from_slice(part)?;
        }
    }
    Ok(text)
}

/// Where a trace comes from: the meaning of a program, the machine on its image, or a seed.
#[derive(Clone, Copy)]
pub enum Origin {
    Meant,
    Emitted,
    Drawn(u32),
}

impl Origin {
    /// The trace of a program with these inputs. It is empty where the program doesn't fit the machine.
    pub fn trace(self, alloc: Global, source: &SourceText, inputs: Inputs) -> Result<Trace, Fail> {
        match self {
            Origin::Meant => {
                let run = run_source(alloc, source.program(), inputs.numbers, STEPS, EVENTS)?;
                Ok(run.trace)
            }
            Origin::Emitted => match explain(alloc, source, inputs.numbers, STEPS, EVENTS) {
                Ok(explanation) => Ok(explanation.trace),
                Err(_) => Ok(Trace::new(alloc)),
            },
            Origin::Drawn(seed) => {
                let interfaces = source.program().interfaces();
                Ok(drawn(alloc, interfaces, seed, DRAWN)?)
            }
        }
    }
}
