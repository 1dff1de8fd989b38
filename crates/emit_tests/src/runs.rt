// Runs of programs of code on the machine, and the words of their events.
use crate::images::image_by;
use crate::placing::Choice;
use sc_base::OutOfMemory;
use sc_event::Event;
use sc_image::read_image;
use sc_machine::Machine;
use sc_store::FlatStore;
use sc_tac::TacTree;
use std::alloc::Global;
use std::test::Fail;

const STEPS: u32 = 100_000;

/// A program of code, its inputs, how many events there are at most; and of all events of its run the kinds and the
/// words.
#[derive(Clone, Copy)]
pub struct Task<'a> {
    pub program: &'a TacTree,
    pub inputs: &'a [i32],
    pub events: u32,
    pub kinds: &'a [u8],
    pub words: &'a [u32],
}

// The machine after a run of a program whose temporaries lie by such a choice, if there is an image of it.
fn run_by(alloc: Global, task: &Task, choice: Choice) -> Result<Option<Machine<FlatStore>>, Fail> {
    let Some(bytes) = image_by(alloc, task.program, choice)? else {
        return Ok(None);
    };
    let Ok(image) = read_image(alloc, bytes.as_slice()) else {
        return Ok(None);
    };
    let Ok(mut machine) = Machine::<FlatStore>::load(alloc, image, task.inputs, task.events) else {
        return Ok(None);
    };
    machine.run(STEPS);
    Ok(Some(machine))
}

// What is seen of a trace: the first letters of the events' kinds, and their words.
#[derive(Drop)]
struct Seen {
    kinds: Vec<u8>,
    words: Vec<u32>,
}

impl Seen {
    // The letter, and the word that crosses. A call has first the numbers of the compartment that is called and of its
    // export, and then the arguments.
    fn append(&mut self, event: &Event) -> Result<(), OutOfMemory> {
        match event {
            Event::Call {
                to,
                index,
                args,
                ..
            } => {
                self.kinds.push(b'c')?;
                self.words.push(u32::from(to.number()))?;
                self.words.push(u32::from(*index))?;
                self.words.extend_from_slice(args.as_slice())?;
            }
            Event::Ret { value, .. } => {
                self.kinds.push(b'r')?;
                if let Some(word) = value {
                    self.words.push(*word)?;
                }
            }
            Event::In { value, .. } => self.append_word(b'i', *value)?,
            Event::Out { value, .. } => self.append_word(b'o', *value)?,
            Event::End { value, .. } => self.append_word(b'e', *value)?,
        }
        Ok(())
    }

    fn append_word(&mut self, kind: u8, word: u32) -> Result<(), OutOfMemory> {
        self.kinds.push(kind)?;
        self.words.push(word)?;
        Ok(())
    }
}

fn seen_in(alloc: Global, trace: &[Event]) -> Result<Seen, OutOfMemory> {
    let mut seen = Seen {
        kinds: Vec::new(alloc),
        words: Vec::new(alloc),
    };
    for event in trace {
        seen.append(event)?;
    }
    Ok(seen)
}

fn emits_by(alloc: Global, task: &Task, choice: Choice) -> Result<bool, Fail> {
    let Some(machine) = run_by(alloc, task, choice)? else {
        return Ok(false);
    };
    let seen = seen_in(alloc, machine.trace())?;
    Ok(seen.kinds.as_slice() == task.kinds && seen.words.as_slice() == task.words)
}

/// Whether the machine emits these events, wherever the temporaries lie.
pub fn emits(alloc: Global, task: &Task, choices: &[Choice]) -> Result<bool, Fail> {
    for choice in choices {
        if !emits_by(alloc, task, *choice)? {
            return Ok(false);
        }
    }
    Ok(true)
}
