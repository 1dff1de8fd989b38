// Traces that follow from a seed: each is legal for its interfaces, whatever the functions do. Calls have arguments
// that nobody computes, functions return early or never, and the environment gives other numbers.
use sc_base::OutOfMemory;
use sc_event::{Args, CompId, Event, Import, Interfaces, Trace};
use std::alloc::Global;

// A call that is open: who waits, and which export of whom runs.
#[derive(Clone, Copy)]
struct Open {
    from: CompId,
    to: CompId,
    index: u16,
}

#[derive(Drop)]
struct Draft<'a> {
    interfaces: &'a Interfaces,
    state: u32,
    open: Vec<Open>,
    trace: Trace,
}

impl Draft<'_> {
    // The high bits vary more than the low ones.
    fn draw(&mut self) -> u32 {
        self.state = self
            .state
            .wrapping_mul(1_664_525)
            .wrapping_add(1_013_904_223);
        self.state
    }

    // A word, small in half of all cases.
    fn word(&mut self) -> u32 {
        let drawn = self.draw();
        if drawn & 65536 == 0 {
            drawn >> 28
        } else {
            drawn
        }
    }

    fn active(&self) -> CompId {
        match self.open.last() {
            Some(call) => call.to,
            None => self.interfaces.main,
        }
    }

    // One of the imports of the active compartment.
    fn import(&mut self) -> Option<Import> {
        let place = (self.draw() >> 16) as usize;
        let imports = self.interfaces.comp(self.active())?.imports.as_slice();
        let place = place.checked_rem(imports.len())?;
        imports.get(place).copied()
    }

    fn call(&mut self, alloc: Global, call: Open) -> Result<(), OutOfMemory> {
        let mut args = Args::new(alloc);
        for _ in 0..Args::LIMIT {
            if self
                .interfaces
                .takes(call.to, call.index, args.as_slice().len())
            {
                break;
            }
            args.push(self.word()).ok_or(OutOfMemory)?;
        }
        self.open.push(call)?;
        let Open { from, to, index } = call;
        Ok(
            self.trace.push(Event::Call {
                from,
                to,
                index,
                args,
            })?,
        )
    }

    // The active function returns; nothing follows where it is `main`.
    fn back(&mut self) -> Result<bool, OutOfMemory> {
        let comp = self.active();
        let word = self.word();
        let Some(Open { from, to, index }) = self.open.pop() else {
            self.trace.push(Event::End { comp, value: word })?;
            return Ok(false);
        };
        let value = Some(word).filter(|_| self.interfaces.may_return(to, index, Some(word)));
        self.trace.push(Event::Ret {
            from: to,
            to: from,
            value,
        })?;
        Ok(true)
    }

    // What an import allows.
    fn perform(&mut self, alloc: Global, import: Import) -> Result<(), OutOfMemory> {
        let from = self.active();
        if let Import::Function { comp, index } = import {
            let to = comp;
            return self.call(alloc, Open { from, to, index });
        }
        let comp = from;
        let value = self.word();
        if let Import::Output = import {
            self.trace.push(Event::Out { comp, value })?;
        } else {
            self.trace.push(Event::In { comp, value })?;
        }
        Ok(())
    }

    // One more event, and whether another one may follow.
    fn step(&mut self, alloc: Global) -> Result<bool, OutOfMemory> {
        let leaves = self.draw() >> 29 == 0;
        let import = self.import();
        if leaves {
            return self.back();
        }
        let Some(import) = import else {
            return self.back();
        };
        self.perform(alloc, import)?;
        Ok(true)
    }
}

/// A trace of at most `most` events.
pub fn drawn(
    alloc: Global,
    interfaces: &Interfaces,
    seed: u32,
    most: usize,
) -> Result<Trace, OutOfMemory> {
    let mut draft = Draft {
        interfaces,
        state: seed,
        open: Vec::new(alloc),
        trace: Trace::new(alloc),
    };
    for _ in 0..most {
        if !draft.step(alloc)? {
            return Ok(draft.trace);
        }
    }
    Ok(draft.trace)
}
