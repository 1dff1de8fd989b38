//! What a run carries, and its small steps.
use crate::expressions::{Frame, Scope, evaluate};
use crate::memory::Memory;
use crate::script::Script;
use crate::set::CompSet;
use sc_base::OutOfMemory;
use sc_core::{
    Cause, Cell, ProgramTree, RunEnd, Ty, TypedExpr, TypedFunction, TypedPlace, TypedSection,
    TypedStruct, Value, Want, cells_of,
};
use sc_event::{CompId, Entry, Event, Trace};
use sqlite_items::Boxed;
use std::alloc::{AllocError, AllocFailed, Global};

/// Why a run goes no further: it has come to the end that it keeps, or memory is missing.
#[derive(Clone, Copy)]
pub(crate) enum Halt {
    End,
    OutOfMemory,
}

impl From<OutOfMemory> for Halt {
    fn from(_: OutOfMemory) -> Halt {
        Halt::OutOfMemory
    }
}

impl From<AllocError> for Halt {
    fn from(_: AllocError) -> Halt {
        Halt::OutOfMemory
    }
}

impl<T: Drop> From<AllocFailed<T>> for Halt {
    fn from(_: AllocFailed<T>) -> Halt {
        Halt::OutOfMemory
    }
}

/// What a run carries.
#[derive(Drop)]
pub(crate) struct Run<'a> {
    pub alloc: Global,
    pub program: &'a ProgramTree,
    /// The compartments that perform.
    pub set: CompSet,
    pub script: Script<'a>,
    /// The events, turns and inputs that are left.
    pub events: u32,
    pub turns: u32,
    pub inputs: &'a [i32],
    /// The number of each compartment's first global.
    pub globals: Vec<usize>,
    pub memory: Memory,
    pub trace: Trace,
    /// How the run ends, if it goes no further here.
    pub end: RunEnd,
}

// The cells of a new variable that holds nothing, or this value.
fn new_cells(
    alloc: Global,
    structs: &[TypedStruct],
    ty: Ty,
    value: Option<Value>,
) -> Result<Vec<Cell>, OutOfMemory> {
    let mut cells = Vec::new(alloc);
    match value {
        Some(Value::Word(word)) => cells.push(Cell::Word(word))?,
        Some(Value::Null) => cells.push(Cell::Null)?,
        Some(Value::Ptr(pointer)) => cells.push(Cell::Ptr(pointer))?,
        None => {
            for _ in 0..cells_of(structs, ty) {
                cells.push(Cell::Undef)?;
            }
        }
    }
    Ok(cells)
}

impl<'a> Run<'a> {
    /// Ends the run.
    pub(crate) fn stop<T>(&mut self, end: RunEnd) -> Result<T, Halt> {
        self.end = end;
        Err(Halt::End)
    }

    // What is computed, or the end of the run by blame of a compartment at a line.
    fn computed<T>(
        &mut self,
        comp: CompId,
        line: u32,
        outcome: Result<T, Cause>,
    ) -> Result<T, Halt> {
        match outcome {
            Ok(value) => Ok(value),
            Err(cause) => self.stop(RunEnd::Blamed { comp, cause, line }),
        }
    }

    /// Takes a turn.
    pub(crate) fn turn(&mut self) -> Result<(), Halt> {
        let Some(left) = self.turns.checked_sub(1) else {
            return self.stop(RunEnd::TurnsOut);
        };
        self.turns = left;
        Ok(())
    }

    /// Adds an event, and stops where no further one is left.
    pub(crate) fn emit_event(&mut self, event: Event) -> Result<(), Halt> {
        self.trace.push(event)?;
        self.events = self.events.saturating_sub(1);
        if self.events == 0 {
            return self.stop(RunEnd::EventsOut);
        }
        Ok(())
    }

    /// Reads the next input, which is 0 after the last.
    pub(crate) fn input(&mut self, comp: CompId) -> Result<u32, Halt> {
        let mut value = 0;
        if let Some((first, rest)) = self.inputs.split_first() {
            value = first.cast_unsigned();
            self.inputs = rest;
        }
        self.emit_event(Event::In { comp, value })?;
        Ok(value)
    }

    /// The section of a compartment.
    pub(crate) fn section(&self, comp: CompId) -> Option<&'a TypedSection> {
        self.program.sections.get(comp.number() as usize)
    }

    /// The function of a compartment that an entry leads to.
    pub(crate) fn number_of(&self, comp: CompId, entry: Entry) -> Option<usize> {
        let name: &[u8] = match &entry {
            Entry::Main => b"main",
            Entry::Export(index) => {
                let export = self.program.interfaces.export(comp, *index)?;
                export.name.as_bytes()
            }
        };
        let functions = self.section(comp)?.functions.as_slice();
        functions
            .iter()
            .position(|function| function.name.as_bytes() == name)
    }

    /// What crosses at the return of an export.
    pub(crate) fn crossing(&self, comp: CompId, index: u16, value: Option<Value>) -> Option<u32> {
        let _scalar = self.program.interfaces.export(comp, index)?.result?;
        match value {
            Some(Value::Word(word)) => Some(word),
            _ => Some(0),
        }
    }

    // Where the expressions of a call stand.
    fn scope<'b>(&'b self, frame: &'b Frame) -> Scope<'b> {
        let structs = match self.section(frame.comp) {
            None => &[],
            Some(section) => section.structs.as_slice(),
        };
        Scope {
            structs,
            memory: &self.memory,
            frame,
        }
    }

    /// The value of an expression.
    pub(crate) fn value(
        &mut self,
        frame: &Frame,
        line: u32,
        expr: &TypedExpr,
    ) -> Result<Value, Halt> {
        let value = evaluate(&self.scope(frame), Want::Value, expr);
        self.computed(frame.comp, line, value)
    }

    /// The values of expressions from left to right.
    pub(crate) fn values(
        &mut self,
        frame: &Frame,
        line: u32,
        exprs: &[TypedExpr],
    ) -> Result<Vec<Value>, Halt> {
        let mut values = Vec::new(self.alloc);
        for expr in exprs {
            let value = self.value(frame, line, expr)?;
            values.push(value)?;
        }
        Ok(values)
    }

    // Stores a value at a place.
    fn store_at(
        &mut self,
        frame: &Frame,
        line: u32,
        place: Value,
        value: Value,
    ) -> Result<(), Halt> {
        let stored = self.memory.store(place, value);
        self.computed(frame.comp, line, stored)
    }

    /// Stores a value where an expression leads.
    pub(crate) fn store(
        &mut self,
        frame: &Frame,
        line: u32,
        place: &TypedPlace,
        value: Value,
    ) -> Result<(), Halt> {
        let found = evaluate(&self.scope(frame), Want::Place, place.get());
        let place = self.computed(frame.comp, line, found)?;
        self.store_at(frame, line, place, value)
    }

    /// Stores the value of an expression: the value first, then the place, then the store.
    pub(crate) fn assign(
        &mut self,
        frame: &Frame,
        line: u32,
        place: &TypedPlace,
        value: &TypedExpr,
    ) -> Result<(), Halt> {
        let value = self.value(frame, line, value)?;
        self.store(frame, line, place, value)
    }

    // How many elements are allocated: one where no count stands.
    fn count(
        &mut self,
        frame: &Frame,
        line: u32,
        count: &Option<Boxed<TypedExpr>>,
    ) -> Result<u32, Halt> {
        let Some(count) = count else {
            return Ok(1);
        };
        let count = match self.value(frame, line, count.get())? {
            Value::Word(word) => Ok(word),
            _ => Err(Cause::BadType),
        };
        self.computed(frame.comp, line, count)
    }

    /// Stores a pointer to new elements of `cells` cells: the count first, then the block, then the place, then the
    /// store.
    pub(crate) fn allocate(
        &mut self,
        frame: &Frame,
        line: u32,
        place: &TypedPlace,
        count: &Option<Boxed<TypedExpr>>,
        cells: u32,
    ) -> Result<(), Halt> {
        let count = self.count(frame, line, count)?;
        let words = (count as u64).wrapping_mul(cells as u64);
        let pointer = self.memory.allocate(self.alloc, frame.comp, words)?;
        self.store(frame, line, place, pointer)
    }

    /// Frees what the value of an expression points to.
    pub(crate) fn free(
        &mut self,
        frame: &Frame,
        line: u32,
        pointer: &TypedExpr,
    ) -> Result<(), Halt> {
        let pointer = self.value(frame, line, pointer)?;
        let freed = self.memory.free(pointer);
        self.computed(frame.comp, line, freed)
    }

    /// Makes the variables of a call.
    pub(crate) fn begin(
        &mut self,
        comp: CompId,
        function: &TypedFunction,
        args: &[Value],
    ) -> Result<Frame, Halt> {
        let structs = match self.section(comp) {
            None => &[],
            Some(section) => section.structs.as_slice(),
        };
        let params = self.memory.len();
        self.begin_params(structs, function, args)?;
        let locals = self.memory.len();
        for local in function.locals.as_slice() {
            let cells = new_cells(self.alloc, structs, local.ty, None)?;
            self.memory.begin(cells)?;
        }
        let globals = self
            .globals
            .get(comp.number() as usize)
            .copied()
            .unwrap_or(0);
        Ok(Frame {
            comp,
            globals,
            params,
            locals,
        })
    }

    fn begin_params(
        &mut self,
        structs: &[TypedStruct],
        function: &TypedFunction,
        args: &[Value],
    ) -> Result<(), Halt> {
        for (number, param) in function.params.as_slice().iter().enumerate() {
            let value = args.get(number).copied();
            let cells = new_cells(self.alloc, structs, param.ty, value)?;
            self.memory.begin(cells)?;
        }
        Ok(())
    }

    /// Gives the locals of a call their first values, in order.
    pub(crate) fn initialise(
        &mut self,
        frame: &Frame,
        function: &TypedFunction,
    ) -> Result<(), Halt> {
        for (number, local) in function.locals.as_slice().iter().enumerate() {
            if let Some(expr) = &local.init {
                let value = self.value(frame, local.line, expr)?;
                self.store_at(frame, local.line, frame.local(number), value)?;
            }
        }
        Ok(())
    }

    /// The closing brace: `main` gives 0, and no other function with a result may come here.
    pub(crate) fn brace(
        &mut self,
        comp: CompId,
        function: &TypedFunction,
    ) -> Result<Option<Value>, Halt> {
        if function.result.is_none() {
            return Ok(None);
        }
        let name: &[u8] = b"main";
        if comp == self.program.interfaces.main && function.name.as_bytes() == name {
            return Ok(Some(Value::Word(0)));
        }
        let (cause, line) = (Cause::NoReturn, function.close_line);
        self.stop(RunEnd::Blamed { comp, cause, line })
    }
}
