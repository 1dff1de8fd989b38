//! The variables of all compartments and what they allocated, one after another (C11 6.2.4, 6.3.2.1, 7.22.3).
use sc_base::OutOfMemory;
use sc_core::{Cause, Cell, Pointer, Value};
use sc_event::CompId;
use std::alloc::Global;

/// How many words the zone of a compartment has, from which it allocates.
const ZONE_WORDS: u64 = 65_536;

/// Where a block lies in the zone of a compartment.
#[derive(Clone, Copy)]
struct ZonePlace {
    comp: CompId,
    first: u64,
}

/// A variable, or a block that was allocated: whether it lives, its cells, and where it lies if it was allocated.
#[derive(Drop)]
struct Variable {
    is_live: bool,
    cells: Vec<Cell>,
    place: Option<ZonePlace>,
}

impl Variable {
    // The end of a block that takes some of these words of a compartment's zone.
    fn end_over(&self, comp: CompId, first: u64, words: u64) -> Option<u64> {
        let place = self.place?;
        let end = place.first.saturating_add(self.cells.len() as u64);
        let is_apart = end <= first || first.saturating_add(words) <= place.first;
        if self.is_live && place.comp == comp && !is_apart {
            Some(end)
        } else {
            None
        }
    }
}

/// The variables, in the order in which they were made.
#[derive(Drop)]
pub(crate) struct Memory {
    variables: Vec<Variable>,
}

// A cell that holds a value.
fn cell_of(value: Value) -> Cell {
    match value {
        Value::Word(word) => Cell::Word(word),
        Value::Null => Cell::Null,
        Value::Ptr(pointer) => Cell::Ptr(pointer),
    }
}

fn pointer_of(place: Value) -> Result<Pointer, Cause> {
    match place {
        Value::Word(_) => Err(Cause::BadType),
        Value::Null => Err(Cause::NullUse),
        Value::Ptr(pointer) => Ok(pointer),
    }
}

impl Memory {
    /// No variable yet.
    pub(crate) fn new(alloc: Global) -> Memory {
        Memory {
            variables: Vec::new(alloc),
        }
    }

    /// The number of the next variable.
    pub(crate) fn len(&self) -> usize {
        self.variables.len()
    }

    /// Makes a variable of these cells.
    pub(crate) fn begin(&mut self, cells: Vec<Cell>) -> Result<(), OutOfMemory> {
        self.variables.push(Variable {
            is_live: true,
            cells,
            place: None,
        })?;
        Ok(())
    }

    // The end of the first block that takes some of these words of a compartment's zone.
    fn end_over(&self, comp: CompId, first: u64, words: u64) -> Option<u64> {
        for variable in self.variables.as_slice() {
            if let Some(end) = variable.end_over(comp, first, words) {
                return Some(end);
            }
        }
        None
    }

    // Where `words` words of a compartment's zone are free: it goes on after each block that is in the way.
    fn first_fit(&self, comp: CompId, words: u64) -> Option<ZonePlace> {
        let mut first = 0;
        for _ in 0..self.variables.len() {
            match self.end_over(comp, first, words) {
                None => break,
                Some(end) => first = end,
            }
        }
        if words > 0 && first.saturating_add(words) <= ZONE_WORDS {
            Some(ZonePlace { comp, first })
        } else {
            None
        }
    }

    /// Allocates words in a compartment's zone: a pointer to the first, or null where they don't fit or are none.
    pub(crate) fn allocate(
        &mut self,
        alloc: Global,
        comp: CompId,
        words: u64,
    ) -> Result<Value, OutOfMemory> {
        let Some(place) = self.first_fit(comp, words) else {
            return Ok(Value::Null);
        };
        let mut cells = Vec::new(alloc);
        for _ in 0..words {
            cells.push(Cell::Undef)?;
        }
        let block = self.variables.len() as u64;
        self.variables.push(Variable {
            is_live: true,
            cells,
            place: Some(place),
        })?;
        Ok(Value::Ptr(Pointer { block, index: 0 }))
    }

    /// Frees what was allocated.
    pub(crate) fn free(&mut self, pointer: Value) -> Result<(), Cause> {
        match pointer {
            Value::Word(_) => Err(Cause::BadType),
            Value::Null => Ok(()),
            Value::Ptr(pointer) => self.free_at(pointer),
        }
    }

    fn free_at(&mut self, pointer: Pointer) -> Result<(), Cause> {
        let Some(variable) = self.variables.get_mut(pointer.block as usize) else {
            return Err(Cause::BadFree);
        };
        if pointer.index != 0 || !variable.is_live || variable.place.is_none() {
            return Err(Cause::BadFree);
        }
        variable.is_live = false;
        Ok(())
    }

    /// Ends the variables of these numbers.
    pub(crate) fn end(&mut self, first: usize, following: usize) {
        for number in first..following {
            if let Some(variable) = self.variables.get_mut(number) {
                variable.is_live = false;
            }
        }
    }

    fn is_live(&self, pointer: Pointer) -> bool {
        match self.variables.get(pointer.block as usize) {
            None => false,
            Some(variable) => variable.is_live,
        }
    }

    /// How many cells the variable has that a pointer leads to.
    pub(crate) fn cells_after(&self, pointer: Pointer) -> Result<usize, Cause> {
        match self.variables.get(pointer.block as usize) {
            Some(variable) if variable.is_live => Ok(variable.cells.len()),
            _ => Err(Cause::Dangling),
        }
    }

    fn cell_at(&self, pointer: Pointer) -> Result<Cell, Cause> {
        match self.variables.get(pointer.block as usize) {
            Some(variable) if variable.is_live => match variable.cells.get(pointer.index as usize) {
                None => Err(Cause::OutOfBounds),
                Some(cell) => Ok(*cell),
            },
            _ => Err(Cause::Dangling),
        }
    }

    /// What is at a place, where a pointer or an integer is wanted.
    pub(crate) fn load(&self, place: Value, wants_pointer: bool) -> Result<Value, Cause> {
        match self.cell_at(pointer_of(place)?)? {
            Cell::Undef => Err(Cause::Indeterminate),
            Cell::Ptr(pointer) if !self.is_live(pointer) => Err(Cause::Dangling),
            Cell::Ptr(pointer) if wants_pointer => Ok(Value::Ptr(pointer)),
            Cell::Null if wants_pointer => Ok(Value::Null),
            Cell::Word(word) if !wants_pointer => Ok(Value::Word(word)),
            _ => Err(Cause::BadType),
        }
    }

    /// Stores a value at a place.
    pub(crate) fn store(&mut self, place: Value, value: Value) -> Result<(), Cause> {
        let pointer = pointer_of(place)?;
        let _old = self.cell_at(pointer)?;
        if let Some(variable) = self.variables.get_mut(pointer.block as usize) {
            if let Some(cell) = variable.cells.get_mut(pointer.index as usize) {
                *cell = cell_of(value);
            }
        }
        Ok(())
    }
}
