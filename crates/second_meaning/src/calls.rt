//! Calls, statements, and what compartments perform, by recursion.
ghost use Rattle.std.specs.Prelude.{◌<◌, IfOk};

use crate::expressions::Frame;
use crate::run::{Halt, Run};
use crate::script::performed;
use crate::words::is_true;
use sc_core::{
    CallTarget, RunEnd, TypedCall, TypedExpr, TypedPlace, TypedSimple, TypedSimpleKind, TypedStmt,
    TypedStmtKind, TypedStmts, Value,
};
use sc_event::{Args, CompId, Entry, Event};
use sqlite_items::Boxed;

/// How control leaves statements.
#[derive(Clone, Copy)]
enum Exit {
    Next,
    Break,
    Continue,
    Return(Option<Value>),
}

/// The parts of a loop, and the line of its condition.
#[derive(Clone, Copy)]
struct Loop<'a> {
    line: u32,
    cond: &'a TypedExpr,
    body: &'a [TypedStmt],
    next: Option<&'a TypedSimple>,
}

impl<'a> Loop<'a> {
    fn new(
        line: u32,
        cond: &'a TypedExpr,
        body: &'a TypedStmts,
        next: Option<&'a TypedSimple>,
    ) -> Loop<'a> {
        Loop {
            line,
            cond,
            body: body.as_slice(),
            next,
        }
    }
}

// A statement that does nothing but lead elsewhere, or nothing at all.
fn jump(kind: &TypedStmtKind) -> Exit {
    match kind {
        TypedStmtKind::Break => Exit::Break,
        TypedStmtKind::Continue => Exit::Continue,
        TypedStmtKind::Return => Exit::Return(None),
        _ => Exit::Next,
    }
}

/// Who calls whom.
#[derive(Clone, Copy)]
struct Crossing {
    from: CompId,
    to: CompId,
    index: u16,
}

// One less of what is left to be nested.
fn less(fuel: u32) -> Result<u32, Halt>
    ensures { IfOk result (λ below. below < fuel) }
{
    match fuel.checked_sub(1) {
        None => Err(Halt::OutOfMemory),
        Some(below) => Ok(below),
    }
}

fn word_in(value: Value) -> u32 {
    match value {
        Value::Word(word) => word,
        _ => 0,
    }
}

impl<'a> Run<'a> {
    // A function runs or performs with these values.
    #[cycle(calls)]
    pub(crate) fn enter(
        &mut self,
        fuel: u32,
        comp: CompId,
        number: usize,
        args: &[Value],
    ) -> Result<Option<Value>, Halt> {
        let below = less(fuel)?;
        if self.set.has(comp) {
            return self.act(below, comp, number);
        }
        let Some(section) = self.section(comp) else {
            return self.stop(RunEnd::TurnsOut);
        };
        let Some(function) = section.functions.get(number) else {
            return self.stop(RunEnd::TurnsOut);
        };
        let frame = self.begin(comp, function, args)?;
        let following = self.memory.len();
        self.initialise(&frame, function)?;
        let value = match self.statements(below, &frame, function.body.as_slice())? {
            Exit::Return(value) => value,
            _ => self.brace(comp, function)?,
        };
        self.memory.end(frame.params, following);
        Ok(value)
    }

    // A function performs what comes next of its compartment's part, as long as that is the function's own.
    #[cycle(calls)]
    fn act(&mut self, fuel: u32, comp: CompId, number: usize) -> Result<Option<Value>, Halt> {
        let below = less(fuel)?;
        for _ in 0..u64::MAX {
            let done = performed(self.trace.as_slice(), comp);
            let Some((entry, event)) = self.script.next(comp, done) else {
                return self.stop(RunEnd::TurnsOut);
            };
            if self.number_of(comp, entry) != Some(number) {
                return self.stop(RunEnd::TurnsOut);
            }
            match event {
                Event::Call {
                    from,
                    to,
                    index,
                    args,
                } => {
                    let crossing = Crossing {
                        from: *from,
                        to: *to,
                        index: *index,
                    };
                    let _given = self.cross(below, &crossing, args.copied())?;
                }
                Event::Out { comp, value } => self.emit_event(Event::Out {
                    comp: *comp,
                    value: *value,
                })?,
                Event::In { comp, .. } => {
                    let _read = self.input(*comp)?;
                }
                Event::Ret { value, .. } => return Ok(value.map(Value::Word)),
                Event::End { value, .. } => return Ok(Some(Value::Word(*value))),
            }
        }
        self.stop(RunEnd::TurnsOut)
    }

    // A call of another compartment emits an event, and so does its return.
    #[cycle(calls)]
    fn cross(&mut self, fuel: u32, crossing: &Crossing, args: Args) -> Result<Option<u32>, Halt> {
        let below = less(fuel)?;
        let Crossing { from, to, index } = *crossing;
        let Some(number) = self.number_of(to, Entry::Export(index)) else {
            return self.stop(RunEnd::TurnsOut);
        };
        self.turn()?;
        let mut values = Vec::new(self.alloc);
        for word in args.as_slice() {
            values.push(Value::Word(*word))?;
        }
        self.emit_event(Event::Call {
            from,
            to,
            index,
            args,
        })?;
        let given = self.enter(below, to, number, values.as_slice())?;
        let value = self.crossing(to, index, given);
        self.emit_event(Event::Ret {
            from: to,
            to: from,
            value,
        })?;
        Ok(value)
    }

    // A call in a function's body.
    #[cycle(calls)]
    fn call(
        &mut self,
        fuel: u32,
        frame: &Frame,
        line: u32,
        call: &TypedCall,
    ) -> Result<Option<Value>, Halt> {
        let below = less(fuel)?;
        let comp = frame.comp;
        let values = self.values(frame, line, call.args.as_slice())?;
        match call.target {
            CallTarget::Own(number) => {
                self.turn()?;
                self.enter(below, comp, number as usize, values.as_slice())
            }
            CallTarget::Cross(to, index) => {
                let args = self.words_of(values.as_slice())?;
                let crossing = Crossing {
                    from: comp,
                    to,
                    index,
                };
                let given = self.cross(below, &crossing, args)?;
                Ok(given.map(Value::Word))
            }
            CallTarget::Input => Ok(Some(Value::Word(self.input(comp)?))),
            CallTarget::Output => {
                let value = values.first().copied().map_or(0, word_in);
                self.emit_event(Event::Out { comp, value })?;
                Ok(None)
            }
        }
    }

    fn words_of(&self, values: &[Value]) -> Result<Args, Halt> {
        let mut args = Args::new(self.alloc);
        for value in values {
            args.push(word_in(*value)).ok_or(Halt::OutOfMemory)?;
        }
        Ok(args)
    }

    #[cycle(calls)]
    fn statements(
        &mut self,
        fuel: u32,
        frame: &Frame,
        statements: &'a [TypedStmt],
    ) -> Result<Exit, Halt> {
        let below = less(fuel)?;
        for statement in statements {
            match self.statement(below, frame, statement)? {
                Exit::Next => (),
                exit => return Ok(exit),
            }
        }
        Ok(Exit::Next)
    }

    #[cycle(calls)]
    fn statement(
        &mut self,
        fuel: u32,
        frame: &Frame,
        statement: &'a TypedStmt,
    ) -> Result<Exit, Halt> {
        let below = less(fuel)?;
        let line = statement.line;
        match &statement.kind {
            TypedStmtKind::Assign { place, value } => self.assign(frame, line, place, value.get())?,
            TypedStmtKind::AssignCall { place, call } => {
                self.assign_call(below, frame, line, place, call.get())?;
            }
            TypedStmtKind::Call(call) => {
                let _given = self.call(below, frame, line, call.get())?;
            }
            TypedStmtKind::Malloc {
                place,
                count,
                cells,
            } => self.allocate(frame, line, place, count, *cells)?,
            TypedStmtKind::Free(pointer) => self.free(frame, line, pointer.get())?,
            TypedStmtKind::If {
                cond,
                then_part,
                else_part,
            } => {
                let value = self.value(frame, line, cond.get())?;
                let part = if is_true(value) { then_part } else { else_part };
                return self.statements(below, frame, part.as_slice());
            }
            TypedStmtKind::While { cond, body } => {
                let parts = Loop::new(line, cond.get(), body, None);
                return self.rounds(below, frame, &parts);
            }
            TypedStmtKind::For {
                first,
                cond,
                next,
                body,
            } => {
                self.simple(below, frame, first.as_ref().map(Boxed::get))?;
                let parts = Loop::new(line, cond.get(), body, next.as_ref().map(Boxed::get));
                return self.rounds(below, frame, &parts);
            }
            TypedStmtKind::ReturnValue(expr) => {
                return Ok(Exit::Return(Some(self.value(frame, line, expr.get())?)));
            }
            TypedStmtKind::ReturnCall(call) => {
                return Ok(Exit::Return(self.call(below, frame, line, call.get())?));
            }
            kind => return Ok(jump(kind)),
        }
        Ok(Exit::Next)
    }

    // The call, then the place, then the store.
    #[cycle(calls)]
    fn assign_call(
        &mut self,
        fuel: u32,
        frame: &Frame,
        line: u32,
        place: &TypedPlace,
        call: &TypedCall,
    ) -> Result<(), Halt> {
        let below = less(fuel)?;
        if let Some(value) = self.call(below, frame, line, call)? {
            self.store(frame, line, place, value)?;
        }
        Ok(())
    }

    // A part in the head of a `for`, if it is there.
    #[cycle(calls)]
    fn simple(
        &mut self,
        fuel: u32,
        frame: &Frame,
        simple: Option<&TypedSimple>,
    ) -> Result<(), Halt> {
        let below = less(fuel)?;
        let Some(simple) = simple else {
            return Ok(());
        };
        let line = simple.line;
        match &simple.kind {
            TypedSimpleKind::Assign { place, value } => self.assign(
                frame,
                line,
                place,
                value.get(),
            )?,
            TypedSimpleKind::AssignCall { place, call } => {
                self.assign_call(below, frame, line, place, call.get())?;
            }
            TypedSimpleKind::Call(call) => {
                let _given = self.call(below, frame, line, call.get())?;
            }
            TypedSimpleKind::Malloc {
                place,
                count,
                cells,
            } => self.allocate(frame, line, place, count, *cells)?,
            TypedSimpleKind::Free(pointer) => self.free(frame, line, pointer.get())?,
        }
        Ok(())
    }

    // A loop: each round takes a turn after its head.
    #[cycle(calls)]
    fn rounds(&mut self, fuel: u32, frame: &Frame, parts: &Loop<'a>) -> Result<Exit, Halt> {
        let below = less(fuel)?;
        for _ in 0..u64::MAX {
            let value = self.value(frame, parts.line, parts.cond)?;
            if !is_true(value) {
                return Ok(Exit::Next);
            }
            self.turn()?;
            match self.statements(below, frame, parts.body)? {
                Exit::Next | Exit::Continue => (),
                Exit::Break => return Ok(Exit::Next),
                Exit::Return(value) => return Ok(Exit::Return(value)),
            }
            self.simple(below, frame, parts.next)?;
        }
        self.stop(RunEnd::TurnsOut)
    }
}
