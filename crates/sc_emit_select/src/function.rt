//! The code of a function.

ghost use Rattle.sc_core.specs.Prelude.{bytes_a_node, most_code};
ghost use Rattle.sc_emit_select.specs.Prelude.{IsCode, IsFunction, Line, closing, code_of, code_of_lines, entry_weight};
ghost use Rattle.sc_emit_select.specs.Prelude.{function_lines, has_mark, needed_in, plainly, plan_by, plan_of};
ghost use Rattle.sc_emit_select.specs.Prelude.{prologue, store_arguments, uses_heap, weight};
ghost use Rattle.std.specs.Prelude.{◌≡◌, ◌≤◌, ◌<◌, ◌^◌, ◌+◌, ◌*◌, ◌++◌, ℕ, IfOk, OnOk, length};

use crate::backward::Backward;
use crate::control::Distances;
use crate::homes::Homes;
use crate::jumps::BRANCH_REACH;
use crate::needs::needs_of;
use crate::pieces::{A0, ZERO, addi, immediate, register};
use sc_base::OutOfMemory;
use sc_event::Entry;
use sc_tac::{Code, CodeTree, Frame, Instrs, Places, Relocation, Relocations, TacFn, TacFnTree};
use std::alloc::Global;

impl Backward {
    // The arguments into their variables.
    fn store_arguments(&mut self, homes: &Homes, params: u8) -> Result<(), OutOfMemory>
        requires { params ≤ 8 }
        ensures { OnOk result (self.new ≡
            plainly (store_arguments homes.now.frame.now homes.now.places.now params 0) ++ self.old) }
    {
        for at in (0..params).rev() {
            self.store_word(register(A0 + at), homes.object_offset(u32::from(at)))?;
        }
        Ok(())
    }

    // The prologue of a function.
    fn prologue(&mut self, homes: &Homes, params: u8) -> Result<(), OutOfMemory>
        requires { params ≤ 8 }
        ensures { OnOk result (self.new ≡
            plainly (prologue homes.now.frame.now homes.now.places.now params) ++ self.old) }
    {
        self.store_arguments(homes, params)?;
        self.frame_taken(homes.frame.tree().bytes)
    }

    // Its closing brace.
    fn closing(&mut self, homes: &Homes, entry: Option<Entry>) -> Result<(), OutOfMemory>
        ensures { OnOk result (self.new ≡
            plainly (closing homes.now.frame.now homes.now.places.now entry) ++ self.old) }
    {
        self.epilogue(homes.frame.tree().bytes)?;
        match entry {
            Some(Entry::Main) => self.plain(addi(register(A0), register(ZERO), immediate(0))),
            _ => Ok(()),
        }
    }

    // All lines of a function.
    fn function(&mut self, homes: &Homes, f: &TacFnTree) -> Result<(), OutOfMemory>
        requires function { IsFunction f.now }
        requires reached { bytes_a_node * f.now.nodes ≤ most_code }
        ensures { OnOk result (self.new ≡
            function_lines homes.now.frame.now homes.now.places.now (plan_by homes.now.needs.now homes.now.near) f.now
            ++ self.old) }
    {
        let at_end = Distances {
            to_break: 0,
            to_continue: 0,
        };
        self.closing(homes, f.entry)?;
        self.in_order(homes, at_end, f.body.as_slice())?;
        self.prologue(homes, f.params)
    }
}

// Lines in the order in which they are read.
fn read(alloc: Global, lines: Backward, heap: bool) -> Result<CodeTree, OutOfMemory>
    requires { length lines < 2 ^ 32 }
    ensures { IfOk result (λ code. code ≡ code_of_lines heap lines) }
{
    let mut lines = lines;
    let mut instrs = Instrs::new(alloc);
    let mut relocations = Relocations::new(alloc);
    for at in 0..lines.len() as u32 {
        if let Some((instr, target)) = lines.first() {
            instrs.push(instr)?;
            if let Some(target) = target {
                relocations.push(Relocation { at, target })?;
            }
        }
    }
    Ok(CodeTree {
        instrs,
        relocations,
        heap,
    })
}

// The lines of a function by one of the two plans.
fn planned(alloc: Global, f: &TacFn, homes: &Homes) -> Result<Backward, OutOfMemory>
    requires reached { bytes_a_node * f.now.nodes ≤ most_code }
    requires needs { (t : ℕ) → has_mark homes.now.needs.now t ≡ needed_in f.now.body t }
    ensures lines { IfOk result (λ lines. lines ≡
        function_lines homes.now.frame.now homes.now.places.now (plan_of f.now homes.now.near) f.now) }
    ensures few { IfOk result (λ lines. length lines < 2 ^ 32) }
{
    let mut lines = Backward::new(alloc);
    lines.function(homes, f.tree())?;
    Ok(lines)
}

// The lines of a function: its loops end with their tests where a branch reaches all over it.
fn chosen(alloc: Global, f: &TacFn, places: &Places, frame: &Frame) -> Result<Backward, OutOfMemory>
    requires { bytes_a_node * f.now.nodes ≤ most_code }
    ensures lines { IfOk result (λ lines. code_of_lines (uses_heap f.now.body) lines ≡
        code_of f.now places.now frame.now) }
    ensures few { IfOk result (λ lines. length lines < 2 ^ 32) }
{
    let needs = needs_of(alloc, f)?;
    let near = Homes {
        frame,
        places,
        needs: &needs,
        near: true,
    };
    let lines = planned(alloc, f, &near)?;
    if lines.len() < BRANCH_REACH {
        return Ok(lines);
    }
    let far = Homes {
        frame,
        places,
        needs: &needs,
        near: false,
    };
    planned(alloc, f, &far)
}

/// The code of a function whose temporaries lie in these places, with this frame. A jump reaches over all of it.
pub fn select(alloc: Global, f: &TacFn, places: &Places, frame: &Frame) -> Result<Code, OutOfMemory>
    requires { bytes_a_node * f.now.nodes ≤ most_code }
    ensures code { IfOk result (λ code. code ≡ code_of f.now places.now frame.now) }
    ensures light { IfOk result (λ code. length code.instrs ≤ entry_weight f.now.params + weight f.now.body) }
    ensures rules { IfOk result IsCode }
{
    let lines = chosen(alloc, f, places, frame)?;
    let _tree = f.tree();
    Ok(Code::new(read(alloc, lines, f.uses_heap())?))
}
