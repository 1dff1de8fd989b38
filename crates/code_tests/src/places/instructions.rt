// The machine code of whole programs, function by function, beside its bounds.
use crate::places::frames::lay_out;
use code_texts::{PROGRAMS, lowered};
use rv_code::{Instr, decode, encode};
use sc_base::OutOfMemory;
use sc_emit_select::select;
use sc_tac::{Tac, TacFn};
use std::alloc::Global;
use std::test::Fail;

// The most nodes of a function whose jumps reach over all of its code.
const MOST_NODES: u32 = 10_922;

/// The machine code of a function, counted, and its bounds.
#[derive(Clone, Copy)]
struct Counted {
    words: usize,
    weight: u32,
    branches: usize,
    most_branches: u32,
    // Each of its instructions is one that code may have.
    fits: bool,
}

impl Counted {
    fn is_within(&self) -> bool {
        self.fits
            && self.words as u64 <= u64::from(self.weight)
            && self.branches as u64 <= u64::from(self.most_branches)
    }
}

fn is_branch(instr: &Instr) -> bool {
    match instr {
        Instr::Branch { .. } => true,
        _ => false,
    }
}

// An instruction is a word that is read as that instruction, and it isn't the one that ends a run by a fault.
fn is_word(instr: &Instr) -> bool {
    *instr != Instr::Ebreak && decode(encode(*instr)) == Some(*instr)
}

// The machine code of a function, if the function is small enough to have some.
fn counted_in(alloc: Global, function: &TacFn) -> Result<Option<Counted>, OutOfMemory> {
    if function.tree().nodes > MOST_NODES {
        return Ok(None);
    }
    let Some(laid) = lay_out(alloc, function)? else {
        return Ok(None);
    };
    let code = select(alloc, function, &laid.places, &laid.frame)?;
    let instrs = code.tree().instrs.as_slice();
    Ok(Some(Counted {
        words: instrs.len(),
        weight: function.weight(),
        branches: instrs.iter().filter(|instr| is_branch(instr)).count(),
        most_branches: function.branches(),
        fits: instrs.iter().all(is_word),
    }))
}

// The machine code of each function, if each is small enough.
fn all_counted(alloc: Global, code: &Tac) -> Result<Option<Vec<Counted>>, OutOfMemory> {
    let mut found = Vec::new(alloc);
    for section in code.tree().sections.as_slice() {
        for function in section.functions.as_slice() {
            match counted_in(alloc, function)? {
                None => return Ok(None),
                Some(counted) => found.push(counted)?,
            }
        }
    }
    Ok(Some(found))
}

#[test]
fn words_are_within_their_bounds(rt: HostRuntime) -> Result<(), Fail> {
    for text in PROGRAMS {
        let code = lowered(rt.alloc(), text)?;
        let all = all_counted(rt.alloc(), &code)?.expect(&rt, "frames that fit");
        for counted in all.as_slice() {
            let (words, weight) = (counted.words, counted.weight);
            let _ = println!(rt; "{words} words, weight {weight}");
            assert!(rt; counted.is_within());
        }
    }
    Ok(())
}
