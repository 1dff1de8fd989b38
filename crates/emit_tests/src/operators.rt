// Each operator between words, over each kind of place of its operands and of its result, which may lie where an
// operand lies.

ghost use Rattle.emit_tests.specs.Made.{operating, operation, operations};
ghost use Rattle.std.specs.Prelude.{◌≡◌, [], ◌∷◌, IfOk, Some, codes};

use crate::arithmetic::binary;
use crate::placing::{Choice, FIRST_SLOTS};
use crate::runs::{Task, emits};
use sc_base::{BinaryOp, Name, OutOfMemory};
use sc_core::{TypedGlobals, TypedStructs};
use sc_event::{
    CompId, Entry, Import, Imports, Interface, InterfaceList, Interfaces, Protos, Scalar,
};
use sc_tac::Place::{self, Register, Slot};
use sc_tac::{
    ObjectCells, TacFn, TacFnTree, TacFns, TacOp, TacSection, TacSections, TacStmt, TacStmts,
    TacTree,
};
use std::alloc::Global;
use std::test::Fail;

// Two inputs, what an operator gives on them, and that copied and output.
fn operation(alloc: Global, op: BinaryOp, scalar: Scalar) -> Result<TacStmts, OutOfMemory>
    ensures { IfOk result (λ stmts. stmts ≡ operation op scalar) }
{
    let mut stmts = TacStmts::new(alloc);
    stmts.push(TacStmt::Input { dest: Some(0) })?;
    stmts.push(TacStmt::Input { dest: Some(1) })?;
    stmts.push(TacStmt::Op {
        dest: 2,
        op: TacOp::Binary { op, scalar },
        left: 0,
        right: Some(1),
    })?;
    stmts.push(TacStmt::Copy { dest: 3, from: 2 })?;
    stmts.push(TacStmt::Output { value: 3 })?;
    Ok(stmts)
}

// The same again and again.
fn operations(alloc: Global, op: BinaryOp, scalar: Scalar) -> Result<TacStmts, OutOfMemory>
    ensures { IfOk result (λ stmts. stmts ≡ operations op scalar) }
{
    let mut stmts = TacStmts::new(alloc);
    stmts.push(TacStmt::Loop {
        head: TacStmts::new(alloc),
        body: operation(alloc, op, scalar)?,
        next: TacStmts::new(alloc),
    })?;
    Ok(stmts)
}

#[tactic(auto, unfolding(sc_base::specs::Identifier::is_name))]
fn main_name() -> Name
    ensures { result ≡ codes "main" }
{
    Name::new(b"main").unwrap()
}

#[tactic(auto, unfolding(sc_base::specs::Identifier::is_name))]
fn comp_name() -> Name {
    Name::new(b"M").unwrap()
}

#[tactic(auto, using(crate::proofs::Made::is_function))]
fn operating(alloc: Global, op: BinaryOp, scalar: Scalar) -> Result<TacFn, OutOfMemory>
    ensures { IfOk result (λ function. function ≡ operating op scalar) }
{
    let body = operations(alloc, op, scalar)?;
    Ok(TacFn::new(TacFnTree {
        comp: CompId::first(),
        name: main_name(),
        entry: Some(Entry::Main),
        params: 0,
        result: true,
        temps: 4,
        objects: ObjectCells::new(alloc),
        nodes: 4,
        body,
    }))
}

// One compartment that may read inputs and output.
fn one_compartment(alloc: Global) -> Result<Interfaces, OutOfMemory> {
    let mut imports = Imports::new(alloc);
    imports.push(Import::Input)?;
    imports.push(Import::Output)?;
    let mut comps = InterfaceList::new(alloc);
    comps.push(Interface {
        name: comp_name(),
        exports: Protos::new(alloc),
        imports,
    })?;
    Ok(Interfaces {
        comps,
        main: CompId::first(),
    })
}

// A program whose `main` computes an operator again and again.
fn program(alloc: Global, op: BinaryOp, scalar: Scalar) -> Result<TacTree, OutOfMemory> {
    let mut functions = TacFns::new(alloc);
    functions.push(operating(alloc, op, scalar)?)?;
    let mut sections = TacSections::new(alloc);
    sections.push(TacSection {
        structs: TypedStructs::new(alloc),
        globals: TypedGlobals::new(alloc),
        functions,
    })?;
    Ok(TacTree {
        interfaces: one_compartment(alloc)?,
        sections,
    })
}

// Where the operands, the result and its copy lie. Each slot lies near the stack pointer in some choices and far from
// it in others.
fn choices(alloc: Global) -> Result<Vec<Choice>, OutOfMemory> {
    let mut choices = Vec::new(alloc);
    for number in 0..24usize {
        let (left, right) = OPERAND_PLACES[number / 6];
        let result = RESULT_PLACES[number % 6];
        choices.push(Choice {
            places: [left, right, result, copy_of(result)],
            first_slot: FIRST_SLOTS[(number + number / 6) % 3],
        })?;
    }
    Ok(choices)
}

const OPERAND_PLACES: [(Place, Place); 4] = [
    (Register(0), Register(1)),
    (Register(0), Slot(1)),
    (Slot(0), Register(1)),
    (Slot(0), Slot(1)),
];

const RESULT_PLACES: [Place; 6] = [
    Register(0),
    Register(1),
    Register(17),
    Slot(0),
    Slot(1),
    Slot(2),
];

fn copy_of(place: Place) -> Place {
    match place {
        Register(0) | Slot(0) => Slot(3),
        Register(1) | Slot(1) => Register(2),
        other => other,
    }
}

const OPERATORS: [BinaryOp; 18] = [
    BinaryOp::OrElse,
    BinaryOp::AndAlso,
    BinaryOp::BitOr,
    BinaryOp::BitXor,
    BinaryOp::BitAnd,
    BinaryOp::Equal,
    BinaryOp::NotEqual,
    BinaryOp::Less,
    BinaryOp::Greater,
    BinaryOp::LessEqual,
    BinaryOp::GreaterEqual,
    BinaryOp::ShiftLeft,
    BinaryOp::ShiftRight,
    BinaryOp::Add,
    BinaryOp::Sub,
    BinaryOp::Mul,
    BinaryOp::Div,
    BinaryOp::Rem,
];

// Pairs of operands: of each sign, equal and different, and those for which C gives no result to some operators.
const PAIRS: [(i32, i32); 8] = [
    (7, 3),
    (-7, 3),
    (3, -7),
    (-9, -9),
    (0, 0),
    (5, 0),
    (i32::MIN, -1),
    (0x1234_5678, 36),
];

// Each pair is two inputs and an output.
const EVENTS: u32 = 24;

const KINDS: &[u8] = b"iioiioiioiioiioiioiioiio";

// What is read.
fn inputs(alloc: Global) -> Result<Vec<i32>, OutOfMemory> {
    let mut inputs = Vec::new(alloc);
    for (left, right) in PAIRS {
        inputs.push(left)?;
        inputs.push(right)?;
    }
    Ok(inputs)
}

// Each pair, and what the operator gives on it.
fn words(alloc: Global, op: BinaryOp, scalar: Scalar) -> Result<Vec<u32>, OutOfMemory> {
    let mut words = Vec::new(alloc);
    for (left, right) in PAIRS {
        let (left, right) = (left.cast_unsigned(), right.cast_unsigned());
        words.push(left)?;
        words.push(right)?;
        words.push(binary(op, scalar, left, right))?;
    }
    Ok(words)
}

// Whether the machine outputs what an operator gives on each pair, wherever its operands and results lie.
fn is_right(alloc: Global, op: BinaryOp, scalar: Scalar, choices: &[Choice]) -> Result<bool, Fail> {
    let program = program(alloc, op, scalar)?;
    let (inputs, words) = (inputs(alloc)?, words(alloc, op, scalar)?);
    let task = Task {
        program: &program,
        inputs: inputs.as_slice(),
        events: EVENTS,
        kinds: KINDS,
        words: words.as_slice(),
    };
    emits(alloc, &task, choices)
}

#[test]
fn operators_give_what_they_mean(rt: HostRuntime) -> Result<(), Fail> {
    let choices = choices(rt.alloc())?;
    for op in OPERATORS {
        for scalar in [Scalar::Int, Scalar::Unsigned] {
            assert!(rt; is_right(rt.alloc(), op, scalar, choices.as_slice())?);
        }
    }
    Ok(())
}
