ghost use Rattle.std.specs.Prelude.{◌≡◌};
ghost use Rattle.sc_tac.specs.MachineCode.{IsCode};

use rv_code::Instr;
use sc_event::CompId;
use sqlite_items::Items;
use std::marker::Model;

/// What an instruction refers to whose address the linker knows.
#[derive(Clone, Copy, Debug, PartialEq, Eq)]
pub enum Target {
    /// A function of the section, by its number.
    Function(u32),
    /// An export of a compartment, by its index.
    Entry(CompId, u16),
    /// A global of the section, by its number.
    Global(u32),
}

/// An instruction that refers to a target, by its number in the code.
#[derive(Clone, Copy, Debug, PartialEq, Eq)]
pub struct Relocation {
    pub at: u32,
    pub target: Target,
}

/// Instructions in order.
pub type Instrs = Items<Instr>;

/// Relocations in the order of their instructions.
pub type Relocations = Items<Relocation>;

/// What the code of a function is made of.
#[derive(Drop)]
pub struct CodeTree {
    pub instrs: Instrs,
    pub relocations: Relocations,
    /// Whether it uses the heap.
    pub heap: bool,
}

/// The code of a function, whose relocations stand at instructions that the linker can complete: a JAL for a function,
/// and a LUI with an instruction after it that adds the low 12 bits for an entry or a global.
#[derive(Drop)]
pub struct Code {
    tree: CodeTree,
}

impl Model for Code {
    ghost use Rattle.sc_tac.specs.declared.machine_code.CodeTree.{CodeTree};
    ghost use Rattle.sc_tac.specs.MachineCode.{IsCode};

    ghost Value = { CodeTree };

    ghost view = { λ code. code.tree };

    ghost invariant = { λ code. IsCode code.tree };
}

impl Code {
    /// The code that is made of this.
    pub fn new(tree: CodeTree) -> Code
        requires { IsCode tree }
        ensures { result ≡ tree }
    {
        Code { tree }
    }

    /// What the code is made of.
    pub fn tree(&self) -> &CodeTree
        ensures tree { result.now ≡ self.now }
        ensures rules { IsCode self.now }
    {
        &self.tree
    }
}
