ghost use Rattle.std.specs.Prelude.{◌≡◌};
ghost use Rattle.sc_tac.specs.Frames.{IsFrame};

use sqlite_items::Items;
use std::marker::Model;

/// Offsets from the stack pointer, in bytes.
pub type Offsets = Items<u32>;

/// What a frame is made of. The return address stands at offset 0.
#[derive(Drop)]
pub struct FrameTree {
    /// How many bytes it takes.
    pub bytes: u32,
    /// Where the object of each variable begins, parameters first.
    pub objects: Offsets,
    /// Where each slot begins.
    pub slots: Offsets,
}

/// The frame of a function: only words stand in it.
#[derive(Drop)]
pub struct Frame {
    tree: FrameTree,
}

impl Model for Frame {
    ghost use Rattle.sc_tac.specs.declared.frame.FrameTree.{FrameTree};
    ghost use Rattle.sc_tac.specs.Frames.{IsFrame};

    ghost Value = { FrameTree };

    ghost view = { λ frame. frame.tree };

    ghost invariant = { λ frame. IsFrame frame.tree };
}

impl Frame {
    /// The frame that is made of this.
    pub fn new(tree: FrameTree) -> Frame
        requires { IsFrame tree }
        ensures { result ≡ tree }
    {
        Frame { tree }
    }

    /// What the frame is made of.
    pub fn tree(&self) -> &FrameTree
        ensures tree { result.now ≡ self.now }
        ensures rules { IsFrame self.now }
    {
        &self.tree
    }
}
