//! Emission: the code of a function, which a machine follows wherever the linker puts it.
#![tactic(auto)]

ghost use Rattle.sc_core.specs.Prelude.{bytes_a_node, most_code, most_frame};
ghost use Rattle.sc_emit.specs.Prelude.{IsEmitted};
ghost use Rattle.sc_tac.specs.Prelude.{FrameFits, IsAssignment, intervals_of};
ghost use Rattle.sc_emit_select.specs.Prelude.{code_of};
ghost use Rattle.std.specs.Prelude.{◌≡◌, ◌≤◌, ◌*◌, IfOk};

use sc_base::OutOfMemory;
use sc_tac::{Code, Frame, Places, TacFn};
use std::alloc::Global;

/// The code of a function whose temporaries lie in these places, with this frame.
pub fn emit(alloc: Global, f: &TacFn, places: &Places, frame: &Frame) -> Result<Code, OutOfMemory>
    requires reach { bytes_a_node * f.now.nodes ≤ most_code }
    requires places { IsAssignment (intervals_of f.now) places.now }
    requires frame_fits { FrameFits f.now.objects places.now f.now.nodes frame.now }
    requires small { frame.now.bytes ≤ most_frame }
    ensures code { IfOk result (λ code. code ≡ code_of f.now places.now frame.now) }
    ensures emitted { IfOk result (IsEmitted f.now frame.now) }
{
    // Reading these proves that they keep their rules.
    let _function = f.tree();
    let _places = places.as_slice();
    let _frame = frame.tree();
    sc_emit_select::select(alloc, f, places, frame)
}
