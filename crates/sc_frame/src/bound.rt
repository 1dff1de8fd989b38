ghost use Rattle.sc_core.specs.Prelude.{most_frame};
ghost use Rattle.sc_core.specs.Prelude.{frame_bound};
ghost use Rattle.std.specs.Prelude.{◌≤◌, ◌↔◌, IsTrue};

use sc_tac::TacFn;

/// A frame has 64 bytes and at most 4 more for each cell and node: 8,176 of these fit into 32,768 bytes.
const MOST: u32 = 8176;

/// Whether the frame of a function fits: it takes at most 32,768 bytes, so that two of them fit into a stack.
pub fn fits(f: &TacFn) -> bool
    ensures { IsTrue result ↔ (frame_bound f.now.objects f.now.nodes ≤ most_frame) }
{
    let f = f.tree();
    let mut sum = f.nodes;
    for cells in f.objects.as_slice() {
        if sum > MOST || *cells > MOST {
            return false;
        }
        sum += *cells;
    }
    sum <= MOST
}
