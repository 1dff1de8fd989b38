ghost use Rattle.sc_tac.specs.Prelude.{AreCovering, Point, function_points, interval_of, intervals_of};
ghost use Rattle.std.specs.Prelude.{◌≡◌, ◌<◌, ◌+◌, ◌^◌, ℕ, List, None, IfOk, slice_get};
ghost use Rattle.std.specs.Option.{unwrap_or};
ghost use Rattle.sc_live.specs.Walks.{Holds, interval_at};

use crate::live::LiveSet;
use crate::marks::Mark;
use crate::walk::{Exits, Walk};
use sc_base::OutOfMemory;
use sc_tac::{Interval, Intervals, TacFn};
use sqlite_items::Items;
use std::alloc::Global;

// What is known of a temporary.
fn known(walk: &Walk, temp: u32) -> Option<Mark>
    ensures { result ≡ unwrap_or (slice_get walk.now.marks temp) None }
{
    match walk.marks.get(temp as usize) {
        Some(known) => *known,
        None => None,
    }
}

// From what is known among all points of a function. A temporary that is never used has a point behind the code.
fn interval_at(points: u32, temp: u32, known: Option<Mark>) -> Interval
    requires { points + temp < 2 ^ 32 }
    ensures { result ≡ interval_at temp points known }
{
    match known {
        None => Interval {
            temp,
            first: points + temp,
            last: points + temp,
            spans_call: false,
        },
        Some(mark) => {
            let first = points.saturating_sub(1);
            Interval {
                temp,
                first: first.saturating_sub(mark.first),
                last: first.saturating_sub(mark.last),
                spans_call: mark.spans_call,
            }
        }
    }
}

// The interval of a temporary, from a walk over all points.
fn interval(walk: &Walk, temp: u32) -> Interval
    requires { walk.now.points + temp < 2 ^ 32 }
    ensures { (temps : ℕ) (points : List Point) → Holds temps walk.now points → temp < temps →
        result ≡ interval_of points temp }
{
    interval_at(walk.points, temp, known(walk, temp))
}

// Back from the end of a function's code to its start.
fn walked(alloc: Global, f: &TacFn) -> Result<Walk, OutOfMemory>
    ensures holds { IfOk result (λ walk. Holds f.now.temps walk (function_points f.now)) }
    ensures few { IfOk result (λ walk. walk.points + f.now.temps < 2 ^ 32) }
{
    let tree = f.tree();
    let nothing = LiveSet::new(alloc);
    let exits = Exits {
        broken: &nothing,
        continued: &nothing,
    };
    let mut walk = Walk::new(alloc, tree.temps)?;
    walk.row(alloc, exits, &tree.body)?;
    Ok(walk)
}

/// The least intervals of a function's temporaries, in one walk back through its code.
pub fn intervals(alloc: Global, f: &TacFn) -> Result<Intervals, OutOfMemory>
    ensures least { IfOk result (λ intervals. intervals ≡ intervals_of f.now) }
    ensures covering { IfOk result (AreCovering (function_points f.now)) }
{
    let walk = walked(alloc, f)?;
    let temps = f.tree().temps;
    let mut list = Items::from_vec(Vec::with_capacity(alloc, temps as usize)?);
    for temp in 0..temps {
        list.push(interval(&walk, temp))?;
    }
    Ok(Intervals::new(list))
}
