ghost use Rattle.sc_tac.specs.Prelude.{is_one, one_or_none};
ghost use Rattle.std.specs.Prelude.{◌≡◌, ◌==◌, ◌||◌, ℕ, slice_get};
ghost use Rattle.sc_live.specs.Marks.{is_met, mark_to, marked};

use crate::live::LiveSet;
use sqlite_items::Items;

/// Where a temporary is used, from one point to another, each named by how many points follow it.
#[derive(Clone, Copy)]
pub struct Mark {
    pub first: u32,
    pub last: u32,
    /// Whether a function is called at a point of it.
    pub spans_call: bool,
}

/// What is known of each temporary: where it is used, if it is.
pub type Marks = Items<Option<Mark>>;

/// A point: how many follow it, the nearest from it at which a function is called, and how far those that are used at
/// it are used at least.
#[derive(Clone, Copy)]
pub struct Here {
    pub at: u32,
    pub call: Option<u32>,
    pub end: u32,
}

fn is_met(call: Option<u32>, last: u32) -> bool
    ensures { result ≡ is_met call last }
{
    match call {
        None => false,
        Some(call) => last <= call,
    }
}

// From a point on: to its end, or to the end of what is known if that is further.
fn mark_to(here: Here, known: Option<Mark>) -> Mark
    ensures { result ≡ mark_to here.at here.call here.end known }
{
    let last = match known {
        None => here.end,
        Some(later) => later.last.min(here.end),
    };
    Mark {
        first: here.at,
        last,
        spans_call: is_met(here.call, last),
    }
}

// One temporary is used here.
fn mark_one(marks: &mut Marks, here: Here, temp: u32)
    ensures { (t : ℕ) → slice_get marks.new t ≡
        marked here.at here.call here.end (temp == t) (slice_get marks.old t) }
{
    let at = temp as usize;
    if let Some(known) = marks.get(at) {
        let mark = mark_to(here, *known);
        marks.set(at, Some(mark));
    }
}

// These temporaries are used here.
fn mark_all(marks: &mut Marks, here: Here, temps: &[u32])
    ensures { (t : ℕ) → slice_get marks.new t ≡
        marked here.at here.call here.end (is_one t temps.now) (slice_get marks.old t) }
{
    for temp in temps {
        mark_one(marks, here, *temp);
    }
}

/// The temporary that is assigned here, and those that are live, are used here.
pub fn mark_used(marks: &mut Marks, here: Here, assigned: Option<u32>, live: &LiveSet)
    ensures { (t : ℕ) → slice_get marks.new t ≡
        marked here.at here.call here.end (is_one t (one_or_none assigned) || is_one t live.now)
        (slice_get marks.old t) }
{
    if let Some(temp) = assigned {
        mark_one(marks, here, temp);
    }
    mark_all(marks, here, live.as_slice());
}
