// Tables of numbers by places, with room for as many as will be needed: 0 past their ends.

ghost use Rattle.std.specs.Prelude.{◌≡◌, ◌<◌, ◌==◌, ℕ, if◌then◌else◌, slice_index, vec_capacity};
ghost use Rattle.std.specs.Prelude.{◌≤◌, IfNone, IfSome};

/// The number of a place.
#[inline(always)]
pub(crate) fn number_at(table: &[u32], place: usize) -> u32
    ensures { result ≡ slice_index table.now place }
{
    if place < table.len() {
        return table[place];
    }
    0
}

/// Gives a place another number.
#[tactic(auto, using(crate::proofs::Blocks::set_index, crate::proofs::Blocks::with_zero))]
pub(crate) fn put(table: &mut Vec<u32>, place: usize, number: u32)
    requires { place < vec_capacity table.old }
    ensures numbers { (k : ℕ) →
        slice_index table.new.items k ≡ if k == place then number else slice_index table.old.items k }
    ensures capacity { vec_capacity table.old ≤ vec_capacity table.new }
{
    while table.len() <= place {
        table.push(0).unwrap();
    }
    table[place] = number;
}

/// The first place from one on whose number isn't below this one.
pub(crate) fn first_from(table: &[u32], from: usize, least: u32) -> Option<usize>
    requires { 0 < least }
    ensures from { IfSome result (λ place. from ≤ place) }
    ensures found { IfSome result (λ place. least ≤ slice_index table.now place) }
    ensures first { IfSome result (λ place. (k : ℕ) → from ≤ k → k < place → slice_index table.now k < least) }
    ensures none { IfNone result ((k : ℕ) → from ≤ k → slice_index table.now k < least) }
{
    for place in from..table.len() {
        if table[place] >= least {
            return Some(place);
        }
    }
    None
}
