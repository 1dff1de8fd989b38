//! Calls of the environment that take blocks from the compartment's zone, and that give them back.
#![tactic(auto, unfolding(sc_image::specs::Step::execute_by))]

ghost use Rattle.sc_machine.specs.Prelude.{Goes, IsReady, LeavesSound, ByteMemory, StaysSound, a0, a1, frees, has_heap};
ghost use Rattle.sc_machine.specs.Prelude.{next, on_alloc, outcome_of, reg, state_in, zone_address, zone_start};
ghost use Rattle.sc_zone.specs.Prelude.{zone_words};
ghost use Rattle.std.specs.Prelude.{IfNone, IfSome, IsTrue, ℕ, ◌*◌, ◌+◌, ◌<◌, ◌^◌, ◌≡◌, ◌≢◌, ◌≤◌};

use crate::hart::Hart;
use crate::here::Here;
use sc_base::TrapReason;
use sc_event::CompId;
use sc_image::layout::{A0, A1, zone_start};

/// Takes a0 times a1 words from the zone. The address of the new block comes into a0, and 0 where no place is free for
/// it.
pub(crate) fn alloc(here: &Here<'_>, hart: &mut Hart)
    requires pc { hart.old.core.pc + 4 < 2 ^ 32 }
    requires ready { IsReady here.now hart.old }
    requires heap { IsTrue (has_heap here.now.image here.now.comp) }
    ensures state { (memory : ByteMemory) → let state = state_in memory hart.old in
        Goes (state_in memory hart.new) ≡ next (on_alloc state (reg state a0 * reg state a1)) }
    ensures stays { StaysSound here.now.image hart.old hart.new }
{
    let count = hart.core.registers[A0];
    let words = hart.core.registers[A1];
    let place = hart
        .zones
        .alloc(here.comp(), u64::from(count) * u64::from(words));
    hart.core.registers[A0] = address_of(here.comp(), place);
    hart.core.advance();
}

/// Gives back the block at the address in a0, if that isn't 0. A trap changes nothing.
pub(crate) fn free(here: &Here<'_>, hart: &mut Hart) -> Result<(), TrapReason>
    requires pc { hart.old.core.pc + 4 < 2 ^ 32 }
    requires ready { IsReady here.now hart.old }
    requires heap { IsTrue (has_heap here.now.image here.now.comp) }
    ensures outcome { (memory : ByteMemory) → let state = state_in memory hart.old in
        outcome_of result (state_in memory hart.new) ≡ frees state (reg state a0) }
    ensures leaves { LeavesSound here.now.image result hart.old hart.new }
{
    let address = hart.core.registers[A0];
    if address == 0 {
        hart.core.advance();
        return Ok(());
    }
    let Some(place) = place_at(here.comp(), address) else {
        return Err(TrapReason::BadFree);
    };
    if !hart.zones.free(here.comp(), place) {
        return Err(TrapReason::BadFree);
    }
    hart.core.advance();
    Ok(())
}

/// The address of a place in the compartment's zone, and 0 for none.
fn address_of(comp: CompId, place: Option<u32>) -> u32
    requires { IfSome place (λ place. place ≤ zone_words) }
    ensures { result ≡ zone_address comp place }
{
    match place {
        Some(place) => zone_start(comp) + 4 * place,
        None => 0,
    }
}

/// The place in the compartment's zone at an address. There may be none of that number.
fn place_at(comp: CompId, address: u32) -> Option<u32>
    ensures some { IfSome result (λ place. zone_start comp + 4 * place ≡ address) }
    ensures none { IfNone result ((place : ℕ) → zone_start comp + 4 * place ≢ address) }
{
    if address < zone_start(comp) {
        return None;
    }
    let offset = address - zone_start(comp);
    if offset % 4 != 0 {
        return None;
    }
    Some(offset / 4)
}
