//! Laws of the meaning: what holds of all denotations that are interaction trees, whatever their functions are written
//! in, and so of every program.
#![tactic(auto)]

mod laws;

pub use laws::{
    agreeing_run_alike, blame_is_passed, blame_remains, blamed_are_there, blamed_stand_active,
    chain_exists, chain_is_least, chains_rise, deepest_is_reached, depths_are_kept,
    empty_set_is_meaning, fixed_point, meaning_goes_on, more_goes_on, more_may_perform,
    nobody_who_performs_is_blamed, only_goes_on, other_lines_agree, programs_obey,
    promising_run_alike, traces_are_legal, turns_out_means_turns, wrapped_agrees, wrapping_agrees,
};
