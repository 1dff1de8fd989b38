// Every set of a program's compartments, in the places of whose sections those stand that perform a trace.
use chain_texts::{EVENTS, FIRST, STEPS, generated};
use sc_chain::{explain, replaced};
use sc_core::{Explanation, Link};
use sc_event::legal;
use sc_run::run_source;
use sc_types::SourceText;
use second_meaning::CompSet;
use std::alloc::Global;
use std::test::Fail;

fn has_all(set: CompSet, links: &[Link]) -> bool {
    for link in links {
        if !set.has(link.comp) {
            return false;
        }
    }
    true
}

// Whether the text in which a set performs means the trace exactly where the set has the chain's compartments.
fn agrees_with_chain(
    alloc: Global,
    source: &SourceText,
    explanation: &Explanation,
    set: CompSet,
) -> Result<bool, Fail> {
    let interfaces = &source.program().tree().interfaces;
    let trace = explanation.trace.as_slice();
    if trace.len() > 4096 || !legal(interfaces, trace) {
        return Ok(false);
    }
    let comps = set.members(alloc, interfaces.comps.len())?;
    let text = replaced(alloc, source, trace, comps.as_slice())?;
    let run = run_source(alloc, text.program(), &[], STEPS, trace.len() as u32)?;
    let gives = run.trace.as_slice() == trace;
    Ok(gives == has_all(set, explanation.links.as_slice()))
}

// Whether that is so for all sets of the compartments of a program, of which there are at most four.
fn sets_agree_with_chain(alloc: Global, seed: u32) -> Result<bool, Fail> {
    let bytes = generated(alloc, seed)?;
    let Ok(source) = SourceText::read(alloc, bytes.as_bytes()) else {
        return Ok(false);
    };
    let Ok(explanation) = explain(alloc, &source, &[], STEPS, EVENTS) else {
        return Ok(false);
    };
    for set in CompSet::all(alloc, source.program().tree().interfaces.comps.len())? {
        if !agrees_with_chain(alloc, &source, &explanation, set)? {
            return Ok(false);
        }
    }
    Ok(true)
}

// Whether that is so for `count` programs from seed `first` on.
fn all_sets_agree_with_chain(alloc: Global, first: u32, count: u32) -> Result<bool, Fail> {
    for number in 0..count {
        if !sets_agree_with_chain(alloc, first.wrapping_add(number))? {
            return Ok(false);
        }
    }
    Ok(true)
}

// A part of the programs, of which each set is looked at.
fn part(alloc: Global, number: u32) -> Result<bool, Fail> {
    all_sets_agree_with_chain(alloc, FIRST.wrapping_add(number.wrapping_mul(65)), 65)
}

#[test]
fn a_set_gives_the_trace_where_it_has_the_chain(rt: HostRuntime) -> Result<(), Fail> {
    assert!(rt; part(rt.alloc(), 0)?);
    Ok(())
}

#[test]
fn a_second_part_agrees_with_the_chains(rt: HostRuntime) -> Result<(), Fail> {
    assert!(rt; part(rt.alloc(), 1)?);
    Ok(())
}

#[test]
fn a_third_part_agrees_with_the_chains(rt: HostRuntime) -> Result<(), Fail> {
    assert!(rt; part(rt.alloc(), 2)?);
    Ok(())
}

#[test]
fn a_fourth_part_agrees_with_the_chains(rt: HostRuntime) -> Result<(), Fail> {
    assert!(rt; part(rt.alloc(), 3)?);
    Ok(())
}
