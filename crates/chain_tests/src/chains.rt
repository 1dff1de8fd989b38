// The chain of texts that accounts for a run, looked at from outside.
use chain_texts::{EVENTS, FIRST, STEPS, generated};
use sc_base::Text;
use sc_chain::{Replacement, explain, recompose};
use sc_core::{Explanation, Link, RunEnd, SourceRun};
use sc_event::{CompId, Event};
use sc_run::run_source;
use sc_types::SourceText;
use sqlite_items::Items;
use std::alloc::Global;
use std::test::Fail;

// The texts of these links, in the places of their compartments' sections.
fn replacements(alloc: Global, links: &[Link]) -> Result<Items<Replacement>, Fail> {
    let mut items = Items::new(alloc);
    for link in links {
        let mut text = Text::new(alloc);
        text.append(link.text.as_bytes())?;
        items.push(Replacement {
            comp: link.comp,
            text,
        })?;
    }
    Ok(items)
}

fn names(links: &[Link], comp: CompId) -> bool {
    for link in links {
        if link.comp == comp {
            return true;
        }
    }
    false
}

// Whether a compartment's section is the same in both texts.
fn same_section(source: &SourceText, text: &SourceText, comp: CompId) -> bool {
    let number = comp.number() as usize;
    if number >= source.program().tree().interfaces.comps.len() {
        return false;
    }
    if number >= text.program().tree().interfaces.comps.len() {
        return false;
    }
    source.section(comp) == text.section(comp)
}

// Whether all but the sections of the links are the source's.
fn keeps_others(source: &SourceText, text: &SourceText, links: &[Link]) -> bool {
    if source.preamble() != text.preamble() {
        return false;
    }
    let count = source.program().tree().interfaces.comps.len();
    for number in 0..CompId::LIMIT {
        let Some(comp) = CompId::new(number) else {
            return false;
        };
        if (number as usize) < count && !names(links, comp) && !same_section(source, text, comp) {
            return false;
        }
    }
    true
}

// Whether a run is blamed as the link says.
fn is_blamed_so(run: &SourceRun, trace: &[Event], link: &Link) -> bool {
    let RunEnd::Blamed { comp, cause, line } = run.end else {
        return false;
    };
    let after = run.trace.len();
    comp == link.comp
        && cause == link.cause
        && line == link.line
        && after == link.after as usize
        && after < trace.len()
        && trace.starts_with(run.trace.as_slice())
}

// Whether the text with the first links' texts is as the account says.
fn is_accounted(
    alloc: Global,
    source: &SourceText,
    explanation: &Explanation,
    count: usize,
) -> Result<bool, Fail> {
    let trace = explanation.trace.as_slice();
    if trace.len() > EVENTS as usize {
        return Ok(false);
    }
    let Some(first) = explanation.links.as_slice().get(..count) else {
        return Ok(false);
    };
    let replacements = replacements(alloc, first)?;
    let bytes = recompose(alloc, source, replacements.as_slice())?;
    let Ok(text) = SourceText::read(alloc, bytes.as_bytes()) else {
        return Ok(false);
    };
    if !keeps_others(source, &text, first) {
        return Ok(false);
    }
    let run = run_source(alloc, text.program(), &[], STEPS, trace.len() as u32)?;
    match explanation.links.as_slice().get(count) {
        Some(link) => Ok(is_blamed_so(&run, trace, link)),
        None => Ok(run.trace.as_slice() == trace),
    }
}

// How many links a program's chain has, `None` where a text of the chain isn't as the account says.
fn links_of(alloc: Global, seed: u32) -> Result<Option<usize>, Fail> {
    let bytes = generated(alloc, seed)?;
    let Ok(source) = SourceText::read(alloc, bytes.as_bytes()) else {
        return Ok(None);
    };
    let Ok(explanation) = explain(alloc, &source, &[], STEPS, EVENTS) else {
        return Ok(None);
    };
    let links = explanation.links.len();
    for count in 0..=links {
        if !is_accounted(alloc, &source, &explanation, count)? {
            return Ok(None);
        }
    }
    Ok(Some(links))
}

// How many programs have a chain with links, and with more than one.
#[derive(Clone, Copy)]
struct Tally {
    faults: u32,
    long: u32,
}

// The tally of `count` programs from seed `first` on, `None` where a text of a chain isn't as the account says.
fn counted(alloc: Global, first: u32, count: u32) -> Result<Option<Tally>, Fail> {
    let mut tally = Tally { faults: 0, long: 0 };
    for number in 0..count {
        let Some(links) = links_of(alloc, first.wrapping_add(number))? else {
            return Ok(None);
        };
        tally.faults = tally.faults.wrapping_add((links > 0) as u32);
        tally.long = tally.long.wrapping_add((links > 1) as u32);
    }
    Ok(Some(tally))
}

// Whether each chain of `count` programs is as its account says, and enough of them have links.
fn are_accounted(alloc: Global, first: u32, count: u32) -> Result<bool, Fail> {
    match counted(alloc, first, count)? {
        Some(tally) => Ok(tally.faults >= 100 && tally.long >= 30),
        None => Ok(false),
    }
}

#[test]
fn chains_account_for_what_the_machine_emits(rt: HostRuntime) -> Result<(), Fail> {
    assert!(rt; are_accounted(rt.alloc(), FIRST, 130)?);
    Ok(())
}

#[test]
fn more_chains_account_for_what_the_machine_emits(rt: HostRuntime) -> Result<(), Fail> {
    assert!(rt; are_accounted(rt.alloc(), FIRST.wrapping_add(130), 130)?);
    Ok(())
}
