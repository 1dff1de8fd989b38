// What the program writes in each session of a document.
use crate::examples::sessions::{EXAMPLES, EXPLAIN, Input, POLICIES, TUTORIAL};
use memory_runs::Run;
use std::alloc::Global;
use std::test::Fail;

// A command, what it reads, and what it writes to both streams, of which one is empty.
#[derive(Clone, Copy)]
pub(crate) struct Session<'a> {
    pub(crate) words: &'a str,
    pub(crate) input: Input,
    pub(crate) want: &'a [u8],
}

// Whether the program writes what the session shows.
fn is_as_documented(alloc: Global, session: Session) -> Result<bool, Fail> {
    let ran = Run::new(session.words, session.input.text()).run(alloc)?;
    let (answered, silent) = if ran.status == 0 {
        (&ran.out, &ran.err)
    } else {
        (&ran.err, &ran.out)
    };
    Ok(answered.as_slice() == session.want && silent.len() == 0)
}

fn first_other(alloc: Global, sessions: &[Session]) -> Result<Option<usize>, Fail> {
    let mut number: usize = 0;
    for session in sessions {
        if !is_as_documented(alloc, *session)? {
            return Ok(Some(number));
        }
        number = number.wrapping_add(1);
    }
    Ok(None)
}

#[test]
fn the_tutorial_has_what_the_program_writes(rt: HostRuntime) -> Result<(), Fail> {
    let other = first_other(rt.alloc(), TUTORIAL)?;
    assert!(rt; other == None);
    Ok(())
}

#[test]
fn the_list_of_examples_has_what_the_program_writes(rt: HostRuntime) -> Result<(), Fail> {
    let other = first_other(rt.alloc(), EXAMPLES)?;
    assert!(rt; other == None);
    Ok(())
}

#[test]
fn the_page_on_explanations_has_what_the_program_writes(rt: HostRuntime) -> Result<(), Fail> {
    let other = first_other(rt.alloc(), EXPLAIN)?;
    assert!(rt; other == None);
    Ok(())
}

#[test]
fn the_page_on_policies_has_what_the_program_writes(rt: HostRuntime) -> Result<(), Fail> {
    let other = first_other(rt.alloc(), POLICIES)?;
    assert!(rt; other == None);
    Ok(())
}
