//! Which events a pattern is for.

ghost use Rattle.sc_event.specs.Prelude.{export_name};
ghost use Rattle.sc_monitor.specs.Matching.{argument, compares, is_comp, is_who, matches, passes, passes_arg};
ghost use Rattle.std.specs.Prelude.{◌≡◌};
ghost use Rattle.std.specs.Option.{option_copied};

use sc_event::{CompId, Event, Interfaces};
use sc_policy::{ArgTest, Compare, Pattern, Test, Who};

/// Whether the event is one of the pattern. Numbers of the event are looked up in the interfaces.
pub(crate) fn matches(interfaces: &Interfaces, pattern: &Pattern, event: &Event) -> bool
    ensures { result ≡ matches interfaces.now pattern.now event.now }
{
    match pattern {
        Pattern::Call {
            from,
            to,
            function,
            arg,
        } => match event {
            Event::Call {
                from: caller,
                to: called,
                index,
                args,
            } => {
                is_comp(interfaces, from, *caller)
                    && is_comp(interfaces, to, *called)
                    && is_who(function, export_name(interfaces, *called, *index))
                    && passes_arg(*arg, args.as_slice())
            }
            _ => false,
        },
        Pattern::Ret { from, to, test } => match event {
            Event::Ret {
                from: called,
                to: caller,
                value,
            } => {
                is_comp(interfaces, from, *called)
                    && is_comp(interfaces, to, *caller)
                    && passes(*test, *value)
            }
            _ => false,
        },
        Pattern::Out { comp: who, test } => match event {
            Event::Out { comp, value } => {
                is_comp(interfaces, who, *comp) && passes(*test, Some(*value))
            }
            _ => false,
        },
        Pattern::In { comp: who, test } => match event {
            Event::In { comp, value } => {
                is_comp(interfaces, who, *comp) && passes(*test, Some(*value))
            }
            _ => false,
        },
        Pattern::End { comp: who, test } => match event {
            Event::End { comp, value } => {
                is_comp(interfaces, who, *comp) && passes(*test, Some(*value))
            }
            _ => false,
        },
    }
}

fn is_comp(interfaces: &Interfaces, who: &Who, comp: CompId) -> bool
    ensures { result ≡ is_comp interfaces.now who.now comp }
{
    is_who(who, interfaces.comp_name(comp))
}

fn is_who(who: &Who, name: &[u8]) -> bool
    ensures { result ≡ is_who who.now name.now }
{
    match who {
        Who::Any => true,
        Who::Named(own) => own.as_bytes() == name,
    }
}

fn export_name(interfaces: &Interfaces, comp: CompId, index: u16) -> &[u8]
    ensures { result.now ≡ export_name interfaces.now comp index }
{
    match interfaces.export(comp, index) {
        None => &[],
        Some(export) => export.name.as_bytes(),
    }
}

fn passes_arg(test: Option<ArgTest>, args: &[u32]) -> bool
    ensures { result ≡ passes_arg test args.now }
{
    match test {
        None => true,
        Some(test) => passes(Some(test.test), argument(args, test.place)),
    }
}

// The argument of this number, counted from 1.
fn argument(args: &[u32], number: u8) -> Option<u32>
    ensures { result ≡ argument args.now number }
{
    let place = usize::from(number).checked_sub(1)?;
    args.get(place).copied()
}

// A value that isn't there passes no test but the one that isn't there.
fn passes(test: Option<Test>, value: Option<u32>) -> bool
    ensures { result ≡ passes test value }
{
    match test {
        None => true,
        Some(test) => match value {
            None => false,
            Some(word) => compares(test.op, word.cast_signed(), test.value),
        },
    }
}

fn compares(op: Compare, left: i32, right: i32) -> bool
    ensures { result ≡ compares op left right }
{
    match op {
        Compare::Equal => left == right,
        Compare::NotEqual => left != right,
        Compare::Less => left < right,
        Compare::LessEqual => left <= right,
        Compare::Greater => left > right,
        Compare::GreaterEqual => left >= right,
    }
}
