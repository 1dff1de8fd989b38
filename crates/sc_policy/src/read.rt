//! The reading of a policy.

ghost use Rattle.sc_policy.specs.Lines.{lines_of};
ghost use Rattle.sc_policy.specs.Policies.{HasBadLine, IsPolicyRead};
ghost use Rattle.std.specs.Prelude.{◌≡◌, ℕ, ◌+◌, ◌<◌, ◌≤◌, ◌∷◌, [], drop, length, slice_range, slice_index};
ghost use Rattle.std.specs.Prelude.{IfNone, IfOk, IfSome, IsErrOf};

use crate::progress::Progress;
use crate::{Policy, PolicyFault};
use std::alloc::Global;

/// A policy, and the place in the bytes after the newline of its last line.
#[derive(Drop)]
pub struct PolicyRead {
    pub policy: Policy,
    pub rest: usize,
}

/// The policy with which the bytes begin. Bad bytes are refused at the first line with which no policy begins, counted
/// from 1, or at the line that would follow where the lines end too early. 4294967295 is the number of all later lines.
pub fn read_policy(alloc: Global, bytes: &[u8]) -> Result<PolicyRead, PolicyFault>
    ensures read { IfOk result (λ read. IsPolicyRead bytes.now read) }
    ensures bad { (line : ℕ) → IsErrOf result (PolicyFault.Bad line) → HasBadLine bytes.now line }
{
    let mut progress = Progress::Start;
    let mut at = 0;
    let mut line = 1u32;
    while let Some(end) = line_end(bytes, at) {
        let Some(next) = progress.after(alloc, &bytes[at..end])? else {
            return Err(PolicyFault::Bad { line });
        };
        progress = match next {
            Progress::Closed(policy) => {
                return Ok(PolicyRead {
                    policy,
                    rest: end + 1,
                });
            }
            next => next,
        };
        at = end + 1;
        line = line.saturating_add(1);
    }
    Err(PolicyFault::Bad { line })
}

// The place of the newline that ends the line which begins here, `None` where no line does.
fn line_end(bytes: &[u8], at: usize) -> Option<usize>
    requires { at ≤ length bytes.now }
    ensures within { IfSome result (λ end. (at ≤ end) × (end < length bytes.now)) }
    ensures newline { IfSome result (λ end. slice_index bytes.now end ≡ 10) }
    ensures line { IfSome result (λ end. lines_of (drop at bytes.now) ≡
        slice_range bytes.now at end ∷ lines_of (drop (end + 1) bytes.now)) }
    ensures none { IfNone result (lines_of (drop at bytes.now) ≡ []) }
{
    for end in at..bytes.len() {
        if bytes[end] == b'\n' {
            return Some(end);
        }
    }
    None
}
