//! Tests of the crates of BGP that cross crates, and tests that those crates would otherwise have themselves: a session
//! that comes up and expires, messages that come in pieces, messages as they are written, and what `bgp_write` writes,
//! read again by `bgp_frame`, `bgp_open` and `bgp_check`, whatever the pieces are in which it comes.
//!
//! The functions, here and in [`refusing`], are small callers, whose proofs show that the contracts of those crates fit
//! together.
#![tactic(auto)]

ghost use Rattle.std.specs.Prelude.{◌≡◌, None, IfSome};
ghost use Rattle.bgp_open.specs.Opens.{judge_open4};

use bgp_frame::{Frames, Next};
use bgp_open::{OpenSeen4, OpenWant, read_open4};
use xb_wire::numbers::OPEN;

pub mod refusing;

/// Removes the first message that waits, and returns what it says if it is an OPEN that is accepted.
pub fn next_open(frames: &mut Frames, want: &OpenWant) -> Option<OpenSeen4>
    ensures { IfSome result (λ o. judge_open4 frames.new.body want.now.peer_as ≡ None) }
{
    match frames.next() {
        Next::Whole { kind: OPEN, .. } => read_open4(frames.body(), want).ok(),
        _ => None,
    }
}

#[cfg(test)]
mod tests;
