//! Octets and finite maps, the words that all crates above share.
//!
//! Numbers are in octets in network order ([`u16_at`], [`u32_at`]). A list of octets is cut into items that follow one
//! another by a size, which says how many octets the item at the front has: messages, prefixes, attributes, segments,
//! parameters and lines are all cut by the one definition `cut`, so its laws are proved once. A finite map is the list
//! of its entries by rising key.
//!
//! The crate uses no other. It has few functions: its substance is the definitions in `specs/` and their lemmas. What
//! the items of a message mean is not here but in xb_values and the crates of the protocol.
#![tactic(auto)]

ghost use Rattle.std.specs.Prelude.{◌≡◌, ◌+◌, ◌≤◌, ◌++◌, length, take, drop, replicate, IfOk};
ghost use Rattle.xb_words.specs.Octets.{two_at, four_at};

use std::alloc::{AllocError, Global};

/// The number of the two octets at `at` and `at + 1`, the high one first (RFC 4271, section 4).
#[inline]
pub fn u16_at(octets: &[u8], at: usize) -> u16
    requires { at + 2 ≤ length octets.now }
    ensures { result ≡ two_at octets.now at }
{
    u16::from_be_bytes([octets[at], octets[at + 1]])
}

/// The number of the four octets from `at` to `at + 3`, the high one first (RFC 4271, section 4).
#[inline]
pub fn u32_at(octets: &[u8], at: usize) -> u32
    requires { at + 4 ≤ length octets.now }
    ensures { result ≡ four_at octets.now at }
{
    u32::from_be_bytes([octets[at], octets[at + 1], octets[at + 2], octets[at + 3]])
}

/// Copies `octets` over those of `out` that begin at `at`. The others stay.
#[inline]
pub fn copy_at(out: &mut [u8], at: usize, octets: &[u8])
    requires { at + length octets.now ≤ length out.old }
    ensures { out.new ≡ take at out.old ++ octets.now ++ drop (at + length octets.now) out.old }
{
    out[at..at + octets.len()].copy_from_slice(octets);
}

/// A vector of `count` zeros. The error is want of memory.
pub fn zeros(alloc: Global, count: usize) -> Result<Vec<u8>, AllocError>
    ensures { IfOk result (λ v. v.items ≡ replicate count 0) }
{
    vec![in alloc; 0u8; count]
}
