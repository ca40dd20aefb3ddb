// The prefixes of a part of an UPDATE.
ghost use Rattle.std.specs.Prelude.{◌≡◌, ◌≤◌, length, Some, [], ◌∷◌, IfSome, IfNone};
ghost use Rattle.xb_words.specs.Octets.{four_at};
ghost use Rattle.xb_values.specs.Prefixes.{prefix_at, prefix_size};
ghost use Rattle.bgp_update.specs.Views.{prefix_step_view};
ghost use Rattle.bgp_update.specs.Walks.{prefixes_from};

use std::marker::Model;
use xb_values::Prefix;
use xb_words::u32_at;

/// The error of octets that begin with no prefix: a length over 32, or fewer octets than it needs.
#[derive(Clone, Copy, Debug, PartialEq, Eq)]
pub struct BadPrefix;

/// The prefixes that octets write, one after another. Contracts see the steps that are still to come.
#[derive(Drop)]
pub struct Prefixes<'a> {
    rest: &'a [u8],
}

impl<'a> Model for Prefixes<'a> {
    ghost use Rattle.std.specs.Prelude.{List, Result};
    ghost use Rattle.xb_values.specs.Prefixes.{Prefix};
    ghost use Rattle.bgp_update.specs.Walks.{prefixes_from};

    ghost Value = { List (Result Prefix (Unit {0})) };

    ghost view = { λ p. prefixes_from p.rest.now };
}

// How many octets the prefix at the front has, if the octets begin with a whole one.
fn front_size(octets: &[u8]) -> Option<usize>
    ensures { result ≡ prefix_size octets.now }
{
    let [len, rest @ ..] = octets else {
        return None;
    };
    let count = (usize::from(*len) + 7) / 8;
    if *len > 32 || rest.len() < count {
        return None;
    }
    Some(1 + count)
}

// The address whose high octets are the up to four octets after a length; the others are 0.
fn address_in(octets: &[u8]) -> u32
    requires { length octets.now ≤ 5 }
    ensures { result ≡ four_at octets.now 1 }
{
    match octets {
        [_, a] => u32::from_be_bytes([*a, 0, 0, 0]),
        [_, a, b] => u32::from_be_bytes([*a, *b, 0, 0]),
        [_, a, b, c] => u32::from_be_bytes([*a, *b, *c, 0]),
        [_, a, b, c, d] => u32::from_be_bytes([*a, *b, *c, *d]),
        _ => 0,
    }
}

impl<'a> Prefixes<'a> {
    /// The prefixes that `bytes` write.
    pub fn new(bytes: &'a [u8]) -> Prefixes<'a>
        ensures { result ≡ prefixes_from bytes.now }
    {
        Prefixes { rest: bytes }
    }

    /// The next prefix, with its host bits cleared. Nothing comes after an error.
    #[tactic(auto, using(crate::proofs::WalkLemmas::prefix_steps))]
    pub fn next(&mut self) -> Option<Result<Prefix, BadPrefix>>
        ensures item { IfSome result (λ r. self.old ≡ prefix_step_view r ∷ self.new) }
        ensures end { IfNone result ((self.old ≡ []) × (self.new ≡ [])) }
    {
        if self.rest.is_empty() {
            return None;
        }
        match front_size(self.rest) {
            Some(count) => {
                let (front, rest) = self.rest.split_at(count);
                self.rest = rest;
                Some(prefix_in(front).ok_or(BadPrefix))
            }
            None => {
                self.rest = &[];
                Some(Err(BadPrefix))
            }
        }
    }
}

// The prefix that the octets of one whole prefix write.
fn prefix_in(item: &[u8]) -> Option<Prefix>
    requires { prefix_size item.now ≡ Some (length item.now) }
    ensures { result ≡ Some (prefix_at item.now) }
{
    Prefix::new(address_in(item), item[0])
}
