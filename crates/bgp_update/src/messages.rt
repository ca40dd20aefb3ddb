// The messages of a stream.
ghost use Rattle.std.specs.Prelude.{◌≡◌, [], ◌∷◌, ◌+◌, length, IfSome, IfNone, IfOk};
ghost use Rattle.xb_wire.specs.Messages.{HasMessageLength};
ghost use Rattle.bgp_update.specs.Walks.{messages_from};
ghost use Rattle.bgp_update.specs.Views.{message_step_view};

use std::marker::Model;
use xb_wire::numbers::HEADER;
use xb_wire::{Next, front_of};

/// A message of a stream: the offset of its first octet, its type (1 OPEN, 2 UPDATE, 3 NOTIFICATION, 4 KEEPALIVE), and
/// the octets after its header.
#[derive(Clone, Copy, Debug, PartialEq, Eq)]
pub struct Msg<'a> {
    pub at: usize,
    pub kind: u8,
    pub body: &'a [u8],
}

/// The messages of a stream, in order. Contracts see the steps that are still to come.
#[derive(Drop)]
pub struct Messages<'a> {
    at: usize,
    rest: &'a [u8],
}

impl<'a> Model for Messages<'a> {
    ghost use Rattle.std.specs.Prelude.{ℕ, List, Result, length, ◌+◌, ◌<◌, ◌^◌};
    ghost use Rattle.bgp_update.specs.Walks.{messages_from, FoundMessage};

    ghost Value = { List (Result FoundMessage ℕ) };

    ghost view = { λ m. messages_from m.at m.rest.now };

    ghost invariant = { λ m. m.at + length m.rest.now < 2 ^ 64 };
}

impl<'a> Messages<'a> {
    /// The messages of the stream `bytes`.
    pub fn new(bytes: &'a [u8]) -> Messages<'a>
        ensures { result ≡ messages_from 0 bytes.now }
    {
        Messages { at: 0, rest: bytes }
    }

    /// The next message, or the offset of a header that is refused or of octets that are no whole message. Nothing
    /// comes after such an error.
    #[tactic(auto, using(crate::proofs::WalkLemmas::message_steps))]
    pub fn next(&mut self) -> Option<Result<Msg<'a>, usize>>
        ensures item { IfSome result (λ r. self.old ≡ message_step_view r ∷ self.new) }
        ensures sized { IfSome result (λ r. IfOk r (λ m. HasMessageLength m.kind (HEADER + length m.body.now))) }
        ensures end { IfNone result ((self.old ≡ []) × (self.new ≡ [])) }
    {
        if self.rest.is_empty() {
            return None;
        }
        let at = self.at;
        match front_of(self.rest) {
            Next::Whole { kind, len } => {
                let (message, rest) = self.rest.split_at(usize::from(len));
                self.at += usize::from(len);
                self.rest = rest;
                let body = message.split_at(HEADER).1;
                Some(Ok(Msg { at, kind, body }))
            }
            Next::More | Next::Fault(_) => {
                self.rest = &[];
                Some(Err(at))
            }
        }
    }
}
