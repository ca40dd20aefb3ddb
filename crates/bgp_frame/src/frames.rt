// The buffer of a stream that comes in pieces.
ghost use Rattle.std.specs.Prelude.{◌≡◌, ◌↔◌, ◌<◌, ◌≤◌, ◌+◌, ◌-◌, ◌++◌, [], length, take, drop, min, Some, IfOk};
ghost use Rattle.std.specs.Prelude.{vec_capacity};
ghost use Rattle.xb_wire.specs.Messages.{message_size, message_body};
ghost use Rattle.xb_wire.specs.Fronts.{IsNext};
ghost use Rattle.bgp_frame.specs.Waiting.{Waiting};
ghost use Rattle.bgp_frame.specs.Fronts.{after_next, HasSizedBody};

use std::alloc::{AllocError, Global};
use std::marker::Model;
use xb_wire::numbers::{HEADER, MAX_BODY, MAX_MESSAGE};
use xb_wire::{Next, front_of};

/// The most octets that wait: two of the longest messages.
pub const MAX_WAITING: usize = 2 * MAX_MESSAGE;

// Three times what may wait, so each octet is moved at most once on average.
const ROOM: usize = 3 * MAX_WAITING;

/// The messages of a stream that comes in pieces. At most 8,192 octets wait.
#[derive(Drop)]
pub struct Frames {
    octets: Vec<u8>,
    body: usize,
    start: usize,
}

// What waits begins at `start` and ends with the buffer; the last body begins at `body` and ends at `start`.
impl Model for Frames {
    ghost use Rattle.std.specs.Prelude.{slice_range, drop, vec_capacity};
    ghost use Rattle.bgp_frame.specs.Waiting.{Waiting, IsKept};

    ghost Value = { Waiting };

    ghost view = { λ f. record {
      waits = drop f.start f.octets.items;
      body = slice_range f.octets.items f.body f.start;
    } };

    ghost invariant = { λ f. IsKept f.octets.items f.body f.start (vec_capacity f.octets) };
}

// Removes the octets before the offset `from`.
fn drop_front(octets: &mut Vec<u8>, from: usize)
    requires { from ≤ length octets.old.items }
    ensures items { octets.new.items ≡ drop from octets.old.items }
    ensures capacity { vec_capacity octets.new ≡ vec_capacity octets.old }
{
    let left = octets.len() - from;
    octets.copy_within(from.., 0);
    octets.truncate(left);
}

impl Frames {
    /// Takes the memory of all later calls. It fails only if there is no memory.
    pub fn make(alloc: Global) -> Result<Frames, AllocError>
        ensures { IfOk result (λ f. f ≡ record { waits = []; body = [] }) }
    {
        Ok(Frames {
            octets: Vec::with_capacity(alloc, ROOM)?,
            body: 0,
            start: 0,
        })
    }

    /// Appends as many octets of the piece as fit, and returns how many.
    pub fn feed(&mut self, piece: &[u8]) -> usize
        ensures taken { result ≡ min (length piece.now) (MAX_WAITING - length self.old.waits) }
        ensures after { self.new ≡ record self.old { waits = self.old.waits ++ take result piece.now } }
        ensures less { (result < length piece.now) ↔ (MAX_WAITING < length self.old.waits + length piece.now) }
        ensures few { length self.new.waits ≤ MAX_WAITING }
        ensures full { result < length piece.now → length self.new.waits ≡ MAX_WAITING }
    {
        let count = piece
            .len()
            .min(MAX_WAITING - (self.octets.len() - self.start));
        if ROOM - self.octets.len() < count {
            drop_front(&mut self.octets, self.body);
            self.start -= self.body;
            self.body = 0;
        }
        let _ = self.octets.extend_from_slice(&piece[..count]);
        count
    }

    /// Removes the first message, or reports that more octets are needed, or why the first header is invalid.
    pub fn next(&mut self) -> Next
        ensures front { IsNext self.old.waits result }
        ensures after { self.new ≡ after_next self.old result }
        ensures sized { HasSizedBody result self.new.body }
        ensures short { result ≡ Next.More → length self.new.waits < MAX_MESSAGE }
    {
        match front_of(&self.octets[self.start..]) {
            Next::Whole { kind, len } => {
                self.remove_first(len);
                Next::Whole { kind, len }
            }
            Next::More => Next::More,
            Next::Fault(fault) => Next::Fault(fault),
        }
    }

    // Keeps the body of the first message; the octets after it wait.
    fn remove_first(&mut self, len: u16)
        requires { message_size self.old.waits ≡ Some len }
        ensures after { let first = take len self.old.waits in
            self.new ≡ record { waits = drop len self.old.waits; body = message_body first } }
        ensures sized { len ≡ HEADER + length self.new.body }
    {
        self.body = self.start + HEADER;
        self.start += usize::from(len);
    }

    /// The body of the message that was removed last.
    pub fn body(&self) -> &[u8]
        ensures value { result.now ≡ self.now.body }
        ensures bound { length result.now ≤ MAX_BODY }
    {
        &self.octets[self.body..self.start]
    }

    /// Drops what waits, and the last body.
    pub fn clear(&mut self)
        ensures { self.new ≡ record { waits = []; body = [] } }
    {
        self.octets.clear();
        self.body = 0;
        self.start = 0;
    }
}
