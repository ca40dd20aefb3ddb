// What is at the front of octets of a stream.
ghost use Rattle.std.specs.Prelude.{◌≡◌};
ghost use Rattle.xb_wire.specs.Fronts.{IsNext, IsSized};

use crate::header::{HeaderFault, fault_in_header};
use crate::numbers::{HEADER, MARKER};
use xb_words::u16_at;

/// What is at the front of octets of a stream: a whole message of a type and a length, which counts the header too;
/// fewer octets than a message has; or a header that is refused.
#[derive(Clone, Copy, Debug, PartialEq, Eq)]
pub enum Next {
    Whole { kind: u8, len: u16 },
    More,
    Fault(HeaderFault),
}

/// Reads the header at the front of octets of a stream. It is judged as soon as it is whole, before the body is there.
pub fn front_of(octets: &[u8]) -> Next
    ensures front { IsNext octets.now result }
    ensures sized { IsSized result }
{
    if octets.len() < HEADER {
        return Next::More;
    }
    if let Some(fault) = fault_in_header(octets) {
        return Next::Fault(fault);
    }
    let len = u16_at(octets, MARKER);
    if octets.len() < usize::from(len) {
        return Next::More;
    }
    Next::Whole {
        kind: octets[MARKER + 2],
        len,
    }
}
