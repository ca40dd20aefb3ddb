//! Inputs that are read whole, up to their limit.
//!
//! A shelf is read by pieces until a read gives nothing, or until the input has more octets than its limit; nothing is
//! judged before. The octets that were read are a front of the file at each turn of the loop.
ghost use Rattle.std.specs.Prelude.{◌≡◌, ◌<◌, length, IfErr, IfOk, OnOk};
ghost use Rattle.xbgp_top.specs.Answers.{input};
ghost use Rattle.xbgp_top.specs.Inputs.{IsUnread, IsWhole, Obtains, unread_status};
ghost use Rattle.xbgp_top.specs.Views.{octets_view};

use crate::{File, Status};
use std::alloc::Global;
use xb_io::Shelf;
use xb_words::zeros;

/// The most octets of an input.
pub(crate) const INPUT_LIMIT: usize = 1_048_576;

// How many octets are read at once.
const PIECE: usize = 65_536;

/// Why an input was not read.
#[derive(Clone, Copy, Debug, PartialEq, Eq)]
pub(crate) enum Unread {
    Long,
    Fault,
    OutOfMemory,
}

// The status of an input that was not read.
fn unread_status(file: File, why: Unread) -> Status
    ensures { result ≡ unread_status file why }
{
    match why {
        Unread::Long => Status::TooLong(file),
        Unread::Fault => Status::ReadFault,
        Unread::OutOfMemory => Status::OutOfMemory,
    }
}

// Reads an input by pieces, to its end or past the limit.
fn read_pieces<S: Shelf>(
    alloc: Global,
    shelf: &mut S,
    name: &str,
    piece: &mut [u8],
) -> Result<Vec<u8>, Unread>
    requires { 0 < length piece.old }
    ensures whole { IfOk result (λ octets. IsWhole (S.held shelf.old) name.now octets.items) }
    ensures same { OnOk result (S.faults shelf.new ≡ S.faults shelf.old) }
    ensures held { S.held shelf.new ≡ S.held shelf.old }
    ensures unread { let before = S.faults shelf.old in
        IfErr result (λ why. IsUnread (S.held shelf.old) name.now before (S.faults shelf.new) why) }
{
    let mut input = Vec::new(alloc);
    'pieces: while input.len() <= INPUT_LIMIT {
        match shelf.read(name, input.len() as u64, piece) {
            Err(_) => return Err(Unread::Fault),
            Ok(0) => return Ok(input),
            Ok(count) => {
                if input.extend_from_slice(&piece[..count]).is_err() {
                    return Err(Unread::OutOfMemory);
                }
            }
        }
    }
    Err(Unread::Long)
}

/// Reads an input whole. `file` says which it is, for the status of one that is too long.
pub(crate) fn read_input<S: Shelf>(
    alloc: Global,
    file: File,
    name: &str,
    shelf: &mut S,
) -> Result<Vec<u8>, Status>
    ensures { Obtains S.held S.faults shelf.old shelf.new (input file name.now) (octets_view result) }
{
    let mut piece = zeros(alloc, PIECE)?;
    match read_pieces(alloc, shelf, name, &mut piece) {
        Ok(octets) => Ok(octets),
        Err(why) => Err(unread_status(file, why)),
    }
}
