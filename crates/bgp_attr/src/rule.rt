// What an attribute must be, a row for each known code.
ghost use Rattle.std.specs.Prelude.{◌≡◌, ◌≤◌, slice_index};
ghost use Rattle.bgp_attr.specs.Rules.{attr_fault, fault_if as fault_where, is_host as may_be_host, row_fault};

use crate::codes::{
    AGGREGATOR, AS_PATH, ATOMIC_AGGREGATE, LOCAL_PREF, MULTI_EXIT_DISC, NEXT_HOP, ORIGIN,
};
use crate::flags::{KEPT, OPTIONAL, OPTIONAL_TRANSITIVE, PARTIAL_TRANSITIVE, WELL_KNOWN};
use crate::path::{FOUR_OCTETS, TWO_OCTETS, is_path};

// The greatest value of ORIGIN: 0 is IGP, 1 is EGP (RFC 4271, section 4.3).
const INCOMPLETE: u8 = 2;

// First octets of addresses that are no host's: "this" network, loopback, and from multicast on (RFC 6890).
const THIS_NETWORK: u8 = 0;

const LOOPBACK: u8 = 127;

const MULTICAST: u8 = 224;

/// Why an attribute is malformed (RFC 4271, section 6.3).
#[derive(Clone, Copy, Debug, PartialEq, Eq)]
pub enum AttrFault {
    /// The attribute is well-known by its flags, and its code is not a known one.
    Unrecognized,
    /// The flags are not those of its code.
    Flags,
    /// The length is not that of its code.
    Length,
    /// An ORIGIN greater than 2.
    Origin,
    /// A NEXT_HOP that is not a host's address.
    NextHop,
    /// An AS_PATH that its segments do not fill.
    Path,
}

/// Whether an address with this first octet may be a host's: it is not 0, 127, or 224 to 255.
pub fn is_host(first: u8) -> bool
    ensures { result ≡ may_be_host first }
{
    first != THIS_NETWORK && first != LOOPBACK && first < MULTICAST
}

fn first_octet(value: &[u8]) -> u8
    ensures { result ≡ slice_index value.now 0 }
{
    value.first().copied().unwrap_or(0)
}

fn fault_if(bad: bool, fault: AttrFault) -> Option<AttrFault>
    ensures { result ≡ fault_where bad fault }
{
    if bad { Some(fault) } else { None }
}

// The first fault by one row: the flags are judged first, then the length, then the value.
fn row(flags_fit: bool, length_fits: bool, value: Option<AttrFault>) -> Option<AttrFault>
    ensures { result ≡ row_fault flags_fit length_fits value }
{
    if !flags_fit {
        Some(AttrFault::Flags)
    } else if !length_fits {
        Some(AttrFault::Length)
    } else {
        value
    }
}

// The table, with AS numbers of `width` octets.
#[tactic(auto, unfolding(crate::specs::Rules::attr_fault))]
fn fault_of(code: u8, flags: u8, value: &[u8], width: usize) -> Option<AttrFault>
    requires { width ≤ 4 }
    ensures { result ≡ attr_fault width code flags value.now }
{
    let kept = flags & KEPT;
    let well_known = kept == WELL_KNOWN;
    let partial = kept == PARTIAL_TRANSITIVE;
    let len = value.len();
    let first = first_octet(value);
    match code {
        ORIGIN => row(
            well_known,
            len == 1,
            fault_if(INCOMPLETE < first, AttrFault::Origin),
        ),
        AS_PATH => row(
            well_known,
            true,
            fault_if(!is_path(value, width), AttrFault::Path),
        ),
        NEXT_HOP => row(
            well_known,
            len == FOUR_OCTETS,
            fault_if(!is_host(first), AttrFault::NextHop),
        ),
        MULTI_EXIT_DISC => row(kept == OPTIONAL, len == FOUR_OCTETS, None),
        LOCAL_PREF => row(well_known, len == FOUR_OCTETS, None),
        ATOMIC_AGGREGATE => row(well_known, len == 0, None),
        AGGREGATOR => row(
            kept == OPTIONAL_TRANSITIVE || partial,
            len == width + FOUR_OCTETS,
            None,
        ),
        _ => fault_if(flags & OPTIONAL == 0, AttrFault::Unrecognized),
    }
}

/// The first fault of one attribute, by its flags, its length and its value in this order (RFC 4271, sections 5 and
/// 6.3), with AS numbers of two octets. None if it has no fault. [`EXTENDED_LENGTH`](crate::flags::EXTENDED_LENGTH) and
/// the low four bits of `flags` are not judged.
pub fn attr_rule(code: u8, flags: u8, value: &[u8]) -> Option<AttrFault>
    ensures { result ≡ attr_fault 2 code flags value.now }
{
    fault_of(code, flags, value, TWO_OCTETS)
}

/// The same with AS numbers of four octets, so that an AGGREGATOR has eight (RFC 6793, section 4.1).
pub fn attr_rule4(code: u8, flags: u8, value: &[u8]) -> Option<AttrFault>
    ensures { result ≡ attr_fault 4 code flags value.now }
{
    fault_of(code, flags, value, FOUR_OCTETS)
}
