//! The judgement of an OPEN (RFC 4271, sections 4.2 and 6.2; RFC 5492, section 4; RFC 6793, section 3).
//!
//! The body of an OPEN comes in, without its header, and what the peer must be. [`read_open4`] judges the fields in a
//! fixed order, which is this project's own: version, hold time, identifier, length of the parameters, then one
//! parameter after another, and last the AS number. The first fault goes out as the [`Notice`] that a NOTIFICATION
//! sends; an OPEN without fault gives its hold time, its identifier, and whether AS numbers have four octets.
//!
//! A parameter must hold capabilities, and they must fill it. One of them is read, the AS number of four octets: it is
//! judged in place of the AS field if it is there. No other is looked at, so nothing else is negotiated. Which fault is
//! the first is defined in `specs/Opens` as a search over the list of parameters; the code is one pass for faults and
//! one for the AS number, and takes no memory.
#![tactic(auto)]

ghost use Rattle.std.specs.Prelude.{◌≡◌, ◌≤◌, [], length, IfOk, IfErr, IfSome, Some, None};
ghost use Rattle.std.specs.Option.{option_map};
ghost use Rattle.xb_wire.specs.Views.{notice_view};
ghost use Rattle.bgp_open.specs.Opens.{fixed_fault, front_field, fills, open_error, parameter_fault, parameters_fault};
ghost use Rattle.bgp_open.specs.Opens.{as_in, as_of, field_value, judge_open4, open_seen4, wide_as};

use xb_wire::Notice;
use xb_wire::numbers::{
    BAD_BGP_IDENTIFIER, BAD_PEER_AS, OPEN_MESSAGE_ERROR, UNACCEPTABLE_HOLD_TIME, UNSPECIFIC,
    UNSUPPORTED_OPTIONAL_PARAMETER, UNSUPPORTED_VERSION_NUMBER, VERSION,
};
use xb_words::{u16_at, u32_at};

/// The offset in an OPEN's body of the peer's AS number, after the version (RFC 4271, section 4.2).
pub const MY_AS: usize = 1;

/// The offset of the hold time.
pub const HOLD_TIME: usize = 3;

/// The offset of the BGP identifier.
pub const IDENTIFIER: usize = 5;

/// The offset of the length of the parameters.
pub const PARAMETERS_LENGTH: usize = 9;

/// The offset of the parameters, and so the least length of a body.
pub const PARAMETERS: usize = 10;

/// The type of the parameter that holds capabilities (RFC 5492, section 4).
pub const CAPABILITIES: u8 = 2;

/// The code of the capability that has the speaker's AS number in four octets (RFC 6793, section 3).
pub const FOUR_OCTET_AS: u8 = 65;

// The octets of a parameter or a capability before its value: a type and a length.
const FIELD_HEADER: usize = 2;

// The octets of the capability that has an AS number, with its header.
const AS_CAPABILITY: usize = FIELD_HEADER + 4;

// The least hold time that is not 0 (RFC 4271, section 4.2).
const MIN_HOLD: u16 = 3;

// The version that is supported, as the data of a notice.
static SUPPORTED_VERSION: [u8; 2] = [0, VERSION];

/// What an OPEN must match: the AS number of the peer.
#[derive(Clone, Copy, Debug, PartialEq, Eq)]
pub struct OpenWant {
    pub peer_as: u32,
}

/// What an accepted OPEN says: its hold time in seconds, its identifier, whose high octet is the first of its dotted
/// form, and whether its sender has AS numbers of four octets (RFC 6793, section 3).
#[derive(Clone, Copy, Debug, PartialEq, Eq)]
pub struct OpenSeen4 {
    pub hold: u16,
    pub id: u32,
    pub wide: bool,
}

// An error of an OPEN, without data.
fn error(subcode: u8) -> Notice<'static>
    ensures says { notice_view result ≡ open_error subcode [] }
    ensures data { length result.extra.now ≡ 0 }
{
    Notice {
        code: OPEN_MESSAGE_ERROR,
        subcode,
        extra: &[],
    }
}

// The field at the front, a parameter or a capability, and the octets after it. None if no whole field is there.
fn split_field(octets: &[u8]) -> Option<(&[u8], &[u8])>
    ensures { option_map (λ p. (p.0.now, p.1.now)) result ≡ front_field octets.now }
{
    if octets.len() < FIELD_HEADER {
        return None;
    }
    let size = FIELD_HEADER + usize::from(octets[1]);
    if octets.len() < size {
        return None;
    }
    Some(octets.split_at(size))
}

// Whether fields fill the octets.
#[tactic(auto, using(crate::proofs::OpensLemmas::walks))]
fn fills(octets: &[u8]) -> bool
    ensures { result ≡ fills octets.now }
{
    let mut rest = octets;
    'fields: while let Some((_, after)) = split_field(rest) {
        rest = after;
    }
    rest.is_empty()
}

fn fault_of_parameter(parameter: &[u8]) -> Option<Notice<'static>>
    requires { FIELD_HEADER ≤ length parameter.now }
    ensures fault { option_map notice_view result ≡ parameter_fault parameter.now }
    ensures data { IfSome result (λ n. length n.extra.now ≡ 0) }
{
    if parameter[0] != CAPABILITIES {
        Some(error(UNSUPPORTED_OPTIONAL_PARAMETER))
    } else if !fills(&parameter[FIELD_HEADER..]) {
        Some(error(UNSPECIFIC))
    } else {
        None
    }
}

// The first fault of the parameters, in order.
#[tactic(auto, using(crate::proofs::OpensLemmas::walks))]
fn fault_of_parameters(octets: &[u8]) -> Option<Notice<'static>>
    ensures fault { option_map notice_view result ≡ parameters_fault octets.now }
    ensures data { IfSome result (λ n. length n.extra.now ≡ 0) }
{
    let mut rest = octets;
    'parameters: while let Some((parameter, after)) = split_field(rest) {
        if let Some(notice) = fault_of_parameter(parameter) {
            return Some(notice);
        }
        rest = after;
    }
    if rest.is_empty() {
        None
    } else {
        Some(error(UNSPECIFIC))
    }
}

// The AS number of a capability, if it is one of four octets.
fn as_of(capability: &[u8]) -> Option<u32>
    requires { FIELD_HEADER ≤ length capability.now }
    ensures { result ≡ as_of capability.now }
{
    if capability[0] == FOUR_OCTET_AS && capability.len() == AS_CAPABILITY {
        Some(u32_at(capability, FIELD_HEADER))
    } else {
        None
    }
}

// The first AS number of four octets among capabilities.
#[tactic(auto, using(crate::proofs::OpensLemmas::searches))]
fn as_in(octets: &[u8]) -> Option<u32>
    ensures { result ≡ as_in octets.now }
{
    let mut rest = octets;
    'capabilities: while let Some((capability, after)) = split_field(rest) {
        if let Some(asn) = as_of(capability) {
            return Some(asn);
        }
        rest = after;
    }
    None
}

// The same in a parameter.
fn as_in_parameter(parameter: &[u8]) -> Option<u32>
    requires { FIELD_HEADER ≤ length parameter.now }
    ensures { result ≡ as_in (field_value parameter.now) }
{
    as_in(&parameter[FIELD_HEADER..])
}

// The first AS number of four octets in the parameters.
#[tactic(auto, using(crate::proofs::OpensLemmas::searches))]
fn wide_as(octets: &[u8]) -> Option<u32>
    ensures { result ≡ wide_as octets.now }
{
    let mut rest = octets;
    'parameters: while let Some((parameter, after)) = split_field(rest) {
        if let Some(asn) = as_in_parameter(parameter) {
            return Some(asn);
        }
        rest = after;
    }
    None
}

// The first fault before the parameters other than the AS number. The last one is a length that is not theirs.
fn fault_before_parameters(body: &[u8]) -> Option<Notice<'static>>
    requires { PARAMETERS ≤ length body.now }
    ensures fault { option_map notice_view result ≡ fixed_fault body.now }
    ensures data { IfSome result (λ n. length n.extra.now ≤ 2) }
{
    let hold = u16_at(body, HOLD_TIME);
    if body[0] != VERSION {
        return Some(Notice {
            code: OPEN_MESSAGE_ERROR,
            subcode: UNSUPPORTED_VERSION_NUMBER,
            extra: &SUPPORTED_VERSION,
        });
    }
    if hold != 0 && hold < MIN_HOLD {
        return Some(error(UNACCEPTABLE_HOLD_TIME));
    }
    if u32_at(body, IDENTIFIER) == 0 {
        return Some(error(BAD_BGP_IDENTIFIER));
    }
    if usize::from(body[PARAMETERS_LENGTH]) != body.len() - PARAMETERS {
        return Some(error(UNSPECIFIC));
    }
    None
}

/// Reads the body of an OPEN, which has at least 10 octets after the message's header, or returns its first fault. The
/// data of a fault is empty, except for a version other than 4: there it is the supported version, in two octets.
#[tactic(auto, unfolding(crate::specs::Opens::judge_open4))]
pub fn read_open4<'a>(body: &'a [u8], want: &OpenWant) -> Result<OpenSeen4, Notice<'a>>
    requires { PARAMETERS ≤ length body.now }
    ensures fault { IfErr result (λ n. judge_open4 body.now want.now.peer_as ≡ Some (notice_view n)) }
    ensures accepted { IfOk result (λ o. judge_open4 body.now want.now.peer_as ≡ None) }
    ensures values { IfOk result (λ o. o ≡ open_seen4 body.now) }
    ensures data { IfErr result (λ n. length n.extra.now ≤ 2) }
{
    if let Some(notice) = fault_before_parameters(body) {
        return Err(notice);
    }
    if let Some(notice) = fault_of_parameters(&body[PARAMETERS..]) {
        return Err(notice);
    }
    let wide = wide_as(&body[PARAMETERS..]);
    if wide.unwrap_or(u32::from(u16_at(body, MY_AS))) != want.peer_as {
        return Err(error(BAD_PEER_AS));
    }
    Ok(OpenSeen4 {
        hold: u16_at(body, HOLD_TIME),
        id: u32_at(body, IDENTIFIER),
        wide: wide.is_some(),
    })
}
