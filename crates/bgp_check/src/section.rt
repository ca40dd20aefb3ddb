// The checks of a section of path attributes: of the section as a whole, of each attribute, and of what is missing.
ghost use Rattle.std.specs.Prelude.{◌≡◌, ℕ, ◌<◌, ◌≤◌, length, map, find, max, is_none, not, option_map, IfSome};
ghost use Rattle.xb_wire.specs.Views.{notice_view};
ghost use Rattle.bgp_attr.specs.Attributes.{attributes, codes_of};
ghost use Rattle.bgp_attr.specs.Paths.{width_of};
ghost use Rattle.bgp_attr.specs.Rules.{attr_fault};
ghost use Rattle.bgp_check.specs.Codes.{has_bit};
ghost use Rattle.bgp_check.specs.Judgement.{attr_notice, attribute_check, first_check, has_code, is_malformed};
ghost use Rattle.bgp_check.specs.Judgement.{judge_section, mandatory, missing_notice};

use crate::codes::Codes;
use crate::notices;
use bgp_attr::codes::{AS_PATH, NEXT_HOP, ORIGIN};
use bgp_attr::{Attr, AttrFault, Attrs, attr_rule, attr_rule4};
use xb_wire::Notice;

// The codes that an announcement must have (RFC 4271, section 5), each as the data of the notice that it is missing.
static ORIGIN_CODE: [u8; 1] = [ORIGIN];

static AS_PATH_CODE: [u8; 1] = [AS_PATH];

static NEXT_HOP_CODE: [u8; 1] = [NEXT_HOP];

// The codes of a section. None if an attribute runs past the section or its code came before.
fn codes_in(section: &[u8]) -> Option<Codes>
    ensures malformed { is_none result ≡ is_malformed section.now }
    ensures codes { IfSome result
        (λ found. (code : ℕ) → code < 256 → has_bit found.words code ≡ has_code (codes_of section.now) code) }
{
    let mut codes = Codes::new();
    let mut attrs = Attrs::new(section);
    'attributes: while let Some(step) = attrs.next() {
        let Ok(attr) = step else {
            return None;
        };
        if codes.contains(attr.code) {
            return None;
        }
        codes.insert(attr.code);
    }
    Some(codes)
}

// The fault of one attribute by the table.
fn rule(attr: &Attr<'_>, wide: bool) -> Option<AttrFault>
    ensures { result ≡ attr_fault (width_of wide) attr.now.code attr.now.flags attr.now.value.now }
{
    if wide {
        attr_rule4(attr.code, attr.flags, attr.value)
    } else {
        attr_rule(attr.code, attr.flags, attr.value)
    }
}

// The notice of one attribute's fault.
fn fault_of<'a>(attr: Attr<'a>, wide: bool) -> Option<Notice<'a>>
    ensures { let a = attr.entry in option_map notice_view result
        ≡ option_map (attr_notice a.raw.now) (attr_fault (width_of wide) a.code a.flags a.value.now) }
{
    let fault = rule(&attr, wide)?;
    Some(notices::of_attribute(attr.raw, fault))
}

// The first fault of the attributes, each judged alone.
#[tactic(auto, using(crate::proofs::JudgementLemmas::first_found_section))]
fn first_fault(section: &[u8], wide: bool) -> Option<Notice<'_>>
    ensures { option_map notice_view result
        ≡ first_check (map (attribute_check (width_of wide)) (attributes section.now)) }
{
    let mut attrs = Attrs::new(section);
    'attributes: while let Some(step) = attrs.next() {
        let Ok(attr) = step else {
            return None;
        };
        if let Some(notice) = fault_of(attr, wide) {
            return Some(notice);
        }
    }
    None
}

// The first mandatory code that is missing.
fn first_missing(codes: &Codes) -> Option<Notice<'static>>
    ensures says { option_map notice_view result
        ≡ option_map missing_notice (find (λ code. not (has_bit codes.now.words code)) mandatory) }
    ensures data { IfSome result (λ n. length n.extra.now ≡ 1) }
{
    if !codes.contains(ORIGIN) {
        Some(notices::missing(&ORIGIN_CODE))
    } else if !codes.contains(AS_PATH) {
        Some(notices::missing(&AS_PATH_CODE))
    } else if !codes.contains(NEXT_HOP) {
        Some(notices::missing(&NEXT_HOP_CODE))
    } else {
        None
    }
}

// The first fault of a section, `wide` being whether its AS numbers have four octets.
#[tactic(auto, unfolding(crate::specs::Judgement::judge_section))]
pub(crate) fn judged_section<'a>(
    section: &'a [u8],
    announces: bool,
    wide: bool,
) -> Option<Notice<'a>>
    ensures fault { option_map notice_view result ≡ judge_section (width_of wide) section.now announces }
    ensures data { IfSome result (λ n. length n.extra.now ≤ max (length section.now) 1) }
{
    let Some(codes) = codes_in(section) else {
        return Some(notices::malformed());
    };
    if let Some(notice) = first_fault(section, wide) {
        return Some(notice);
    }
    if announces {
        first_missing(&codes)
    } else {
        None
    }
}

/// The first fault of a section of path attributes, with AS numbers of two octets. If prefixes are announced with it,
/// it must have ORIGIN, AS_PATH and NEXT_HOP. The data of a fault is a part of the section, except for a missing
/// attribute: there it is its code.
pub fn check_section<'a>(section: &'a [u8], announces: bool) -> Option<Notice<'a>>
    ensures fault { option_map notice_view result ≡ judge_section 2 section.now announces }
    ensures data { IfSome result (λ n. length n.extra.now ≤ max (length section.now) 1) }
{
    judged_section(section, announces, false)
}

/// The same with AS numbers of four octets (RFC 6793, section 4.1).
pub fn check_section4<'a>(section: &'a [u8], announces: bool) -> Option<Notice<'a>>
    ensures fault { option_map notice_view result ≡ judge_section 4 section.now announces }
    ensures data { IfSome result (λ n. length n.extra.now ≤ max (length section.now) 1) }
{
    judged_section(section, announces, true)
}
