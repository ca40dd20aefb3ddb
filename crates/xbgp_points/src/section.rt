// Sections that programs at encode give.
ghost use Rattle.std.specs.Prelude.{◌≡◌, ◌≤◌, ◌++◌, List, ℕ, length, nat_le, if◌then◌else◌};
ghost use Rattle.std.specs.Bool.{OnTrue};
ghost use Rattle.bgp_attr.specs.Attributes.{codes_of};
ghost use Rattle.bgp_check.specs.Judgement.{has_code as has_attribute, is_clean as is_good};
ghost use Rattle.xbgp_points.specs.Orders.{section_of};

use bgp_attr::Attrs;
use bgp_attr::codes::{AS4_AGGREGATOR, AS4_PATH};
use bgp_check::check_section4;
use xb_values::Buf;
use xb_wire::numbers::MAX_SECTION;

// Whether a section has an attribute of a code, before any that runs past its end.
#[tactic(auto, using(crate::proofs::SectionLemmas::to_come_section))]
fn has_code(section: &[u8], code: u8) -> bool
    ensures { result ≡ has_attribute (codes_of section.now) code }
{
    let mut attrs = Attrs::new(section);
    'attributes: while let Some(step) = attrs.next() {
        let Ok(attr) = step else {
            return false;
        };
        if attr.code == code {
            return true;
        }
    }
    false
}

/// Whether a section passes all checks of an announcement with AS numbers of four octets, and has neither AS4_PATH nor
/// AS4_AGGREGATOR.
pub(crate) fn is_clean(section: &[u8]) -> bool
    ensures { result ≡ is_good section.now }
{
    check_section4(section, true).is_none()
        && !has_code(section, AS4_PATH)
        && !has_code(section, AS4_AGGREGATOR)
}

/// Replaces the content of `section` by what a verdict at encode gives: the write buffer, after the native section if
/// the verdict is to append. False, with `section` unchanged, if that has more than `MAX_SECTION` octets.
pub(crate) fn compose(verdict: u8, native: &[u8], buffer: &[u8], section: &mut Buf) -> bool
    requires { MAX_SECTION ≤ section.old.capacity }
    ensures fits { result ≡ nat_le (length (section_of verdict native.now buffer.now)) MAX_SECTION }
    ensures section { OnTrue result
        (section.new ≡ record section.old { octets = section_of verdict native.now buffer.now }) }
    ensures capacity { section.new.capacity ≡ section.old.capacity }
{
    if buffer.len() > MAX_SECTION {
        return false;
    }
    if verdict == 1 {
        section.replace(buffer);
        return true;
    }
    if native.len() > MAX_SECTION - buffer.len() {
        return false;
    }
    section.replace(native);
    section.append(buffer);
    true
}
