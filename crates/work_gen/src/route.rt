//! The section of path attributes of an announcement, drawn attribute by attribute.
ghost use Rattle.std.specs.Prelude.{◌≡◌, ◌+◌, ◌*◌, ◌<◌, ◌≤◌, ◌++◌, length, flat_map};
ghost use Rattle.xb_words.specs.Octets.{two_octets};
ghost use Rattle.bgp_attr.specs.Routes.{canon, canonical};
ghost use Rattle.work_gen.specs.Work.{well_known, as_numbers, drawn_numbers, path_numbers, path_value};
ghost use Rattle.work_gen.specs.Work.{drawn_preference, drawn_route};
ghost use Rattle.work_gen.specs.Views.{path_front};

use crate::generator::Generator;
use arrayvec::ArrayVec;
use bgp_attr::codes::{AS_PATH, LOCAL_PREF, NEXT_HOP, ORIGIN};
use bgp_attr::flags::WELL_KNOWN;
use bgp_attr::segments::AS_SEQUENCE;
use xbgp_config::{WORK_PEERS, is_work_internal, work_peer};

// The most octets of a section: an ORIGIN of 4, an AS_PATH of 13 with four numbers, a NEXT_HOP and a LOCAL_PREF of 7.
pub(crate) const LONGEST: usize = 31;

/// The octets of a section, or of a part of it.
pub(crate) type Octets = ArrayVec<u8, LONGEST>;

// Appends octets for which there is room.
fn append(octets: &mut Octets, more: &[u8])
    requires { length octets.old.items + length more.now ≤ LONGEST }
    ensures { octets.new.items ≡ octets.old.items ++ more.now }
{
    let _ = octets.try_extend_from_slice(more);
}

// Appends an attribute for which there is room.
fn append_attribute(section: &mut Octets, code: u8, value: &[u8])
    requires { length section.old.items + 3 + length value.now ≤ LONGEST }
    ensures attribute { section.new.items ≡ section.old.items ++ canonical (well_known code value.now) }
    ensures len { length section.new.items ≡ length section.old.items + 3 + length value.now }
{
    append(section, &[WELL_KNOWN, code, value.len() as u8]);
    append(section, value);
}

// The octets of a path before `count` drawn numbers: the type of its segment and its length, and the peer's own number
// if the peer is external.
fn path_front(peer: u32, count: u8) -> Octets
    requires peer { peer ≤ WORK_PEERS }
    requires count { count ≤ 3 }
    ensures { result.items ≡ path_front peer count }
{
    let mut path = ArrayVec::new();
    if !is_work_internal(peer) {
        append(&mut path, &[AS_SEQUENCE, count + 1]);
        append(&mut path, &(work_peer(peer).asn as u16).to_be_bytes());
    } else if count != 0 {
        append(&mut path, &[AS_SEQUENCE, count]);
    }
    path
}

// Draws AS numbers, and appends each in two octets.
fn append_numbers(generator: &mut Generator, count: u8, path: &mut Octets)
    requires { length path.old.items + 2 * count ≤ LONGEST }
    ensures numbers { path.new.items
        ≡ path.old.items ++ flat_map two_octets (as_numbers count generator.old.x).value }
    ensures next { generator.new.x ≡ (as_numbers count generator.old.x).x }
{
    'numbers: for _drawn in 0..count {
        let number = 1 + generator.draw(64_000) as u16;
        append(path, &number.to_be_bytes());
    }
}

// Draws the value of a path.
#[tactic(auto, unfolding(crate::specs::Work::drawn_numbers))]
fn draw_path(generator: &mut Generator, peer: u32) -> Octets
    requires { peer ≤ WORK_PEERS }
    ensures value { result.items ≡ path_value (path_numbers peer (drawn_numbers generator.old.x).value) }
    ensures next { generator.new.x ≡ (drawn_numbers generator.old.x).x }
    ensures short { length result.items ≤ 10 }
{
    let count = generator.draw(4) as u8;
    let mut path = path_front(peer, count);
    append_numbers(generator, count, &mut path);
    path
}

// Appends the degree of preference that is drawn for an internal peer.
#[tactic(auto, unfolding(crate::specs::Work::drawn_preference))]
fn append_preference(generator: &mut Generator, peer: u32, section: &mut Octets)
    requires { length section.old.items + 7 ≤ LONGEST }
    ensures preference { section.new.items
        ≡ section.old.items ++ canon (drawn_preference peer generator.old.x).value }
    ensures next { generator.new.x ≡ (drawn_preference peer generator.old.x).x }
{
    if !is_work_internal(peer) {
        return;
    }
    let preference = 100 + 10 * generator.draw(3);
    append_attribute(section, LOCAL_PREF, &preference.to_be_bytes());
}

/// Draws the section of an announcement.
#[tactic(auto, unfolding(crate::specs::Work::drawn_route))]
pub(crate) fn draw_section(generator: &mut Generator, peer: u32) -> Octets
    requires { peer ≤ WORK_PEERS }
    ensures section { result.items ≡ canon (drawn_route peer generator.old.x).value }
    ensures next { generator.new.x ≡ (drawn_route peer generator.old.x).x }
{
    let mut section = ArrayVec::new();
    let origin = generator.draw(3) as u8;
    append_attribute(&mut section, ORIGIN, &[origin]);
    let path = draw_path(generator, peer);
    append_attribute(&mut section, AS_PATH, path.as_slice());
    let next_hop = work_peer(peer).address;
    append_attribute(&mut section, NEXT_HOP, &next_hop.to_be_bytes());
    append_preference(generator, peer, &mut section);
    section
}
