// Paths of one width of AS numbers written in the other (RFC 6793, sections 4.2.2 and 4.2.3).
ghost use Rattle.std.specs.Prelude.{◌≡◌, ◌≤◌, ◌+◌, ◌*◌, ◌++◌, ◌∷◌, [], true, IfNone, IfSome};
ghost use Rattle.std.specs.Prelude.{length, min, take, drop, if◌then◌else◌};
ghost use Rattle.bgp_attr.specs.Paths.{path_ok as is_path, path as path_in, width_of};
ghost use Rattle.bgp_path.specs.Fronts.{WritesFront};
ghost use Rattle.bgp_path.specs.Parts.{part_segment};
ghost use Rattle.bgp_path.specs.Views.{segment_view};
ghost use Rattle.bgp_path.specs.Widths.{first_units, wide_path, narrow_path, merge};
ghost use Rattle.bgp_path.specs.Units.{IsCutTo, other_segment, units_octets};

use crate::numbers::{width, write_in_other_width};
use crate::segments::{Segment, hops_in, hops_of, split_first};
use bgp_attr::segments::{AS_SEQUENCE, AS_SET};
use std::marker::Model;
use xb_words::copy_at;

// A walk over the first units of a path. Contracts see the width of the path, and the segments that are still to come.
#[derive(Drop)]
struct Units<'a> {
    rest: &'a [u8],
    left: usize,
    wide: bool,
}

impl<'a> Model for Units<'a> {
    ghost use Rattle.std.specs.Prelude.{◌≡◌, true};
    ghost use Rattle.bgp_attr.specs.Paths.{path, path_ok as is_path, width_of};
    ghost use Rattle.bgp_path.specs.Widths.{first_units};
    ghost use Rattle.bgp_path.specs.Units.{UnitsWalk};

    ghost Value = { UnitsWalk };

    ghost view = { λ s.
        record { wide = s.wide; coming = first_units s.left (path (width_of s.wide) s.rest.now) } };

    ghost invariant = { λ s. is_path (width_of s.wide) s.rest.now ≡ true };
}

// How many AS numbers of a segment are in its first `units` units: a set is one unit.
fn kept_count(segment: &Segment<'_>, units: usize) -> u8
    ensures count { result ≡ (if segment.now.set then segment.now.count else min units segment.now.count) }
    ensures bound { result ≤ segment.now.count }
{
    if segment.set || usize::from(segment.count) <= units {
        segment.count
    } else {
        units as u8
    }
}

// The first `units` units of a segment.
fn cut_to<'a>(segment: Segment<'a>, units: usize, wide: bool) -> Segment<'a>
    requires { length segment.octets.now ≡ width_of wide * segment.count }
    ensures { IsCutTo (width_of wide) units (segment_view segment.entry) (segment_view result) }
{
    let count = kept_count(&segment, units);
    Segment {
        set: segment.set,
        count,
        octets: segment.octets.split_at(width(wide) * usize::from(count)).0,
    }
}

impl<'a> Units<'a> {
    fn new(path: &'a [u8], units: usize, wide: bool) -> Units<'a>
        requires { is_path (width_of wide) path.now ≡ true }
        ensures { result ≡ record { wide = wide; coming = first_units units (path_in (width_of wide) path.now) } }
    {
        Units {
            rest: path,
            left: units,
            wide,
        }
    }

    // The next segment, cut to the units that are left. None after the last.
    fn next(&mut self) -> Option<Segment<'a>>
        ensures item { IfSome result (λ s. let w = width_of self.old.wide in
            self.old.coming ≡ part_segment w (segment_view s) ∷ self.new.coming) }
        ensures octets { IfSome result (λ s. length s.octets.now ≡ width_of self.old.wide * s.count) }
        ensures end { IfNone result ((self.old.coming ≡ []) × (self.new.coming ≡ [])) }
        ensures wide { self.new.wide ≡ self.old.wide }
    {
        if self.left == 0 {
            return None;
        }
        let (segment, rest) = split_first(self.rest, self.wide)?;
        let first = cut_to(segment, self.left, self.wide);
        self.rest = rest;
        self.left -= hops_of(&first);
        Some(first)
    }
}

// The length of a segment in the other width.
fn other_len(segment: &Segment<'_>, wide: bool) -> usize
    ensures { result ≡ length (other_segment wide (part_segment (width_of wide) (segment_view segment.now))) }
{
    2 + width(!wide) * usize::from(segment.count)
}

// The octet that says what a segment is.
fn kind_of(segment: &Segment<'_>) -> u8
    ensures { result ≡ (if segment.now.set then AS_SET else AS_SEQUENCE) }
{
    if segment.set { AS_SET } else { AS_SEQUENCE }
}

// Writes a segment in the other width at the offset `at`.
fn write_segment(out: &mut [u8], at: usize, segment: &Segment<'_>, wide: bool)
    requires octets { length segment.now.octets.now ≡ width_of wide * segment.now.count }
    requires room { let text = other_segment wide (part_segment (width_of wide) (segment_view segment.now)) in
        at + length text ≤ length out.old }
    ensures { let text = other_segment wide (part_segment (width_of wide) (segment_view segment.now)) in
        out.new ≡ take at out.old ++ text ++ drop (at + length text) out.old }
{
    copy_at(out, at, &[kind_of(segment), segment.count]);
    write_in_other_width(out, at + 2, segment.octets, segment.count, wide);
}

// The length of the first units of a path in the other width.
fn units_len(path: &[u8], units: usize, wide: bool) -> usize
    requires { is_path (width_of wide) path.now ≡ true }
    ensures { result ≡ length (units_octets wide units path.now) }
{
    let mut len = 0;
    let mut walk = Units::new(path, units, wide);
    'segments: while let Some(segment) = walk.next() {
        len += other_len(&segment, wide);
    }
    len
}

// Writes the first units of a path in the other width to the front of `out`.
fn write_units(out: &mut [u8], path: &[u8], units: usize, wide: bool)
    requires path { is_path (width_of wide) path.now ≡ true }
    requires room { length (units_octets wide units path.now) ≤ length out.old }
    ensures { let text = units_octets wide units path.now in out.new ≡ text ++ drop (length text) out.old }
{
    let mut at = 0;
    let mut walk = Units::new(path, units, wide);
    'segments: while let Some(segment) = walk.next() {
        write_segment(out, at, &segment, wide);
        at += other_len(&segment, wide);
    }
}

// Writes the first units of a path in the other width, and then `after`, to the front of `out`. All units are written
// if `units` is the path's length, since each has an octet at least.
fn units_into(path: &[u8], units: usize, wide: bool, after: &[u8], out: &mut [u8]) -> Option<usize>
    requires { is_path (width_of wide) path.now ≡ true }
    ensures { WritesFront result out.old out.new (units_octets wide units path.now ++ after.now) }
{
    let len = units_len(path, units, wide);
    let room = out.len().checked_sub(after.len())?;
    if room < len {
        return None;
    }
    write_units(out, path, units, wide);
    copy_at(out, len, after);
    Some(len + after.len())
}

/// Writes a path with AS numbers of two octets to the front of `out`, with four octets for each, and returns its length
/// there (RFC 6793, section 4.2.3). None if it does not fit: `out` is then unchanged.
pub fn widen_into(value: &[u8], out: &mut [u8]) -> Option<usize>
    requires { is_path 2 value.now ≡ true }
    ensures written { WritesFront result out.old out.new (wide_path value.now) }
    ensures path { is_path 4 (wide_path value.now) ≡ true }
{
    units_into(value, value.len(), false, &[], out)
}

/// Writes a path with AS numbers of four octets to the front of `out`, with two octets for each, and returns its length
/// there. A number greater than 65,535 becomes [`AS_TRANS`](bgp_attr::segments::AS_TRANS) (RFC 6793, section 4.2.2).
/// None if it does not fit: `out` is then unchanged.
pub fn narrow_into(value: &[u8], out: &mut [u8]) -> Option<usize>
    requires { is_path 4 value.now ≡ true }
    ensures written { WritesFront result out.old out.new (narrow_path value.now) }
    ensures path { is_path 2 (narrow_path value.now) ≡ true }
{
    units_into(value, value.len(), true, &[], out)
}

/// Writes the path that an AS_PATH with AS numbers of two octets and an AS4_PATH say together to the front of `out`,
/// with four octets for each number, and returns its length: what the first has before the hops of the second, and
/// then the second, or the first alone if it has fewer hops (RFC 6793, section 4.2.3). None if it does not fit: `out`
/// is then unchanged.
pub fn merge_into(path: &[u8], path4: &[u8], out: &mut [u8]) -> Option<usize>
    requires path { is_path 2 path.now ≡ true }
    requires path4 { is_path 4 path4.now ≡ true }
    ensures written { WritesFront result out.old out.new (merge path.now path4.now) }
    ensures path { is_path 4 (merge path.now path4.now) ≡ true }
{
    let (hops, hops4) = (hops_in(path, false), hops_in(path4, true));
    if hops < hops4 {
        return widen_into(path, out);
    }
    units_into(path, hops - hops4, false, path4, out)
}
