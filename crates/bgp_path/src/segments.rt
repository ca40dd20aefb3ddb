// The walk over the segments of an AS path, and the calls on the whole path.
ghost use Rattle.std.specs.Prelude.{◌≡◌, ℕ, ◌≤◌, ◌+◌, ◌++◌, ◌∷◌, ◌||◌, [], true, IfNone, IfSome, MatchOption};
ghost use Rattle.std.specs.Prelude.{is_some, length, nat_le, if◌then◌else◌};
ghost use Rattle.bgp_attr.specs.Paths.{path_ok as is_path, number_octets, path as path_in, path_octets, prepend};
ghost use Rattle.bgp_attr.specs.Paths.{hops as path_hops, contains as path_contains, leftmost as path_leftmost};
ghost use Rattle.bgp_path.specs.Parts.{walk_over, path_of, prepended};
ghost use Rattle.bgp_attr.specs.Paths.{width_of};
ghost use Rattle.bgp_path.specs.Fronts.{WritesFront};
ghost use Rattle.bgp_path.specs.Views.{segment_view};
ghost use Rattle.bgp_path.specs.Splits.{HasNoSegment, BeginsWith};

use crate::numbers::{has_number, number_at_front, width, write_number};
use bgp_attr::segments::{AS_SEQUENCE, AS_SET, MAX_NUMBERS};
use bgp_attr::{path_ok, path_ok4};
use std::marker::Model;
use xb_words::copy_at;

/// A segment: whether it is a set or a sequence, how many AS numbers it has, and their octets, which are a part of the
/// value.
#[derive(Clone, Copy, Debug, PartialEq, Eq)]
pub struct Segment<'a> {
    pub set: bool,
    pub count: u8,
    pub octets: &'a [u8],
}

/// A walk over the segments of a path. Contracts see the octets of an AS number, the whole value, and the segments that
/// are still to come.
#[derive(Drop)]
pub struct Segments<'a> {
    value: &'a [u8],
    rest: &'a [u8],
    // an AS number has four octets (RFC 6793), not two
    wide: bool,
}

impl<'a> Model for Segments<'a> {
    ghost use Rattle.std.specs.Prelude.{◌≡◌, ◌≤◌, true, length};
    ghost use Rattle.bgp_attr.specs.Paths.{path_ok as is_path};
    ghost use Rattle.bgp_path.specs.Parts.{PathWalk, path_parts};
    ghost use Rattle.bgp_attr.specs.Paths.{width_of};

    ghost Value = { PathWalk };

    ghost view = { λ s. let w = width_of s.wide in
        record { width = w; value = s.value.now; coming = path_parts w s.rest.now } };

    ghost invariant = { λ s. (length s.value.now ≤ 65535) × (is_path (width_of s.wide) s.value.now ≡ true)
        × (is_path (width_of s.wide) s.rest.now ≡ true) };
}

// The first segment of a path, and the path after it. None if the path is empty.
pub(crate) fn split_first<'a>(path: &'a [u8], wide: bool) -> Option<(Segment<'a>, &'a [u8])>
    requires { is_path (width_of wide) path.now ≡ true }
    ensures splits { MatchOption result (HasNoSegment (width_of wide) path.now)
        (λ r. BeginsWith (width_of wide) path.now (segment_view r.0) r.1.now) }
    ensures shorter { IfSome result (λ r. r.0.count + 1 + length r.1.now ≤ length path.now) }
{
    if path.is_empty() {
        return None;
    }
    let count = path[1];
    let (front, rest) = path.split_at(2 + width(wide) * usize::from(count));
    let segment = Segment {
        set: front[0] == AS_SET,
        count,
        octets: front.split_at(2).1,
    };
    Some((segment, rest))
}

// What a segment adds to the length of a path.
pub(crate) fn hops_of(segment: &Segment<'_>) -> usize
    ensures { result ≡ (if segment.now.set then 1 else segment.now.count) }
{
    if segment.set {
        1
    } else {
        usize::from(segment.count)
    }
}

// The length of a path: its AS numbers, a set counting 1 (RFC 4271, section 9.1.2.2).
pub(crate) fn hops_in(path: &[u8], wide: bool) -> usize
    requires { is_path (width_of wide) path.now ≡ true }
    ensures hops { result ≡ path_hops (path_in (width_of wide) path.now) }
    ensures bound { result ≤ length path.now }
{
    let mut hops = 0;
    let mut rest = path;
    'segments: while let Some((segment, after)) = split_first(rest, wide) {
        hops += hops_of(&segment);
        rest = after;
    }
    hops
}

// Whether no AS number can be prepended to those of a segment: it is a set, or full.
fn is_full_or_set(segment: &Segment<'_>) -> bool
    ensures { result ≡ (segment.now.set || nat_le MAX_NUMBERS segment.now.count) }
{
    segment.set || segment.count == MAX_NUMBERS
}

// The first segment after prepending is a sequence: its count, and the octets after the new number.
fn prepended_parts<'a>(path: &'a [u8], wide: bool) -> (u8, &'a [u8])
    requires { is_path (width_of wide) path.now ≡ true }
    ensures octets { (asn : ℕ) → path_octets (width_of wide) (prepend asn (path_in (width_of wide) path.now))
        ≡ AS_SEQUENCE ∷ result.0 ∷ number_octets (width_of wide) asn ++ result.1.now }
    ensures path { (asn : ℕ) → is_path (width_of wide)
        (AS_SEQUENCE ∷ result.0 ∷ number_octets (width_of wide) asn ++ result.1.now) ≡ true }
    ensures within { length result.1.now ≤ length path.now }
{
    let Some((first, _)) = split_first(path, wide) else {
        return (1, path);
    };
    if is_full_or_set(&first) {
        return (1, path);
    }
    (first.count + 1, path.split_at(2).1)
}

// A walk over a path with AS numbers of two octets, or of four.
fn walk_from_start<'a>(value: &'a [u8], wide: bool) -> Option<Segments<'a>>
    requires { length value.now ≤ 65535 }
    ensures path { is_some result ≡ is_path (width_of wide) value.now }
    ensures whole { IfSome result (λ s. s ≡ walk_over (width_of wide) value.now) }
{
    let ok = if wide {
        path_ok4(value)
    } else {
        path_ok(value)
    };
    if !ok {
        return None;
    }
    Some(Segments {
        value,
        rest: value,
        wide,
    })
}

impl<'a> Segments<'a> {
    /// A walk over the segments of an AS_PATH, from the first on, with AS numbers of two octets. None if segments do
    /// not fill the value (RFC 4271, section 4.3).
    pub fn new(value: &'a [u8]) -> Option<Segments<'a>>
        requires { length value.now ≤ 65535 }
        ensures path { is_some result ≡ is_path 2 value.now }
        ensures whole { IfSome result (λ s. s ≡ walk_over 2 value.now) }
    {
        walk_from_start(value, false)
    }

    /// The same with AS numbers of four octets (RFC 6793, section 4.1).
    pub fn wide(value: &'a [u8]) -> Option<Segments<'a>>
        requires { length value.now ≤ 65535 }
        ensures path { is_some result ≡ is_path 4 value.now }
        ensures whole { IfSome result (λ s. s ≡ walk_over 4 value.now) }
    {
        walk_from_start(value, true)
    }

    /// The next segment. None after the last.
    pub fn next(&mut self) -> Option<Segment<'a>>
        ensures item { IfSome result (λ s. self.old.coming ≡ segment_view s ∷ self.new.coming) }
        ensures end { IfNone result ((self.old.coming ≡ []) × (self.new.coming ≡ [])) }
        ensures whole { self.new ≡ record self.old { coming = self.new.coming } }
    {
        let (segment, rest) = split_first(self.rest, self.wide)?;
        self.rest = rest;
        Some(segment)
    }

    /// The number of AS numbers in the whole path, a set counting 1 (RFC 4271, section 9.1.2.2).
    pub fn hops(&self) -> u32
        ensures { result ≡ path_hops (path_of self.now) }
    {
        hops_in(self.value, self.wide) as u32
    }

    /// Whether an AS number is in the whole path, in a set or a sequence (RFC 4271, section 9.1.2).
    #[tactic(auto, using(crate::proofs::SplitsLemmas::whole_path))]
    pub fn contains(&self, asn: u32) -> bool
        ensures { result ≡ path_contains asn (path_of self.now) }
    {
        let mut rest = self.value;
        'segments: while let Some((segment, after)) = split_first(rest, self.wide) {
            if has_number(segment.octets, segment.count, self.wide, asn) {
                return true;
            }
            rest = after;
        }
        false
    }

    /// The first AS number of the whole path. None if the path is empty or its first segment is a set.
    #[tactic(auto, using(crate::proofs::SplitsLemmas::whole_path))]
    pub fn leftmost(&self) -> Option<u32>
        ensures { result ≡ path_leftmost (path_of self.now) }
    {
        let (first, _) = split_first(self.value, self.wide)?;
        if first.set {
            return None;
        }
        Some(number_at_front(first.octets, self.wide))
    }

    /// Writes the whole path, with an AS number prepended, to the front of `out`, and returns its length (RFC 4271,
    /// section 5.1.2). The number becomes the first of a leading sequence of fewer than 255 numbers, or else a new
    /// sequence. None if the octets do not fit: `out` is then unchanged.
    pub fn prepend_into(&self, asn: u32, out: &mut [u8]) -> Option<usize>
        requires { self.now.width ≡ 2 → asn ≤ 65535 }
        ensures written { WritesFront result out.old out.new (prepended self.now asn) }
        ensures bound { length (prepended self.now asn) ≤ length self.now.value + self.now.width + 2 }
        ensures path { is_path self.now.width (prepended self.now asn) ≡ true }
    {
        let (count, after) = prepended_parts(self.value, self.wide);
        let header = 2 + width(self.wide);
        let len = header + after.len();
        if out.len() < len {
            return None;
        }
        copy_at(out, 0, &[AS_SEQUENCE, count]);
        write_number(out, 2, asn, self.wide);
        copy_at(out, header, after);
        Some(len)
    }
}
