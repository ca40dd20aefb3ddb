// Whether a value is an AS_PATH: segments one after another, which fill it.
ghost use Rattle.std.specs.Prelude.{◌≡◌, ◌≤◌, ◌<◌, IfSome, length};
ghost use Rattle.bgp_attr.specs.Paths.{segment_size, path_ok as is_path_of};

use crate::segments::{AS_SEQUENCE, AS_SET};

// Lengths of fields: an AS number has two octets (RFC 4271, section 4.3) or four (RFC 6793), an IPv4 address has four.
pub(crate) const TWO_OCTETS: usize = 2;

pub(crate) const FOUR_OCTETS: usize = 4;

// The length of the segment at the front, its type and count included. None if no whole segment is there.
fn size_of(octets: &[u8], width: usize) -> Option<usize>
    requires { width ≤ 4 }
    ensures size { result ≡ segment_size width octets.now }
    ensures moves { IfSome result (λ n. 0 < n) }
    ensures within { IfSome result (λ n. n ≤ length octets.now) }
{
    if octets.len() < 2 {
        return None;
    }
    let (kind, count) = (octets[0], octets[1]);
    if (kind != AS_SET && kind != AS_SEQUENCE) || count == 0 {
        return None;
    }
    let size = 2 + width * usize::from(count);
    if octets.len() < size {
        return None;
    }
    Some(size)
}

// Whether segments with AS numbers of `width` octets fill the value.
pub(crate) fn is_path(value: &[u8], width: usize) -> bool
    requires { width ≤ 4 }
    ensures { result ≡ is_path_of width value.now }
{
    let mut rest = value;
    'segments: while let Some(size) = size_of(rest, width) {
        rest = rest.split_at(size).1;
    }
    rest.is_empty()
}

/// Whether segments fill the value, with AS numbers of two octets (RFC 4271, sections 4.3 and 6.3). An empty value is
/// an empty path.
pub fn path_ok(value: &[u8]) -> bool
    ensures { result ≡ is_path_of 2 value.now }
{
    is_path(value, TWO_OCTETS)
}

/// The same with AS numbers of four octets (RFC 6793, section 4.1).
pub fn path_ok4(value: &[u8]) -> bool
    ensures { result ≡ is_path_of 4 value.now }
{
    is_path(value, FOUR_OCTETS)
}
