// The values of a route's attributes, read from a view.
ghost use Rattle.std.specs.Prelude.{◌≡◌, ◌≤◌, IfSome, length, slice_index};
ghost use Rattle.std.specs.Option.{option_map};
ghost use Rattle.xb_words.specs.Octets.{four_at};
ghost use Rattle.spk_native.specs.Values.{value_at as value_in, value_or_none, number_at as number_in};

use bgp_attr::MAX_CANONICAL;
use xbgp_view::RouteView;

// The value of an attribute, if the route has the attribute.
pub(crate) fn value_at<R: RouteView>(route: &R, code: u8) -> Option<&[u8]>
    ensures value { option_map (λ v. v.now) result ≡ value_in (R.route route.now) code }
    ensures bound { IfSome result (λ v. length v.now ≤ MAX_CANONICAL) }
{
    let held = route.attribute(code)?;
    Some(held.value())
}

// The octet at an offset; 0 past the end.
fn octet_at(value: &[u8], at: usize) -> u8
    ensures { result ≡ slice_index value.now at }
{
    value.get(at).copied().unwrap_or(0)
}

// The number of the four octets at the front; octets past the end count as 0.
fn number_at_front(value: &[u8]) -> u32
    ensures { result ≡ four_at value.now 0 }
{
    u32::from_be_bytes([
        octet_at(value, 0),
        octet_at(value, 1),
        octet_at(value, 2),
        octet_at(value, 3),
    ])
}

// The number that an attribute has, if the route has the attribute.
pub(crate) fn number_at<R: RouteView>(route: &R, code: u8) -> Option<u32>
    ensures { result ≡ number_in (R.route route.now) code }
{
    let value = value_at(route, code)?;
    Some(number_at_front(value))
}

// The first octet of an attribute's value; 0 if there is none.
pub(crate) fn first_octet_at<R: RouteView>(route: &R, code: u8) -> u8
    ensures { result ≡ slice_index (value_or_none (R.route route.now) code) 0 }
{
    match value_at(route, code) {
        Some(value) => octet_at(value, 0),
        None => 0,
    }
}
