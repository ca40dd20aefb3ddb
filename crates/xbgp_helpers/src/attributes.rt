// The helpers on routes.
ghost use Rattle.std.specs.Prelude.{◌≡◌, option_map, IsSome};
ghost use Rattle.bgp_attr.specs.Routes.{attribute_at};
ghost use Rattle.bpf_mem.specs.Memory.{writable_at};
ghost use Rattle.xbgp_helpers.specs.Helping.{copied_attr, del_attr, get_attr, next_attr, part_after, set_attr};
ghost use Rattle.xbgp_helpers.specs.Helping.{value_of};

use crate::numbers::{MINUS_1, MINUS_2};
use crate::ranges::{octet, octets, when};
use bgp_attr::attr_rule4;
use bgp_attr::codes::{NEXT_HOP, ORIGIN};
use bpf_mem::Memory;
use xb_wire::numbers::MAX_MESSAGE;
use xbgp_view::{Overlay, RouteView};

// Copies the value of an attribute to a range that may be written, if it fits there.
fn copy_attr<R: RouteView>(view: &R, code: u8, dst: u64, room: u64, memory: &mut Memory<'_>) -> u64
    requires { IsSome (writable_at memory.old dst room) }
    ensures value { result ≡ (copied_attr memory.old dst room (attribute_at (R.route view.now) code)).0 }
    ensures memory { memory.new ≡ (copied_attr memory.old dst room (attribute_at (R.route view.now) code)).1 }
    ensures window { memory.new.window ≡ memory.old.window }
{
    let Some(held) = view.attribute(code) else {
        return MINUS_1;
    };
    let value = held.value();
    let len = value.len() as u64;
    if len > room {
        return MINUS_2;
    }
    bpf_mem::laws::writable_front();
    memory.octets_mut(dst, len).copy_from_slice(value);
    len
}

// Copies an attribute of one route.
fn get_attr_of<R: RouteView>(
    view: &R,
    code: u64,
    dst: u64,
    room: u64,
    memory: &mut Memory<'_>,
) -> Option<u64>
    ensures value { result ≡ value_of (get_attr (R.route view.now) None 0 code dst room memory.old) }
    ensures memory { memory.new ≡ part_after memory.old (get_attr (R.route view.now) None 0 code dst room memory.old) }
    ensures window { memory.new.window ≡ memory.old.window }
{
    let code = octet(code)?;
    when(memory.is_writable(dst, room))?;
    Some(copy_attr(view, code, dst, room, memory))
}

/// Helper 2: copies an attribute of route 0, or of route 1 if there is one.
pub(crate) fn get_attr<A: RouteView, B: RouteView>(
    route: &A,
    other: Option<&B>,
    which: u64,
    code: u64,
    dst: u64,
    room: u64,
    memory: &mut Memory<'_>,
) -> Option<u64>
    ensures value { let other_route = option_map (λ r. B.route r.now) other.entry in
        result ≡ value_of (get_attr (A.route route.now) other_route which code dst room memory.old) }
    ensures memory { let other_route = option_map (λ r. B.route r.now) other.entry in memory.new
        ≡ part_after memory.old (get_attr (A.route route.now) other_route which code dst room memory.old) }
    ensures window { memory.new.window ≡ memory.old.window }
{
    match (which, other) {
        (0, _) => get_attr_of(route, code, dst, room, memory),
        (1, Some(other)) => get_attr_of(other, code, dst, room, memory),
        _ => None,
    }
}

/// Helper 3: sets an attribute of the edited route.
pub(crate) fn set_attr(
    route: &mut Overlay,
    code: u64,
    flags: u64,
    src: u64,
    len: u64,
    memory: &Memory<'_>,
) -> Option<u64>
    ensures value { result ≡ value_of (set_attr route.old.route code flags src len memory.now) }
    ensures route { route.new.route
        ≡ part_after route.old.route (set_attr route.old.route code flags src len memory.now) }
    ensures kept { route.new.kept ≡ route.old.kept }
{
    let code = octet(code)?;
    let flags = octet(flags)?;
    let value = octets(memory, src, len)?;
    if attr_rule4(code, flags, value).is_some() {
        return Some(MINUS_1);
    }
    if route.set(code, flags, value, MAX_MESSAGE) {
        Some(0)
    } else {
        Some(MINUS_2)
    }
}

/// Helper 4: removes an attribute of the edited route.
pub(crate) fn del_attr(route: &mut Overlay, code: u64) -> Option<u64>
    ensures value { result ≡ value_of (del_attr route.old.route code) }
    ensures route { route.new.route ≡ part_after route.old.route (del_attr route.old.route code) }
    ensures kept { route.new.kept ≡ route.old.kept }
{
    let code = octet(code)?;
    if ORIGIN <= code && code <= NEXT_HOP {
        return Some(MINUS_1);
    }
    if route.unset(code) {
        Some(0)
    } else {
        Some(MINUS_1)
    }
}

// The least code of one route that is at least `from`, with its flags.
fn next_attr_of<R: RouteView>(view: &R, from: u64) -> Option<u64>
    ensures { result ≡ next_attr (R.route view.now) None 0 from }
{
    when(from <= 256)?;
    let Some(code) = view.code_from(from as u16) else {
        return Some(MINUS_1);
    };
    let (flags, _) = view.flags_len(code)?;
    Some(u64::from(code) + 256 * u64::from(flags))
}

/// Helper 5: the least code of route 0, or of route 1 if there is one, that is at least `from`.
pub(crate) fn next_attr<A: RouteView, B: RouteView>(
    route: &A,
    other: Option<&B>,
    which: u64,
    from: u64,
) -> Option<u64>
    ensures { result ≡ next_attr (A.route route.now) (option_map (λ r. B.route r.now) other.entry) which from }
{
    match (which, other) {
        (0, _) => next_attr_of(route, from),
        (1, Some(other)) => next_attr_of(other, from),
        _ => None,
    }
}
