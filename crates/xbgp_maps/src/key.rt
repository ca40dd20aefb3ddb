// The order of keys: most are told apart by their first eight octets, compared as one number.
ghost use Rattle.std.specs.Prelude.{◌≡◌, ◌≤◌, length};
ghost use Rattle.xb_words.specs.Octets.{AreOctets};
ghost use Rattle.xbgp_maps.specs.Keys.{head_of};
ghost use Rattle.xbgp_maps.specs.Mappings.{key_cmp};

use std::cmp::Ordering;

// The first eight octets as a number.
#[inline(always)]
fn head_of(key: &[u8]) -> u64
    requires { 8 ≤ length key.now }
    ensures value { result ≡ head_of key.now }
    ensures range { AreOctets key.now }
{
    u64::from_be_bytes([
        key[0], key[1], key[2], key[3], key[4], key[5], key[6], key[7],
    ])
}

/// The order of two keys, as the library has it for slices.
#[inline(always)]
pub(crate) fn order(a: &[u8], b: &[u8]) -> Ordering
    ensures { result ≡ key_cmp a.now b.now }
{
    if a.len() < 8 || b.len() < 8 {
        return a.cmp(&b);
    }
    match head_of(a).cmp(&head_of(b)) {
        Ordering::Less => Ordering::Less,
        Ordering::Equal => a.split_at(8).1.cmp(&b.split_at(8).1),
        Ordering::Greater => Ordering::Greater,
    }
}
