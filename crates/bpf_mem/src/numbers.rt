// Numbers of up to eight octets, little-endian.
ghost use Rattle.std.specs.Prelude.{◌≡◌, ◌≤◌, ◌<◌, ◌^◌, length};
ghost use Rattle.bpf_mem.specs.Memory.{number_of};

// The number in at most four octets.
#[inline(always)]
fn number_of_few(octets: &[u8]) -> u64
    requires { length octets.now ≤ 4 }
    ensures value { result ≡ number_of octets.now }
    ensures bound { result < 2 ^ 32 }
{
    match octets {
        [] => 0,
        [a] => u64::from(*a),
        [a, b] => u64::from(*a) + 256 * u64::from(*b),
        [a, b, c] => u64::from(*a) + 256 * (u64::from(*b) + 256 * u64::from(*c)),
        [a, b, c, d, ..] => {
            u64::from(*a) + 256 * (u64::from(*b) + 256 * (u64::from(*c) + 256 * u64::from(*d)))
        }
    }
}

// The number in at most eight octets. It is written without a loop, since each load of a program calls it.
#[inline(always)]
pub(crate) fn number_of(octets: &[u8]) -> u64
    requires { length octets.now ≤ 8 }
    ensures { result ≡ number_of octets.now }
{
    match octets {
        [a, b, c, d, others @ ..] => {
            let high = u64::from(*d) + 256 * number_of_few(others);
            u64::from(*a) + 256 * (u64::from(*b) + 256 * (u64::from(*c) + 256 * high))
        }
        _ => number_of_few(octets),
    }
}
