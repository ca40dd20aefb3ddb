// A number for each section that tells most sections apart.
ghost use Rattle.std.specs.Prelude.{◌≡◌, ◌-◌, length, drop};
ghost use Rattle.section_map.specs.Sums.{mixed, number_of, sum_of};

// The octets of a word.
const WORD: usize = 8;

// By how many bits a sum is turned before a number is mixed in.
const TURN: u32 = 5;

// An odd factor with bits all over, so that no two numbers give one sum.
const FACTOR: u64 = 0x517C_C1B7_2722_0A95;

// A sum with one more number.
#[inline(always)]
fn mix(sum: u64, number: u64) -> u64
    ensures { result ≡ mixed sum number }
{
    (sum.rotate_left(TURN) ^ number).wrapping_mul(FACTOR)
}

// The number of the last eight octets.
#[inline(always)]
fn last_number(section: &[u8]) -> u64
    ensures { result ≡ number_of (drop (length section.now - WORD) section.now) }
{
    if let Some(octets) = section.last_chunk::<WORD>() {
        return u64::from_be_bytes(*octets);
    }
    let mut octets = [0u8; WORD];
    octets[..section.len()].copy_from_slice(section);
    u64::from_be_bytes(octets)
}

/// The sum of a section.
pub(crate) fn sum_of(section: &[u8]) -> u64
    ensures { result ≡ sum_of section.now }
{
    let (words, _) = section.as_chunks::<WORD>();
    let mut sum = section.len() as u64;
    'words: for word in words {
        sum = mix(sum, u64::from_be_bytes(*word));
    }
    mix(sum, last_number(section))
}
