// A set of attribute codes.
ghost use Rattle.std.specs.Prelude.{◌≡◌, ℕ, ◌<◌, false, ◌==◌, ◌||◌};
ghost use Rattle.bgp_check.specs.Codes.{has_bit};

// One bit for each code, from the lowest bit of the first word on.
#[derive(Drop)]
pub(crate) struct Codes {
    words: [u64; 4],
}

impl Codes {
    pub(crate) fn new() -> Codes
        ensures { (code : ℕ) → has_bit result.words code ≡ false }
    {
        Codes { words: [0; 4] }
    }

    pub(crate) fn contains(&self, code: u8) -> bool
        ensures { result ≡ has_bit self.now.words code }
    {
        self.words[usize::from(code / 64)] >> (code % 64) & 1 == 1
    }

    pub(crate) fn insert(&mut self, code: u8)
        ensures { (other : ℕ) → other < 256
            → has_bit self.new.words other ≡ (code == other || has_bit self.old.words other) }
    {
        self.words[usize::from(code / 64)] |= 1 << (code % 64);
    }
}
