// Sets of helpers.
ghost use Rattle.std.specs.Prelude.{◌≡◌, ℕ, ◌≤◌, ◌==◌, ◌||◌, false};

use crate::limits::MAX_HELPER;

const NUMBERS: usize = MAX_HELPER as usize + 1;

/// A set of helpers by number, from 1 to `MAX_HELPER`: those that code may call.
#[derive(Clone, Copy, Debug, PartialEq, Eq)]
pub struct HelperSet {
    // For each number, whether the set has it; 0 is never set.
    allowed: [bool; NUMBERS],
}

impl HelperSet {
    ghost use Rattle.bpf_insn.specs.Helpers.{allows};

    /// The empty set.
    pub fn none() -> HelperSet
        ensures { (n : ℕ) → allows result n ≡ false }
    {
        HelperSet {
            allowed: [false; NUMBERS],
        }
    }

    /// The set with the helper `number` added.
    pub fn with(self, number: u32) -> HelperSet
        requires least { 1 ≤ number }
        requires most { number ≤ MAX_HELPER }
        ensures { (n : ℕ) → allows result n ≡ (n == number || allows self n) }
    {
        let mut allowed = self.allowed;
        allowed[number as usize] = true;
        HelperSet { allowed }
    }

    // Whether the set has a number.
    pub(crate) fn has(&self, number: u32) -> bool
        ensures { result ≡ allows self.now number }
    {
        number <= MAX_HELPER && self.allowed[number as usize]
    }
}
