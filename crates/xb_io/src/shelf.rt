ghost use Rattle.std.specs.Prelude.{◌≡◌, ◌⊎◌, ◌≤◌, List, ℕ, Option, IfOk, OnOk, OnErr};
ghost use Rattle.xb_io.specs.Causes.{Files, Reads, FaultsRose, IsMissing, TookFront, with_text};

/// A call that failed.
#[derive(Clone, Copy, Debug, PartialEq, Eq)]
pub struct Failed;

/// Octets under names, which reads do not change. A shelf whose meaning `held` is Some tells what it holds: a contract
/// can then say what was read.
pub trait Shelf {
    /// The names with their octets, if the shelf tells.
    ghost held: { Self → Option Files };

    /// How often a call failed, up to 2^64 - 1.
    ghost faults: { Self → ℕ };

    /// Reads from the named file, starting at offset `at`, and returns the number of octets read, which are at the
    /// front of `buf`. The rest of `buf` is unspecified, as is all of it after `Failed`.
    fn read(&mut self, name: &str, at: u64, buf: &mut [u8]) -> Result<usize, Failed>
        ensures same { held self.new ≡ held self.old }
        ensures read { IfOk result (λ n. Reads (held self.old) name.now at buf.new n) }
        ensures quiet { OnOk result (faults self.new ≡ faults self.old) }
        ensures later { faults self.old ≤ faults self.new }
        ensures cause { OnErr result
            (FaultsRose (faults self.old) (faults self.new) ⊎ IsMissing (held self.old) name.now) };
}

/// What takes text. A sink whose meaning `took` is Some tells what it took.
pub trait Sink {
    /// The octets that it took, if it tells.
    ghost took: { Self → Option (List ℕ) };

    /// How often a call failed, up to 2^64 - 1.
    ghost faults: { Self → ℕ };

    /// Takes all the octets, or takes a front of them and fails.
    fn put(&mut self, bytes: &[u8]) -> Result<(), Failed>
        ensures all { OnOk result (took self.new ≡ with_text (took self.old) bytes.now) }
        ensures front { TookFront (took self.old) (took self.new) bytes.now }
        ensures quiet { OnOk result (faults self.new ≡ faults self.old) }
        ensures later { faults self.old ≤ faults self.new }
        ensures cause { OnErr result (FaultsRose (faults self.old) (faults self.new)) };
}
