//! Laws of the definitions. Each is the contract of a function that does nothing.
ghost use Rattle.std.specs.Prelude.{◌≡◌, ℕ, ◌≤◌, List, Some, take};
ghost use Rattle.bpf_mem.specs.Memory.{Memory, writable_at};

/// If a range may be written, so may its front: the first `k` octets of the range, for each `k` up to its length.
pub fn writable_front()
    ensures { (m : Memory) (addr : ℕ) (n : ℕ) (k : ℕ) (octets : List ℕ) → k ≤ n → writable_at m addr n ≡ Some octets
        → writable_at m addr k ≡ Some (take k octets) }
{}
