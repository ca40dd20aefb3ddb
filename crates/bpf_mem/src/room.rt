// Room for a stack and a heap.
ghost use Rattle.std.specs.Prelude.{◌≡◌, ◌+◌, ◌≤◌, length, take, drop, replicate, IfOk};
ghost use Rattle.std.specs.Borrow.{sem};
ghost use Rattle.bpf_mem.specs.Memory.{replaced};

use crate::regions::{HEAP_SIZE, STACK_SIZE};
use std::alloc::{AllocError, Global};
use std::marker::Model;

/// Room for a stack and a heap, which one run of a program after another may use.
#[derive(Drop)]
pub struct Room {
    // The octets of the stack, then those of the heap.
    octets: Vec<u8>,
    // From this offset on all octets are zeros.
    written: usize,
}

impl Model for Room {
    ghost use Rattle.std.specs.Prelude.{◌≡◌, ℕ, ◌+◌, ◌-◌, ◌≤◌, List, length, drop, replicate};
    ghost use Rattle.bpf_mem.specs.declared.regions.TheConstants.{STACK_SIZE, HEAP_SIZE};

    ghost Value = { List ℕ };

    ghost view = { λ r. r.octets.items };

    ghost invariant = { λ r. (length r.octets.items ≡ STACK_SIZE + HEAP_SIZE) × ((r.written ≤ STACK_SIZE + HEAP_SIZE)
        × (drop r.written r.octets.items ≡ replicate (STACK_SIZE + HEAP_SIZE - r.written) 0)) };
}

impl Room {
    ghost use Rattle.bpf_mem.specs.Lending.{LendsPart};

    /// Allocates the room, 8,704 octets of zeros. An error is a want of memory.
    pub fn make(alloc: Global) -> Result<Room, AllocError>
        ensures { IfOk result (λ r. r ≡ replicate (STACK_SIZE + HEAP_SIZE) 0) }
    {
        let octets = vec![in alloc; 0; STACK_SIZE + HEAP_SIZE]?;
        Ok(Room { octets, written: 0 })
    }

    // Makes all octets zero.
    pub(crate) fn clear(&mut self)
        ensures { self.new ≡ replicate (STACK_SIZE + HEAP_SIZE) 0 }
    {
        self.octets.slice_mut(..self.written).fill(0);
        self.written = 0;
    }

    // All octets.
    pub(crate) fn octets(&self) -> &[u8]
        ensures { result.now ≡ self.now }
    {
        &self.octets
    }

    // Writes octets from offset `at` on.
    #[inline(always)]
    pub(crate) fn write(&mut self, at: usize, octets: &[u8])
        requires { at + length octets.now ≤ length self.old }
        ensures { self.new ≡ replaced self.old at octets.now }
    {
        let written = self.written;
        let end = at + octets.len();
        self.octets.slice_mut(at..end).copy_from_slice(octets);
        if written < end {
            self.written = end;
        }
    }

    // The `len` octets from offset `at` on, to be written. As the borrow may leave anything there, `written` becomes
    // the whole.
    #[inline(always)]
    pub(crate) fn part_mut(&mut self, at: usize, len: usize) -> &mut [u8]
        requires { at + len ≤ length self.old }
        ensures* writes_back { sem 𝓛 (LendsPart self.entry at result) }
        ensures value { result.now ≡ take len (drop at self.old) }
    {
        self.written = STACK_SIZE + HEAP_SIZE;
        self.octets.slice_mut(at..at + len)
    }
}
