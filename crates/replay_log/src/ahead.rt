// Octets of a log that were read ahead of its lines.
ghost use Rattle.std.specs.Prelude.{◌≡◌, ◌⊎◌, ℕ, ◌≤◌, List, [], length, drop, Some, IfOk, IfErr, OnOk, OnErr, IsErr};
ghost use Rattle.xb_io.specs.Causes.{FaultsRose, IsMissing, Reads, told_file};
ghost use Rattle.replay_log.specs.Readings.{AreAhead};

use std::alloc::{AllocError, Global};
use std::marker::Model;
use xb_io::{Failed, Shelf};
use xb_words::zeros;

// How many octets are read at once.
pub(crate) const BLOCK: usize = 16_384;

/// The octets of the last block that are left. Contracts see them as a list.
#[derive(Drop)]
pub(crate) struct Ahead {
    block: Vec<u8>,
    from: usize,
    to: usize,
}

impl Model for Ahead {
    ghost use Rattle.std.specs.Prelude.{◌≡◌, ◌≤◌, ℕ, List, length, slice_range};
    ghost use Rattle.replay_log.specs.declared.ahead.TheConstants.{BLOCK};

    ghost Value = { List ℕ };

    ghost view = { λ a. slice_range a.block.items a.from a.to };

    ghost invariant = { λ a. (a.from ≤ a.to) × (a.to ≤ length a.block.items) × (length a.block.items ≡ BLOCK) };
}

// Reads octets at the offset `at` of the named log.
fn read_block<S: Shelf>(
    shelf: &mut S,
    name: &str,
    at: u64,
    block: &mut Vec<u8>,
) -> Result<usize, Failed>
    ensures read { IfOk result (λ n. Reads (S.held shelf.old) name.now at block.new.items n) }
    ensures fits { IfOk result (λ n. n ≤ length block.new.items) }
    ensures size { length block.new.items ≡ length block.old.items }
    ensures missing { IsMissing (S.held shelf.old) name.now → IsErr result }
    ensures same { S.held shelf.new ≡ S.held shelf.old }
    ensures quiet { OnOk result (S.faults shelf.new ≡ S.faults shelf.old) }
    ensures later { S.faults shelf.old ≤ S.faults shelf.new }
    ensures cause { OnErr result
        (FaultsRose (S.faults shelf.old) (S.faults shelf.new) ⊎ IsMissing (S.held shelf.old) name.now) }
{
    shelf.read(name, at, block.as_mut_slice())
}

impl Ahead {
    /// Nothing that was read ahead. All memory is taken here.
    pub fn make(alloc: Global) -> Result<Ahead, AllocError>
        ensures { IfOk result (λ a. a ≡ []) }
    {
        Ok(Ahead {
            block: zeros(alloc, BLOCK)?,
            from: 0,
            to: 0,
        })
    }

    pub fn as_slice(&self) -> &[u8]
        ensures { result.now ≡ self.now }
    {
        &self.block[self.from..self.to]
    }

    /// Removes the first octets.
    pub fn skip(&mut self, count: usize)
        requires { count ≤ length self.old }
        ensures { self.new ≡ drop count self.old }
    {
        self.from += count;
    }

    /// Removes all octets.
    pub fn clear(&mut self)
        ensures { self.new ≡ [] }
    {
        self.from = 0;
        self.to = 0;
    }

    // Reads the block at the offset `at` of the named log.
    fn read<S: Shelf>(&mut self, shelf: &mut S, name: &str, at: u64) -> Result<(), Failed>
        ensures ahead { AreAhead (S.held shelf.new) name.now at self.new }
        ensures end { (log : List ℕ) → told_file (S.held shelf.old) name.now ≡ Some log
            → OnOk result (self.new ≡ [] → length log ≤ at) }
        ensures missing { IsMissing (S.held shelf.old) name.now → IsErr result }
        ensures same { S.held shelf.new ≡ S.held shelf.old }
        ensures quiet { OnOk result (S.faults shelf.new ≡ S.faults shelf.old) }
        ensures later { S.faults shelf.old ≤ S.faults shelf.new }
        ensures cause { OnErr result
            (FaultsRose (S.faults shelf.old) (S.faults shelf.new) ⊎ IsMissing (S.held shelf.old) name.now) }
    {
        self.from = 0;
        self.to = 0;
        match read_block(shelf, name, at, &mut self.block) {
            Ok(count) => {
                self.to = count;
                Ok(())
            }
            Err(failed) => Err(failed),
        }
    }

    /// Reads the block at the offset `at` of the named log if no octet is left. Then none is left only at its end.
    pub fn fill<S: Shelf>(&mut self, shelf: &mut S, name: &str, at: u64) -> Result<(), Failed>
        requires { AreAhead (S.held shelf.old) name.now at self.old }
        ensures ahead { AreAhead (S.held shelf.new) name.now at self.new }
        ensures end { (log : List ℕ) → told_file (S.held shelf.old) name.now ≡ Some log
            → OnOk result (self.new ≡ [] → length log ≤ at) }
        ensures missing { IsMissing (S.held shelf.old) name.now → IsErr result }
        ensures same { S.held shelf.new ≡ S.held shelf.old }
        ensures quiet { OnOk result (S.faults shelf.new ≡ S.faults shelf.old) }
        ensures later { S.faults shelf.old ≤ S.faults shelf.new }
        ensures cause { OnErr result
            (FaultsRose (S.faults shelf.old) (S.faults shelf.new) ⊎ IsMissing (S.held shelf.old) name.now) }
    {
        if self.from < self.to {
            return Ok(());
        }
        self.read(shelf, name, at)
    }
}
