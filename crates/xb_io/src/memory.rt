//! A shelf and a sink in memory, whose calls fail as their caller has said: what tests and proofs run over.
ghost use Rattle.std.specs.Prelude.{◌≡◌, ◌+◌, ◌-◌, ◌<◌, ◌≤◌, ◌⊎◌, ◌↔◌, [], ◌∷◌, ◌++◌, length, take, Some, IsNone};
ghost use Rattle.std.specs.Prelude.{IsTrue, IfOk, IsErr, OnOk, OnErr, Contains};
ghost use Rattle.std.specs.Option.{option_copied};
ghost use Rattle.xb_io.specs.Causes.{FaultsRose, one_more, IsMissing, Reads, ReadsPart, file_named, TookFront};
ghost use Rattle.xb_io.specs.Causes.{with_text};
ghost use Rattle.xb_io.specs.Entries.{files_of};
ghost use Rattle.xb_io.specs.Memories.{HoldsAlso};

use crate::{Failed, Shelf, Sink};
use std::alloc::{AllocError, Global};
use std::collections::BTreeMap;
use std::marker::Model;
use xb_values::Buf;

/// A shelf in memory. A read fails if its number is in a list, and at a name that is not held.
#[derive(Drop)]
pub struct MemShelf {
    alloc: Global,
    entries: BTreeMap<String, Vec<u8>>,
    calls: u64,
    failing: Vec<u64>,
    faults: u64,
}

impl Model for MemShelf {
    ghost use Rattle.xb_io.specs.Memories.{Held};
    ghost use Rattle.xb_io.specs.Entries.{files_of};

    ghost Value = { Held };

    ghost view = { λ s. record {
      files = files_of s.entries.entries;
      calls = s.calls;
      failing = s.failing.items;
      faults = s.faults;
    } };
}

// Copies the octets from offset `at`, as far as they fit, and returns how many.
fn copy_from(octets: &[u8], at: u64, buf: &mut [u8]) -> usize
    ensures { ReadsPart octets.now at buf.new result }
{
    if at >= octets.len() as u64 {
        return 0;
    }
    let rest = &octets[at as usize..];
    let count = rest.len().min(buf.len());
    buf[..count].copy_from_slice(&rest[..count]);
    count
}

// The octets of a name, if it is held.
#[tactic(auto, using(crate::proofs::MemoryLemmas::file_named_in_entries))]
fn octets_named<'a>(entries: &'a BTreeMap<String, Vec<u8>>, name: &str) -> Option<&'a [u8]>
    ensures { option_copied result ≡ file_named (files_of entries.now.entries) name.now }
{
    match entries.get(name) {
        Some(octets) => Some(octets.as_slice()),
        None => None,
    }
}

// Appends what fits of the bytes, and returns whether all do.
fn push_front(out: &mut Buf, bytes: &[u8]) -> bool
    ensures fits { IsTrue result ↔ (length out.old.octets + length bytes.now ≤ out.old.capacity) }
    ensures front { let space = out.old.capacity - length out.old.octets
        in out.new ≡ record out.old { octets = out.old.octets ++ take space bytes.now } }
{
    let space = out.room();
    if bytes.len() > space {
        let _ = out.push(&bytes[..space]);
        return false;
    }
    out.push(bytes)
}

impl MemShelf {
    /// A shelf that holds nothing and fails at no call. The error is want of memory.
    pub fn make(alloc: Global) -> Result<MemShelf, AllocError>
        ensures { IfOk result (λ s. s ≡ record { files = []; calls = 0; failing = []; faults = 0 }) }
    {
        Ok(MemShelf {
            alloc,
            entries: BTreeMap::new(alloc),
            calls: 0,
            failing: Vec::new(alloc),
            faults: 0,
        })
    }

    /// Holds the octets under the name, and no longer those that it held there. The error is want of memory; then
    /// nothing changed.
    pub fn add(&mut self, name: &str, bytes: &[u8]) -> Result<(), AllocError>
        ensures held { OnOk result (HoldsAlso self.old.files self.new.files name.now bytes.now) }
        ensures others { OnOk result (self.new ≡ record self.old { files = self.new.files }) }
        ensures err { OnErr result (self.new ≡ self.old) }
    {
        let octets = Vec::from_slice(self.alloc, bytes)?;
        let name = String::from_str(self.alloc, name)?;
        let _ = self.entries.insert(name, octets)?;
        Ok(())
    }

    /// The call of that number, counted from 1, will fail. The error is want of memory; then nothing changed.
    pub fn fail_at(&mut self, call: u64) -> Result<(), AllocError>
        ensures ok { OnOk result (self.new ≡ record self.old { failing = self.old.failing ++ call ∷ [] }) }
        ensures err { OnErr result (self.new ≡ self.old) }
    {
        self.failing.push(call)?;
        Ok(())
    }
}

impl Shelf for MemShelf {
    ghost held = { λ s. Some s.files };

    ghost faults = { λ s. s.faults };

    fn read(&mut self, name: &str, at: u64, buf: &mut [u8]) -> Result<usize, Failed>
        ensures same { self.new.files ≡ self.old.files }
        ensures read { IfOk result (λ n. Reads (Some self.old.files) name.now at buf.new n) }
        ensures quiet { OnOk result (self.new.faults ≡ self.old.faults) }
        ensures later { self.old.faults ≤ self.new.faults }
        ensures cause { OnErr result
            (FaultsRose self.old.faults self.new.faults ⊎ IsMissing (Some self.old.files) name.now) }

        // It fails exactly by the number of the call and at an absent name; the number alone counts as a fault.
        ensures counted { self.new ≡ record self.old { calls = one_more self.old.calls; faults = self.new.faults } }
        ensures fails { IsErr result
            ↔ (Contains self.old.failing self.new.calls ⊎ IsNone (file_named self.old.files name.now)) }
        ensures listed { Contains self.old.failing self.new.calls → self.new.faults ≡ one_more self.old.faults }
        ensures absent { ¬ Contains self.old.failing self.new.calls → self.new.faults ≡ self.old.faults }
    {
        self.calls = self.calls.saturating_add(1);
        if self.failing.contains(&self.calls) {
            self.faults = self.faults.saturating_add(1);
            return Err(Failed);
        }
        match octets_named(&self.entries, name) {
            Some(octets) => Ok(copy_from(octets, at, buf)),
            None => Err(Failed),
        }
    }
}

/// A sink in memory, of fixed room. A call of `put` fails if its number is in a list, and if the octets pass the room.
#[derive(Drop)]
pub struct MemSink {
    taken: Buf,
    calls: u64,
    failing: Vec<u64>,
    faults: u64,
}

impl Model for MemSink {
    ghost use Rattle.xb_io.specs.Memories.{Taken};

    ghost Value = { Taken };

    ghost view = { λ s. record {
      taken = s.taken.octets;
      room = s.taken.capacity;
      calls = s.calls;
      failing = s.failing.items;
      faults = s.faults;
    } };
}

impl MemSink {
    /// An empty sink that takes at most `room` octets in all. The error is want of memory.
    pub fn make(alloc: Global, room: usize) -> Result<MemSink, AllocError>
        ensures { IfOk result (λ s. s ≡ record { taken = []; room = room; calls = 0; failing = []; faults = 0 }) }
    {
        Ok(MemSink {
            taken: Buf::make(alloc, room)?,
            calls: 0,
            failing: Vec::new(alloc),
            faults: 0,
        })
    }

    /// The call of that number, counted from 1, will fail. The error is want of memory; then nothing changed.
    pub fn fail_at(&mut self, call: u64) -> Result<(), AllocError>
        ensures ok { OnOk result (self.new ≡ record self.old { failing = self.old.failing ++ call ∷ [] }) }
        ensures err { OnErr result (self.new ≡ self.old) }
    {
        self.failing.push(call)?;
        Ok(())
    }

    /// All that was taken, in order.
    pub fn taken(&self) -> &[u8]
        ensures { result.now ≡ self.now.taken }
    {
        self.taken.as_slice()
    }
}

impl Sink for MemSink {
    ghost took = { λ s. Some s.taken };

    ghost faults = { λ s. s.faults };

    fn put(&mut self, bytes: &[u8]) -> Result<(), Failed>
        ensures all { OnOk result (Some self.new.taken ≡ with_text (Some self.old.taken) bytes.now) }
        ensures front { TookFront (Some self.old.taken) (Some self.new.taken) bytes.now }
        ensures quiet { OnOk result (self.new.faults ≡ self.old.faults) }
        ensures later { self.old.faults ≤ self.new.faults }
        ensures cause { OnErr result (FaultsRose self.old.faults self.new.faults) }

        // It fails exactly by the number of the call and past the room; past the room it takes what fits.
        ensures counted { self.new
            ≡ record self.old { calls = one_more self.old.calls; taken = self.new.taken; faults = self.new.faults } }
        ensures fails { IsErr result
            ↔ (Contains self.old.failing self.new.calls ⊎ (self.old.room < length self.old.taken + length bytes.now)) }
        ensures listed { Contains self.old.failing self.new.calls → self.new.taken ≡ self.old.taken }
        ensures fitting { ¬ Contains self.old.failing self.new.calls
            → self.new.taken ≡ self.old.taken ++ take (self.old.room - length self.old.taken) bytes.now }
        ensures one_fault { OnErr result (self.new.faults ≡ one_more self.old.faults) }
    {
        self.calls = self.calls.saturating_add(1);
        if self.failing.contains(&self.calls) {
            self.faults = self.faults.saturating_add(1);
            return Err(Failed);
        }
        if !push_front(&mut self.taken, bytes) {
            self.faults = self.faults.saturating_add(1);
            return Err(Failed);
        }
        Ok(())
    }
}
