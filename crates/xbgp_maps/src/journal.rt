// The writes of a run, each with the value before it, so that they can be taken back.
ghost use Rattle.std.specs.Prelude.{◌≡◌, ◌-◌, ◌<◌, ◌≤◌, [], ◌∷◌, ◌++◌, length, take, nat_le, is_some, None, IfOk};
ghost use Rattle.std.specs.List.{slice_get};
ghost use Rattle.std.specs.Option.{option_map};
ghost use Rattle.xbgp_maps.specs.Journals.{when_done, write_of};
ghost use Rattle.xbgp_maps.specs.Mappings.{value_in, put_in, taken_from};

use crate::limits::{BUDGET, MAX_KEY, MAX_VALUE};
use crate::table::Table;
use std::alloc::{AllocError, Global};
use std::marker::Model;
use xb_values::Buf;

/// A write: the map, the key, and the value before it, if there was one.
#[derive(Drop)]
pub(crate) struct Change {
    map: u32,
    key: Buf,
    value: Buf,
    was_there: bool,
}

impl Model for Change {
    ghost use Rattle.std.specs.Prelude.{◌≡◌, Some, None, if◌then◌else◌};
    ghost use Rattle.xbgp_maps.specs.declared.limits.TheConstants.{MAX_KEY, MAX_VALUE};
    ghost use Rattle.xbgp_maps.specs.Journals.{Write};

    ghost Value = { Write };

    ghost view = { λ c.
        record { map = c.map; key = c.key.octets; old = if c.was_there then Some c.value.octets else None } };

    ghost invariant = { λ c. (c.key.capacity ≡ MAX_KEY) × (c.value.capacity ≡ MAX_VALUE) };
}

impl Change {
    // The room for a write.
    fn blank(alloc: Global) -> Result<Change, AllocError> {
        Ok(Change {
            map: 0,
            key: Buf::make(alloc, MAX_KEY as usize)?,
            value: Buf::make(alloc, MAX_VALUE as usize)?,
            was_there: false,
        })
    }

    pub fn map(&self) -> u32
        ensures { result ≡ self.now.map }
    {
        self.map
    }

    pub fn key(&self) -> &[u8]
        ensures { result.now ≡ self.now.key }
    {
        self.key.as_slice()
    }

    /// The value before the write, if there was one.
    pub fn old(&self) -> Option<&[u8]>
        ensures { option_map (λ v. v.now) result ≡ self.now.old }
    {
        if self.was_there {
            Some(self.value.as_slice())
        } else {
            None
        }
    }

    // Becomes the write of a new key.
    fn fill(&mut self, map: u32, key: &[u8])
        requires { length key.now ≤ MAX_KEY }
        ensures { self.new ≡ record { map = map; key = key.now; old = None } }
    {
        self.map = map;
        self.key.replace(key);
        self.was_there = false;
    }

    // Replaces the value at a key of a map, if the key is there, which is returned, and becomes that write.
    fn replace(&mut self, map: u32, table: &mut Table, key: &[u8], value: &[u8]) -> bool
        requires key { length key.now ≤ MAX_KEY }
        requires width { length value.now ≡ table.old.shape.value }
        requires value { length value.now ≤ MAX_VALUE }
        ensures there { result ≡ is_some (value_in table.old key.now) }
        ensures table { table.new ≡ when_done result (put_in table.old key.now value.now) table.old }
        ensures write { self.new ≡ write_of map table.old key.now }
    {
        self.map = map;
        self.key.replace(key);
        self.was_there = table.replace(key, value, &mut self.value);
        self.was_there
    }

    // Removes a key from a map, if it is there, which is returned, and becomes that removal.
    fn take_out(&mut self, map: u32, table: &mut Table, key: &[u8]) -> bool
        requires key { length key.now ≤ MAX_KEY }
        requires value { table.old.shape.value ≤ MAX_VALUE }
        ensures there { result ≡ is_some (value_in table.old key.now) }
        ensures table { table.new ≡ when_done result (taken_from table.old key.now) table.old }
        ensures write { self.new ≡ write_of map table.old key.now }
    {
        self.map = map;
        self.key.replace(key);
        self.was_there = table.take_out(key, &mut self.value);
        self.was_there
    }
}

/// The writes so far, in order. All room is taken when it is made.
#[derive(Drop)]
pub(crate) struct Journal {
    changes: Vec<Change>,
    count: usize,
}

impl Model for Journal {
    ghost use Rattle.std.specs.Prelude.{◌≡◌, ◌≤◌, List, length, take};
    ghost use Rattle.xbgp_maps.specs.declared.limits.TheConstants.{BUDGET};
    ghost use Rattle.xbgp_maps.specs.Journals.{Write};

    ghost Value = { List Write };

    ghost view = { λ j. take j.count j.changes.items };

    ghost invariant = { λ j. (j.count ≤ BUDGET) × (length j.changes.items ≡ BUDGET) };
}

// The room for all writes of a run.
fn blanks(alloc: Global) -> Result<Vec<Change>, AllocError>
    ensures { IfOk result (λ v. length v.items ≡ BUDGET) }
{
    let mut changes = Vec::new(alloc);
    'changes: for _ in 0..BUDGET {
        changes.push(Change::blank(alloc)?)?;
    }
    Ok(changes)
}

impl Journal {
    pub fn make(alloc: Global) -> Result<Journal, AllocError>
        ensures { IfOk result (λ j. j ≡ []) }
    {
        Ok(Journal {
            changes: blanks(alloc)?,
            count: 0,
        })
    }

    pub fn len(&self) -> usize
        ensures value { result ≡ length self.now }
        ensures bound { result ≤ BUDGET }
    {
        self.count
    }

    /// Whether the run has all its writes.
    pub fn is_spent(&self) -> bool
        ensures { result ≡ nat_le BUDGET (length self.now) }
    {
        self.count >= BUDGET
    }

    pub fn clear(&mut self)
        ensures { self.new ≡ [] }
    {
        self.count = 0;
    }

    /// Notes the write of a new key.
    pub fn note_new(&mut self, map: u32, key: &[u8])
        requires room { length self.old < BUDGET }
        requires key { length key.now ≤ MAX_KEY }
        ensures { self.new ≡ self.old ++ record { map = map; key = key.now; old = None } ∷ [] }
    {
        self.changes[self.count].fill(map, key);
        self.count += 1;
    }

    /// Replaces the value at a key of a map and notes the write, if the key is there, which is returned.
    pub fn replace(&mut self, map: u32, table: &mut Table, key: &[u8], value: &[u8]) -> bool
        requires room { length self.old < BUDGET }
        requires key { length key.now ≤ MAX_KEY }
        requires width { length value.now ≡ table.old.shape.value }
        requires value { length value.now ≤ MAX_VALUE }
        ensures there { result ≡ is_some (value_in table.old key.now) }
        ensures table { table.new ≡ when_done result (put_in table.old key.now value.now) table.old }
        ensures journal { self.new ≡ when_done result (self.old ++ write_of map table.old key.now ∷ []) self.old }
    {
        if !self.changes[self.count].replace(map, table, key, value) {
            return false;
        }
        self.count += 1;
        true
    }

    /// Removes a key from a map and notes the removal, if the key is there, which is returned.
    pub fn take_out(&mut self, map: u32, table: &mut Table, key: &[u8]) -> bool
        requires room { length self.old < BUDGET }
        requires key { length key.now ≤ MAX_KEY }
        requires value { table.old.shape.value ≤ MAX_VALUE }
        ensures there { result ≡ is_some (value_in table.old key.now) }
        ensures table { table.new ≡ when_done result (taken_from table.old key.now) table.old }
        ensures journal { self.new ≡ when_done result (self.old ++ write_of map table.old key.now ∷ []) self.old }
    {
        if !self.changes[self.count].take_out(map, table, key) {
            return false;
        }
        self.count += 1;
        true
    }

    /// The last write.
    pub fn last(&self) -> Option<&Change>
        ensures { option_map (λ c. c.now) result ≡ slice_get self.now (length self.now - 1) }
    {
        self.changes[..self.count].last()
    }

    /// Forgets the last write.
    pub fn forget_last(&mut self)
        ensures { self.new ≡ take (length self.old - 1) self.old }
    {
        self.count = self.count.saturating_sub(1);
    }
}
