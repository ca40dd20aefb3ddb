// The maps of programs, with the journal of a run.
ghost use Rattle.std.specs.Prelude.{◌≡◌, ◌<◌, ◌≤◌, [], ◌∷◌, ◌++◌, length, None, IsSome, IfSome, IfOk};
ghost use Rattle.std.specs.Option.{option_map};
ghost use Rattle.xbgp_maps.specs.Journals.{CanTakeBack, IsNarrow, taken_back, restored, was_put, was_removed};
ghost use Rattle.xbgp_maps.specs.Journals.{when_done, write_of};
ghost use Rattle.xbgp_maps.specs.Mappings.{after_put, after_remove, closed, empty_maps, entry_after_in, key_after_in};
ghost use Rattle.xbgp_maps.specs.Mappings.{map_value, mapping_at, opened, put_answer, put_in, remove_answer, shapes_of};
ghost use Rattle.xbgp_maps.specs.Mappings.{taken_from, value_in, AreWithinLimits, IsMapping};

use crate::journal::{Change, Journal};
use crate::limits::BUDGET;
use crate::shape::{MapShape, Put, Remove};
use crate::table::Table;
use std::alloc::{AllocError, Global};
use std::marker::Model;

/// Finite maps from keys to values of fixed widths, numbered from 0.
///
/// Writes and removals are made in a run, which is begun, and then either kept or undone as a whole. All memory is
/// taken when the maps are made.
#[derive(Drop)]
pub struct Maps {
    tables: Vec<Table>,
    journal: Journal,
    is_open: bool,
}

impl Model for Maps {
    ghost use Rattle.xbgp_maps.specs.Journals.{journal_view, IsUndoable};
    ghost use Rattle.xbgp_maps.specs.Mappings.{Journalled};

    ghost Value = { Journalled };

    ghost view = { λ m. journal_view m.is_open m.journal m.tables.items };

    ghost invariant = { λ m. IsUndoable m.journal m.tables.items };
}

// Maps of these shapes, without entries.
fn tables_of(alloc: Global, shapes: &[MapShape]) -> Result<Vec<Table>, AllocError>
    ensures { IfOk result (λ v. v.items ≡ empty_maps shapes.now) }
{
    let mut tables = Vec::with_capacity(alloc, shapes.len())?;
    'shapes: for shape in shapes {
        tables.push(Table::make(alloc, *shape)?)?;
    }
    Ok(tables)
}

// Writes into one map, and notes the write.
fn write(table: &mut Table, journal: &mut Journal, map: u32, key: &[u8], value: &[u8]) -> Put
    requires key { length key.now ≡ table.old.shape.key }
    requires value { length value.now ≡ table.old.shape.value }
    requires narrow { IsNarrow table.old }
    ensures kept { IsMapping table.old }
    ensures answer { result ≡ put_answer (length journal.old) table.old key.now }
    ensures table { table.new ≡ when_done (was_put result) (put_in table.old key.now value.now) table.old }
    ensures journal { journal.new
        ≡ when_done (was_put result) (journal.old ++ write_of map table.old key.now ∷ []) journal.old }
{
    let is_full = table.is_full();
    table.know();
    if journal.is_spent() {
        Put::Budget
    } else if journal.replace(map, table, key, value) {
        Put::Done
    } else if is_full {
        Put::Full
    } else {
        journal.note_new(map, key);
        table.insert(key, value);
        Put::Done
    }
}

// Removes a key from one map, and notes the removal.
fn take_out(table: &mut Table, journal: &mut Journal, map: u32, key: &[u8]) -> Remove
    requires key { length key.now ≡ table.old.shape.key }
    requires narrow { IsNarrow table.old }
    ensures kept { IsMapping table.old }
    ensures answer { result ≡ remove_answer (length journal.old) table.old key.now }
    ensures table { table.new ≡ when_done (was_removed result) (taken_from table.old key.now) table.old }
    ensures journal { journal.new
        ≡ when_done (was_removed result) (journal.old ++ write_of map table.old key.now ∷ []) journal.old }
{
    table.know();
    if journal.is_spent() {
        Remove::Budget
    } else if journal.take_out(map, table, key) {
        Remove::Done
    } else {
        Remove::Absent
    }
}

// Gives a map back the value that was at the key of a write, if there was one.
fn restore(table: &mut Table, change: &Change)
    requires key { length change.now.key ≡ table.old.shape.key }
    requires value { IfSome change.now.old (λ v. length v ≡ table.old.shape.value) }
    requires room { IfSome change.now.old (λ v. value_in table.old change.now.key ≡ None →
        length table.old.entries < table.old.shape.entries) }
    ensures { table.new ≡ restored table.old change.now.key change.now.old }
{
    match change.old() {
        Some(value) => table.put(change.key(), value),
        None => table.remove(change.key()),
    }
}

// Takes one write back.
fn take_back(tables: &mut Vec<Table>, change: &Change)
    requires { CanTakeBack change.now tables.old.items }
    ensures { tables.new.items ≡ taken_back change.now tables.old.items }
{
    let table = &mut tables[change.map() as usize];
    restore(table, change);
}

impl Maps {
    /// Maps of these shapes, without entries: the map 0 has the first shape. No run is open. Err if there is no
    /// memory.
    pub fn make(alloc: Global, shapes: &[MapShape]) -> Result<Maps, AllocError>
        requires { AreWithinLimits shapes.now }
        ensures { IfOk result (λ m. m ≡ closed (empty_maps shapes.now)) }
    {
        Ok(Maps {
            tables: tables_of(alloc, shapes)?,
            journal: Journal::make(alloc)?,
            is_open: false,
        })
    }

    /// The shape of a map, or None if there is no such map.
    pub fn shape(&self, map: u32) -> Option<MapShape>
        ensures { result ≡ option_map (λ m. m.shape) (mapping_at self.now.maps map) }
    {
        Some(self.tables.get(map as usize)?.shape())
    }

    /// The value at a key, or None if the map has no such key.
    pub fn get(&self, map: u32, key: &[u8]) -> Option<&[u8]>
        requires map { map < length self.now.maps }
        requires key { IfSome (mapping_at self.now.maps map) (λ m. length key.now ≡ m.shape.key) }
        ensures value { option_map (λ v. v.now) result ≡ map_value self.now.maps map key.now }
        ensures width { IfSome result (λ v. IfSome (mapping_at self.now.maps map) (λ m. length v.now ≡ m.shape.value)) }
        ensures kept { IfSome (mapping_at self.now.maps map) IsMapping }
    {
        self.tables[map as usize].get(key)
    }

    /// Writes a value at a key, if the run has fewer than `BUDGET` writes and the map has the key or room for it.
    pub fn put(&mut self, map: u32, key: &[u8], value: &[u8]) -> Put
        requires map { map < length self.old.maps }
        requires key { IfSome (mapping_at self.old.maps map) (λ m. length key.now ≡ m.shape.key) }
        requires value { IfSome (mapping_at self.old.maps map) (λ m. length value.now ≡ m.shape.value) }
        requires open { IsSome self.old.began }
        ensures answer { IfSome (mapping_at self.old.maps map) (λ m. result ≡ put_answer self.old.writes m key.now) }
        ensures after { IfSome (mapping_at self.old.maps map)
            (λ m. self.new ≡ after_put self.old map m key.now value.now result) }
        ensures began { self.new.began ≡ self.old.began }
        ensures shapes { shapes_of self.new.maps ≡ shapes_of self.old.maps }
    {
        let table = &mut self.tables[map as usize];
        write(table, &mut self.journal, map, key, value)
    }

    /// Removes a key, if the run has fewer than `BUDGET` writes and the map has the key.
    pub fn remove(&mut self, map: u32, key: &[u8]) -> Remove
        requires map { map < length self.old.maps }
        requires key { IfSome (mapping_at self.old.maps map) (λ m. length key.now ≡ m.shape.key) }
        requires open { IsSome self.old.began }
        ensures answer { IfSome (mapping_at self.old.maps map) (λ m. result ≡ remove_answer self.old.writes m key.now) }
        ensures after { IfSome (mapping_at self.old.maps map)
            (λ m. self.new ≡ after_remove self.old map m key.now result) }
        ensures began { self.new.began ≡ self.old.began }
        ensures shapes { shapes_of self.new.maps ≡ shapes_of self.old.maps }
    {
        let table = &mut self.tables[map as usize];
        take_out(table, &mut self.journal, map, key)
    }

    /// Opens a run.
    pub fn begin(&mut self)
        requires { self.old.began ≡ None }
        ensures { self.new ≡ opened self.old.maps }
    {
        self.journal.clear();
        self.is_open = true;
    }

    /// Closes the run and keeps its writes.
    pub fn commit(&mut self)
        requires { IsSome self.old.began }
        ensures { self.new ≡ closed self.old.maps }
    {
        self.is_open = false;
    }

    /// Closes the run and gives back the maps as at its begin: its writes are taken back, from the last to the first.
    pub fn undo(&mut self)
        requires { IsSome self.old.began }
        ensures undone { IfSome self.old.began (λ began. self.new ≡ closed began) }
        ensures shapes { shapes_of self.new.maps ≡ shapes_of self.old.maps }
    {
        'writes: while let Some(change) = self.journal.last() {
            take_back(&mut self.tables, change);
            self.journal.forget_last();
        }
        self.is_open = false;
    }

    /// The number of writes in the run so far.
    pub fn writes(&self) -> u32
        requires { IsSome self.now.began }
        ensures value { result ≡ self.now.writes }
        ensures bound { result ≤ BUDGET }
    {
        self.journal.len() as u32
    }

    /// The first key after a key, by the order of octets, or the first of all. `after` need not be in the map, and may
    /// have any width. None if no key comes after it, or if there is no such map.
    pub fn key_after(&self, map: u32, after: Option<&[u8]>) -> Option<&[u8]>
        ensures key { option_map (λ k. k.now) result
            ≡ key_after_in self.now.maps map (option_map (λ k. k.now) after.entry) }
        ensures width { IfSome result (λ k. IfSome (mapping_at self.now.maps map) (λ m. length k.now ≡ m.shape.key)) }
        ensures kept { IfSome (mapping_at self.now.maps map) IsMapping }
    {
        let (key, _) = self.entry_after(map, after)?;
        Some(key)
    }

    /// The same walk as by `key_after`, with the key and the value of each entry.
    pub fn entry_after(&self, map: u32, after: Option<&[u8]>) -> Option<(&[u8], &[u8])>
        ensures entry { option_map (λ e. (e.0.now, e.1.now)) result
            ≡ entry_after_in self.now.maps map (option_map (λ k. k.now) after.entry) }
        ensures key { IfSome result (λ e. IfSome (mapping_at self.now.maps map) (λ m. length e.0.now ≡ m.shape.key)) }
        ensures value { IfSome result
            (λ e. IfSome (mapping_at self.now.maps map) (λ m. length e.1.now ≡ m.shape.value)) }
        ensures kept { IfSome (mapping_at self.now.maps map) IsMapping }
    {
        self.tables.get(map as usize)?.entry_after(after)
    }
}
