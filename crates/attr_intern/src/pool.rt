// A pool of shared records.
ghost use Rattle.std.specs.Prelude.{◌≡◌, ◌≢◌, ℕ, ◌≤◌, [], length, Some, None, IfOk, IfSome, OnOk, OnErr, IsSome};
ghost use Rattle.bgp_attr.specs.Routes.{canon, route_of};
ghost use Rattle.xbgp_view.specs.Sections.{IsCanonical};
ghost use Rattle.section_map.specs.Sections.{ChangesAt, SameSections, at_section};
ghost use Rattle.slab.specs.Slab.{get, ContainsKey, SameValues, Updates};
ghost use Rattle.attr_intern.specs.Kept.{AreIndexed};
ghost use Rattle.attr_intern.specs.Pools.{Owned, interned, one_more, owners_at, record_at, released, route_at};
ghost use Rattle.attr_intern.specs.Pools.{ArePooled};

use crate::{Record, RecordId};
use bgp_attr::MAX_CANONICAL;
use section_map::SectionMap;
use slab::Slab;
use std::alloc::{AllocError, Global};
use std::marker::Model;
use xb_values::Buf;
use xbgp_view::{RouteView, write_section};

// The id of each living record, by its canonical section.
type Ids = SectionMap<usize>;

// A record with the number of its owners, which is at least 1. It stays at `u64::MAX` once it is there.
#[derive(Drop)]
struct Shared {
    record: Record,
    owners: u64,
}

impl Model for Shared {
    ghost use Rattle.attr_intern.specs.Pools.{Owned};

    ghost Value = { Owned };

    ghost view = { λ s. record { route = s.record; owners = s.owners } };
}

/// Shared records by id.
#[derive(Drop)]
pub struct Pool {
    alloc: Global,
    shared: Slab<Shared>,
    ids: Ids,
    // Room for the canonical section of a route that comes in.
    section: Buf,
}

impl Model for Pool {
    ghost use Rattle.std.specs.Prelude.{◌≡◌};
    ghost use Rattle.bgp_attr.specs.declared.TheConstants.{MAX_CANONICAL};
    ghost use Rattle.slab.specs.Slab.{entries};
    ghost use Rattle.attr_intern.specs.Kept.{AreIndexed};
    ghost use Rattle.attr_intern.specs.Pools.{Records};

    ghost Value = { Records };

    ghost view = { λ p. entries p.shared };

    ghost invariant = { λ p. AreIndexed p.shared p.ids × (p.section.capacity ≡ MAX_CANONICAL) };
}

// Gives a record that lives another number of owners.
fn set_owners(shared: &mut Slab<Shared>, key: usize, owners: u64)
    requires { ContainsKey shared.old key }
    ensures changed { (o : Owned) → get shared.old key ≡ Some o →
        get shared.new key ≡ Some (record o { owners = owners }) }
    ensures others { (other : ℕ) → other ≢ key → get shared.new other ≡ get shared.old other }
{
    if let Some(entry) = shared.get_mut(key) {
        entry.owners = owners;
    }
}

// The owners of a record that lives.
fn owners_of(shared: &Slab<Shared>, key: usize) -> u64
    requires { ContainsKey shared.now key }
    ensures { (o : Owned) → get shared.now key ≡ Some o → result ≡ o.owners }
{
    shared[key].owners
}

// One owner more of a record that lives.
fn add_owner(shared: &mut Slab<Shared>, key: usize)
    requires { ContainsKey shared.old key }
    ensures changed { (o : Owned) → get shared.old key ≡ Some o →
        get shared.new key ≡ Some (record o { owners = one_more o.owners }) }
    ensures others { (other : ℕ) → other ≢ key → get shared.new other ≡ get shared.old other }
{
    let owners = owners_of(shared, key);
    set_owners(shared, key, owners.saturating_add(1));
}

// The id of a canonical section, if it has one.
fn id_of(ids: &Ids, section: &[u8]) -> Option<usize>
    ensures { result ≡ at_section ids.now section.now }
{
    ids.get(section).copied()
}

// A new record with one owner, of the route that a view shows, whose canonical section is `section`. The error is want of memory; then nothing changed.
fn add_record<R: RouteView>(
    alloc: Global,
    view: &R,
    section: &[u8],
    shared: &mut Slab<Shared>,
    ids: &mut Ids,
) -> Result<usize, AllocError>
    requires canonical { IsCanonical section.now }
    requires route { route_of section.now ≡ R.route view.now }
    requires new { at_section ids.old section.now ≡ None }
    ensures vacant { IfOk result (λ key. get shared.old key ≡ None) }
    ensures record { IfOk result (λ key.
        Updates shared.old shared.new key (Some (record { route = R.route view.now; owners = 1 }))) }
    ensures id { IfOk result (λ key. ChangesAt ids.old ids.new section.now (Some key)) }
    ensures err_records { OnErr result (SameValues shared.old shared.new) }
    ensures err_ids { OnErr result (SameSections ids.old ids.new) }
{
    let record = Record::copy_of(alloc, view, section)?;
    shared.reserve(1)?;
    ids.insert(section, shared.vacant_key())?;
    Ok(shared.insert_reserved(Shared { record, owners: 1 }))
}

// Takes a record that lives away, and its id.
fn remove_record(shared: &mut Slab<Shared>, key: usize, ids: &mut Ids)
    requires { ContainsKey shared.old key }
    ensures record { Updates shared.old shared.new key None }
    ensures id { (o : Owned) → get shared.old key ≡ Some o → ChangesAt ids.old ids.new (canon o.route) None }
{
    let removed = shared.remove(key);
    ids.remove(removed.record.section());
}

impl Pool {
    /// A pool without records. The error is want of memory.
    pub fn make(alloc: Global) -> Result<Pool, AllocError>
        ensures { IfOk result (λ p. p ≡ []) }
    {
        Ok(Pool {
            alloc,
            shared: Slab::new(alloc),
            ids: Ids::new(alloc),
            section: Buf::make(alloc, MAX_CANONICAL)?,
        })
    }

    /// Makes one more owner of the record that means what a view shows, and returns its id. If there is no such record,
    /// a new one is made, for which alone memory is taken. The error is want of memory; then the pool is unchanged.
    pub fn intern<R: RouteView>(&mut self, view: &R) -> Result<RecordId, AllocError>
        ensures ok { IfOk result (λ id. self.new ≡ interned self.old id (R.route view.now)) }
        ensures meaning { IfOk result (λ id. IfSome (route_at self.old id) (λ route. route ≡ R.route view.now)) }
        ensures shared { IfOk result (λ id.
            (other : ℕ) → route_at self.old other ≡ Some (R.route view.now) → id ≡ other) }
        ensures err { OnErr result (self.new ≡ self.old) }
        ensures pooled { ArePooled self.new }
    {
        write_section(view, &mut self.section);
        let section = self.section.as_slice();
        if let Some(key) = id_of(&self.ids, section) {
            add_owner(&mut self.shared, key);
            return Ok(RecordId::new(key));
        }
        let key = add_record(self.alloc, view, section, &mut self.shared, &mut self.ids)?;
        Ok(RecordId::new(key))
    }

    /// Makes one more owner of a record that lives.
    pub fn share(&mut self, id: RecordId)
        requires { IsSome (record_at self.old id) }
        ensures owner { (o : Owned) → record_at self.old id ≡ Some o → self.new ≡ interned self.old id o.route }
        ensures pooled { ArePooled self.new }
    {
        add_owner(&mut self.shared, id.key());
    }

    /// Gives one owner of a record up. With its last owner the record is gone.
    pub fn release(&mut self, id: RecordId)
        requires { IsSome (record_at self.old id) }
        ensures after { self.new ≡ released self.old id }
        ensures pooled { ArePooled self.new }
    {
        let key = id.key();
        match owners_of(&self.shared, key) {
            u64::MAX => {}
            1 => remove_record(&mut self.shared, key, &mut self.ids),
            owners => set_owners(&mut self.shared, key, owners - 1),
        }
    }

    /// The record of an id that lives.
    pub fn get(&self, id: RecordId) -> &Record
        requires { IsSome (record_at self.now id) }
        ensures route { route_at self.now id ≡ Some result.now }
        ensures pooled { ArePooled self.now }
    {
        &self.shared[id.key()].record
    }

    /// How many owners a record that lives has.
    pub fn owners(&self, id: RecordId) -> u64
        requires { IsSome (record_at self.now id) }
        ensures count { result ≡ owners_at self.now id }
        ensures pooled { ArePooled self.now }
    {
        owners_of(&self.shared, id.key())
    }

    /// How many records live.
    pub fn live(&self) -> usize
        ensures count { result ≡ length self.now }
        ensures pooled { ArePooled self.now }
    {
        self.shared.len()
    }
}
