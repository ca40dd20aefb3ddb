// A map from sections to values.
ghost use Rattle.std.specs.Prelude.{◌≡◌, ◌≢◌, ℕ, List, Some, None, OnOk, OnErr};
ghost use Rattle.std.specs.BTreeMap.{get};
ghost use Rattle.std.specs.Borrow.{sem};
ghost use Rattle.std.specs.Option.{option_map, option_copied_mut};
ghost use Rattle.std.specs.Ordering.{nat_cmp};
ghost use Rattle.section_map.specs.Lends.{lends_at, lends_value};
ghost use Rattle.section_map.specs.Sums.{sum_of};
ghost use Rattle.section_map.specs.Sections.{ChangesAt, SameSections, at_section, value_if};

use crate::sum::sum_of;
use std::alloc::{AllocError, Global};
use std::collections::BTreeMap;

// The first section of a sum, and its value.
#[derive(Drop)]
struct First<V> {
    section: Vec<u8>,
    value: V,
}

impl<V> First<V> {
    // The value for writing, if the section is this one.
    fn value_mut(&mut self, section: &[u8]) -> Option<&mut V>
        ensures* writes_back { sem 𝓛 (lends_value V.row self.entry result) }
        ensures value { option_copied_mut result ≡ value_if (Some self.old) section.now }
    {
        if self.section.as_slice() == section {
            return Some(&mut self.value);
        }
        None
    }
}

/// A map from sections to values.
#[derive(Drop)]
pub struct SectionMap<V> {
    alloc: Global,
    firsts: BTreeMap<u64, First<V>>,
    rest: BTreeMap<Vec<u8>, V>,
}

impl<V> SectionMap<V> {
    /// A map in which no section has a value.
    pub fn new(alloc: Global) -> SectionMap<V>
        ensures { (section : List ℕ) → at_section result section ≡ None }
    {
        SectionMap {
            alloc,
            firsts: BTreeMap::new(alloc),
            rest: BTreeMap::new(alloc),
        }
    }

    // The value of a section that is the first of a sum.
    fn first_value(&self, section: &[u8], sum: u64) -> Option<&V>
        ensures { option_map (λ v. v.now) result ≡ value_if (get nat_cmp self.now.firsts sum) section.now }
    {
        let first = self.firsts.get(&sum)?;
        if first.section.as_slice() == section {
            return Some(&first.value);
        }
        None
    }

    /// The value of a section, if it has one.
    pub fn get(&self, section: &[u8]) -> Option<&V>
        ensures { option_map (λ v. v.now) result ≡ at_section self.now section.now }
    {
        if let Some(value) = self.rest.get(section) {
            return Some(value);
        }
        self.first_value(section, sum_of(section))
    }

    /// The value of a section for writing, if it has one.
    pub fn get_mut(&mut self, section: &[u8]) -> Option<&mut V>
        ensures* writes_back { sem 𝓛 (lends_at V.row self.entry section.now result) }
        ensures value { option_copied_mut result ≡ at_section self.old section.now }
    {
        if self.rest.contains_key(section) {
            return self.rest.get_mut(section);
        }
        let first = self.firsts.get_mut(&sum_of(section))?;
        first.value_mut(section)
    }
}

impl<V: Drop> SectionMap<V> {
    /// Gives a value to a section that has none. The error is want of memory; then nothing changed.
    pub fn insert(&mut self, section: &[u8], value: V) -> Result<(), AllocError>
        requires { at_section self.old section.now ≡ None }
        ensures ok { OnOk result (ChangesAt self.old self.new section.now (Some value)) }
        ensures err { OnErr result (SameSections self.old self.new) }
    {
        let sum = sum_of(section);
        let section = Vec::from_slice(self.alloc, section)?;
        if self.firsts.contains_key(&sum) {
            let _ = self.rest.insert(section, value)?;
        } else {
            let _ = self.firsts.insert(sum, First { section, value })?;
        }
        Ok(())
    }

    // Takes the value of a section away that is the first of its sum.
    fn remove_first(&mut self, section: &[u8])
        ensures rest { self.new.rest ≡ self.old.rest }
        ensures none { value_if (get nat_cmp self.new.firsts (sum_of section.now)) section.now ≡ None }
        ensures others { (other : List ℕ) → other ≢ section.now →
            value_if (get nat_cmp self.new.firsts (sum_of other)) other
            ≡ value_if (get nat_cmp self.old.firsts (sum_of other)) other }
    {
        let sum = sum_of(section);
        if self.first_value(section, sum).is_some() {
            let _ = self.firsts.remove(&sum);
        }
    }

    /// Takes the value of a section away.
    pub fn remove(&mut self, section: &[u8])
        ensures { ChangesAt self.old self.new section.now None }
    {
        self.remove_first(section);
        let _ = self.rest.remove(section);
    }
}
