//! Writes, removals and walks in runs over one map.
ghost use Rattle.std.specs.Prelude.{◌≡◌, [], ◌∷◌, map, IsSome};
ghost use Rattle.xbgp_maps.specs.Mappings.{shapes_of};

use std::alloc::{AllocError, Global};
use std::process::Abort;
use std::test::Fail;
use xbgp_maps::limits::{BUDGET, MAX_ENTRIES, MAX_KEY, MAX_VALUE};
use xbgp_maps::{MapShape, Maps, Put, Remove};

// A map of keys and values of one octet, in which a run is open.
#[derive(Drop)]
struct Run {
    maps: Maps,
    ghost open: { IsSome maps.began },
    ghost keys: { map (λ s. s.key) (shapes_of maps.maps) ≡ 1 ∷ [] },
    ghost values: { map (λ s. s.value) (shapes_of maps.maps) ≡ 1 ∷ [] },
}

fn begun(alloc: Global, entries: u8) -> Result<Run, AllocError> {
    let shapes = [MapShape {
        key: 1,
        value: 1,
        entries: u32::from(entries.max(1)),
    }];
    let mut maps = Maps::make(alloc, &shapes)?;
    maps.begin();
    Ok(Run { maps })
}

// Closes the run, and opens another one.
fn keep(run: &mut Run) {
    run.maps.commit();
    run.maps.begin();
}

fn undo(run: &mut Run) {
    run.maps.undo();
    run.maps.begin();
}

#[tactic(auto, using(xbgp_maps::proofs::MappingsLemmas::map_is_there))]
fn put(run: &mut Run, key: u8, value: u8) -> Put {
    run.maps.put(0, &[key], &[value])
}

#[tactic(auto, using(xbgp_maps::proofs::MappingsLemmas::map_is_there))]
fn remove(run: &mut Run, key: u8) -> Remove {
    run.maps.remove(0, &[key])
}

// The first octet of the value at a key.
#[tactic(auto, using(xbgp_maps::proofs::MappingsLemmas::map_is_there))]
fn value(run: &Run, key: u8) -> Option<u8> {
    run.maps.get(0, &[key])?.first().copied()
}

// The first octet of the next key.
fn key_after(run: &Run, after: Option<&[u8]>) -> Option<u8> {
    run.maps.key_after(0, after)?.first().copied()
}

// The first octet of the next entry's value.
fn value_after(run: &Run, after: Option<&[u8]>) -> Option<u8> {
    run.maps.entry_after(0, after)?.1.first().copied()
}

// Keys and values that are written, with what that returns.
fn puts(rt: &impl Abort, run: &mut Run, rows: &[(u8, u8, Put)]) {
    for (key, value, want) in rows {
        assert_eq!(rt; put(run, *key, *value), *want, "at {key}");
    }
}

// Keys that are removed, with what that returns.
fn removes(rt: &impl Abort, run: &mut Run, rows: &[(u8, Remove)]) {
    for (key, want) in rows {
        assert_eq!(rt; remove(run, *key), *want, "at {key}");
    }
}

// Keys, with their values.
fn values(rt: &impl Abort, run: &Run, rows: &[(u8, Option<u8>)]) {
    for (key, want) in rows {
        assert_eq!(rt; value(run, *key), *want, "at {key}");
    }
}

#[test]
fn a_full_map_takes_no_new_key(rt: HostRuntime) -> Result<(), Fail> {
    let mut run = begun(rt.alloc(), 1)?;
    puts(&rt, &mut run, &[(1, 5, Put::Done), (2, 5, Put::Full)]);
    values(&rt, &run, &[(1, Some(5)), (2, None)]);
    puts(&rt, &mut run, &[(1, 6, Put::Done)]);
    removes(&rt, &mut run, &[(2, Remove::Absent)]);
    values(&rt, &run, &[(1, Some(6))]);
    assert_eq!(rt; run.maps.writes(), 2);
    undo(&mut run);
    values(&rt, &run, &[(1, None)]);
    assert_eq!(rt; key_after(&run, None), None);
    Ok(())
}

#[test]
fn a_run_has_at_most_its_budget_of_writes(rt: HostRuntime) -> Result<(), Fail> {
    let mut run = begun(rt.alloc(), 1)?;
    for n in 0..BUDGET as u8 {
        puts(&rt, &mut run, &[(1, n, Put::Done)]);
    }
    puts(&rt, &mut run, &[(1, 64, Put::Budget), (2, 64, Put::Budget)]);
    removes(&rt, &mut run, &[(2, Remove::Budget)]);
    assert_eq!(rt; run.maps.writes(), 64);
    values(&rt, &run, &[(1, Some(63))]);
    keep(&mut run);
    values(&rt, &run, &[(1, Some(63))]);
    Ok(())
}

#[test]
fn undo_gives_back_the_maps_at_begin(rt: HostRuntime) -> Result<(), Fail> {
    let mut run = begun(rt.alloc(), 2)?;
    puts(&rt, &mut run, &[(1, 10, Put::Done), (2, 20, Put::Done)]);
    keep(&mut run);
    removes(&rt, &mut run, &[(1, Remove::Done)]);
    puts(&rt, &mut run, &[(3, 30, Put::Done)]);
    removes(&rt, &mut run, &[(2, Remove::Done)]);
    puts(&rt, &mut run, &[(1, 11, Put::Done)]);
    assert_eq!(rt; run.maps.writes(), 4);
    undo(&mut run);
    values(&rt, &run, &[(1, Some(10)), (2, Some(20)), (3, None)]);
    Ok(())
}

// A key or none, and the first octets of the key after it and of that key's value.
const WALK: [(Option<&[u8]>, Option<u8>, Option<u8>); 5] = [
    (None, Some(3), Some(2)),
    (Some(&[3]), Some(90), Some(3)),
    (Some(&[3, 0]), Some(90), Some(3)),
    (Some(&[90]), Some(200), Some(1)),
    (Some(&[200]), None, None),
];

#[test]
fn keys_are_walked_in_order_of_octets(rt: HostRuntime) -> Result<(), Fail> {
    let mut run = begun(rt.alloc(), 3)?;
    puts(
        &rt,
        &mut run,
        &[(200, 1, Put::Done), (3, 2, Put::Done), (90, 3, Put::Done)],
    );
    for (after, key, value) in &WALK {
        assert_eq!(rt; key_after(&run, *after), *key, "after {after:?}");
        assert_eq!(rt; value_after(&run, *after), *value, "after {after:?}");
    }
    Ok(())
}

// The widest map is within all limits.
#[test]
fn the_widest_map_is_made(rt: HostRuntime) -> Result<(), Fail> {
    let wide = MapShape {
        key: MAX_KEY as u16,
        value: MAX_VALUE as u16,
        entries: MAX_ENTRIES,
    };
    let maps = Maps::make(rt.alloc(), &[wide])?;
    assert_eq!(rt; maps.shape(0), Some(wide));
    assert!(rt; maps.shape(1).is_none());
    assert!(rt; maps.key_after(0, None).is_none());
    assert!(rt; maps.key_after(1, None).is_none());
    Ok(())
}
