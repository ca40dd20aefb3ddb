ghost use Rattle.std.specs.Prelude.{IsSome};
ghost use Rattle.attr_intern.specs.Pools.{record_at};

use attr_intern::{Pool, RecordId};
use std::test::Fail;
use xbgp_view::SectionView;

// ORIGIN IGP, an AS_PATH of 65001 and NEXT_HOP 192.0.2.1, in canonical order.
const CANONICAL: [u8; 20] = [
    0x40, 1, 1, 0, 0x40, 2, 6, 2, 1, 0, 0, 0xfd, 0xe9, 0x40, 3, 4, 192, 0, 2, 1,
];

// The same route in another order, with a length of two octets.
const REORDERED: [u8; 21] = [
    0x40, 3, 4, 192, 0, 2, 1, 0x50, 2, 0, 6, 2, 1, 0, 0, 0xfd, 0xe9, 0x40, 1, 1, 0,
];

// ORIGIN EGP alone.
const OTHER: [u8; 4] = [0x40, 1, 1, 1];

// Gives up both owners of a record that has two.
#[tactic(auto, using(crate::proofs::OwnersLemmas::lives_released))]
fn release_two(pool: &mut Pool, id: RecordId) -> bool
    requires { IsSome (record_at pool.old id) }
{
    if pool.owners(id) != 2 {
        return false;
    }
    pool.release(id);
    pool.release(id);
    true
}

#[test]
#[tactic(auto, using(crate::proofs::OwnersLemmas::lives_interned))]
fn equal_routes_share_a_record(rt: HostRuntime) -> Result<(), Fail> {
    let mut pool = Pool::make(rt.alloc())?;
    let id = pool.intern(&SectionView::new(&CANONICAL))?;
    let same = pool.intern(&SectionView::new(&REORDERED))?;
    assert_eq!(rt; id, same);
    assert_eq!(rt; pool.owners(same), 2);
    assert_eq!(rt; pool.live(), 1);
    assert_eq!(rt; pool.get(same).section(), CANONICAL.as_slice());
    assert!(rt; release_two(&mut pool, same));
    assert_eq!(rt; pool.live(), 0);
    Ok(())
}

#[test]
#[tactic(auto, using(crate::proofs::OwnersLemmas::lives_interned))]
fn another_route_has_another_record(rt: HostRuntime) -> Result<(), Fail> {
    let mut pool = Pool::make(rt.alloc())?;
    let id = pool.intern(&SectionView::new(&CANONICAL))?;
    let other = pool.intern(&SectionView::new(&OTHER))?;
    assert!(rt; id != other);
    assert_eq!(rt; pool.live(), 2);
    pool.share(other);
    assert_eq!(rt; pool.live(), 2);
    assert!(rt; release_two(&mut pool, other));
    assert_eq!(rt; pool.live(), 1);
    Ok(())
}
