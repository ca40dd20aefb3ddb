use bgp_path::{Segment, Segments};
use std::test::Fail;

// A sequence of two numbers and a set of three, and what a walk over them returns.
const PATH: [u8; 14] = [2, 2, 0xfd, 0xe9, 0x5b, 0xa0, 1, 3, 0, 1, 0, 2, 0, 3];

const STEPS: [Option<Segment<'static>>; 3] = [
    Some(Segment {
        set: false,
        count: 2,
        octets: &[0xfd, 0xe9, 0x5b, 0xa0],
    }),
    Some(Segment {
        set: true,
        count: 3,
        octets: &[0, 1, 0, 2, 0, 3],
    }),
    None,
];

#[test]
fn a_walk_returns_segments(rt: HostRuntime) -> Result<(), Fail> {
    let mut segments = Segments::new(&PATH).ok_or("no path")?;
    for step in &STEPS {
        assert_eq!(rt; segments.next(), *step);
    }
    assert!(rt; Segments::new(&[2, 0]).is_none());
    Ok(())
}

// After a walk too.
#[test]
fn calls_are_about_the_whole_path(rt: HostRuntime) -> Result<(), Fail> {
    let mut segments = Segments::new(&PATH).ok_or("no path")?;
    let _ = segments.next();
    assert_eq!(rt; (segments.hops(), segments.leftmost()), (3, Some(65001)));
    assert_eq!(rt; (segments.contains(3), segments.contains(4)), (true, false));
    assert_eq!(rt; Segments::new(&[]).ok_or("no path")?.leftmost(), None);
    Ok(())
}

// A path, the room, and what is written there after the AS number 65000 is prepended, if it fits.
const PREPENDED: [(&[u8], usize, Option<usize>, [u8; 7]); 3] = [
    (&[2, 1, 0xfd, 0xe9], 5, None, [0; 7]),
    (
        &[2, 1, 0xfd, 0xe9],
        7,
        Some(6),
        [2, 2, 0xfd, 0xe8, 0xfd, 0xe9, 0],
    ),
    (&[], 7, Some(4), [2, 1, 0xfd, 0xe8, 0, 0, 0]),
];

fn prepended(path: &[u8], room: usize) -> Option<(Option<usize>, [u8; 7])> {
    if path.len() > 65_535 {
        return None;
    }
    let mut out = [0; 7];
    let len = Segments::new(path)?.prepend_into(65000, out.get_mut(..room)?);
    Some((len, out))
}

#[test]
fn a_number_is_prepended_if_it_fits(rt: HostRuntime) {
    for (path, room, len, out) in &PREPENDED {
        assert_eq!(rt; prepended(path, *room), Some((*len, *out)));
    }
}
