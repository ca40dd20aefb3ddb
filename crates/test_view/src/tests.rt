use crate::{canonical_by_overlay, canonical_in_place};
use bgp_attr::MAX_CANONICAL;
use std::test::Fail;
use xb_values::Buf;
use xbgp_view::{Overlay, RouteView, SectionView, append_attribute};

// Code 5 with a long length and low flags, code 1, code 5 again, and a header that wants more than is left.
const SECTION: [u8; 15] = [0x5f, 5, 0, 1, 9, 0x40, 1, 1, 0, 0x40, 5, 1, 7, 0xc0, 8];

#[test]
fn a_section_is_read_and_written_again(rt: HostRuntime) -> Result<(), Fail> {
    let mut route = Overlay::make(rt.alloc())?;
    let mut out = Buf::make(rt.alloc(), MAX_CANONICAL)?;
    canonical_by_overlay(&mut route, &SECTION, &mut out);
    assert_eq!(rt; out.as_slice(), [0x40, 1, 1, 0, 0x40, 5, 1, 7].as_slice());
    canonical_in_place(&SECTION[..9], &mut out);
    assert_eq!(rt; out.as_slice(), [0x40, 1, 1, 0, 0x40, 5, 1, 9].as_slice());
    Ok(())
}

#[test]
fn a_section_whose_codes_rise_is_read(rt: HostRuntime) -> Result<(), Fail> {
    let mut route = Overlay::make(rt.alloc())?;
    let mut out = Buf::make(rt.alloc(), MAX_CANONICAL)?;
    let section = [0x5f, 1, 0, 1, 2, 0x40, 5, 1, 7, 0xc0, 8];
    canonical_by_overlay(&mut route, &section, &mut out);
    assert_eq!(rt; out.as_slice(), [0x40, 1, 1, 2, 0x40, 5, 1, 7].as_slice());
    canonical_by_overlay(&mut route, &section[5..8], &mut out);
    assert!(rt; out.as_slice().is_empty());
    Ok(())
}

#[test]
fn a_route_is_edited(rt: HostRuntime) -> Result<(), Fail> {
    let mut route = Overlay::make(rt.alloc())?;
    let mut section = Buf::make(rt.alloc(), MAX_CANONICAL)?;
    assert!(rt; route.set(4, 0x80, &[0, 0, 0, 20], 10));
    assert_eq!(rt; route.section_len(), 7);
    assert!(rt; !route.set(5, 0x40, &[0, 0, 0, 100], 10));
    assert_eq!(rt; route.section_len(), 7);
    assert!(rt; !route.unset(9));
    route.keep();
    assert!(rt; route.unset(4));
    route.back();
    assert!(rt; route.section(&mut section));
    assert_eq!(rt; section.as_slice(), [0x80, 4, 4, 0, 0, 0, 20].as_slice());
    Ok(())
}

#[test]
fn a_view_shows_the_route(rt: HostRuntime) -> Result<(), Fail> {
    let mut first = Overlay::make(rt.alloc())?;
    assert!(rt; first.set(200, 0xff, &[7; 256], 4096));
    assert!(rt; first.set(1, 0x40, &[2], 4096));
    let mut route = Overlay::make(rt.alloc())?;
    route.load(&first);
    first.clear();
    assert_eq!(rt; route.section_len(), 264);
    assert_eq!(rt; route.flags_len(200), Some((0xe0, 256)));
    assert_eq!(rt; route.code_from(2), Some(200));
    let mut value = [0u8; 2];
    assert_eq!(rt; route.copy(1, &mut value), Some(1));
    assert_eq!(rt; value, [2, 0]);
    Ok(())
}

#[test]
fn a_view_lends_an_attribute(rt: HostRuntime) -> Result<(), Fail> {
    let mut route = Overlay::make(rt.alloc())?;
    route.read(&SECTION);
    let held = route.attribute(5).expect(&rt, "the overlay has code 5");
    assert_eq!(rt; held.flags(), 0x40);
    assert_eq!(rt; held.value(), [7].as_slice());
    assert!(rt; route.attribute(8).is_none());
    let view = SectionView::new(&SECTION[..5]);
    let received = view.attribute(5).expect(&rt, "the section has code 5");
    assert_eq!(rt; received.flags(), 0x40);
    assert_eq!(rt; received.value(), [9].as_slice());
    Ok(())
}

#[test]
fn an_attribute_is_appended(rt: HostRuntime) -> Result<(), Fail> {
    let mut out = Buf::make(rt.alloc(), 4)?;
    append_attribute(&mut out, 1, 0x40, &[2]);
    assert_eq!(rt; out.as_slice(), [0x40, 1, 1, 2].as_slice());
    Ok(())
}
