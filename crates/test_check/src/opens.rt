use bgp_open::{OpenSeen4, OpenWant, PARAMETERS, read_open4};
use std::test::Fail;
use xb_wire::Notice;

const SEEN: OpenSeen4 = OpenSeen4 {
    hold: 90,
    id: 0xc000_0201,
    wide: false,
};

const WIDE: OpenSeen4 = OpenSeen4 {
    hold: 90,
    id: 0xc000_0201,
    wide: true,
};

const BAD_VERSION: Notice<'static> = Notice {
    code: 2,
    subcode: 1,
    extra: &[0, 4],
};

const BAD_PEER_AS: Notice<'static> = Notice {
    code: 2,
    subcode: 2,
    extra: &[],
};

const UNSUPPORTED_PARAMETER: Notice<'static> = Notice {
    code: 2,
    subcode: 4,
    extra: &[],
};

const UNACCEPTABLE_HOLD_TIME: Notice<'static> = Notice {
    code: 2,
    subcode: 6,
    extra: &[],
};

// The peer's AS number, the body of an OPEN, and what is read.
type Row = (u32, &'static [u8], Result<OpenSeen4, Notice<'static>>);

const OPENS: [Row; 10] = [
    (65001, &[4, 0xfd, 0xe9, 0, 0x5a, 0xc0, 0, 2, 1, 0], Ok(SEEN)),
    // with capabilities
    (
        65001,
        &[
            4, 0xfd, 0xe9, 0, 0x5a, 0xc0, 0, 2, 1, 8, 2, 6, 1, 4, 0, 1, 0, 1,
        ],
        Ok(SEEN),
    ),
    // with a parameter of type 1
    (
        65001,
        &[4, 0xfd, 0xe9, 0, 0x5a, 0xc0, 0, 2, 1, 2, 1, 0],
        Err(UNSUPPORTED_PARAMETER),
    ),
    // of version 3
    (
        65001,
        &[3, 0xfd, 0xe9, 0, 0x5a, 0xc0, 0, 2, 1, 0],
        Err(BAD_VERSION),
    ),
    // AS 23456 and, in a second parameter, the capability of AS 200000
    (
        200_000,
        &[
            4, 0x5b, 0xa0, 0, 0x5a, 0xc0, 0, 2, 1, 16, 2, 6, 1, 4, 0, 1, 0, 1, 2, 6, 65, 4, 0, 3,
            0x0d, 0x40,
        ],
        Ok(WIDE),
    ),
    (
        65001,
        &[
            4, 0x5b, 0xa0, 0, 0x5a, 0xc0, 0, 2, 1, 16, 2, 6, 1, 4, 0, 1, 0, 1, 2, 6, 65, 4, 0, 3,
            0x0d, 0x40,
        ],
        Err(BAD_PEER_AS),
    ),
    // the AS field is the peer's, and the capability is not
    (
        65001,
        &[
            4, 0xfd, 0xe9, 0, 0x5a, 0xc0, 0, 2, 1, 8, 2, 6, 65, 4, 0, 3, 0x0d, 0x40,
        ],
        Err(BAD_PEER_AS),
    ),
    // a capability 65 of two octets
    (
        65001,
        &[
            4, 0xfd, 0xe9, 0, 0x5a, 0xc0, 0, 2, 1, 6, 2, 4, 65, 2, 0xfd, 0xe9,
        ],
        Ok(SEEN),
    ),
    // the AS number is judged after the hold time, and after the parameters
    (
        65001,
        &[4, 0, 7, 0, 1, 0xc0, 0, 2, 1, 0],
        Err(UNACCEPTABLE_HOLD_TIME),
    ),
    (
        65001,
        &[4, 0, 7, 0, 0x5a, 0xc0, 0, 2, 1, 2, 1, 0],
        Err(UNSUPPORTED_PARAMETER),
    ),
];

#[test]
fn an_open_is_judged(rt: HostRuntime) -> Result<(), Fail> {
    for (peer_as, body, seen) in &OPENS {
        assert!(rt; body.len() >= PARAMETERS);
        assert_eq!(rt; read_open4(body, &OpenWant { peer_as: *peer_as }), *seen);
    }
    Ok(())
}
