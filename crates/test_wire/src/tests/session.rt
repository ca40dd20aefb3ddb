use bgp_fsm::{Act, Reaction, Session, State, Stimulus, Timer};
use std::test::Fail;

// Whether a reaction has just these acts.
fn are(reaction: &Reaction, acts: &[Act]) -> bool {
    if reaction.len() != acts.len() {
        return false;
    }
    for i in 0..acts.len() {
        if reaction.get(i) != acts[i] {
            return false;
        }
    }
    true
}

// The time and what happens; what the session does, its state, its next timer, the peer's identifier and whether AS
// numbers have four octets after that.
type Row = (
    u32,
    Stimulus,
    &'static [Act],
    State,
    Option<(u64, Timer)>,
    (u32, bool),
);

const ROWS: [Row; 6] = [
    (0, Stimulus::Start, &[], State::Connect, None, (0, false)),
    (
        0,
        Stimulus::LinkUp,
        &[Act::SendOpen],
        State::OpenSent,
        Some((240, Timer::Hold)),
        (0, false),
    ),
    (
        5,
        Stimulus::OpenGood {
            hold: 30,
            id: 7,
            wide: true,
        },
        &[Act::SendKeepalive],
        State::OpenConfirm,
        Some((15, Timer::Keepalive)),
        (7, true),
    ),
    (
        6,
        Stimulus::Keepalive,
        &[Act::Up],
        State::Established,
        Some((15, Timer::Keepalive)),
        (7, true),
    ),
    (
        15,
        Stimulus::KeepaliveDue,
        &[Act::SendKeepalive],
        State::Established,
        Some((25, Timer::Keepalive)),
        (7, true),
    ),
    (
        36,
        Stimulus::HoldDue,
        &[
            Act::SendNotice {
                code: 4,
                subcode: 0,
            },
            Act::Down,
            Act::Close,
        ],
        State::Idle,
        None,
        (7, true),
    ),
];

#[test]
fn a_session_comes_up_and_expires(rt: HostRuntime) -> Result<(), Fail> {
    let mut session = Session::new(90);
    assert_eq!(rt;
        (session.state(), session.peer_id(), session.wide()),
        (State::Idle, 0, false)
    );
    for (now, what, acts, state, due, peer) in &ROWS {
        let reaction = session.on(u64::from(*now), *what);
        assert!(rt; are(&reaction, acts), "at {now}");
        let shown = (session.state(), session.due());
        assert_eq!(rt; shown, (*state, *due), "at {now}");
        assert_eq!(rt; (session.peer_id(), session.wide()), *peer, "at {now}");
    }
    Ok(())
}
