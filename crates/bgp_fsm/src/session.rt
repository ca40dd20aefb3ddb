// A session, its timers, and its rows. A private function does the row of the definition that has its name.
ghost use Rattle.std.specs.Prelude.{◌≡◌, ◌+◌, ◌-◌, ◌/◌, ◌^◌, ◌<◌, ◌≤◌, [], ◌∷◌, length};
ghost use Rattle.bgp_fsm.specs.Sessions.{Reacts, start_session, due_in, stay, enter, close, close_with, open_sent};
ghost use Rattle.bgp_fsm.specs.Sessions.{open_confirm, held_on, established, keepalive_sent, live_row, row, due};

use crate::reaction::MAX_ACTS;
use crate::{Act, Reaction, State, Stimulus, Timer};
use std::marker::Model;
use xb_wire::numbers::{CEASE, FSM_ERROR, HOLD_TIMER_EXPIRED, UNSPECIFIC};

/// A session with one peer: its state, its timers, and what the peer's OPEN said. Times are in seconds.
#[derive(Drop)]
pub struct Session {
    own_hold: u16,
    state: State,
    hold_at: Option<u64>,
    keepalive_at: Option<u64>,
    // The hold time in use.
    hold: u16,
    peer_id: u32,
    wide: bool,
}

impl Model for Session {
    ghost use Rattle.bgp_fsm.specs.Sessions.{Owned};

    ghost Value = { Owned };

    ghost view = { λ s. record {
      own = s.own_hold;
      session = record {
        state = s.state;
        hold_at = s.hold_at;
        keepalive_at = s.keepalive_at;
        hold = s.hold;
        id = s.peer_id;
        wide = s.wide;
      };
    } };
}

/// How long a peer's OPEN is awaited, in seconds (the large value of RFC 4271, section 8.2.2).
pub const OPEN_WAIT: u64 = 240;

// When a timer of `wait` seconds, set now, is due. None if the hold time is 0: timers are off.
fn due_in(hold: u16, now: u64, wait: u16) -> Option<u64>
    requires { now < 2 ^ 32 }
    ensures { result ≡ due_in hold now wait }
{
    if hold == 0 {
        None
    } else {
        Some(now + u64::from(wait))
    }
}

impl Session {
    /// An idle session of a speaker whose configured hold time is `own_hold` seconds.
    pub fn new(own_hold: u16) -> Session
        ensures { result ≡ record { own = own_hold; session = start_session } }
    {
        Session {
            own_hold,
            state: State::Idle,
            hold_at: None,
            keepalive_at: None,
            hold: 0,
            peer_id: 0,
            wide: false,
        }
    }

    /// What the session has come to.
    pub fn state(&self) -> State
        ensures { result ≡ self.now.session.state }
    {
        self.state
    }

    /// The identifier in the peer's last good OPEN, or 0.
    pub fn peer_id(&self) -> u32
        ensures { result ≡ self.now.session.id }
    {
        self.peer_id
    }

    /// Whether AS numbers have four octets in the session, by the peer's last good OPEN, or false.
    pub fn wide(&self) -> bool
        ensures { result ≡ self.now.session.wide }
    {
        self.wide
    }

    /// The timer that is due first, with its due time: the hold timer if both are due at once, None if no timer is set.
    #[tactic(auto, unfolding(crate::specs::Sessions::due))]
    pub fn due(&self) -> Option<(u64, Timer)>
        ensures { result ≡ due self.now.session }
    {
        match (self.hold_at, self.keepalive_at) {
            (Some(end), Some(next)) if next < end => Some((next, Timer::Keepalive)),
            (Some(end), _) => Some((end, Timer::Hold)),
            (None, Some(next)) => Some((next, Timer::Keepalive)),
            (None, None) => None,
        }
    }

    /// Takes a stimulus at the time `now`, in seconds, and returns the acts that the caller has to do, in their order.
    #[tactic(auto, unfolding(crate::specs::Sessions::row))]
    pub fn on(&mut self, now: u64, what: Stimulus) -> Reaction
        requires { now < 2 ^ 32 }
        ensures acts { result ≡ (row self.old.own self.old.session now what).acts }
        ensures few { length result ≤ MAX_ACTS }
        ensures after { self.new ≡ record self.old { session = (row self.old.own self.old.session now what).session } }
    {
        use State::{Connect, Established, Idle, OpenConfirm, OpenSent};
        use Stimulus::*;
        match (self.state, what) {
            (Idle, Start) => self.enter(Connect),
            (Connect, Stop) => self.enter(Idle),
            (Connect, LinkUp) => self.send_open(now),
            (Idle | Connect, _) => Reaction::none(),
            (OpenSent, OpenGood { hold, id, wide }) => self.confirm(now, hold, id, wide),
            (OpenSent, Keepalive | Update) => self.close_with(FSM_ERROR, UNSPECIFIC),
            (OpenConfirm, Keepalive) => self.come_up(now),
            (OpenConfirm, OpenGood { .. } | OpenLate | Update) => self.close_with(
                FSM_ERROR, UNSPECIFIC,
            ),
            (Established, Keepalive | Update) => self.hold_on(now),
            (Established, OpenGood { .. } | OpenLate) => self.close_with(FSM_ERROR, UNSPECIFIC),
            (OpenConfirm | Established, KeepaliveDue) => self.send_keepalive(now),
            _ => self.on_live(what),
        }
    }

    // The rows that OpenSent, OpenConfirm and Established share.
    fn on_live(&mut self, what: Stimulus) -> Reaction
        ensures { Reacts (live_row self.old.session what) self.old self.new result }
    {
        match what {
            Stimulus::Stop => self.close_with(CEASE, UNSPECIFIC),
            Stimulus::LinkDown | Stimulus::Notified => self.close(Reaction::none()),
            Stimulus::Fault { code, subcode } => self.close_with(code, subcode),
            Stimulus::HoldDue => self.close_with(HOLD_TIMER_EXPIRED, UNSPECIFIC),
            _ => Reaction::none(),
        }
    }

    fn enter(&mut self, state: State) -> Reaction
        ensures { Reacts (enter state self.old.session) self.old self.new result }
    {
        self.state = state;
        Reaction::none()
    }

    fn send_open(&mut self, now: u64) -> Reaction
        requires { now < 2 ^ 32 }
        ensures { Reacts (open_sent now self.old.session) self.old self.new result }
    {
        self.state = State::OpenSent;
        self.hold_at = Some(now + OPEN_WAIT);
        self.keepalive_at = None;
        Reaction::none().then(Act::SendOpen)
    }

    fn confirm(&mut self, now: u64, hold: u16, id: u32, wide: bool) -> Reaction
        requires { now < 2 ^ 32 }
        ensures { Reacts (open_confirm self.old.own hold id wide now self.old.session) self.old self.new result }
    {
        let hold = self.own_hold.min(hold);
        self.state = State::OpenConfirm;
        self.hold = hold;
        self.peer_id = id;
        self.wide = wide;
        self.hold_at = due_in(hold, now, hold);
        self.keepalive_at = due_in(hold, now, hold / 3);
        Reaction::none().then(Act::SendKeepalive)
    }

    fn hold_on(&mut self, now: u64) -> Reaction
        requires { now < 2 ^ 32 }
        ensures { Reacts (stay (held_on now self.old.session)) self.old self.new result }
    {
        self.hold_at = due_in(self.hold, now, self.hold);
        Reaction::none()
    }

    fn come_up(&mut self, now: u64) -> Reaction
        requires { now < 2 ^ 32 }
        ensures { Reacts (established now self.old.session) self.old self.new result }
    {
        self.state = State::Established;
        self.hold_on(now).then(Act::Up)
    }

    fn send_keepalive(&mut self, now: u64) -> Reaction
        requires { now < 2 ^ 32 }
        ensures { Reacts (keepalive_sent now self.old.session) self.old self.new result }
    {
        self.keepalive_at = due_in(self.hold, now, self.hold / 3);
        Reaction::none().then(Act::SendKeepalive)
    }

    fn close(&mut self, first: Reaction) -> Reaction
        requires { length first ≤ MAX_ACTS - 2 }
        ensures { Reacts (close first self.old.session) self.old self.new result }
    {
        let acts = match self.state {
            State::Established => first.then(Act::Down),
            _ => first,
        };
        self.state = State::Idle;
        self.hold_at = None;
        self.keepalive_at = None;
        acts.then(Act::Close)
    }

    fn close_with(&mut self, code: u8, subcode: u8) -> Reaction
        ensures { Reacts (close_with code subcode self.old.session) self.old self.new result }
    {
        self.close(Reaction::none().then(Act::SendNotice { code, subcode }))
    }
}
