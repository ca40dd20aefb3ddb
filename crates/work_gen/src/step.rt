//! What comes next: the events of a session one by one, an update, a drain.
ghost use Rattle.std.specs.Prelude.{◌≡◌, ◌≤◌, ℕ, ◌++◌};
ghost use Rattle.work_gen.specs.Views.{to_come, after_session, drains_after, drains_at, updates_left, IsStep};

use xbgp_config::WORK_PEERS;

/// What comes next, with the number of the peer. A drain comes after an update, and the last one after all of them.
#[derive(Clone, Copy)]
pub(crate) enum Step {
    Start(u32),
    Up(u32),
    Open(u32),
    Keepalive(u32),
    Update,
    Drain(u32),
    LastDrain(u32),
    End,
}

// How many updates come before the peers are drained.
const UPDATES_PER_DRAIN: u32 = 100;

/// The step after the session of a peer came up.
pub(crate) fn after_session(peer: u32) -> Step
    requires { peer ≤ WORK_PEERS }
    ensures events { (x done left : ℕ) → to_come result x done left ≡ after_session peer x done left }
    ensures step { IsStep result }
{
    if peer < WORK_PEERS {
        Step::Start(peer + 1)
    } else {
        Step::Update
    }
}

/// The step after update number `done`.
pub(crate) fn after_update(done: u32) -> Step
    ensures events { (x all left : ℕ) → to_come result x all left ≡ drains_at done ++ updates_left x all left }
    ensures step { IsStep result }
{
    if done % UPDATES_PER_DRAIN == 0 {
        Step::Drain(1)
    } else {
        Step::Update
    }
}

/// The step after the drain of a peer.
pub(crate) fn after_drain(peer: u32) -> Step
    requires { peer ≤ WORK_PEERS }
    ensures events { (x done left : ℕ) → to_come result x done left ≡ drains_after peer ++ updates_left x done left }
    ensures step { IsStep result }
{
    if peer < WORK_PEERS {
        Step::Drain(peer + 1)
    } else {
        Step::Update
    }
}

/// The step after the last drain of a peer.
pub(crate) fn after_last_drain(peer: u32) -> Step
    requires { peer ≤ WORK_PEERS }
    ensures events { (x done left : ℕ) → to_come result x done left ≡ drains_after peer }
    ensures step { IsStep result }
{
    if peer < WORK_PEERS {
        Step::LastDrain(peer + 1)
    } else {
        Step::End
    }
}
