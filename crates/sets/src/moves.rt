// What an event makes of a member, by the set that it stands in.
ghost use Rattle.std.specs.Prelude.{◌≡◌};
ghost use Rattle.place.specs.Table.{supported};
ghost use Rattle.sets.specs.Moves.{sessions_of, dropped, connected, disconnected, retried, timed_out, answered, finished, move_of};
ghost use Rattle.sets.specs.Moves.{moves};

use crate::members::Member;
use crate::names::{SESSION_TRIES, SetName};
use place::action::{ESTABLISHED, INCOMPATIBLE, INITIATE, REQUEST, TERMINATE};
use place::limits::Limits;
use place::phase::FIRST_TRY;
use place::place::Direction;
use record::event::PartnerEvent;

// Versions of one X.
const VERSIONS_OF_X: u8 = 16;

// What an event makes of a member: it stays where it is, and the event is refused; it leaves, with its one action; or it enters a set with
// so many tries, with no, one or two actions.
#[derive(Clone, Copy)]
pub enum Move {
    Stays,
    Leaves,
    Enters {
        set: SetName,
        tries: u8,
    },
    Sends {
        number: u8,
        set: SetName,
        tries: u8,
    },
    SendsBoth {
        first: u8,
        second: u8,
        set: SetName,
        tries: u8,
    },
}

impl Move {
    // Whether the event was taken.
    pub(crate) fn is_taken(self) -> bool
        ensures { result ≡ moves self }
    {
        !matches!(self, Move::Stays)
    }
}

// The sessions of this direction.
fn sessions_of(direction: Direction) -> SetName
    ensures { result ≡ sessions_of direction }
{
    match direction {
        Direction::Outgoing => SetName::OutgoingSessions,
        Direction::Incoming => SetName::IncomingSessions,
    }
}

// Drop.
fn dropped(name: SetName) -> Move
    ensures { result ≡ dropped name }
{
    match name {
        SetName::Calling | SetName::Contacted | SetName::LostSessions => Move::Leaves,
        SetName::IncomingSessions | SetName::OutgoingSessions => Move::Sends {
            number: TERMINATE,
            set: SetName::TerminatingSessions,
            tries: FIRST_TRY,
        },
        SetName::TerminatingSessions => Move::Stays,
    }
}

// Connection up.
fn connected(direction: Direction, name: SetName) -> Move
    ensures { result ≡ connected direction name }
{
    match name {
        SetName::Calling => Move::Sends {
            number: INITIATE,
            set: SetName::Contacted,
            tries: FIRST_TRY,
        },
        SetName::LostSessions => Move::Enters {
            set: sessions_of(direction),
            tries: SESSION_TRIES,
        },
        SetName::Contacted
        | SetName::IncomingSessions
        | SetName::OutgoingSessions
        | SetName::TerminatingSessions => Move::Stays,
    }
}

// Connection lost.
fn disconnected(name: SetName) -> Move
    ensures { result ≡ disconnected name }
{
    match name {
        SetName::Contacted | SetName::TerminatingSessions => Move::Leaves,
        SetName::IncomingSessions | SetName::OutgoingSessions => Move::Sends {
            number: REQUEST,
            set: SetName::LostSessions,
            tries: FIRST_TRY,
        },
        SetName::Calling | SetName::LostSessions => Move::Stays,
    }
}

// One more try with this action while fewer than n were used, else the member leaves.
fn retried(limits: Limits, number: u8, name: SetName, tries: u8) -> Move
    ensures { result ≡ retried limits number name tries }
{
    if tries < limits.tries {
        Move::Sends {
            number,
            set: name,
            tries: tries + 1,
        }
    } else {
        Move::Leaves
    }
}

// Timeout.
fn timed_out(limits: Limits, tries: u8, name: SetName) -> Move
    ensures { result ≡ timed_out limits tries name }
{
    match name {
        SetName::Calling | SetName::LostSessions => retried(limits, REQUEST, name, tries),
        SetName::Contacted => retried(limits, INITIATE, name, tries),
        SetName::TerminatingSessions => retried(limits, TERMINATE, name, tries),
        SetName::IncomingSessions | SetName::OutgoingSessions => Move::Stays,
    }
}

// Whether the X of a version is supported.
fn supports(limits: Limits, version: u8) -> bool
    ensures { result ≡ supported limits version }
{
    let x = version / VERSIONS_OF_X;
    (limits.lowest <= x) & (x <= limits.highest)
}

// Message 32: compatible, and in session; or not, and terminating.
fn answered(limits: Limits, version: u8, name: SetName) -> Move
    ensures { result ≡ answered limits version name }
{
    match name {
        SetName::Contacted if supports(limits, version) => Move::Sends {
            number: ESTABLISHED,
            set: SetName::OutgoingSessions,
            tries: SESSION_TRIES,
        },
        SetName::Contacted => Move::SendsBoth {
            first: INCOMPATIBLE,
            second: TERMINATE,
            set: SetName::TerminatingSessions,
            tries: FIRST_TRY,
        },
        _ => Move::Stays,
    }
}

// Message 39.
fn finished(name: SetName) -> Move
    ensures { result ≡ finished name }
{
    match name {
        SetName::TerminatingSessions => Move::Leaves,
        _ => Move::Stays,
    }
}

// What an event that names a member makes of it.
#[tactic(auto, unfolding(crate::specs::Moves::move_of))]
pub(crate) fn move_of(limits: Limits, event: PartnerEvent, name: SetName, member: Member) -> Move
    ensures { result ≡ move_of limits event name member }
{
    match event {
        PartnerEvent::Drop => dropped(name),
        PartnerEvent::Up => connected(member.direction, name),
        PartnerEvent::Loss => disconnected(name),
        PartnerEvent::Timeout => timed_out(limits, member.tries, name),
        PartnerEvent::Version(version) => answered(limits, version, name),
        PartnerEvent::Ended => finished(name),
    }
}
