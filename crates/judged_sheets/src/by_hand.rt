// States of both engines made by hand, which mean the same.
use crate::front;
use place::limits::Limits;
use place::phase::Phase;
use place::place::{Direction, Place};
use record::partner::{Partner, RBC};
use sets::members::{Member, Members};
use sets::six::SixSets;
use sets::state::SetState;
use std::io;
use streams::buffer;
use tools::compared::{Differences, put_differences};
use unit::last::Last;
use unit::state::{Marks, State, Train};

// Prints a name and what differs.
pub(crate) fn say(rt: &HostRuntime, name: &str, found: Differences) -> io::Result<()> {
    let mut out = buffer();
    let length = put_differences(&mut out, 0, found);
    rt.print(name)?;
    rt.write_all(front(&out, length))?;
    rt.write_all(b"\n")
}

pub(crate) fn rbc(number: u8) -> Partner {
    Partner {
        kind: RBC,
        high: 0,
        middle: 0,
        low: number,
    }
}

pub(crate) fn member(number: u8, tries: u8, direction: Direction) -> Member {
    Member {
        partner: rbc(number),
        tries,
        direction,
    }
}

// Nobody, as after the last member.
pub(crate) fn nobody() -> Member {
    member(0, 0, Direction::Outgoing)
}

pub(crate) fn set_of(first: Member, second: Member, count: usize) -> Members {
    Members {
        items: [first, second, nobody(), nobody()],
        count,
    }
}

pub(crate) fn alone(first: Member) -> Members {
    set_of(first, nobody(), 1)
}

pub(crate) fn nowhere() -> Members {
    set_of(nobody(), nobody(), 0)
}

// RBC 1 is called for the second time, RBC 2 called and is lost, RBC 3 called; this is the last known RBC.
pub(crate) fn places_after(last: Last) -> State {
    State {
        limits: Limits {
            lowest: 1,
            highest: 2,
            tries: 3,
        },
        train: Train {
            level: 2,
            mission: 1,
        },
        marks: Marks {
            inside: false,
            mode: true,
            manual: false,
            end: true,
        },
        places: [
            Place::held(Direction::Outgoing, Phase::Connecting(2), rbc(1)),
            Place::held(Direction::Incoming, Phase::Lost(1), rbc(2)),
            Place::held(Direction::Incoming, Phase::Open, rbc(3)),
            Place::free(),
        ],
        last,
    }
}

// The number of an RBC as the last known one.
pub(crate) fn known(low: u8) -> Last {
    Last::Known {
        high: 0,
        middle: 0,
        low,
    }
}

pub(crate) fn places() -> State {
    places_after(known(3))
}

pub(crate) fn six() -> SixSets {
    SixSets {
        calling: alone(member(1, 2, Direction::Outgoing)),
        contacted: nowhere(),
        incoming: alone(member(3, 0, Direction::Incoming)),
        outgoing: nowhere(),
        lost: alone(member(2, 1, Direction::Incoming)),
        terminating: nowhere(),
    }
}

// The same as sets.
pub(crate) fn in_sets_after(last: Last) -> SetState {
    let State {
        limits,
        train,
        marks,
        ..
    } = places();
    SetState {
        limits,
        train,
        marks,
        sets: six(),
        last,
    }
}

pub(crate) fn in_sets() -> SetState {
    in_sets_after(known(3))
}
