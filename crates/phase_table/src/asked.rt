// The box, asked: a step on the record of an event, with the partner in each phase.
use place::limits::Limits;
use place::phase::{FIRST_TRY, Phase};
use place::place::{Direction, Place};
use record::partner::{Partner, RBC};
use record::read::{
    KIND_DROP, KIND_END_ALL, KIND_LOSS, KIND_MESSAGE, KIND_ORDER, KIND_TIMEOUT, KIND_UP,
};
use unit::last::Last;
use unit::state::{Marks, State, Train};
use wire::refusal::Refusal;

// The number n of tries, and the X numbers that are supported.
const TRIES: u8 = 3;

const LOWEST: u8 = 1;

const HIGHEST: u8 = 2;

// The messages: a version, a call, the end of a session acknowledged.
pub(crate) const VERSION: u8 = 32;

pub(crate) const CALL: u8 = 38;

pub(crate) const ENDED: u8 = 39;

// A version of the lowest X, and one of an X over the highest.
const SUPPORTED: u8 = 16;

const UNSUPPORTED: u8 = 48;

// The number of the partner, and the cause of its order: trackside, which is always in force.
const NUMBER: u8 = 1;

const TRACKSIDE: u8 = 1;

// An event of the partner, other than its order.
#[derive(Clone, Copy)]
pub(crate) enum Heard {
    Drop,
    Up,
    Loss,
    Timeout,
    Version(u8),
    Call,
    Ended,
}

// The events that a phase takes, each a column of the table.
pub(crate) const COLUMNS: [Heard; 6] = [
    Heard::Drop,
    Heard::Up,
    Heard::Loss,
    Heard::Timeout,
    Heard::Version(SUPPORTED),
    Heard::Ended,
];

// A row of the table: a phase, with any tries.
#[derive(Clone, Copy)]
pub(crate) enum Row {
    Connecting,
    Contacting,
    Open,
    Lost,
    Ending,
}

pub(crate) const ROWS: [Row; 5] = [
    Row::Connecting,
    Row::Contacting,
    Row::Open,
    Row::Lost,
    Row::Ending,
];

// What a step answers: the code, the numbers of its first two actions, 0 for none, and the partner's place.
#[derive(Clone, Copy)]
pub(crate) struct Said {
    pub(crate) code: u8,
    pub(crate) first: u8,
    pub(crate) second: u8,
    pub(crate) place: Place,
}

// What is answered to an event in a phase: with tries left, with none left, and with the other version.
#[derive(Clone, Copy)]
pub(crate) struct Cell {
    pub(crate) early: Said,
    pub(crate) late: Said,
    pub(crate) other: Said,
}

impl Row {
    // The phase, with so many tries.
    fn phase(self, tries: u8) -> Phase {
        match self {
            Row::Connecting => Phase::Connecting(tries),
            Row::Contacting => Phase::Contacting(tries),
            Row::Open => Phase::Open,
            Row::Lost => Phase::Lost(tries),
            Row::Ending => Phase::Ending(tries),
        }
    }

    // A place whose partner is in this phase, with so many tries.
    fn place(self, tries: u8) -> Place {
        held(self.phase(tries))
    }

    // The same with the first try.
    pub(crate) fn early(self) -> Place {
        self.place(FIRST_TRY)
    }

    pub(crate) fn answers(self, heard: Heard) -> Cell {
        Cell {
            early: hear(self.early(), heard),
            late: hear(self.place(TRIES), heard),
            other: hear(self.early(), heard.unsupported()),
        }
    }

    // Whether the event does here what an end all does.
    fn closes(self, heard: Heard) -> bool {
        hear(self.early(), heard).does_as(end_all(self.early()))
    }
}

// A box in level 2 and a mission, with this place and three free ones.
fn box_with(place: Place) -> State {
    State {
        limits: Limits {
            lowest: LOWEST,
            highest: HIGHEST,
            tries: TRIES,
        },
        train: Train {
            level: 2,
            mission: 1,
        },
        marks: Marks {
            inside: false,
            mode: false,
            manual: false,
            end: false,
        },
        places: [place, Place::free(), Place::free(), Place::free()],
        last: Last::Unknown,
    }
}

fn held(phase: Phase) -> Place {
    Place::held(
        Direction::Outgoing,
        phase,
        Partner {
            kind: RBC,
            high: 0,
            middle: 0,
            low: NUMBER,
        },
    )
}

fn step(place: Place, record: &[u8]) -> Said {
    let answer = box_with(place).apply(record);
    let [first, second, ..] = answer.actions.items;
    Said {
        code: answer.code,
        first: first.number,
        second: second.number,
        place: answer.state.places[0],
    }
}

fn signal(place: Place, kind: u8) -> Said {
    step(place, &[kind, RBC, 0, 0, NUMBER])
}

fn message(place: Place, number: u8, version: u8) -> Said {
    step(place, &[KIND_MESSAGE, RBC, 0, 0, NUMBER, number, version])
}

pub(crate) fn hear(place: Place, heard: Heard) -> Said {
    match heard {
        Heard::Drop => signal(place, KIND_DROP),
        Heard::Up => signal(place, KIND_UP),
        Heard::Loss => signal(place, KIND_LOSS),
        Heard::Timeout => signal(place, KIND_TIMEOUT),
        Heard::Version(version) => message(place, VERSION, version),
        Heard::Call => message(place, CALL, 0),
        Heard::Ended => message(place, ENDED, 0),
    }
}

pub(crate) fn order(place: Place) -> Said {
    step(place, &[KIND_ORDER, RBC, 0, 0, NUMBER, 1, TRACKSIDE])
}

fn end_all(place: Place) -> Said {
    step(place, &[KIND_END_ALL, 0])
}

impl Heard {
    // The event with a version that is not supported; the same event where it has none.
    fn unsupported(self) -> Heard {
        match self {
            Heard::Version(_) => Heard::Version(UNSUPPORTED),
            other => other,
        }
    }

    // Whether it does in every phase what an end all does.
    pub(crate) fn closes(self) -> bool {
        ROWS.iter().all(|row| row.closes(self))
    }
}

impl Said {
    pub(crate) fn is_refused(self) -> bool {
        self.code == Refusal::NotTaken.number()
    }

    // The actions, and the place: whether it is free, its phase and its tries.
    fn done(self) -> (u8, u8, bool, u8, u8) {
        let phase = self.place.held_phase();
        let free = self.place.is_free();
        (self.first, self.second, free, phase.number(), phase.tries())
    }

    // Whether the two send the same actions and leave the same place.
    fn does_as(self, other: Said) -> bool {
        self.done() == other.done()
    }
}

impl Cell {
    pub(crate) fn is_refused(self) -> bool {
        self.early.is_refused() & (self.late.is_refused() & self.other.is_refused())
    }

    // Whether the answer depends on the version.
    pub(crate) fn judges(self) -> bool {
        !self.early.does_as(self.other)
    }

    // Whether the answer depends on the tries.
    pub(crate) fn counts(self) -> bool {
        !self.early.does_as(self.late)
    }
}
