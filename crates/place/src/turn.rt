// Turns of a place: what an event or a closing makes of it.
ghost use Rattle.std.specs.Prelude.{◌≡◌, get_or};
ghost use Rattle.place.specs.Places.{held_phase};
ghost use Rattle.place.specs.Table.{closing, column, judged, again, numbers, turn, turned_to, version_of, takes, closed_to};
ghost use Rattle.place.specs.Cells.{chosen_turn, Chooses};

use crate::action::{ESTABLISHED, INCOMPATIBLE, INITIATE, NO_ACTION, RELEASE, REQUEST, TERMINATE};
use crate::limits::Limits;
use crate::phase::{FIRST_TRY, Phase};
use crate::place::{Holding, Place};
use crate::table::{
    CLOSE, CONTACT, FREE, INITIATE_AGAIN, JUDGE, LOSE, REOPEN, REQUEST_AGAIN, TERMINATE_AGAIN,
    cell_at,
};
use record::event::PartnerEvent;
use wire::join::and;

// Versions of one X.
const VERSIONS_OF_X: u8 = 16;

// What an event or a closing makes of a place: it stays as it is; it is released, with its one action; or it comes into another
// phase, with no, one or two actions. An event that lets a place stay is refused.
#[derive(Clone, Copy)]
pub enum Turn {
    Stays,
    Released,
    Becomes(Phase),
    Sends { number: u8, phase: Phase },
    SendsBoth { first: u8, second: u8, phase: Phase },
}

// A place after a turn: whether the event was taken, the numbers of the turn's actions, 0 for none, and the place.
#[derive(Clone, Copy)]
pub struct Turned {
    pub taken: bool,
    pub first: u8,
    pub second: u8,
    pub place: Place,
}

// Which places a closing is for: every one, the sessions that an RBC's order ends, or none.
#[derive(Clone, Copy)]
pub enum Closing {
    Every,
    Sessions,
    Nothing,
}

impl Turn {
    // Whether the event was taken.
    pub fn is_taken(self) -> bool
        ensures { result ≡ takes self }
    {
        !matches!(self, Turn::Stays)
    }
}

impl Turn {
    // The number of its first action; 0 where it has none.
    fn first_number(self) -> u8
        ensures { result ≡ get_or (numbers self) 0 0 }
    {
        match self {
            Turn::Stays | Turn::Becomes(_) => NO_ACTION,
            Turn::Released => RELEASE,
            Turn::Sends { number, .. } => number,
            Turn::SendsBoth { first, .. } => first,
        }
    }

    // The number of its second action; 0 where it has none.
    fn second_number(self) -> u8
        ensures { result ≡ get_or (numbers self) 1 0 }
    {
        match self {
            Turn::SendsBoth { second, .. } => second,
            _ => NO_ACTION,
        }
    }
}

// The column of the phase table.
fn column_of(event: PartnerEvent) -> usize
    ensures { result ≡ column event }
{
    match event {
        PartnerEvent::Drop => 0,
        PartnerEvent::Up => 1,
        PartnerEvent::Loss => 2,
        PartnerEvent::Timeout => 3,
        PartnerEvent::Version(_) => 4,
        PartnerEvent::Ended => 5,
    }
}

fn version_of(event: PartnerEvent) -> u8
    ensures { result ≡ version_of event }
{
    match event {
        PartnerEvent::Version(v) => v,
        _ => 0,
    }
}

// Judges a version by its X.
fn judge(version: u8, limits: Limits) -> Turn
    ensures { result ≡ judged limits version }
{
    let x = version / VERSIONS_OF_X;
    if and(limits.lowest <= x, x <= limits.highest) {
        Turn::Sends {
            number: ESTABLISHED,
            phase: Phase::Open,
        }
    } else {
        Turn::SendsBoth {
            first: INCOMPATIBLE,
            second: TERMINATE,
            phase: Phase::Ending(FIRST_TRY),
        }
    }
}

impl Phase {
    // Closing: a release, or from Open a termination; an ending place is not closed.
    pub(crate) fn closing(self) -> Turn
        ensures { result ≡ closing self }
    {
        match self {
            Phase::Connecting(_) | Phase::Contacting(_) | Phase::Lost(_) => Turn::Released,
            Phase::Open => Turn::Sends {
                number: TERMINATE,
                phase: Phase::Ending(FIRST_TRY),
            },
            Phase::Ending(_) => Turn::Stays,
        }
    }

    // One more try while fewer than the limit were used; else a release.
    fn again(self, number: u8, limits: Limits) -> Turn
        ensures { result ≡ again limits number self }
    {
        let used = self.tries();
        if used < limits.tries {
            Turn::Sends {
                number,
                phase: self.with_tries(used + 1),
            }
        } else {
            Turn::Released
        }
    }

    // The number that the phase table has at this phase and an event.
    fn choice(self, event: PartnerEvent) -> u8
        ensures { Chooses self event result }
    {
        cell_at(self.row(), column_of(event))
    }
}

impl Place {
    // A turn of this place. It is made of each turn by itself, before the ways meet: the compiled code then has no turn to take apart.
    fn make(self, turn: Turn) -> Turned
        ensures { result ≡ turned_to self turn }
    {
        Turned {
            taken: turn.is_taken(),
            first: turn.first_number(),
            second: turn.second_number(),
            place: self.after(turn),
        }
    }

    // What the turn of this number makes of this place in its phase.
    fn play(self, phase: Phase, choice: u8, version: u8, limits: Limits) -> Turned
        ensures { result ≡ turned_to self (chosen_turn limits version phase choice) }
    {
        match choice {
            CLOSE => self.make(phase.closing()),
            FREE => self.make(Turn::Released),
            CONTACT => self.make(Turn::Sends {
                number: INITIATE,
                phase: Phase::Contacting(FIRST_TRY),
            }),
            LOSE => self.make(Turn::Sends {
                number: REQUEST,
                phase: Phase::Lost(FIRST_TRY),
            }),
            REOPEN => self.make(Turn::Becomes(Phase::Open)),
            REQUEST_AGAIN => self.make(phase.again(REQUEST, limits)),
            INITIATE_AGAIN => self.make(phase.again(INITIATE, limits)),
            TERMINATE_AGAIN => self.make(phase.again(TERMINATE, limits)),
            JUDGE => self.make(judge(version, limits)),
            _ => self.make(Turn::Stays),
        }
    }

    // What a closing makes of this place; one that it is not for stays.
    pub fn close(self, which: Closing) -> Turned
        ensures { result ≡ closed_to which self }
    {
        match self.holding {
            Holding::Free => self.make(Turn::Stays),
            Holding::Held { phase, partner, .. } => {
                if which.closes(phase, partner) {
                    self.make(phase.closing())
                } else {
                    self.make(Turn::Stays)
                }
            }
        }
    }

    // What an event that names its partner makes of this place.
    pub fn turn(self, event: PartnerEvent, limits: Limits) -> Turned
        ensures { result ≡ turned_to self (turn limits (held_phase self) event) }
    {
        let phase = self.held_phase();
        self.play(phase, phase.choice(event), version_of(event), limits)
    }
}
