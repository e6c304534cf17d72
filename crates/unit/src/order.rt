// Orders: the causes that they are given for, and the marks that these use.
ghost use Rattle.std.specs.Prelude.{◌≡◌};
ghost use Rattle.unit.specs.Steps.{radio_level, in_force, spend, displaced};

use crate::state::{MISSION_ENDED, Marks, Train};
use place::turn::Closing;
use record::event::Cause;
use record::partner::Partner;
use wire::join::{and, negated, or};

// The mission that a start of mission is ordered in, and the levels with a radio.
const MISSION_STARTING: u64 = 1;

const LEVEL_TWO: u64 = 2;

const LEVEL_THREE: u64 = 3;

fn radio_level(train: Train) -> bool
    ensures { result ≡ radio_level train }
{
    or(train.level == LEVEL_TWO, train.level == LEVEL_THREE)
}

// Whether a cause is in force.
pub fn in_force(cause: Cause, train: Train, marks: Marks) -> bool
    ensures { result ≡ in_force cause train marks }
{
    let radio = radio_level(train);
    match cause {
        Cause::StartOfMission => and(train.mission == MISSION_STARTING, radio),
        Cause::Trackside => true,
        Cause::ModeChange => and(
            negated(train.mission == MISSION_ENDED),
            and(radio, marks.mode),
        ),
        Cause::ManualLevel => and(radio, marks.manual),
        Cause::HoleEnd => marks.end,
    }
}

// The marks after an order was accepted: the one that its cause used is cleared, and no other.
pub fn spend(cause: Cause, marks: Marks) -> Marks
    ensures { result ≡ spend cause marks }
{
    match cause {
        Cause::StartOfMission | Cause::Trackside => marks,
        Cause::ModeChange => Marks {
            mode: false,
            ..marks
        },
        Cause::ManualLevel => Marks {
            manual: false,
            ..marks
        },
        Cause::HoleEnd => Marks {
            end: false,
            ..marks
        },
    }
}

// The places that an order closes: sessions with RBCs, for an RBC that does not accept them.
pub fn displaced(partner: Partner, accepting: bool) -> Closing
    ensures { result ≡ displaced partner accepting }
{
    if and(partner.is_rbc(), negated(accepting)) {
        Closing::Sessions
    } else {
        Closing::Nothing
    }
}
