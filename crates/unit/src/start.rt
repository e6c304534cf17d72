// The cold starts.
ghost use Rattle.std.specs.Prelude.{◌≡◌};
ghost use Rattle.unit.specs.States.{cold, cold_start, default_start};

use crate::last::Last;
use crate::state::{MISSION_ENDED, Marks, State, Train, limits_ok};
use place::limits::{DEFAULT_TRIES, FLEET_TRIES, Limits};
use place::place::{Holding, Place};
use wire::refusal::{ACCEPTED, Refusal};

// What a cold start or a reading of an image answers: 0 or the number of the refusal, and the state.
#[derive(Clone, Copy)]
pub struct Started {
    pub code: u8,
    pub state: State,
}

// A state that has just started: mission ended, level 0, no mark, every place free, no RBC known.
fn cold(limits: Limits) -> State
    ensures { result ≡ cold limits }
{
    State {
        limits,
        train: Train {
            level: 0,
            mission: MISSION_ENDED,
        },
        marks: Marks {
            inside: false,
            mode: false,
            manual: false,
            end: false,
        },
        places: [Place {
            holding: Holding::Free,
        }; 4],
        last: Last::Unknown,
    }
}

// A cold start with the two X numbers and the number of tries; refusal 13 where an X is over 7, the lowest is over the highest, or
// the tries are not 1 to 9. A refused one holds X from 0 to 0 and three tries.
pub fn cold_start(limits: Limits) -> Started
    ensures { result ≡ cold_start limits }
{
    if limits_ok(limits) {
        Started {
            code: ACCEPTED,
            state: cold(limits),
        }
    } else {
        Started {
            code: Refusal::BadLimits.number(),
            state: cold(Limits {
                lowest: 0,
                highest: 0,
                tries: FLEET_TRIES,
            }),
        }
    }
}

// A cold start with the two X numbers and five tries, the default; refused as the other.
pub fn default_start(lowest: u8, highest: u8) -> Started
    ensures { result ≡ default_start lowest highest }
{
    cold_start(Limits {
        lowest,
        highest,
        tries: DEFAULT_TRIES,
    })
}
