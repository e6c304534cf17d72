// What a profile gives.
ghost use Rattle.std.specs.Prelude.{◌≡◌};
ghost use Rattle.onsight.specs.Procedures.{cell};
ghost use Rattle.onsight.specs.declared.event.Event.TheVariants.{Profile};

use crate::event::{Area, Mode};
use crate::procedure::State;

// The state that a profile gives in Idle.
fn opening(area: Area, mode: Mode) -> State
    ensures { Some result ≡ cell State.Idle (Profile area mode) }
{
    match (area, mode) {
        (Area::Ahead, _) => State::Waiting,
        (Area::Entered, Mode::OS) => State::Done,
        (Area::Entered, Mode::SB | Mode::PT) => State::Asked,
        (Area::Entered, Mode::Another) => State::Late,
    }
}

impl State {
    // "Idle takes only this": no other state takes a profile.
    pub(crate) fn at_profile(self, area: Area, mode: Mode) -> Option<State>
        ensures { result ≡ cell self (Profile area mode) }
    {
        match self {
            State::Idle => Some(opening(area, mode)),
            State::Waiting | State::Asked | State::Late | State::Braking | State::Done => None,
        }
    }
}
