// What the train's front and speed give.
ghost use Rattle.std.specs.Prelude.{◌≡◌};
ghost use Rattle.onsight.specs.Procedures.{cell};
ghost use Rattle.onsight.specs.declared.event.Event.TheVariants.{Window, Start};

use crate::procedure::State;

impl State {
    // "Waiting: front and speed in the window gives Asked."
    pub(crate) fn in_window(self) -> Option<State>
        ensures { result ≡ cell self Window }
    {
        match self {
            State::Waiting => Some(State::Asked),
            State::Idle | State::Asked | State::Late | State::Braking | State::Done => None,
        }
    }

    // "Waiting and Asked: the safe front passing the start gives Late."
    pub(crate) fn past_start(self) -> Option<State>
        ensures { result ≡ cell self Start }
    {
        match self {
            State::Waiting | State::Asked => Some(State::Late),
            State::Idle | State::Late | State::Braking | State::Done => None,
        }
    }
}
