// What the driver's acknowledgement gives, and the timer that waits for it.
ghost use Rattle.std.specs.Prelude.{◌≡◌};
ghost use Rattle.onsight.specs.Procedures.{cell};
ghost use Rattle.onsight.specs.declared.event.Event.TheVariants.{Acknowledgement, Expiry};

use crate::procedure::State;

impl State {
    // "Asked, Late and Braking: driver acknowledgement gives Done."
    pub(crate) fn acknowledged(self) -> Option<State>
        ensures { result ≡ cell self Acknowledgement }
    {
        match self {
            State::Asked | State::Late | State::Braking => Some(State::Done),
            State::Idle | State::Waiting | State::Done => None,
        }
    }

    // "Late: timer expiry gives Braking."
    pub(crate) fn expired(self) -> Option<State>
        ensures { result ≡ cell self Expiry }
    {
        match self {
            State::Late => Some(State::Braking),
            State::Idle | State::Waiting | State::Asked | State::Braking | State::Done => None,
        }
    }
}
