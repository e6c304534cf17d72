// The state of an On-Sight procedure, what is in force and braking in it, and one step.
ghost use Rattle.std.specs.Prelude.{◌≡◌};
ghost use Rattle.onsight.specs.Numbers.{state_number};
ghost use Rattle.onsight.specs.Procedures.{fresh, cell, answered, step, os_in_force, service_brake};

use crate::event::Event;
use std::fmt;

// What is answered where nothing is refused.
pub const ACCEPTED: u8 = 0;

// The one refusal: event not taken here.
pub const NOT_TAKEN_HERE: u8 = 14;

// The state of one procedure.
#[derive(Clone, Copy, PartialEq, Eq)]
pub enum State {
    Idle = 0,
    Waiting = 1,
    Asked = 2,
    Late = 3,
    Braking = 4,
    Done = 5,
}

// Every state, the fresh one first.
pub const STATES: [State; 6] = [
    State::Idle,
    State::Waiting,
    State::Asked,
    State::Late,
    State::Braking,
    State::Done,
];

// What a step answers: 0 or the number of the refusal, and the next state.
#[derive(Clone, Copy, PartialEq, Eq)]
pub struct Answer {
    pub code: u8,
    pub state: State,
}

impl State {
    // The state in which every procedure starts.
    pub fn fresh() -> State
        ensures { result ≡ fresh }
    {
        State::Idle
    }

    // Its number, 0 to 5.
    pub fn number(self) -> u8
        ensures { result ≡ state_number self }
    {
        self as u8
    }

    // Whether the mode On-Sight is in force.
    pub fn os_in_force(self) -> bool
        ensures { result ≡ os_in_force self }
    {
        matches!(self, State::Late | State::Braking | State::Done)
    }

    // Whether the service brake is on.
    pub fn service_brake(self) -> bool
        ensures { result ≡ service_brake self }
    {
        matches!(self, State::Braking)
    }

    // The cell of the table at this state and an event: the state that the event gives, none where it is not taken.
    fn cell(self, event: Event) -> Option<State>
        ensures { result ≡ cell self event }
    {
        match event {
            Event::Profile { area, mode } => self.at_profile(area, mode),
            Event::Window => self.in_window(),
            Event::Start => self.past_start(),
            Event::Acknowledgement => self.acknowledged(),
            Event::Expiry => self.expired(),
        }
    }

    // What a cell makes of this state.
    fn answer(self, cell: Option<State>) -> Answer
        ensures { result ≡ answered self cell }
    {
        match cell {
            None => Answer {
                code: NOT_TAKEN_HERE,
                state: self,
            },
            Some(next) => Answer {
                code: ACCEPTED,
                state: next,
            },
        }
    }

    // One step: 0 and the next state, or 14 and the state as it was.
    pub fn step(self, event: Event) -> Answer
        ensures { result ≡ step self event }
    {
        self.answer(self.cell(event))
    }
}

impl fmt::Display for State {
    fn fmt<W: fmt::Write>(&self, f: &mut fmt::Formatter<W>) -> fmt::Result {
        f.write_str(match self {
            State::Idle => "Idle",
            State::Waiting => "Waiting",
            State::Asked => "Asked",
            State::Late => "Late",
            State::Braking => "Braking",
            State::Done => "Done",
        })
    }
}
