// One step of the box: what the event changes, carried out.
ghost use Rattle.std.specs.Prelude.{◌≡◌, ◌≤◌, length, map};
ghost use Rattle.unit.specs.Steps.{with_places, closed, step};
ghost use Rattle.unit.specs.Forms.{most_actions, packed};
ghost use Rattle.unit.specs.Changes.{closes_any, closing_number, settled, made};

use crate::answer::{Actions, Answer};
use crate::change::Change;
use crate::state::{PLACES, State};
use place::action::NO_ACTION;
use place::place::Place;
use place::turn::Closing;
use record::event::Event;

// Whether the closing is for any place.
pub(crate) fn closes_any(which: Closing) -> bool
    ensures { result ≡ closes_any which }
{
    !matches!(which, Closing::Nothing)
}

// Places that are closed, and for each of them the number of the action that is sent to its partner, 0 for none.
#[derive(Clone, Copy)]
pub(crate) struct Closed {
    pub places: [Place; 4],
    pub numbers: [u8; 4],
}

// Closes the places that the closing is for: what a step on values and a run change by it; on bytes it is `write_closings`.
pub(crate) fn close_places(before: [Place; 4], which: Closing) -> Closed
    ensures { (result.places ≡ closed which before) × (result.numbers ≡ map (closing_number which) before) }
{
    let mut places = before;
    let mut numbers = [NO_ACTION; 4];
    for i in 0..PLACES {
        let turned = places[i].close(which);
        numbers[i] = turned.first;
        places[i] = turned.place;
    }
    Closed { places, numbers }
}

impl State {
    // The state with these places.
    pub(crate) fn with_places(self, places: [Place; 4]) -> State
        ensures { result ≡ with_places self places }
    {
        State { places, ..self }
    }

    // The state with a change's train, marks and place, and its last known RBC.
    pub(crate) fn settle(self, change: Change) -> State
        ensures { result ≡ settled self change }
    {
        let mut places = self.places;
        if change.at < PLACES {
            places[change.at] = change.place;
        }
        State {
            limits: self.limits,
            train: change.train,
            marks: change.marks,
            places,
            last: change.last,
        }
    }

    // The closings of a change, then the rest of it.
    fn close_and_settle(self, change: Change) -> Answer
        requires { length (made self change).actions ≤ most_actions }
        ensures { result ≡ packed (made self change) }
    {
        let which = change.which;
        let partner = change.partner;
        let first = change.first;
        let second = change.second;
        let places = self.places;
        let closed = close_places(places, which);
        let shut = closed.places;
        let numbers = closed.numbers;
        let sent = Actions::of(places, numbers)
            .send_number(partner, first)
            .send_number(partner, second);
        let state = self.with_places(shut);
        Answer::done(state.settle(change), sent)
    }

    // What an accepted step changes.
    fn make(self, change: Change) -> Answer
        requires { length (made self change).actions ≤ most_actions }
        ensures { result ≡ packed (made self change) }
    {
        let which = change.which;
        let partner = change.partner;
        let first = change.first;
        let second = change.second;
        if closes_any(which) {
            return self.close_and_settle(change);
        }
        let sent = Actions::none()
            .send_number(partner, first)
            .send_number(partner, second);
        Answer::done(self.settle(change), sent)
    }

    // One step: the next state and the actions in their order, or the refusal with the state as given.
    pub(crate) fn step(self, event: Event) -> Answer
        ensures { result ≡ packed (step self event) }
    {
        let change = self.change(event);
        match change.refusal {
            None => self.make(change),
            Some(refusal) => Answer::refused_at(refusal, change.standing, self),
        }
    }
}
