// Answers of the box, and the actions of one step.
ghost use Rattle.std.specs.Prelude.{◌≡◌, List, []};
ghost use Rattle.wire.specs.Refusals.{number};
ghost use Rattle.unit.specs.Steps.{refused_at, refused, done};
ghost use Rattle.unit.specs.Forms.{listed, packed};
ghost use Rattle.unit.specs.Changes.{pushed, push_all, given, sent_for};

use crate::search::Standing;
use crate::state::{PLACES, State};
use place::action::NO_ACTION;
use place::place::Place;
use record::partner::Partner;
use wire::refusal::{ACCEPTED, Refusal};

// The most actions of one step.
pub const MOST_ACTIONS: usize = 4;

// One action: its number and the partner that it is for.
#[derive(Clone, Copy)]
pub struct Action {
    pub number: u8,
    pub partner: Partner,
}

// The actions of one step, in their order; the items from `count` on are zeros.
#[derive(Clone, Copy)]
pub struct Actions {
    pub items: [Action; 4],
    pub count: usize,
}

// What a step answers: 0 or the number of the refusal, the next state, the actions, and where the partner stands if that is said.
#[derive(Clone, Copy)]
pub struct Answer {
    pub code: u8,
    pub state: State,
    pub actions: Actions,
    pub standing: Standing,
}

// What a step on bytes answers: as a step, with how many actions were written in place of the actions.
#[derive(Clone, Copy)]
pub struct Stepped {
    pub code: u8,
    pub state: State,
    pub count: usize,
    pub standing: Standing,
}

impl Actions {
    // No action.
    pub(crate) fn none() -> Actions
        ensures { result ≡ listed [] }
    {
        let partner = Partner {
            kind: 0,
            high: 0,
            middle: 0,
            low: 0,
        };
        Actions {
            items: [Action { number: 0, partner }; 4],
            count: 0,
        }
    }

    // One more action, after the others; none where four stand already.
    pub(crate) fn push(self, partner: Partner, number: u8) -> Actions
        ensures { result ≡ pushed self partner number }
    {
        let count = self.count;
        if count < MOST_ACTIONS {
            let mut items = self.items;
            items[count] = Action { number, partner };
            Actions {
                items,
                count: count + 1,
            }
        } else {
            self
        }
    }

    // The action of this number, after the others; 0 is none.
    pub(crate) fn send_number(self, partner: Partner, number: u8) -> Actions
        ensures { result ≡ push_all self partner (given number) }
    {
        if number == NO_ACTION {
            self
        } else {
            self.push(partner, number)
        }
    }

    // The actions of these numbers, each for the partner of its place; 0 is none.
    pub(crate) fn of(places: [Place; 4], numbers: [u8; 4]) -> Actions
        ensures { result ≡ listed (sent_for places numbers) }
    {
        let mut actions = Actions::none();
        for i in 0..PLACES {
            actions = actions.send_number(places[i].partner(), numbers[i]);
        }
        actions
    }
}

impl Answer {
    // A refusal that says where the partner stands: the state as given, no action.
    pub(crate) fn refused_at(refusal: Refusal, standing: Standing, state: State) -> Answer
        ensures { result ≡ packed (refused_at (number refusal) standing state) }
    {
        Answer {
            code: refusal.number(),
            state,
            actions: Actions::none(),
            standing,
        }
    }

    // A refusal: the state as given, no action.
    pub(crate) fn refused(refusal: Refusal, state: State) -> Answer
        ensures { result ≡ packed (refused (number refusal) state) }
    {
        Answer::refused_at(refusal, Standing::nowhere(), state)
    }

    // An accepted step.
    pub(crate) fn done(state: State, actions: Actions) -> Answer
        ensures { (acts : List Action) → actions ≡ listed acts → result ≡ packed (done state acts) }
    {
        Answer {
            code: ACCEPTED,
            state,
            actions,
            standing: Standing::nowhere(),
        }
    }
}
