// What the shunter answers, and the actions that go out, gathered.
ghost use Rattle.std.specs.Prelude.{◌≡◌, List, [], ◌∷◌, ◌++◌, ◌<◌, length};
ghost use Rattle.unit.specs.Forms.{most_actions, listed};
ghost use Rattle.unit.specs.States.{nowhere};
ghost use Rattle.unit.specs.declared.answer.Action.{Action};
ghost use Rattle.shunter.specs.Shunting.{shunt_refused_at, shunted};

use crate::state::Shunter;
use record::partner::Partner;
use unit::answer::{Action, Actions, MOST_ACTIONS};
use unit::search::Standing;
use unit::state::PLACES;

// What a step answers: 0 or the number of the refusal, the next state, the actions that go out, and where the partner stands if that is
// said.
#[derive(Clone, Copy)]
pub struct Shunted {
    pub code: u8,
    pub shunter: Shunter,
    pub actions: Actions,
    pub standing: Standing,
}

// What a step on bytes answers: as a step, with how many actions were written in place of the actions.
#[derive(Clone, Copy)]
pub struct Sent {
    pub code: u8,
    pub shunter: Shunter,
    pub count: usize,
    pub standing: Standing,
}

// No place and no phase.
pub(crate) fn nowhere() -> Standing
    ensures { result ≡ nowhere }
{
    Standing {
        place: PLACES,
        phase: 0,
    }
}

// No action.
#[tactic(auto, unfolding(unit::specs::Forms::listed))]
pub(crate) fn silence() -> Actions
    ensures { result ≡ listed [] }
{
    let partner = Partner {
        kind: 0,
        high: 0,
        middle: 0,
        low: 0,
    };
    Actions {
        items: [Action { number: 0, partner }; 4],
        count: 0,
    }
}

// One more action, after the others; none where four stand already.
pub(crate) fn with_action(actions: Actions, action: Action) -> Actions
    ensures { (acts : List Action) → length acts < most_actions → actions ≡ listed acts
        → result ≡ listed (acts ++ (action ∷ [])) }
{
    let count = actions.count;
    if count < MOST_ACTIONS {
        let mut items = actions.items;
        items[count] = action;
        Actions {
            items,
            count: count + 1,
        }
    } else {
        actions
    }
}

impl Shunted {
    // A refusal: the state as given, no action.
    #[tactic(auto, unfolding(crate::specs::Shunting::shunted))]
    pub(crate) fn refused(code: u8, standing: Standing, shunter: Shunter) -> Shunted
        ensures { result ≡ shunted (shunt_refused_at code standing shunter) }
    {
        Shunted {
            code,
            shunter,
            actions: silence(),
            standing,
        }
    }
}
