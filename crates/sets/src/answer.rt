// What the engine of sets answers, and the actions of one step, gathered.
ghost use Rattle.std.specs.Prelude.{◌≡◌, List, [], ◌∷◌, ◌++◌, ◌<◌, ◌≤◌, ◌+◌};
ghost use Rattle.unit.specs.Forms.{most_actions, listed};
ghost use Rattle.unit.specs.Steps.{act};
ghost use Rattle.unit.specs.declared.answer.Action.{Action};
ghost use Rattle.wire.specs.Refusals.{number};
ghost use Rattle.sets.specs.Members.{members_of};
ghost use Rattle.sets.specs.SetSteps.{set_refused_at, set_done, sent_all};
ghost use Rattle.sets.specs.OnSets.{set_listed};
ghost use Rattle.sets.specs.Holding.{sent_so_far, neat};

use crate::members::Members;
use crate::state::SetState;
use record::partner::Partner;
use unit::answer::{Action, Actions};
use wire::refusal::{ACCEPTED, Refusal};

// What a step answers: 0 or the number of the refusal, the next state, the actions, and the number of the partner's phase if that is said.
#[derive(Clone, Copy)]
pub struct SetAnswer {
    pub code: u8,
    pub state: SetState,
    pub actions: Actions,
    pub phase: u8,
}

// What a step on bytes answers: as a step, with how many actions were written in place of the actions.
#[derive(Clone, Copy)]
pub struct SetStepped {
    pub code: u8,
    pub state: SetState,
    pub count: usize,
    pub phase: u8,
}

// No action.
pub(crate) fn no_actions() -> Actions
    ensures { result ≡ listed [] }
{
    let partner = Partner {
        kind: 0,
        high: 0,
        middle: 0,
        low: 0,
    };
    Actions {
        items: [Action { number: 0, partner }; 4],
        count: 0,
    }
}

// One more action, after the others.
pub(crate) fn send(actions: Actions, partner: Partner, number: u8) -> Actions
    requires { (neat actions) × (actions.count < most_actions) }
    ensures { result ≡ listed (sent_so_far actions ++ (act partner number ∷ [])) }
{
    let count = actions.count;
    let mut items = actions.items;
    items[count] = Action { number, partner };
    Actions {
        items,
        count: count + 1,
    }
}

// An action of this number for each member of a set, after the others.
pub(crate) fn send_all(actions: Actions, members: Members, number: u8) -> Actions
    requires { (neat actions) × (actions.count + members.count ≤ most_actions) }
    ensures { result ≡ listed (sent_so_far actions ++ sent_all number (members_of members)) }
{
    let mut sent = actions;
    for member in members.held() {
        sent = send(sent, member.partner, number);
    }
    sent
}

impl SetAnswer {
    // A refusal: the state as given, no action.
    #[tactic(auto, unfolding(crate::specs::OnSets::set_listed))]
    pub(crate) fn refused(refusal: Refusal, phase: u8, state: SetState) -> SetAnswer
        ensures { result ≡ set_listed (set_refused_at (number refusal) phase state) }
    {
        SetAnswer {
            code: refusal.number(),
            state,
            actions: no_actions(),
            phase,
        }
    }

    // An accepted step.
    #[tactic(auto, unfolding(crate::specs::OnSets::set_listed))]
    pub(crate) fn done(state: SetState, actions: Actions) -> SetAnswer
        ensures { (acts : List Action) → actions ≡ listed acts → result ≡ set_listed (set_done state acts) }
    {
        SetAnswer {
            code: ACCEPTED,
            state,
            actions,
            phase: 0,
        }
    }
}
