// The state of the shunter: the box's, and the queue; a place that is held and does not wait has a modem.
ghost use Rattle.std.specs.Prelude.{◌≡◌, ◌<◌};
ghost use Rattle.wire.specs.Bytes.{as_bit};
ghost use Rattle.unit.specs.States.{first};
ghost use Rattle.place.specs.Places.{is_free};
ghost use Rattle.shunter.specs.Queues.{no_place, place_at, waiting, just_ordered, has_modem, modems_held};
ghost use Rattle.shunter.specs.Queues.{rules_hold, ready};
ghost use Rattle.shunter.specs.Shunting.{waits_for};

use crate::queue::{MODEMS, NO_PLACE, Queue};
use place::phase::{FIRST_TRY, Phase};
use place::place::{Direction, Holding, Place};
use record::partner::Partner;
use unit::state::State;

// All that the shunter remembers.
#[derive(Clone, Copy)]
pub struct Shunter {
    pub state: State,
    pub queue: Queue,
}

// The place with this number; past the last a free one.
pub(crate) fn place_at(state: State, at: usize) -> Place
    ensures { result ≡ place_at state.places at }
{
    state.places.get(at).copied().unwrap_or(Place::free())
}

// The number of the lowest free place; 4 where none is free.
pub(crate) fn lowest_free(state: State) -> usize
    ensures { result ≡ first is_free state.places }
{
    for at in 0..NO_PLACE {
        if state.places[at].is_free() {
            return at;
        }
    }
    NO_PLACE
}

// Whether a place is as its order left it: Connecting, outgoing, one try.
fn just_ordered(place: Place) -> bool
    ensures { result ≡ just_ordered place }
{
    matches!(
        place.holding,
        Holding::Held {
            direction: Direction::Outgoing,
            phase: Phase::Connecting(FIRST_TRY),
            ..
        }
    )
}

impl Shunter {
    // 1 where a place is held and does not wait.
    fn modem_at(self, at: usize) -> usize
        requires { at < no_place }
        ensures { result ≡ as_bit (has_modem self.state.places (waiting self.queue) at) }
    {
        usize::from(!place_at(self.state, at).is_free() & !self.queue.has(at))
    }

    // How many modems are held.
    pub(crate) fn modems(self) -> usize
        ensures { result ≡ modems_held self.state.places (waiting self.queue) }
    {
        let mut held = 0;
        for at in 0..NO_PLACE {
            held += self.modem_at(at);
        }
        held
    }

    // Whether the rules of the queue and of the holding hold.
    pub(crate) fn rules_hold(self) -> bool
        ensures { result ≡ rules_hold self.state.places self.queue }
    {
        let held = self.modems();
        let Queue { first, second } = self.queue;
        if first == NO_PLACE {
            return (second == NO_PLACE) & (held <= MODEMS);
        }
        let front = just_ordered(place_at(self.state, first));
        if second == NO_PLACE {
            return front & (held == MODEMS);
        }
        let behind = just_ordered(place_at(self.state, second));
        (front & behind) & ((first != second) & (held == MODEMS))
    }

    // Whether the state is sound: the box's, the queue and the holding.
    #[tactic(auto, unfolding(crate::specs::Queues::ready))]
    pub fn is_ready(self) -> bool
        ensures { result ≡ ready self }
    {
        self.state.is_sound() & self.rules_hold()
    }

    // Whether this partner waits.
    pub(crate) fn waits(self, partner: Partner) -> bool
        ensures { result ≡ waits_for self.state.places (waiting self.queue) partner }
    {
        let Queue { first, second } = self.queue;
        place_at(self.state, first).holds(partner) | place_at(self.state, second).holds(partner)
    }
}
