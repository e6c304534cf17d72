// Places: free, or a partner with its direction and phase.
ghost use Rattle.std.specs.Prelude.{◌≡◌};
ghost use Rattle.place.specs.Places.{direction_number, vacant, seat, is_free, partner_of, held_phase, holds, fits, place_ok};
ghost use Rattle.place.specs.Table.{in_phase, place_after, closes};

use crate::limits::Limits;
use crate::phase::Phase;
use crate::turn::{Closing, Turn};
use record::partner::Partner;
use wire::join::and;

// Who made the connection: the box, or the partner by a call.
#[derive(Clone, Copy)]
pub enum Direction {
    Outgoing,
    Incoming,
}

// Free, or a partner with its direction and phase.
#[derive(Clone, Copy)]
pub enum Holding {
    Free,
    Held {
        direction: Direction,
        phase: Phase,
        partner: Partner,
    },
}

// One of the four places.
#[derive(Clone, Copy)]
pub struct Place {
    pub holding: Holding,
}

impl Direction {
    // Its number: 0 outgoing, 1 incoming.
    pub fn number(self) -> u8
        ensures { result ≡ direction_number self }
    {
        match self {
            Direction::Outgoing => 0,
            Direction::Incoming => 1,
        }
    }

    // Whether a place with this phase and partner may have it.
    fn fits(self, phase: Phase, partner: Partner) -> bool
        ensures { result ≡ fits self phase partner }
    {
        match self {
            Direction::Outgoing => true,
            Direction::Incoming => and(partner.is_rbc(), phase.fits_incoming()),
        }
    }
}

impl Closing {
    // Whether a place with this phase and partner is to be closed.
    pub(crate) fn closes(self, phase: Phase, partner: Partner) -> bool
        ensures { result ≡ closes self phase partner }
    {
        match self {
            Closing::Every => phase.not_ending(),
            Closing::Sessions => and(partner.is_rbc(), phase.in_session()),
            Closing::Nothing => false,
        }
    }
}

impl Place {
    // A free place.
    pub fn free() -> Place
        ensures { result ≡ vacant }
    {
        Place {
            holding: Holding::Free,
        }
    }

    // A place that holds this partner.
    pub fn held(direction: Direction, phase: Phase, partner: Partner) -> Place
        ensures { result ≡ seat direction phase partner }
    {
        Place {
            holding: Holding::Held {
                direction,
                phase,
                partner,
            },
        }
    }

    // Whether it is free.
    pub fn is_free(self) -> bool
        ensures { result ≡ is_free self }
    {
        match self.holding {
            Holding::Free => true,
            Holding::Held { .. } => false,
        }
    }

    // The partner that it holds; all zeros where it is free.
    pub fn partner(self) -> Partner
        ensures { result ≡ partner_of self }
    {
        match self.holding {
            Holding::Free => Partner {
                kind: 0,
                high: 0,
                middle: 0,
                low: 0,
            },
            Holding::Held { partner, .. } => partner,
        }
    }

    // The phase of its partner; Open where it is free.
    pub fn held_phase(self) -> Phase
        ensures { result ≡ held_phase self }
    {
        match self.holding {
            Holding::Free => Phase::Open,
            Holding::Held { phase, .. } => phase,
        }
    }

    // Whether it holds this partner.
    pub fn holds(self, partner: Partner) -> bool
        ensures { result ≡ holds partner self }
    {
        match self.holding {
            Holding::Free => false,
            Holding::Held { partner: other, .. } => partner.same(other),
        }
    }

    // Whether it is sound by itself: its tries by the limits, its partner one that may have a place.
    pub fn is_sound(self, limits: Limits) -> bool
        ensures { result ≡ place_ok limits self }
    {
        match self.holding {
            Holding::Free => true,
            Holding::Held {
                direction,
                phase,
                partner,
            } => {
                if partner.can_be_named() {
                    if phase.in_range(limits) {
                        direction.fits(phase, partner)
                    } else {
                        false
                    }
                } else {
                    false
                }
            }
        }
    }

    // The same place in another phase; a free one stays free.
    fn in_phase(self, next: Phase) -> Place
        ensures { result ≡ in_phase self.holding next }
    {
        match self.holding {
            Holding::Free => Place::free(),
            Holding::Held {
                direction,
                partner,
                ..
            } => Place::held(direction, next, partner),
        }
    }

    // The place after a turn; its direction and partner stay while it is held.
    pub fn after(self, turn: Turn) -> Place
        ensures { result ≡ place_after self turn }
    {
        match turn {
            Turn::Stays => self,
            Turn::Released => Place::free(),
            Turn::Becomes(phase) | Turn::Sends { phase, .. } | Turn::SendsBoth { phase, .. } => {
                self.in_phase(phase)
            }
        }
    }
}
