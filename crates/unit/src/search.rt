// The search over the places: it breaks with the number of the place found.
ghost use Rattle.std.specs.Prelude.{◌≡◌, ◌+◌, ◌≤◌, ◌<◌, drop, get_or};
ghost use Rattle.place.specs.Places.{vacant, is_free, holds};
ghost use Rattle.unit.specs.States.{place_count, first, seek, nowhere};

use crate::state::{PLACES, State};
use place::phase::Phase;
use place::place::Place;
use record::partner::Partner;

// What a search over the places answers: the partner's place and phase, else the lowest free place, else that all are taken.
#[derive(Clone, Copy)]
pub enum Found {
    At { place: usize, phase: Phase },
    Vacant(usize),
    Full,
}

// Where a partner stands: the number of its place and that of its phase. In every answer but refusal 5 and a partner's 7: 4 and 0.
#[derive(Clone, Copy)]
pub struct Standing {
    pub place: usize,
    pub phase: u8,
}

impl Standing {
    // No place and no phase.
    pub(crate) fn nowhere() -> Standing
        ensures { result ≡ nowhere }
    {
        Standing {
            place: PLACES,
            phase: 0,
        }
    }
}

impl State {
    // The number of the lowest place from this one on that holds the partner; 4 where none does.
    pub(crate) fn place_from(self, partner: Partner, from: usize) -> usize
        requires { from ≤ place_count }
        ensures { result ≡ from + first (holds partner) (drop from self.places) }
    {
        let mut i = from;
        loop {
            if i >= PLACES {
                break PLACES;
            }
            let place = self.places[i];
            if place.holds(partner) {
                break i;
            }
            i += 1;
        }
    }

    // The number of the lowest free place; 4 where none is free.
    fn lowest_free(self) -> usize
        ensures { result ≡ first is_free self.places }
    {
        let mut i = 0;
        loop {
            if i >= PLACES {
                break PLACES;
            }
            let place = self.places[i];
            if place.is_free() {
                break i;
            }
            i += 1;
        }
    }

    // The place with this number; an index that the compiler does not know makes it copy all four.
    pub(crate) fn place_at(self, at: usize) -> Place
        requires { at < place_count }
        ensures { result ≡ get_or self.places at vacant }
    {
        match at {
            0 => self.places[0],
            1 => self.places[1],
            2 => self.places[2],
            _ => self.places[3],
        }
    }

    // The place and the phase of a partner, else the lowest free place, else that all are taken.
    pub(crate) fn seek(self, partner: Partner) -> Found
        ensures { result ≡ seek partner self.places }
    {
        let held = self.place_from(partner, 0);
        if held < PLACES {
            let place = self.place_at(held);
            return Found::At {
                place: held,
                phase: place.held_phase(),
            };
        }
        let free = self.lowest_free();
        if free < PLACES {
            return Found::Vacant(free);
        }
        Found::Full
    }
}
