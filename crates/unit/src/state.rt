// The state of the box: what it remembers, and whether that is sound.
ghost use Rattle.std.specs.Prelude.{◌≡◌, ◌+◌, ◌<◌, drop, get_or};
ghost use Rattle.place.specs.Places.{vacant};
ghost use Rattle.unit.specs.States.{place_count, limits_ok, train_ok, marks_ok, absent_from, places_ok, sound};

use crate::last::Last;
use place::limits::{Limits, MOST_TRIES};
use place::phase::FIRST_TRY;
use place::place::{Holding, Place};
use wire::join::{and, negated};

// Four places, 0 to 3.
pub const PLACES: usize = 4;

// The largest X, level and mission.
const HIGHEST_X: u8 = 7;

const HIGHEST_LEVEL: u64 = record::read::HIGHEST_LEVEL as u64;

const HIGHEST_MISSION: u64 = record::read::HIGHEST_MISSION as u64;

// Mission 0, ended.
pub const MISSION_ENDED: u64 = 0;

// The level and the mission, as wide as in an event.
#[derive(Clone, Copy)]
pub struct Train {
    pub level: u64,
    pub mission: u64,
}

// The four marks: inside a radio hole, mode change to report, manual level change, hole end.
#[derive(Clone, Copy)]
pub struct Marks {
    pub inside: bool,
    pub mode: bool,
    pub manual: bool,
    pub end: bool,
}

// All that the box remembers.
#[derive(Clone, Copy)]
pub struct State {
    pub limits: Limits,
    pub train: Train,
    pub marks: Marks,
    pub places: [Place; 4],
    pub last: Last,
}

// Whether the X numbers and the number of tries are in their ranges.
pub fn limits_ok(limits: Limits) -> bool
    ensures { result ≡ limits_ok limits }
{
    and(
        limits.lowest <= limits.highest,
        and(
            limits.highest <= HIGHEST_X,
            and(FIRST_TRY <= limits.tries, limits.tries <= MOST_TRIES),
        ),
    )
}

pub fn train_ok(train: Train) -> bool
    ensures { result ≡ train_ok train }
{
    and(
        train.level <= HIGHEST_LEVEL,
        train.mission <= HIGHEST_MISSION,
    )
}

pub fn marks_ok(marks: Marks) -> bool
    ensures { result ≡ marks_ok marks }
{
    negated(and(marks.inside, marks.end))
}

impl State {
    // Whether no higher place holds the partner of this one.
    fn absent_above(self, i: usize) -> bool
        requires { i < place_count }
        ensures { result ≡ absent_from (drop (i + 1) self.places) (get_or self.places i vacant).holding }
    {
        match self.places[i].holding {
            Holding::Free => true,
            Holding::Held { partner, .. } => self.place_from(partner, i + 1) >= PLACES,
        }
    }

    // Whether each place is sound by itself and no partner has two.
    fn places_ok(self) -> bool
        ensures { result ≡ places_ok self.limits self.places }
    {
        for i in 0..PLACES {
            if !self.places[i].is_sound(self.limits) {
                return false;
            }
            if !self.absent_above(i) {
                return false;
            }
        }
        true
    }

    // Whether the state is sound.
    pub fn is_sound(self) -> bool
        ensures { result ≡ sound self }
    {
        if !limits_ok(self.limits) {
            return false;
        }
        if !train_ok(self.train) {
            return false;
        }
        if !marks_ok(self.marks) {
            return false;
        }
        self.last.is_sound() && self.places_ok()
    }
}
