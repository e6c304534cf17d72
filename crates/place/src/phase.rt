// The phases of a held place: their numbers, tries and ranges.
ghost use Rattle.std.specs.Prelude.{◌≡◌};
ghost use Rattle.place.specs.Places.{phase_number, tries, tries_ok, phase_ok, fits_incoming};
ghost use Rattle.place.specs.Table.{with_tries, in_session, not_ending};
ghost use Rattle.place.specs.Cells.{row_number, is_open};

use crate::limits::Limits;
use wire::join::and;

// The phase of a held place, with the tries used; an open one has none.
#[derive(Clone, Copy)]
pub enum Phase {
    Connecting(u8),
    Contacting(u8),
    Open,
    Lost(u8),
    Ending(u8),
}

// The first try in a phase.
pub const FIRST_TRY: u8 = 1;

// Whether so many tries are in their range.
fn tried(tries: u8, limits: Limits) -> bool
    ensures { result ≡ tries_ok limits tries }
{
    and(FIRST_TRY <= tries, tries <= limits.tries)
}

impl Phase {
    // Its number, 1 to 5.
    pub fn number(self) -> u8
        ensures { result ≡ phase_number self }
    {
        match self {
            Phase::Connecting(_) => 1,
            Phase::Contacting(_) => 2,
            Phase::Open => 3,
            Phase::Lost(_) => 4,
            Phase::Ending(_) => 5,
        }
    }

    // The tries used; 0 in Open.
    pub fn tries(self) -> u8
        ensures { result ≡ tries self }
    {
        match self {
            Phase::Connecting(t) | Phase::Contacting(t) | Phase::Lost(t) | Phase::Ending(t) => t,
            Phase::Open => 0,
        }
    }

    // The same phase with other tries.
    pub(crate) fn with_tries(self, t: u8) -> Phase
        ensures { result ≡ with_tries self t }
    {
        match self {
            Phase::Connecting(_) => Phase::Connecting(t),
            Phase::Contacting(_) => Phase::Contacting(t),
            Phase::Open => Phase::Open,
            Phase::Lost(_) => Phase::Lost(t),
            Phase::Ending(_) => Phase::Ending(t),
        }
    }

    // Whether an incoming place may have it.
    pub(crate) fn fits_incoming(self) -> bool
        ensures { result ≡ fits_incoming self }
    {
        matches!(self, Phase::Open | Phase::Lost(_) | Phase::Ending(_))
    }

    // Whether it is a session, open or lost.
    pub(crate) fn in_session(self) -> bool
        ensures { result ≡ in_session self }
    {
        matches!(self, Phase::Open | Phase::Lost(_))
    }

    // Whether an end all closes it.
    pub(crate) fn not_ending(self) -> bool
        ensures { result ≡ not_ending self }
    {
        !matches!(self, Phase::Ending(_))
    }

    // Whether it is Open, which has no tries.
    pub(crate) fn is_open(self) -> bool
        ensures { result ≡ is_open self }
    {
        matches!(self, Phase::Open)
    }

    // Whether the tries used are in their range.
    pub(crate) fn in_range(self, limits: Limits) -> bool
        ensures { result ≡ phase_ok limits self }
    {
        if self.is_open() {
            true
        } else {
            tried(self.tries(), limits)
        }
    }

    // The row of the phase table, which the tries do not change.
    pub(crate) fn row(self) -> usize
        ensures { result ≡ row_number self }
    {
        match self {
            Phase::Connecting(_) => 0,
            Phase::Contacting(_) => 1,
            Phase::Open => 2,
            Phase::Lost(_) => 3,
            Phase::Ending(_) => 4,
        }
    }
}
