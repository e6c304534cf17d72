// The names of the six sets, and where a partner stands.
ghost use Rattle.std.specs.Prelude.{◌≡◌};
ghost use Rattle.sets.specs.SixSets.{phase_in, tries_in, fits_in};
ghost use Rattle.sets.specs.SetSteps.{in_sessions};

use place::limits::Limits;
use place::phase::FIRST_TRY;
use place::place::Direction;

// The six sets: of those that are called, that are contacted, that are in session by their own call or by ours, whose connection is lost,
// and whose session is being terminated.
#[derive(Clone, Copy)]
pub enum SetName {
    Calling,
    Contacted,
    IncomingSessions,
    OutgoingSessions,
    LostSessions,
    TerminatingSessions,
}

// The tries of a member in session.
pub const SESSION_TRIES: u8 = 0;

// The phases' numbers, as the box has them.
const CONNECTING: u8 = 1;

const CONTACTING: u8 = 2;

const OPEN: u8 = 3;

const LOST: u8 = 4;

const ENDING: u8 = 5;

impl SetName {
    // The six names, in the order in which the sets are asked.
    pub(crate) const ALL: [SetName; 6] = [
        SetName::Calling,
        SetName::Contacted,
        SetName::IncomingSessions,
        SetName::OutgoingSessions,
        SetName::LostSessions,
        SetName::TerminatingSessions,
    ];

    // The number of the phase that its members are in.
    pub(crate) fn phase(self) -> u8
        ensures { result ≡ phase_in self }
    {
        match self {
            SetName::Calling => CONNECTING,
            SetName::Contacted => CONTACTING,
            SetName::IncomingSessions | SetName::OutgoingSessions => OPEN,
            SetName::LostSessions => LOST,
            SetName::TerminatingSessions => ENDING,
        }
    }

    // Whether an order to an RBC that does not accept them can end what its members have: a session, lost or not.
    pub(crate) fn in_sessions(self) -> bool
        ensures { result ≡ in_sessions self }
    {
        matches!(
            self,
            SetName::IncomingSessions | SetName::OutgoingSessions | SetName::LostSessions
        )
    }

    // Whether a member may have so many tries.
    pub(crate) fn allows_tries(self, tries: u8, limits: Limits) -> bool
        ensures { result ≡ tries_in limits self tries }
    {
        match self {
            SetName::IncomingSessions | SetName::OutgoingSessions => tries == SESSION_TRIES,
            SetName::Calling
            | SetName::Contacted
            | SetName::LostSessions
            | SetName::TerminatingSessions => (FIRST_TRY <= tries) & (tries <= limits.tries),
        }
    }

    // Whether a member may have this direction.
    pub(crate) fn allows(self, direction: Direction) -> bool
        ensures { result ≡ fits_in self direction }
    {
        match self {
            SetName::Calling | SetName::Contacted | SetName::OutgoingSessions => {
                matches!(direction, Direction::Outgoing)
            }
            SetName::IncomingSessions => matches!(direction, Direction::Incoming),
            SetName::LostSessions | SetName::TerminatingSessions => true,
        }
    }
}
