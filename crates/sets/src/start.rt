// The cold start of the engine of sets.
ghost use Rattle.std.specs.Prelude.{◌≡◌};
ghost use Rattle.sets.specs.SixSets.{set_start};

use crate::six::SixSets;
use crate::state::SetState;
use place::limits::Limits;
use unit::start::cold_start;

// What a cold start answers: 0 or 13, and the state.
#[derive(Clone, Copy)]
pub struct SetStarted {
    pub code: u8,
    pub state: SetState,
}

// The box's cold start, with six empty sets; refusal 13 as there, with the fields of a refused cold start.
pub fn set_start(limits: Limits) -> SetStarted
    ensures { result ≡ set_start limits }
{
    let started = cold_start(limits);
    let state = started.state;
    SetStarted {
        code: started.code,
        state: SetState {
            limits: state.limits,
            train: state.train,
            marks: state.marks,
            sets: SixSets::none(),
            last: state.last,
        },
    }
}
