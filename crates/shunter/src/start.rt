// The shunter's cold start.
ghost use Rattle.std.specs.Prelude.{◌≡◌};
ghost use Rattle.shunter.specs.Queues.{cold_shunter};

use crate::queue::Queue;
use crate::state::Shunter;
use place::limits::Limits;
use unit::start::cold_start;

// What a cold start answers: 0 or 13, and the shunter.
#[derive(Clone, Copy)]
pub struct Fitted {
    pub code: u8,
    pub shunter: Shunter,
}

// The box's cold start with nobody waiting; refusal 13 as there, with the box of a refused cold start.
#[tactic(auto, unfolding(crate::specs::Queues::cold_shunter))]
pub fn fit(limits: Limits) -> Fitted
    ensures { result ≡ cold_shunter limits }
{
    let started = cold_start(limits);
    Fitted {
        code: started.code,
        shunter: Shunter {
            state: started.state,
            queue: Queue::none(),
        },
    }
}
