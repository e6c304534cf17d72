// The run of the engine of sets over a log: that of a machine.
ghost use Rattle.std.specs.Prelude.{◌≡◌};
ghost use Rattle.sets.specs.SixSets.{set_ready};
ghost use Rattle.sets.specs.SetRuns.{set_gives, set_run};

use crate::state::SetState;
use runs::machine::{Applied, Machine};
use runs::run::MachineReport;

impl Machine for SetState {
    ghost ready = { set_ready };

    ghost gives = { set_gives };

    fn is_ready(self) -> bool {
        self.is_sound()
    }

    fn answer(self, bytes: &[u8]) -> Applied<SetState> {
        let answer = self.apply(bytes);
        Applied {
            code: answer.code,
            state: answer.state,
            actions: answer.actions,
        }
    }
}

// Runs over a log with a budget of records: refusal 12 for a log over 1,048,576 bytes, then 11 for a state that is not sound.
pub fn run(state: SetState, log: &[u8], budget: usize) -> MachineReport<SetState>
    ensures { result ≡ set_run state log.now budget }
{
    runs::run::run(state, log, budget)
}
