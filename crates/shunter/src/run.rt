// The run of the shunter over a log: that of a machine, whose totals are of what went out.
ghost use Rattle.std.specs.Prelude.{◌≡◌};
ghost use Rattle.shunter.specs.Queues.{ready};
ghost use Rattle.shunter.specs.ShunterRuns.{shunter_gives, shunter_run};

use crate::state::Shunter;
use runs::machine::{Applied, Machine};
use runs::run::MachineReport;

impl Machine for Shunter {
    ghost ready = { ready };

    ghost gives = { shunter_gives };

    fn is_ready(self) -> bool {
        self.is_ready()
    }

    fn answer(self, bytes: &[u8]) -> Applied<Shunter> {
        let shunted = self.apply(bytes);
        Applied {
            code: shunted.code,
            state: shunted.shunter,
            actions: shunted.actions,
        }
    }
}

// Runs over a log with a budget of records: refusal 12 for a log over 1,048,576 bytes, then 11 for a state that is not sound.
pub fn run(shunter: Shunter, log: &[u8], budget: usize) -> MachineReport<Shunter>
    ensures { result ≡ shunter_run shunter log.now budget }
{
    runs::run::run(shunter, log, budget)
}
