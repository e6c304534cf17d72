#![tactic(auto)]
// The program `sets_run`: what a run of the engine of sets over the log on standard input answers.
use sets::state::SetState;
use std::io;

fn main(rt: HostRuntime) -> io::Result<()> {
    walks::run::print_run::<SetState>(&rt)
}
