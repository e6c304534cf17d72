#![tactic(auto)]
// The program `sets_steps`: steps of the engine of sets on bytes through the log on standard input, counted.
use sets::state::SetState;
use std::io;

fn main(rt: HostRuntime) -> io::Result<()> {
    walks::steps::print_steps::<SetState>(&rt)
}
