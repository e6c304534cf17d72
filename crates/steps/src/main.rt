#![tactic(auto)]
// The program `steps`: steps on bytes through the log on standard input, counted.
use std::io;
use unit::state::State;

fn main(rt: HostRuntime) -> io::Result<()> {
    walks::steps::print_steps::<State>(&rt)
}
