#![tactic(auto)]
// The program `report`: what a run over the log on standard input answers.
use std::io;
use unit::state::State;

fn main(rt: HostRuntime) -> io::Result<()> {
    walks::run::print_run::<State>(&rt)
}
