#![tactic(auto)]
// The program `shunter_steps`: steps of the shunter on bytes through the log on standard input, counted.
use shunter::state::Shunter;
use std::io;

fn main(rt: HostRuntime) -> io::Result<()> {
    walks::steps::print_steps::<Shunter>(&rt)
}
