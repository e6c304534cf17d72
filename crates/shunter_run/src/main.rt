#![tactic(auto)]
// The program `shunter_run`: what a run of the shunter over the log on standard input answers.
use shunter::state::Shunter;
use std::io;

fn main(rt: HostRuntime) -> io::Result<()> {
    walks::run::print_run::<Shunter>(&rt)
}
