#![tactic(auto)]
// The program `explain`: the log on standard input in words.
use std::io;

fn main(rt: HostRuntime) -> io::Result<()> {
    explain_body::explain(&rt, &mut rt.stdin())
}
