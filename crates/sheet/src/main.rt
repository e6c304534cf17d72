#![tactic(auto)]
// The program `sheet`: a log from standard input, its sheet to standard output.
use std::io;

fn main(rt: HostRuntime) -> io::Result<()> {
    sheet_body::sheet(&rt, &mut rt.stdin())
}
