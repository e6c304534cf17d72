// A run over the log on standard input, with a budget that no log uses up: what it answers is printed.
use crate::engine::{Counted, Engine, FLEET};
use crate::lent;
use std::{fmt, io};
use streams::read_full;

impl fmt::Display for Counted {
    fn fmt<W: fmt::Write>(&self, f: &mut fmt::Formatter<W>) -> fmt::Result {
        let totals = self.totals;
        write!(
            f,
            "code {} stop {} offset {}",
            self.code, self.stop, self.offset
        )?;
        write!(f, " read {} refused {} totals", self.read, self.refused)?;
        write!(
            f,
            " {} {} {}",
            totals.request, totals.release, totals.incompatible
        )?;
        write!(
            f,
            " {} {} {}",
            totals.initiate, totals.terminate, totals.established
        )
    }
}

// Apart from the run, so that the printing takes no register from its loop.
#[inline(never)]
fn print(out: &impl Print, counted: Counted) -> io::Result<()> {
    println!(out; "{counted}")
}

// Runs over what standard input holds, as far as there is room for it.
fn run_on<E: Engine>(rt: &HostRuntime, room: &mut [u8]) -> io::Result<()> {
    let n = read_full(&mut rt.stdin(), room)?;
    print(rt, E::start(FLEET).run(&room[..n], usize::MAX))
}

// Prints what a run of an engine over the log on standard input answers, from a cold start with X from 1 to 2 and three tries. The room is
// one byte more than the longest log, so that a longer one is refused and not cut.
pub fn print_run<E: Engine>(rt: &HostRuntime) -> io::Result<()> {
    let mut room = [0u8; 1048577];
    run_on::<E>(rt, lent(&mut room))
}
