// What `resheftal sets` prints for logs, each after its name.
use crate::pieces::{Pieces, tell_pieces};
use crate::read_after;
use place::limits::Limits;
use std::io;
use streams::buffer;
use tools::both::{Comparing, both_next_text, both_text};

impl Pieces for Comparing {
    fn length(self) -> usize {
        self.length
    }

    fn more(self) -> bool {
        self.more
    }

    fn next(self, log: &[u8], out: &mut [u8]) -> Comparing {
        both_next_text(self, log, out)
    }
}

// Prints what is told of a log, and answers whether it is accepted.
fn compared(
    rt: &HostRuntime,
    name: &str,
    path: &str,
    limits: Limits,
    of_sets: Limits,
) -> io::Result<bool> {
    let mut room = buffer();
    let log = read_after(rt, name, path, &mut room)?;
    let mut out = buffer();
    let first = both_text(limits, of_sets, log, &mut out);
    let told = tell_pieces(rt, first, log, &mut out)?;
    Ok(told.accepted)
}

fn told(rt: &HostRuntime, name: &str, path: &str, limits: Limits) -> io::Result<()> {
    compared(rt, name, path, limits, limits)?;
    Ok(())
}

// Prints what is told where the two engines are started with other limits, so that they differ, and whether that is accepted.
fn told_apart(
    rt: &HostRuntime,
    name: &str,
    path: &str,
    limits: Limits,
    of_sets: Limits,
) -> io::Result<()> {
    let accepted = compared(rt, name, path, limits, of_sets)?;
    rt.println(if accepted { "accepted" } else { "not accepted" })
}

// The same limits with the highest X as the lowest one.
fn narrowed(limits: Limits) -> Limits {
    Limits {
        lowest: limits.highest,
        ..limits
    }
}

// Prints what is told of some logs, with these limits and with bad ones.
pub(crate) fn compare_all(rt: &HostRuntime, limits: Limits, bad: Limits) -> io::Result<()> {
    told(rt, "sets, every set", "six_sets.bin", limits)?;
    told(rt, "sets, four actions", "four_sent.bin", limits)?;
    told(rt, "sets, short", "short_log.bin", limits)?;
    told(rt, "sets, unknown", "unknown_log.bin", limits)?;
    told(rt, "sets, empty", "empty.bin", limits)?;
    told(rt, "sets, no tries", "log.bin", bad)?;
    told_apart(
        rt,
        "unequal, another X",
        "log.bin",
        limits,
        narrowed(limits),
    )?;
    told_apart(
        rt,
        "unequal, another X and no record",
        "empty.bin",
        limits,
        narrowed(limits),
    )?;
    told_apart(
        rt,
        "unequal, a start that is refused",
        "log.bin",
        limits,
        bad,
    )
}
