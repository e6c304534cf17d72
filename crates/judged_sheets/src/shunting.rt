// What `resheftal shunter` prints for logs, each after its name.
use crate::pieces::{Pieces, tell_pieces};
use crate::read_after;
use place::limits::Limits;
use std::io;
use streams::buffer;
use tools::shunted::{Telling, shunter_next_text, shunter_text};

impl Pieces for Telling {
    fn length(self) -> usize {
        self.length
    }

    fn more(self) -> bool {
        self.more
    }

    fn next(self, log: &[u8], out: &mut [u8]) -> Telling {
        shunter_next_text(self, log, out)
    }
}

fn shunted(rt: &HostRuntime, name: &str, path: &str, limits: Limits) -> io::Result<()> {
    let mut room = buffer();
    let log = read_after(rt, name, path, &mut room)?;
    let mut out = buffer();
    let first = shunter_text(limits, log, &mut out);
    tell_pieces(rt, first, log, &mut out)?;
    Ok(())
}

// Prints what is told of some logs, with these limits and with bad ones.
pub(crate) fn shunt_all(rt: &HostRuntime, limits: Limits, bad: Limits) -> io::Result<()> {
    shunted(rt, "shunter, three partners", "three_partners.bin", limits)?;
    shunted(rt, "shunter, four actions", "four_sent.bin", limits)?;
    shunted(rt, "shunter, short", "short_log.bin", limits)?;
    shunted(rt, "shunter, unknown", "unknown_log.bin", limits)?;
    shunted(rt, "shunter, empty", "empty.bin", limits)?;
    shunted(rt, "shunter, no tries", "log.bin", bad)
}
