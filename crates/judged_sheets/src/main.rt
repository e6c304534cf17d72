#![tactic(auto)]
// What `resheftal` prints for sheets that it judges, for logs that it makes sheets and marks of, gives to the shunter or runs through both
// engines, and for states that it looks up, each after its name; and what differs in pairs of states and answers made by hand.
mod both;
mod by_hand;
mod long;
mod pieces;
mod shunting;
mod unequal;
mod unequal_answers;

use crate::both::compare_all;
use crate::long::mark_all;
use crate::shunting::shunt_all;
use crate::unequal::compare_pairs;
use crate::unequal_answers::compare_all_answers;
use judge::produce::produce;
use place::limits::{DEFAULT_TRIES, FLEET_TRIES, Limits};
use std::io;
use streams::files::open_read;
use streams::{buffer, fail, read_full};
use tools::judged::judge_text;
use tools::made::produce_text;
use tools::started::{FLEET_HIGHEST, FLEET_LOWEST};

// The limits of the fitted fleets, but with so many tries.
fn with_tries(tries: u8) -> Limits {
    Limits {
        lowest: FLEET_LOWEST,
        highest: FLEET_HIGHEST,
        tries,
    }
}

// The first n bytes, or all where there are fewer.
pub(crate) fn front(room: &[u8], n: usize) -> &[u8] {
    room.get(..n).unwrap_or(room)
}

// What a file holds, as far as it has room; that it cannot be opened is told on standard error, and it holds nothing.
pub(crate) fn read<'a>(rt: &HostRuntime, path: &str, room: &'a mut [u8]) -> io::Result<&'a [u8]> {
    let n = match open_read(rt, path.as_bytes()) {
        Ok(mut file) => read_full(&mut file, room)?,
        Err(error) => {
            fail(&rt.stderr(), path.as_bytes(), error)?;
            0
        }
    };
    Ok(&room[..n])
}

// Reads a file, after its name.
pub(crate) fn read_after<'a>(
    rt: &HostRuntime,
    name: &str,
    path: &str,
    room: &'a mut [u8],
) -> io::Result<&'a [u8]> {
    println!(rt; "{name}")?;
    read(rt, path, room)
}

fn judged(rt: &HostRuntime, name: &str, path: &str, limits: Limits) -> io::Result<()> {
    let mut room = buffer();
    let sheet = read_after(rt, name, path, &mut room)?;
    let mut out = buffer();
    let told = judge_text(limits, sheet, &mut out);
    rt.write_all(front(&out, told.length))
}

// Makes the sheet of a log, and judges it.
fn made(rt: &HostRuntime, name: &str, path: &str, limits: Limits) -> io::Result<()> {
    let mut room = buffer();
    let log = read_after(rt, name, path, &mut room)?;
    let mut sheet = buffer();
    let answer = produce(limits, log, &mut sheet);
    let mut out = buffer();
    let length = produce_text(limits, log, answer, &mut out);
    rt.write_all(front(&out, length))?;
    let told = judge_text(limits, front(&sheet, answer.written), &mut out);
    rt.write_all(front(&out, told.length))
}

fn judge_all(rt: &HostRuntime, fleet: Limits) -> io::Result<()> {
    judged(rt, "accepted", "accepted.bin", fleet)?;
    judged(rt, "empty", "empty.bin", fleet)?;
    judged(rt, "answer", "answer.bin", fleet)?;
    judged(rt, "action", "action.bin", fleet)?;
    judged(rt, "gap", "gap.bin", fleet)?;
    judged(rt, "short", "short.bin", fleet)?;
    judged(rt, "cut", "cut.bin", fleet)?;
    judged(rt, "end", "end.bin", fleet)?;
    judged(rt, "unknown", "unknown.bin", fleet)?;
    judged(rt, "log", "log.bin", fleet)?;
    judged(rt, "printed", "printed.txt", fleet)
}

fn main(rt: HostRuntime) -> io::Result<()> {
    let fleet = with_tries(FLEET_TRIES);
    judge_all(&rt, fleet)?;
    judged(&rt, "no tries", "accepted.bin", with_tries(0))?;
    judged(
        &rt,
        "five tries",
        "five_tries.bin",
        with_tries(DEFAULT_TRIES),
    )?;
    judged(&rt, "five tries of three", "five_tries.bin", fleet)?;
    made(&rt, "made", "log.bin", fleet)?;
    made(&rt, "made, short", "short_log.bin", fleet)?;
    made(&rt, "made, unknown", "unknown_log.bin", fleet)?;
    made(&rt, "made, no tries", "log.bin", with_tries(0))?;
    mark_all(&rt, fleet, with_tries(0))?;
    shunt_all(&rt, fleet, with_tries(0))?;
    compare_all(&rt, fleet, with_tries(0))?;
    compare_pairs(&rt)?;
    compare_all_answers(&rt)
}
