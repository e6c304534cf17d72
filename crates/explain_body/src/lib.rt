#![tactic(auto)]
// The bodies of `show_image` and `show_images` (file stored), of `mend_image` and `mend_images` (file mended), and of `explain` and
// `explains`: a line for each record of a log, which is shown before it is applied, then why the log ends there, the places as they stand,
// and the last known RBC. It cold starts with X from 1 to 2 and three tries, as `sheet` does.
pub mod mended;
mod show;
pub mod stored;
mod words;

use crate::show::{Record, show_answer, show_last, show_places};
use crate::words::{refusal_words, stop_words};
use place::limits::{FLEET_TRIES, Limits};
use record::event::Event;
use record::stop::Stop;
use record::take::{Front, take};
use std::io;
use std::io::Read;
use streams::read_full;
use unit::start::cold_start;
use unit::state::State;
use wire::refusal::Refusal;

// How far the log is explained: the state, the offset reached, and the records read.
#[derive(Clone, Copy)]
struct Walk {
    state: State,
    at: usize,
    read: u64,
}

impl Walk {
    // The last line: the stop in words, with the kind that stands there if one does.
    fn show_stop(self, out: &impl Print, stop: Stop, rest: &[u8]) -> io::Result<()> {
        print!(out; "stop {}: {}", stop.number(), stop_words(stop))?;
        if let Some(kind) = rest.first() {
            print!(out; ", kind {kind}")?;
        }
        println!(out; "; records {}, bytes {}", self.read, self.at)
    }

    // The record of this length at the front of the rest, shown as it was taken and then applied; none where it does not stand whole.
    fn record(
        self,
        out: &impl Print,
        rest: &[u8],
        length: usize,
        reading: Result<Event, Refusal>,
    ) -> io::Result<Option<Walk>> {
        let Some(bytes) = rest.get(..length) else {
            self.show_stop(out, Stop::RecordShort, rest)?;
            return Ok(None);
        };
        let ordinal = self.read.wrapping_add(1);
        let record = Record {
            ordinal,
            at: self.at,
            bytes,
            reading,
        };
        record.show(out)?;
        let answer = self.state.apply(bytes);
        show_answer(out, answer)?;
        Ok(Some(Walk {
            state: answer.state,
            at: self.at.saturating_add(length),
            read: ordinal,
        }))
    }

    // The walk after what stands next; none where the log ends there, or is too long.
    fn next(self, out: &impl Print, log: &[u8]) -> io::Result<Option<Walk>> {
        let rest = log.get(self.at..).unwrap_or(&log[..0]);
        match take(rest) {
            Ok(Front::Next { length, reading }) => return self.record(out, rest, length, reading),
            Ok(Front::Stop(stop)) => self.show_stop(out, stop, rest)?,
            Err(refusal) => {
                let code = refusal.number();
                println!(out; "refused with {code}: {}", refusal_words(code))?
            }
        }
        Ok(None)
    }
}

// The state after a log. One of so many bytes has no more records, and one turn more finds the stop.
fn through(out: &impl Print, log: &[u8]) -> io::Result<State> {
    let start = cold_start(Limits {
        lowest: 1,
        highest: 2,
        tries: FLEET_TRIES,
    });
    let mut so_far = Walk {
        state: start.state,
        at: 0,
        read: 0,
    };
    for _ in 0..=log.len() {
        match so_far.next(out, log)? {
            Some(next) => so_far = next,
            None => break,
        }
    }
    Ok(so_far.state)
}

fn show_all(out: &impl Print, input: &mut impl Read, room: &mut [u8]) -> io::Result<()> {
    let n = read_full(input, room)?;
    let state = through(out, &room[..n])?;
    show_places(out, state)?;
    show_last(out, state.last)
}

// A reference to an array of this length is lent on as a slice with no proof; an array of a million zeros is not.
fn lent(out: &impl Print, input: &mut impl Read, room: &mut [u8; 1048577]) -> io::Result<()> {
    show_all(out, input, room)
}

// Explains the log that an input holds. The room is one byte more than the longest log, so that a longer one is refused, not cut.
pub fn explain(out: &impl Print, input: &mut impl Read) -> io::Result<()> {
    let mut room = [0u8; 1048577];
    lent(out, input, &mut room)
}
