// Steps through the log on standard input, with one buffer of 20 bytes for the actions of all records: the records, those refused and the
// actions are counted, and printed with the buffer's bytes as they are. Of a log over 1,048,576 bytes it reads as many.
use crate::engine::{Engine, FLEET};
use crate::lent;
use record::read::length_of;
use std::{fmt, io};
use streams::read_full;
use wire::refusal::ACCEPTED;

// The record that stands first in a log, and what follows it; none where none stands whole.
fn front(log: &[u8]) -> Option<(&[u8], &[u8])> {
    let length = length_of(*log.first()?);
    if length == 0 {
        return None;
    }
    log.split_at_checked(length)
}

// The walk so far: the engine, the records read and refused, and the actions.
#[derive(Clone, Copy)]
struct Walk<E> {
    engine: E,
    read: u64,
    refused: u64,
    sent: u64,
}

impl<E: Engine> Walk<E> {
    // The walk after a record.
    fn after(self, record: &[u8], actions: &mut [u8]) -> Walk<E> {
        let told = self.engine.step(record, actions);
        Walk {
            engine: told.engine,
            read: self.read.wrapping_add(1),
            refused: self.refused.wrapping_add(u64::from(told.code != ACCEPTED)),
            sent: self.sent.wrapping_add(told.count as u64),
        }
    }
}

impl<E> fmt::Display for Walk<E> {
    fn fmt<W: fmt::Write>(&self, f: &mut fmt::Formatter<W>) -> fmt::Result {
        let read = self.read;
        let refused = self.refused;
        let sent = self.sent;
        write!(
            f,
            "read {read:08x} refused {refused:08x} actions {sent:08x}"
        )
    }
}

// The walk over a log: one of so many bytes has no more records.
fn through<E: Engine>(log: &[u8], actions: &mut [u8]) -> Walk<E> {
    let mut so_far = Walk {
        engine: E::start(FLEET),
        read: 0,
        refused: 0,
        sent: 0,
    };
    let mut rest = log;
    for _ in 0..log.len() {
        let Some((record, next)) = front(rest) else {
            break;
        };
        so_far = so_far.after(record, actions);
        rest = next;
    }
    so_far
}

// Steps through what standard input holds, as far as there is room for it.
fn steps_on<E: Engine>(rt: &HostRuntime, room: &mut [u8]) -> io::Result<()> {
    let n = read_full(&mut rt.stdin(), room)?;
    let mut actions = [0u8; 20];
    let end: Walk<E> = through(&room[..n], &mut actions);
    println!(rt; "{end}")?;
    rt.write_all(&actions)
}

// Steps an engine through the log on standard input, from a cold start with X from 1 to 2 and three tries, and prints what is counted.
pub fn print_steps<E: Engine>(rt: &HostRuntime) -> io::Result<()> {
    let mut room = [0u8; 1048576];
    steps_on::<E>(rt, lent(&mut room))
}
