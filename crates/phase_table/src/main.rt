#![tactic(auto)]
// Prints the phase table and the diagram of docs/PHASES.md. The box is stepped on the record of each event, with its partner in each
// phase: with the first of n tries used and with all of them, with a version that is supported and one that is not. All that is printed
// beside the words for phases and events is told from the answers:
//   no       all are refused with 7
//   close    in every phase the event sends and leaves what an end all does
//   judge    the answer depends on the version
//   21       the answer depends on the tries; so alone stands the action sent where some are left
//   else     the actions sent, and the phase with its tries or "free"
mod asked;
mod words;

use crate::asked::{COLUMNS, Heard, ROWS, Row, Said, hear, order};
use crate::words::{End, print_actions, print_said};
use place::place::Place;
use std::io;

fn print_cell(out: &impl Print, row: Row, heard: Heard) -> io::Result<()> {
    let cell = row.answers(heard);
    if cell.is_refused() {
        return print!(out; " no |");
    }
    if heard.closes() {
        return print!(out; " close |");
    }
    if cell.judges() {
        return print!(out; " judge |");
    }
    print!(out; " ")?;
    if cell.counts() {
        print!(out; "{}", cell.early.first)?;
    } else {
        print_said(out, cell.early)?;
    }
    print!(out; " |")
}

fn heads(out: &impl Print) -> io::Result<()> {
    print!(out; "| |")?;
    for heard in COLUMNS {
        print!(out; " {heard} |")?;
    }
    println!(out; "\n|---|---|---|---|---|---|---|")
}

fn print_row(out: &impl Print, row: Row) -> io::Result<()> {
    print!(out; "| {} |", End(row.early()))?;
    for heard in COLUMNS {
        print_cell(out, row, heard)?;
    }
    println!(out; "")
}

// The front of an arrow, up to its event.
fn begin_arrow(out: &impl Print, from: Place, said: Said) -> io::Result<()> {
    print!(out; "    {} --> {}: ", End(from), End(said.place))
}

fn end_arrow(out: &impl Print, said: Said) -> io::Result<()> {
    print_actions(out, said, " / ", " ")?;
    println!(out; "")
}

// An arrow of an event, with these words after it.
fn arrow(out: &impl Print, from: Place, heard: Heard, said: Said, words: &str) -> io::Result<()> {
    begin_arrow(out, from, said)?;
    print!(out; "{heard}{words}")?;
    end_arrow(out, said)
}

// The arrow of an event in a phase, or the two where the answer depends on the version or the tries; none where it is refused.
fn arrows(out: &impl Print, row: Row, heard: Heard) -> io::Result<()> {
    let cell = row.answers(heard);
    let from = row.early();
    if cell.is_refused() {
        return Ok(());
    }
    if cell.judges() {
        arrow(out, from, heard, cell.early, ", X supported")?;
        return arrow(out, from, heard, cell.other, ", X not supported");
    }
    if cell.counts() {
        arrow(out, from, heard, cell.early, ", tries under n")?;
        return arrow(out, from, heard, cell.late, ", tries n");
    }
    arrow(out, from, heard, cell.early, "")
}

// The arrows into a place: an order, and a call.
fn entries(out: &impl Print) -> io::Result<()> {
    let ordered = order(Place::free());
    begin_arrow(out, Place::free(), ordered)?;
    print!(out; "order")?;
    end_arrow(out, ordered)?;
    let called = hear(Place::free(), Heard::Call);
    begin_arrow(out, Place::free(), called)?;
    print!(out; "call {}", Heard::Call)?;
    end_arrow(out, called)
}

fn main(rt: HostRuntime) -> io::Result<()> {
    heads(&rt)?;
    for row in ROWS {
        print_row(&rt, row)?;
    }
    println!(rt; "```mermaid\nstateDiagram-v2")?;
    entries(&rt)?;
    for row in ROWS {
        for heard in COLUMNS {
            arrows(&rt, row, heard)?;
        }
    }
    println!(rt; "```")
}
