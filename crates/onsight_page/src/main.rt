#![tactic(auto)]
// Prints the table and the diagram of docs/ONSIGHT.md: the On-Sight procedure is stepped in every state with every event. A column is one
// event, or several that are answered alike; where they are not, their cell says so.
use onsight::event::{Area, Event, Mode};
use onsight::procedure::{ACCEPTED, NOT_TAKEN_HERE, STATES, State};
use std::{fmt, io};

// A column of the table.
#[derive(Clone, Copy)]
enum Column {
    Ahead,
    InOs,
    InSbOrPt,
    InAnother,
    Window,
    Start,
    Acknowledgement,
    Expiry,
}

// Every column, in the order of the table.
const COLUMNS: [Column; 8] = [
    Column::Ahead,
    Column::InOs,
    Column::InSbOrPt,
    Column::InAnother,
    Column::Window,
    Column::Start,
    Column::Acknowledgement,
    Column::Expiry,
];

// What is answered to the events of a column: the state that they give, or that none is taken; or they are not answered alike.
#[derive(Clone, Copy, PartialEq, Eq)]
enum Cell {
    Taken(State),
    Refused,
    NotAlike,
}

impl fmt::Display for Column {
    fn fmt<W: fmt::Write>(&self, f: &mut fmt::Formatter<W>) -> fmt::Result {
        f.write_str(match self {
            Column::Ahead => "a profile, the area ahead",
            Column::InOs => "a profile, the area entered, for OS",
            Column::InSbOrPt => "a profile, the area entered, for SB or PT",
            Column::InAnother => "a profile, the area entered, for another mode",
            Column::Window => "front and speed in the window",
            Column::Start => "the safe front passing the start",
            Column::Acknowledgement => "driver acknowledgement",
            Column::Expiry => "timer expiry",
        })
    }
}

impl fmt::Display for Cell {
    fn fmt<W: fmt::Write>(&self, f: &mut fmt::Formatter<W>) -> fmt::Result {
        match self {
            Cell::Taken(state) => write!(f, "{state}"),
            Cell::Refused => write!(f, "no"),
            Cell::NotAlike => write!(f, "not alike"),
        }
    }
}

// What a step on one event answers.
fn told(state: State, event: Event) -> Cell {
    let answer = state.step(event);
    match answer.code {
        ACCEPTED => Cell::Taken(answer.state),
        NOT_TAKEN_HERE => Cell::Refused,
        _ => Cell::NotAlike,
    }
}

fn profile(state: State, area: Area, mode: Mode) -> Cell {
    told(state, Event::Profile { area, mode })
}

impl Cell {
    // The one answer of two, if they are alike.
    fn either(self, other: Cell) -> Cell {
        if self == other { self } else { Cell::NotAlike }
    }
}

// An answer to the profiles of two modes, and of all four.
fn sb_or_pt(state: State, area: Area) -> Cell {
    profile(state, area, Mode::SB).either(profile(state, area, Mode::PT))
}

fn any_mode(state: State, area: Area) -> Cell {
    profile(state, area, Mode::OS)
        .either(profile(state, area, Mode::Another))
        .either(sb_or_pt(state, area))
}

impl Column {
    // The cell of a state.
    fn cell(self, state: State) -> Cell {
        match self {
            Column::Ahead => any_mode(state, Area::Ahead),
            Column::InOs => profile(state, Area::Entered, Mode::OS),
            Column::InSbOrPt => sb_or_pt(state, Area::Entered),
            Column::InAnother => profile(state, Area::Entered, Mode::Another),
            Column::Window => told(state, Event::Window),
            Column::Start => told(state, Event::Start),
            Column::Acknowledgement => told(state, Event::Acknowledgement),
            Column::Expiry => told(state, Event::Expiry),
        }
    }
}

fn heads(rt: &impl Print) -> io::Result<()> {
    print!(rt; "| |")?;
    for column in COLUMNS {
        print!(rt; " {column} |")?;
    }
    println!(rt; " OS in force | service brake |")?;
    println!(rt; "|---|---|---|---|---|---|---|---|---|---|---|")
}

fn flags(rt: &impl Print, state: State) -> io::Result<()> {
    let in_force = if state.os_in_force() { "yes" } else { "no" };
    let brake = if state.service_brake() { "on" } else { "off" };
    println!(rt; " {in_force} | {brake} |")
}

fn row(rt: &impl Print, state: State) -> io::Result<()> {
    print!(rt; "| {state} |")?;
    for column in COLUMNS {
        print!(rt; " {} |", column.cell(state))?;
    }
    flags(rt, state)
}

// The arrows of what a state takes; one that takes nothing is an end.
fn arrows(rt: &impl Print, state: State) -> io::Result<()> {
    for column in COLUMNS {
        let cell = column.cell(state);
        if cell != Cell::Refused {
            println!(rt; "    {state} --> {cell}: {column}")?;
        }
    }
    if COLUMNS.iter().all(|c| c.cell(state) == Cell::Refused) {
        println!(rt; "    {state} --> [*]")?;
    }
    Ok(())
}

// A line for a state in which something is in force.
fn note(rt: &impl Print, state: State) -> io::Result<()> {
    if state.os_in_force() {
        let brake = if state.service_brake() {
            ", service brake on"
        } else {
            ""
        };
        println!(rt; "    {state}: {state}, OS in force{brake}")?;
    }
    Ok(())
}

fn diagram(rt: &impl Print) -> io::Result<()> {
    let fresh = State::fresh();
    println!(rt; "```mermaid\nstateDiagram-v2\n    [*] --> {fresh}")?;
    for state in STATES {
        arrows(rt, state)?;
    }
    for state in STATES {
        note(rt, state)?;
    }
    println!(rt; "```")
}

fn main(rt: HostRuntime) -> io::Result<()> {
    heads(&rt)?;
    for state in STATES {
        row(&rt, state)?;
    }
    println!(rt; "")?;
    diagram(&rt)
}
