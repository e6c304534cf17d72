#![tactic(auto)]
// Runs the On-Sight procedure in every state with every event, and prints the whole table.
use onsight::event::{Area, Event, Mode};
use onsight::procedure::{STATES, State};
use std::io;

// A profile with an On-Sight area.
fn profile(area: Area, mode: Mode) -> Event {
    Event::Profile { area, mode }
}

// Every event, the profiles first.
fn events() -> [Event; 12] {
    [
        profile(Area::Ahead, Mode::OS),
        profile(Area::Ahead, Mode::SB),
        profile(Area::Ahead, Mode::PT),
        profile(Area::Ahead, Mode::Another),
        profile(Area::Entered, Mode::OS),
        profile(Area::Entered, Mode::SB),
        profile(Area::Entered, Mode::PT),
        profile(Area::Entered, Mode::Another),
        Event::Window,
        Event::Start,
        Event::Acknowledgement,
        Event::Expiry,
    ]
}

fn flag_word(on: bool) -> &'static str {
    if on { "yes" } else { "no" }
}

// What is in force and braking in a state, and the end of its line.
fn print_flags(rt: &impl Print, state: State) -> io::Result<()> {
    let in_force = flag_word(state.os_in_force());
    let brake = flag_word(state.service_brake());
    println!(rt; " {in_force} {brake}")
}

fn state_line(rt: &impl Print, state: State) -> io::Result<()> {
    print!(rt; "{state} {}", state.number())?;
    print_flags(rt, state)
}

fn event_line(rt: &impl Print, event: Event) -> io::Result<()> {
    print!(rt; "{event} {}", event.number())?;
    if let Event::Profile { area, mode } = event {
        print!(rt; " {} {}", area.number(), mode.number())?;
    }
    println!(rt; "")
}

fn step_line(rt: &impl Print, state: State, event: Event) -> io::Result<()> {
    let answer = state.step(event);
    print!(rt; "{state} {event} {} {}", answer.code, answer.state)?;
    print_flags(rt, answer.state)
}

fn main(rt: HostRuntime) -> io::Result<()> {
    println!(rt; "state number in-force brake")?;
    for state in STATES {
        state_line(&rt, state)?;
    }
    println!(rt; "event number area mode")?;
    for event in events() {
        event_line(&rt, event)?;
    }
    println!(rt; "state event code next in-force brake")?;
    for state in STATES {
        for event in events() {
            step_line(&rt, state, event)?;
        }
    }
    Ok(())
}
