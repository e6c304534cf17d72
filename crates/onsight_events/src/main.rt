#![tactic(auto)]
// A million events through the On-Sight procedure, for counting instructions: prints a sum of all that was answered.
ghost use Rattle.std.specs.Prelude.{◌≤◌};

use onsight::event::{Area, Event, Mode};
use onsight::procedure::{Answer, State};
use std::io;

const EVENTS: u64 = 1000000;

// The next number of a fixed row, below 2^31.
fn drawn(x: u64) -> u64 {
    (x % 2147483648 * 1103515245 + 12345) % 2147483648
}

fn mode_of(k: u64) -> Mode {
    match k % 4 {
        0 => Mode::OS,
        1 => Mode::SB,
        2 => Mode::PT,
        _ => Mode::Another,
    }
}

fn area_of(k: u64) -> Area {
    if k < 4 { Area::Ahead } else { Area::Entered }
}

// One of the twelve events.
fn event_of(k: u64) -> Event {
    if k < 8 {
        return Event::Profile {
            area: area_of(k),
            mode: mode_of(k),
        };
    }
    match k {
        8 => Event::Window,
        9 => Event::Start,
        10 => Event::Acknowledgement,
        _ => Event::Expiry,
    }
}

// What an answer adds to the sum.
fn weight(answer: Answer) -> u64
    ensures { result ≤ 4096 }
{
    let state = answer.state;
    let braking = u64::from(state.service_brake());
    let in_force = u64::from(state.os_in_force());
    u64::from(answer.code) + u64::from(state.number()) + 100 * braking + 1000 * in_force
}

// A procedure that is done starts afresh with every third event.
fn restarted(state: State, x: u64) -> State {
    if state == State::Done && x % 3 == 0 {
        State::fresh()
    } else {
        state
    }
}

fn main(rt: HostRuntime) -> io::Result<()> {
    let mut x: u64 = 1;
    let mut state = State::fresh();
    let mut sum: u64 = 0;
    for _ in 0..EVENTS {
        x = drawn(x);
        let answer = state.step(event_of(x / 65536 % 12));
        sum = (sum + weight(answer)) % 1000000007;
        state = restarted(answer.state, x);
    }
    println!(rt; "{sum}")
}
