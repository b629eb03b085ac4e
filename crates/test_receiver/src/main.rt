// Runs test cases of the follower and of the captures: see `test_cases`. The cases, and what they must answer, come from rust/vectors. A case's third
// number names the edition, as a C program does.
#![tactic(auto)]

use follower::Follower;
use follower_events::{Event, Kind};
use frame::Edition;
use std::io;
use std::io::Write;
use test_cases::Case;

// ---- the follower from any update number: a state is a kind, 0 quiet, 1 real, 2 test, 3 safety, 4 safety test, and an update number

fn state_of(kind: u64, update: u64) -> Follower {
    match kind {
        0 => Follower::new(),
        1 => Follower::Active(Kind::Real, update),
        2 => Follower::Active(Kind::Test, update),
        3 => Follower::Active(Kind::Safety, update),
        _ => Follower::Active(Kind::SafetyTest, update),
    }
}

fn put_kind<W: Write>(kind: Kind, to: &mut W) -> io::Result<()> {
    match kind {
        Kind::Real => test_cases::hex(1, to),
        Kind::Test => test_cases::hex(2, to),
        Kind::Safety => test_cases::hex(3, to),
        Kind::SafetyTest => test_cases::hex(4, to),
    }
}

fn put_state<W: Write>(state: Follower, to: &mut W) -> io::Result<()> {
    match state {
        Follower::Quiet => test_cases::hex(0, to),
        Follower::Active(kind, update) => {
            put_kind(kind, to)?;
            test_cases::hex(update, to)
        }
    }
}

fn event_number(event: Event) -> u64 {
    match event {
        Event::Quiet => 0,
        Event::Ended => 0x100,
        Event::Begins => 0x200,
        Event::Same => 0x300,
        Event::Changed => 0x400,
        Event::Skipped => 0x500,
        Event::Refused(number) => 0x600 | number as u64,
    }
}

// The next state is told before the event.
fn step<W: Write>(edition: Edition, state: Follower, frame: &[u8], to: &mut W) -> io::Result<u64> {
    let step = frame_follower::step(edition, state, frame);
    let event = step.event;
    let next = step.next;
    put_state(next, to)?;
    Ok(event_number(event))
}

fn reset<W: Write>(state: Follower, to: &mut W) -> io::Result<u64> {
    put_state(state.reset(), to)?;
    Ok(0)
}

// ---- the captures stand one after the other, the main one of so many bytes

// The frame itself goes into the lent bytes; the status is its length.
fn frame_at<'a>(
    edition: Edition,
    main: &'a [u8],
    spare: &'a [u8],
    n: usize,
    lent: &mut [u8],
) -> u64 {
    let frame = capture::frame_at(edition, main, spare, n);
    if frame.len() <= lent.len() {
        lent[..frame.len()].copy_from_slice(frame);
    }
    frame.len() as u64
}

fn captures(case: Case, edition: u32, input: &[u8], lent: &mut [u8]) -> u64 {
    let operation = case.operation;
    let n = case.b;
    let cut = numbers::smaller(case.a as usize, input.len());
    let main = &input[0..cut];
    let spare = &input[cut..];
    match operation {
        3 => abi_receiver::capture_source(edition, main, spare, n) as u64,
        4 => abi_receiver::capture_numbers(edition, main, spare, n) as u64,
        _ => frame_at(
            abi_edition::edition_of(edition),
            main,
            spare,
            n as usize,
            lent,
        ),
    }
}

// ---- the operations

fn answer<W: Write>(
    case: Case,
    edition: u32,
    input: &[u8],
    lent: &mut [u8],
    to: &mut W,
) -> io::Result<u64> {
    let operation = case.operation;
    let status = match operation {
        0 => abi_receiver::follow(edition, (case.a % 0x100000000) as u32, input) as u64,
        1 => step(
            abi_edition::edition_of(edition),
            state_of(case.a, case.b),
            input,
            to,
        )?,
        2 => reset(state_of(case.a, case.b), to)?,
        _ => captures(case, edition, input, lent),
    };
    Ok(status)
}

fn run<W: Write>(case: Case, input: &[u8], lent: &mut [u8], to: &mut W) -> io::Result<bool> {
    if 5 < case.operation {
        return test_cases::wrong(to);
    }
    let edition = (case.c % 0x100000000) as u32;
    let status = answer(case, edition, input, lent, to)?;
    test_cases::hex(status, to)?;
    test_cases::end_bytes(lent, to)
}

fn main(rt: HostRuntime) -> io::Result<()> {
    let mut input = rt.stdin();
    let mut output = rt.stdout();
    test_cases::run(&mut input, &mut output, run)
}
