// These calls are for the tests only, and the host's interface does not have them: the searching master driven with
// recorded levels, the view of a DS1982's fields, and how many devices each slot's level of a run looks at.
#![tactic(auto)]

ghost use Rattle.std.specs.Prelude.{◌≡◌, ◌≤◌, ◌%◌, length, replicate};
ghost use Rattle.std.proofs.lemmas.List.Edits.{sets};
ghost use Rattle.master.specs.Master.{end_number};
ghost use Rattle.master.specs.Drive.{drive_result, trace_after_drive, codes_after_drive};
ghost use Rattle.eprom.specs.View.{bytes_to_read};
ghost use Rattle.image.specs.Image.{count_of};
ghost use Rattle.device.specs.Device.{waiting_state};
ghost use Rattle.bus.specs.Refusal.{run_refusal};
ghost use Rattle.bus.specs.Loops.{run_state};
ghost use Rattle.test_exports.specs.Outcome.{outcome_byte};
ghost use Rattle.test_exports.specs.Looked.{looked_after};
ghost use Rattle.test_exports.specs.Loops.{number_of, numbered_run};

use bus::Event;
use device::LineState;
use image::ACCEPTED;
use master::{End, Outcome};

// A master that would go on has no number, and 255 stands in its place.
const UNFINISHED: u32 = 255;

// An event that is not a slot has no number of devices looked at, and 255 stands in its place.
const NO_SLOT: u8 = 255;

// An image has at most 64 devices.
const MOST_DEVICES: usize = 64;

// An image has at most so many bytes.
const MOST_BYTES: usize = 65535;

// The numbers of the master's ends are document 01's.
// As it is: only the tests' C program is told them, and `End` is another crate's, which can have no `From` here.
#[tactic(auto, unfolding(master::specs::Master::end_number))]
fn end_number(end: End) -> u32
    ensures { result ≡ end_number end }
{
    match end {
        End::Done => 0,
        End::NoDevice => 8,
        End::WrongCrc => 9,
        End::Unexplored => 10,
    }
}

// The number of an outcome is that of the master's end, or 7 where there is too little room, or 255 where the master
// would go on.
// As it is: only the tests' C program is told it, and `Outcome` is another crate's, which can have no `From` here.
#[tactic(auto, unfolding(crate::specs::Outcome::outcome_byte))]
fn outcome_number(outcome: Outcome) -> u32
    ensures { result ≡ outcome_byte outcome }
{
    match outcome {
        Outcome::Refused => 7,
        Outcome::Ended(end) => end_number(end),
        Outcome::Unfinished => UNFINISHED,
    }
}

// A fresh master is driven with recorded levels. The numbers of events sent and of codes completed are written in any
// case.
#[unsafe(no_mangle)]
pub extern "C" fn probe_drive(
    levels: &[u8],
    trace: &mut [u8],
    codes: &mut [u8],
    events: &mut u64,
    completed: &mut u64,
) -> u32
    ensures { (result ≡ outcome_byte (drive_result levels.now trace.old codes.old).outcome)
        × (trace.new ≡ trace_after_drive levels.now trace.old codes.old)
        × (codes.new ≡ codes_after_drive levels.now trace.old codes.old)
        × (events.new ≡ (drive_result levels.now trace.old codes.old).events)
        × (completed.new
        ≡ (drive_result levels.now trace.old codes.old).codes) }
{
    let driven = master::drive(levels, trace, codes);
    let outcome = driven.outcome;
    // As it is: a C program is told a u64, here and below, and no From goes from usize to it.
    *events = driven.events as u64;
    *completed = driven.codes as u64;
    outcome_number(outcome)
}

// This copies a part to the front of a buffer, as much of it as there is room for.
// As it is: `copy_from_slice` is the C library's memmove, which no other call of this crate needs.
fn copy_out(part: &[u8], into: &mut [u8])
    ensures { into.new ≡ sets into.old 0 part.now }
{
    for (i, byte) in part.iter().enumerate() {
        bits::put_byte(into, i, *byte);
    }
}

// The bytes still to be read from a DS1982's fields are copied out, and their number is returned.
#[unsafe(no_mangle)]
pub extern "C" fn probe_remaining<'a>(
    command: u8,
    address: u16,
    data: &'a [u8],
    status: &'a [u8],
    into: &mut [u8],
) -> u64
    ensures { (result ≡ length (bytes_to_read command address «data».now status.now))
        × (into.new
        ≡ sets into.old 0 (bytes_to_read command address «data».now status.now)) }
{
    let part = eprom::remaining(command, address, data, status);
    copy_out(part, into);
    part.len() as u64
}

// As it is: a number is cut to a byte, which no conversion does but a cast.
fn low_byte(number: usize) -> u8
    ensures { result ≡ number % 256 }
{
    (number % 256) as u8
}

// This is the number of devices that the level of an event looked at, as a byte; it is 255 for an event that is not a
// slot.
// As it is: the number goes into a C program's bytes, so that an event that is no slot is 255 there and no None.
#[tactic(auto, unfolding(crate::specs::Loops::number_of, crate::specs::Loops::number_for))]
fn number_of(byte: u8, looked: usize) -> u8
    ensures { result ≡ number_of byte looked }
{
    match Event::from(byte) {
        Event::Slot(_) | Event::OverdriveSlot(_) => low_byte(looked),
        _ => NO_SLOT,
    }
}

// This writes the number for every event of a trace on n devices, which are stepped as in a run.
// As it is: `numbered_run` says what the first k numbers of all are, so that the loop has k, where a zip has none.
fn number_events(
    image: &mut [u8],
    trace: &[u8],
    looked: &mut [u8],
    lines: &mut [LineState],
    n: usize,
)
    requires { (length trace.now ≤ length looked.old) × (n ≤ length lines.old) }
    ensures { run_state image.new looked.new lines.new
        ≡ numbered_run trace.now n
        (run_state image.old looked.old lines.old) }
{
    for (k, byte) in trace.iter().enumerate() {
        let result = bus::step(image, lines, n, *byte);
        looked[k] = number_of(*byte, result.looked);
    }
}

// This writes the number for every event of a trace, with 64 line states of its own, for devices that wait at the
// start.
// As it is: n stands beside the line states, as `bus::step` has it, whose definition keeps those from n on.
fn number_own(image: &mut [u8], trace: &[u8], looked: &mut [u8], n: usize)
    requires { (length trace.now ≤ length looked.old) × (n ≤ 64) }
    ensures { (image.new ≡ (numbered_run trace.now n
        (run_state image.old looked.old (replicate 64 waiting_state))).image)
        × (looked.new ≡ (numbered_run trace.now n
        (run_state image.old looked.old (replicate 64 waiting_state))).answers) }
{
    let mut lines = [LineState::waiting(); MOST_DEVICES];
    number_events(image, trace, looked, &mut lines, n);
}

// This writes the number for every event of a trace on a copy of the image, as the image itself is only read.
fn number_copy(image: &[u8], trace: &[u8], looked: &mut [u8])
    requires { run_refusal image.now trace.now (length looked.old) 64 ≡ 0 }
    ensures { looked.new
        ≡ looked_after 0 image.now trace.now looked.old }
{
    let n = bus::device_count(image);
    let end = image.len();
    let mut own = [0u8; MOST_BYTES];
    copy_out(image, &mut own);
    number_own(&mut own[..end], trace, looked, n);
}

// A byte is written for each event of a run: how many devices a slot's level looks at, or 255 for an event that is not
// a slot. The call is refused as the run is, with as much room for the numbers as the run asks for the answers.
#[unsafe(no_mangle)]
pub extern "C" fn probe_looked(image: &[u8], trace: &[u8], looked: &mut [u8]) -> u32
    ensures { (result ≡ run_refusal image.now trace.now (length looked.old) 64)
        × (looked.new ≡ looked_after result image.now trace.now looked.old) }
{
    match bus::check(image, trace, looked.len(), MOST_DEVICES) {
        Ok(()) => {
            number_copy(image, trace, looked);
            ACCEPTED
        }
        Err(refusal) => u32::from(refusal),
    }
}
