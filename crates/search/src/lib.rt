// This crate is the search: the searching master, stepped with the levels of the bus and nothing else.
//
// The image is only read. The loop over the exchanges sends what the master answers to the devices, and gives the level
// that they answer to the master's next step; what is written and stored between is a function by value over the
// buffers.
#![tactic(auto)]

ghost use Rattle.std.specs.Prelude.{◌≡◌, ◌≤◌, ◌*◌, cond, ◌&&◌, ◌++◌, length, drop, OnOk};
ghost use Rattle.std.proofs.lemmas.List.Edits.{sets};
ghost use Rattle.image.specs.Image.{count_of};
ghost use Rattle.image.specs.Refusal.{told_number};
ghost use Rattle.master.specs.Master.{code_bytes, next_master, step_of};
ghost use Rattle.master.specs.Drive.{code_completed, written_over};
ghost use Rattle.bits.specs.Bit.{level_byte};
ghost use Rattle.bus.specs.Loops.{level_on, turn_states_of};
ghost use Rattle.bus.specs.Run.{states_of};
ghost use Rattle.search_laws.specs.Search.{search_of};
ghost use Rattle.search_laws.specs.Searched.{Searched, events_for};
ghost use Rattle.search_laws.specs.Words.{Bytes, is_reset, is_slot, resets_in, slots_in, passes_in};
ghost use Rattle.search.specs.Refusal.{no_search_room, search_refusal};
ghost use Rattle.search.specs.Found.{found_in, search_told, SearchLeaves, search_outcome_of};
ghost use Rattle.search.specs.Loops.{Ready};

use device::LineState;
use image::Refusal;
use master::{Answer, CODE_BYTES, Master, PASS_EVENTS, RESET, Step};

// A search that is not refused returns the numbers of passes, resets and slots in the trace that it wrote.
#[derive(Clone, Copy)]
pub struct Found {
    pub passes: u64,
    pub resets: u64,
    pub slots: u64,
}

// ---- why a search is refused

// A search of n devices has so many events, and one of none has one.
fn trace_room(n: u8) -> usize
    ensures { result ≡ events_for n }
{
    (PASS_EVENTS * usize::from(n)).max(1)
}

// Cause 7 is too little room for the codes or the trace, or too few line states.
#[tactic(auto, unfolding(crate::specs::Refusal::no_search_room))]
fn lacks_room(image: &[u8], codes: usize, trace: usize, lines: usize) -> bool
    ensures { result ≡ no_search_room image.now codes trace lines }
{
    let n = image::count(image);
    codes < CODE_BYTES * usize::from(n) || trace < trace_room(n) || lines < usize::from(n)
}

// A search is refused for the first cause that applies, 1 to 4 or 7.
fn check(image: &[u8], codes: usize, trace: usize, lines: usize) -> Result<(), Refusal>
    ensures { (told_number result ≡ search_refusal image.now codes trace lines) × Bytes image.now }
{
    image::check(image)?;
    if lacks_room(image, codes, trace, lines) {
        return Err(Refusal::NoRoom);
    }
    Ok(())
}

// ---- one exchange

// The first n devices answer an event with its level, as a byte, which each of them is then given. The image is only
// read.
// As it is: n stands beside the line states, as `bus::step_all` has it, whose definition keeps those from n on.
#[tactic(auto, unfolding(bus::specs::Loops::scan_on, bits::specs::Bit::level_byte))]
fn answered(image: &[u8], lines: &mut [LineState], n: usize, event: u8) -> u8
    ensures { (result ≡ level_byte (level_on lines.old n event))
        × (lines.new
        ≡ turn_states_of image.now lines.old n event (level_on lines.old n event)) }
{
    let scan = bus::level(lines, n, event);
    bus::step_all(image, lines, n, event, scan.level);
    u8::from(scan.level)
}

// The master takes a step, and the code that the step completed, if it did, is stored. The search steps the master
// nowhere else, as the compiler inlines a function of this size only where it has one caller.
fn stepped(codes: &mut [u8], master: Master, level: u8) -> Step
    ensures { (result ≡ step_of master level)
        × (codes.new ≡ sets codes.old (code_bytes * master.passes)
        (code_completed master.passes (next_master master level))) }
{
    let step = master.step(level);
    master::keep_code(codes, master.passes(), step.next());
    step
}

// ---- counts

// As it is: a chain of `filter` and `count` misses the speed of this loop, which the compiler makes one over vectors.
fn resets_in(trace: &[u8]) -> u64
    ensures { result ≡ resets_in trace.now }
{
    let mut count = 0;
    for event in trace {
        if *event == RESET {
            count += 1;
        }
    }
    count
}

// As it is: a chain misses the speed of this loop, and one count over a closure needs a clause longer than two loops.
fn slots_in(trace: &[u8]) -> u64
    ensures { result ≡ slots_in trace.now }
{
    let mut count = 0;
    for event in trace {
        if *event < RESET {
            count += 1;
        }
    }
    count
}

// A pass begins with a reset that has a slot right after it.
#[tactic(auto, unfolding(search_laws::specs::Words::is_reset, search_laws::specs::Words::is_slot))]
fn begins_pass(event: u8, after: u8) -> bool
    ensures { result ≡ (is_reset event && is_slot after) }
{
    event == RESET && after < RESET
}

// The last event begins no pass, as none comes after it.
// As it is: a chain of `windows`, `filter` and `count` is as long, and this is the loop of the two counts above.
fn passes_in(trace: &[u8]) -> u64
    ensures { result ≡ passes_in trace.now }
{
    let mut count = 0;
    for pair in trace.windows(2) {
        if begins_pass(pair[0], pair[1]) {
            count += 1;
        }
    }
    count
}

fn tally(trace: &[u8]) -> Found
    ensures { search_told (Ok result) ≡ found_in 0 trace.now }
{
    Found {
        passes: passes_in(trace),
        resets: resets_in(trace),
        slots: slots_in(trace),
    }
}

// ---- the search

// These are the exchanges for an image that is not refused, on devices that wait: each event that the master answers
// goes to the devices as the one before left them, and the level that they answer goes to the master's next step. The
// first step is given a level too, which it does not look at. The number of events is returned.
// As it is: the master tells when it ends, and tests/forms holds this loop, so that `sent` counts what it sent.
fn exchange(image: &[u8], codes: &mut [u8], trace: &mut [u8], lines: &mut [LineState]) -> usize
    requires { Ready image.now codes.old trace.old lines.old }
    ensures { (result ≡ length (search_of image.now).trace)
        × (codes.new ≡ written_over (search_of image.now).codes codes.old)
        × (trace.new ≡ written_over (search_of image.now).trace trace.old)
        × (lines.new
        ≡ states_of (search_of image.now).devices
        ++ drop (count_of image.now) lines.old) }
{
    let n = bus::device_count(image);
    let mut master = Master::fresh();
    let mut level = 0;
    let mut sent = 0;
    loop {
        let step = stepped(codes, master, level);
        master = step.next();
        let Answer::Event(event) = step.answer() else {
            return sent;
        };
        bits::put_byte(trace, sent, event);
        level = answered(image, lines, n, event);
        sent += 1;
    }
}

// A search that is refused changes nothing; in any other every device starts waiting, whatever the line states held.
// As it is: image, codes, trace and line states are arguments of their own, as the C interface lends each by itself.
pub fn search(
    image: &[u8],
    codes: &mut [u8],
    trace: &mut [u8],
    lines: &mut [LineState],
) -> Result<Found, Refusal>
    ensures { SearchLeaves
        (search_outcome_of image.now codes.old trace.old lines.old) (search_told result)
        codes.new trace.new lines.new
        × OnOk result (Searched image.now (search_of image.now)) }
{
    check(image, codes.len(), trace.len(), lines.len())?;
    let n = bus::device_count(image);
    bus::wait_all(lines, n);
    let sent = exchange(image, codes, trace, lines);
    Ok(tally(&trace[..sent]))
}
