// This module drives a fresh master with recorded levels, each the level of the event just sent.
ghost use Rattle.std.specs.Prelude.{◌≡◌, ◌*◌, ◌<◌};
ghost use Rattle.std.proofs.lemmas.List.Edits.{sets};
ghost use Rattle.master.specs.Master.{code_bytes};
ghost use Rattle.master.specs.Drive.{started_master, events_from, code_completed, codes_from, drive_trace_room};
ghost use Rattle.master.specs.Drive.{drive_code_room, drive_refused, driven, drive_result, outcome_number};
ghost use Rattle.master.specs.Drive.{drive_number};
ghost use Rattle.master.specs.Drive.{trace_after_drive, codes_after_drive};

use crate::{Answer, CODE_BYTES, End, MOST_PASSES, Master, PASS_EVENTS};

// A search of 64 passes has so many events, and no master sends more.
const MOST_EVENTS: usize = 64 * PASS_EVENTS;

// A drive with recorded levels ends in one of three ways.
#[derive(Clone, Copy)]
pub enum Outcome {
    // A buffer has too little room, and nothing was written.
    // As it is: `probe_drive` tells a C program both numbers in any case, so that a refused drive has them too.
    Refused,
    // The master ended.
    Ended(End),
    // The levels are used up, and the master would go on.
    Unfinished,
}

// A drive returns this beside what it writes to its buffers.
#[derive(Clone, Copy)]
pub struct Driven {
    pub outcome: Outcome,
    // These are the numbers of events sent and of codes completed.
    pub events: usize,
    pub codes: usize,
}

// A master sends one event more than it is given levels, up to the most events of a search.
#[tactic(auto, unfolding(crate::specs::Drive::drive_trace_room))]
fn trace_room(levels: usize) -> usize
    ensures { result ≡ drive_trace_room levels }
{
    levels.saturating_add(1).min(MOST_EVENTS)
}

// A master completes at most one code for each pass that the levels are enough for.
#[tactic(auto, unfolding(crate::specs::Drive::drive_code_room))]
fn code_room(levels: usize) -> usize
    ensures { result ≡ drive_code_room levels }
{
    CODE_BYTES * (levels / PASS_EVENTS).min(usize::from(MOST_PASSES))
}

// This stores a code at its place among the codes.
// As it is: a place may lie past the end, and std has no method that puts a slice and drops what has no room.
fn put_code(codes: &mut [u8], place: u8, code: [u8; 8])
    ensures { codes.new ≡ sets codes.old (code_bytes * place) code }
{
    let at = CODE_BYTES * usize::from(place);
    for (i, byte) in code.iter().enumerate() {
        bits::put_byte(codes, at + i, *byte);
    }
}

// This stores the code that a step completed, if it completed one; `before` codes were completed before the step.
#[tactic(auto, unfolding(crate::specs::Drive::code_completed))]
pub fn keep_code(codes: &mut [u8], before: u8, next: Master)
    ensures { codes.new ≡ sets codes.old (code_bytes * before) (code_completed before next) }
{
    if before < next.passes {
        put_code(codes, before, next.previous);
    }
}

// A refused drive has sent and completed nothing.
fn refused() -> Driven
    ensures { result ≡ drive_refused }
{
    Driven {
        outcome: Outcome::Refused,
        events: 0,
        codes: 0,
    }
}

// This drives a fresh master with recorded levels, into buffers that have room for all that it sends and completes.
// As it is: the master may end before its levels do, and sends one event more, so that this is no `for` over them.
fn step_levels(levels: &[u8], trace: &mut [u8], codes: &mut [u8]) -> Driven
    ensures { (result ≡ driven levels.now)
        × (trace.new ≡ sets trace.old 0 (events_from started_master levels.now))
        × (codes.new ≡ sets codes.old 0 (codes_from started_master levels.now)) }
{
    let mut step = Master::fresh().step(0);
    let mut sent = 0;
    loop {
        let master = step.next;
        let event = match step.answer {
            Answer::Event(event) => event,
            Answer::End(end) => {
                return Driven {
                    outcome: Outcome::Ended(end),
                    events: sent,
                    codes: usize::from(master.passes),
                };
            }
        };
        bits::put_byte(trace, sent, event);
        let Some(level) = levels.get(sent) else {
            return Driven {
                outcome: Outcome::Unfinished,
                events: sent + 1,
                codes: usize::from(master.passes),
            };
        };
        step = master.step(*level);
        keep_code(codes, master.passes, step.next);
        sent += 1;
    }
}

// This drives a fresh master with recorded levels: each is the level of the event just sent, and those after the end
// are not read. The events go into `trace`, the completed codes into `codes`. Where one of these is too short for what
// so many levels can bring, the drive is refused and nothing is written.
// As it is: levels, trace and codes are arguments of their own, as the C interface lends each by itself.
pub fn drive(levels: &[u8], trace: &mut [u8], codes: &mut [u8]) -> Driven
    ensures { (result ≡ drive_result levels.now trace.old codes.old)
        × (outcome_number result.outcome ≡ drive_number levels.now trace.old codes.old)
        × (trace.new ≡ trace_after_drive levels.now trace.old codes.old)
        × (codes.new ≡ codes_after_drive levels.now trace.old codes.old) }
{
    if trace.len() < trace_room(levels.len()) {
        return refused();
    }
    if codes.len() < code_room(levels.len()) {
        return refused();
    }
    step_levels(levels, trace, codes)
}
