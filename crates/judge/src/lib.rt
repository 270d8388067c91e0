// This crate judges a recorded session: whether the answers are the bench's, whether no write or copy command went to
// more than one device, and whether each copy was read back before.
//
// One pass over the trace runs the bench in a lent work space and looks at every device in every event, up to the first
// that breaks a rule. Only where a device accepts a copy are the events before it looked at again, back to a reset
// before that device's last write. Up to a memory command or a write's address, one device's way over the line depends
// on its code and on the levels alone, so that it is followed by value from a reset on that it heard and that left it
// at a known speed, with the recorded answers as levels; no second image is needed.
#![tactic(auto)]

ghost use Rattle.std.specs.Prelude.{◌≡◌, ◌≤◌, ◌<◌, ◌+◌, ◌-◌, true, false, cond, ◌||◌, length, eqb};
ghost use Rattle.std.proofs.lemmas.List.Edits.{sets};
ghost use Rattle.image.specs.Refusal.{told_number};
ghost use Rattle.sram.specs.Sram.{target_offset};
ghost use Rattle.device.specs.Device.{reset_at};
ghost use Rattle.bus.specs.Bus.{device_with};
ghost use Rattle.bus.specs.Loops.{place_in, next_state_as_is};
ghost use Rattle.judge.specs.Refusal.{judge_refusal};
ghost use Rattle.judge.specs.declared.Verdict.TheVariants.{Accepted};
ghost use Rattle.judge.specs.Judge.{so_far, told, rule_number, refusal_of, rule_of, broken_at};
ghost use Rattle.judge.specs.Judge.{JudgeLeaves, judge_of};
ghost use Rattle.judge.specs.Loops.{doing_of, slot_at, passed_at, after_slot_at};
ghost use Rattle.judge.specs.Loops.{line_next, mark_by, mark_of, wanted_bytes, wanted_bit, goes_on_at, bits_in};
ghost use Rattle.judge.specs.Loops.{shown_from};
ghost use Rattle.judge.specs.Loops.{read_shown, part_so, part_by, part_at, part_over, overdrive_before, begins_part};
ghost use Rattle.judge.specs.Loops.{back_by, back_at, careful_at};
ghost use Rattle.judge.specs.Loops.{pattern_accepted, careless_at, seen_with, at_memory, seen_up_to};
ghost use Rattle.judge.specs.Loops.{verdict_here, verdict_kept, verdict_next, judge_state};
ghost use Rattle.judge.specs.Loops.{judge_events_up_to, still_looked_at};

use bus::Event;
use device::LineState;
use image::{ACCEPTED, Refusal};
use kind::Kind;
use line::{MemoryStage, SramStage, Stage};
use recording::Recording;

// Document 02's rules A, B and C: the answers are the bench's; no write or copy command goes to more than one device;
// each copy was read back before.
#[derive(Clone, Copy, Debug, PartialEq, Eq)]
pub enum Rule {
    Answers,
    Command,
    Copy,
}

// The event is the first that breaks the rule.
#[derive(Clone, Copy, Debug, PartialEq, Eq)]
pub struct Broken {
    pub rule: Rule,
    pub event: usize,
}

// What a recording is told as: a C program is told a refusal by its number, which may be any.
#[derive(Clone, Copy)]
pub enum Verdict {
    Accepted,
    // The event is the first that breaks the rule.
    Broken { rule: Rule, event: usize },
    Refused(u32),
}

// What a device does in a stage, as far as the rules look at it.
#[derive(Clone, Copy)]
enum Doing {
    // The device receives the memory command.
    Command,
    // The device receives the high byte of a write scratchpad's address.
    Address,
    // The device receives byte `at` of a copy's pattern, with `same` if those before it are equal to the registers.
    Pattern { at: u8, same: bool },
    Other,
}

// An event is marked if in it a read's command completes, or a write has its 16th address bit.
#[derive(Clone, Copy)]
enum Mark {
    Unmarked,
    Wrote,
    Reads,
}

// A part of the trace has `wrote` if it has a write, and `shown` if a read after the last of its writes, or any read
// where it has none, showed what it had to.
#[derive(Clone, Copy, Default)]
struct Part {
    wrote: bool,
    shown: bool,
}

// The walk back from a copy has gone through the parts of the trace from event `end` on. It has `shown` if one of the
// reads in them showed what it had to, and it has decided once it has found the last write. With `overdrive` the device
// is known to have been at overdrive before the event that was looked at last, or at the copy where none was yet;
// without it nothing is told of its speed.
#[derive(Clone, Copy)]
struct Back {
    end: usize,
    shown: bool,
    decided: bool,
    overdrive: bool,
}

// Of the devices that were looked at in an event, so many are at the memory command; where `completed` is true one of
// them completes a write or copy command in it, and where `careless` is true one accepts a copy that was not read back.
#[derive(Clone, Copy, Default)]
struct Seen {
    commands: usize,
    completed: bool,
    careless: bool,
}

// A device that is followed over a recording by value: it has this kind, and this body at the copy that is looked at.
#[derive(Clone, Copy)]
struct Followed<'a> {
    recording: Recording<'a, 'a>,
    kind: Kind,
    body: &'a [u8],
}

const READ_SCRATCHPAD: u8 = 0xAA;

const WRITE_SCRATCHPAD: u8 = 0x0F;

const COPY_SCRATCHPAD: u8 = 0x55;

// TA1, TA2 and E/S have so many bits.
const REGISTER_BITS: usize = 24;

// ---- one device at one event

// As it is: it has the part of a stage that the rules look at, and so is no conversion of one value into another.
fn doing_of(stage: Stage) -> Doing
    ensures { result ≡ doing_of stage }
{
    match stage {
        Stage::Memory(MemoryStage::Command) => Doing::Command,
        Stage::Memory(MemoryStage::Sram(SramStage::WriteHigh { .. })) => Doing::Address,
        Stage::Memory(MemoryStage::Sram(SramStage::CopyPattern { at, same })) => {
            Doing::Pattern { at, same }
        }
        _ => Doing::Other,
    }
}

// ---- one device at one event of a recording, by value

// The event is a slot that a device hears, which is at overdrive or not.
fn is_slot_at(byte: u8, overdrive: bool) -> bool
    ensures { result ≡ slot_at byte overdrive }
{
    match Event::from(byte) {
        Event::Slot(_) => !overdrive,
        Event::OverdriveSlot(_) => overdrive,
        _ => false,
    }
}

// A device at regular speed passes over what comes at overdrive.
fn is_passed_at(byte: u8, overdrive: bool) -> bool
    ensures { result ≡ passed_at byte overdrive }
{
    let event = Event::from(byte);
    matches!(event, Event::OverdriveSlot(_) | Event::OverdriveReset) & !overdrive
}

// A slot at the device's own speed is one step of it. Of the others a regular one makes it wait, and one at overdrive
// leaves it as it is.
#[tactic(auto, unfolding(crate::specs::Loops::after_slot_at))]
fn after_slot(state: LineState, kind: Kind, body: &[u8], overdrive: bool, level: bool) -> LineState
    ensures { result ≡ after_slot_at state kind body.now overdrive level }
{
    if state.overdrive == overdrive {
        return state.step_as_is(kind, body, level);
    }
    if overdrive {
        return state;
    }
    LineState::waiting()
}

fn after_overdrive_reset(state: LineState) -> LineState
    ensures { result ≡ cond state.overdrive (reset_at true) state }
{
    if state.overdrive {
        return LineState::at_reset(true);
    }
    state
}

// This is the line state after an event at a level, as the bus has it; the body is only read.
fn after_event(state: LineState, kind: Kind, body: &[u8], event: Event, level: bool) -> LineState
    ensures { result ≡ next_state_as_is event level (device_with kind body.now state) }
{
    match event {
        Event::Slot(_) => after_slot(state, kind, body, false, level),
        Event::Reset => LineState::at_reset(false),
        Event::Pulse => state.pulsed_as_is(body),
        Event::OverdriveSlot(_) => after_slot(state, kind, body, true, level),
        Event::OverdriveReset => after_overdrive_reset(state),
    }
}

// The event is marked if it is the last slot of a read's command or of a write's address; `value` is the byte that was
// received up to it.
#[tactic(auto, unfolding(crate::specs::Loops::mark_by))]
fn mark_by(doing: Doing, last: bool, value: u8) -> Mark
    ensures { result ≡ mark_by doing last value }
{
    match doing {
        Doing::Command if last & (value == READ_SCRATCHPAD) => Mark::Reads,
        Doing::Address if last => Mark::Wrote,
        _ => Mark::Unmarked,
    }
}

#[tactic(auto, unfolding(crate::specs::Loops::mark_of))]
fn mark_of(state: LineState, byte: u8, level: bool) -> Mark
    ensures { result ≡ mark_of state byte level }
{
    let last = is_slot_at(byte, state.overdrive) & !state.goes_on();
    let value = bits::shift_in(state.transfer.register, level);
    mark_by(doing_of(state.transfer.stage), last, value)
}

// ---- what a read showed

// T4:T0 of the target address are the offset in the scratchpad from which bytes are copied.
fn first_offset(body: &[u8]) -> u8
    ensures { (result ≡ target_offset body.now) × (result < 32) }
{
    sram::target_offset(body)
}

// So many bytes lie from T4:T0 through the ending offset.
#[tactic(auto, unfolding(crate::specs::Loops::wanted_bytes))]
fn wanted_bytes(body: &[u8]) -> u8
    ensures { (result ≡ wanted_bytes body.now) × (result ≤ 32) }
{
    (sram::ending_offset(body) + 1).saturating_sub(first_offset(body))
}

// A read is to show the registers, then the bytes from T4:T0 through the ending offset. This is bit `at` of them, by
// its value in the body as it is at the copy.
#[tactic(auto, unfolding(crate::specs::Loops::wanted_bit))]
fn wanted_bit(body: &[u8], at: usize) -> bool
    requires { at < 1024 }
    ensures { result ≡ wanted_bit body.now at }
{
    if at < REGISTER_BITS {
        return bits::bit_at(body, 8 * kind::TA1 + at);
    }
    let place = 8 * (kind::SCRATCHPAD + usize::from(first_offset(body)));
    bits::bit_at(body, place + (at - REGISTER_BITS))
}

// A slot that the device hears shows one bit, and an event that it passes over shows none.
#[tactic(auto, unfolding(crate::specs::Loops::bits_in))]
fn bits_in(byte: u8, overdrive: bool) -> usize
    ensures { (result ≡ bits_in byte overdrive) × (result ≤ 1) }
{
    usize::from(is_slot_at(byte, overdrive))
}

// ---- the walk back from a copy

// With `overdrive` the device is known to be at overdrive after the event of this byte; this tells whether it is known
// to have been so before. An event that a device at regular speed passes over leaves it at regular speed, so that one
// that is at overdrive after it was so before. Of any other event nothing is taken as known.
#[tactic(auto, unfolding(crate::specs::Loops::overdrive_before))]
fn is_overdrive_before(byte: u8, overdrive: bool) -> bool
    ensures { result ≡ overdrive_before byte overdrive }
{
    is_passed_at(byte, false) & overdrive
}

// All devices hear a regular reset, and it leaves them at regular speed, whatever came before. An overdrive reset is
// heard at overdrive alone, so that it begins a part only where the device is known to be at overdrive after it.
fn begins_part(byte: u8, overdrive: bool) -> bool
    ensures { result ≡ begins_part byte overdrive }
{
    match Event::from(byte) {
        Event::Reset => true,
        Event::OverdriveReset => overdrive,
        _ => false,
    }
}

// The part that begins with the reset at event j, and ends where the walk has come to, has these writes and reads. With
// `overdrive` the device is known to have been at overdrive before the reset.
#[tactic(auto, unfolding(crate::specs::Loops::back_by))]
fn back_by(j: usize, back: Back, overdrive: bool, part: Part) -> Back
    ensures { result ≡ back_by j back overdrive part }
{
    Back {
        end: j,
        shown: back.shown | part.shown,
        decided: part.wrote,
        overdrive,
    }
}

// ---- one device, followed over a recording

// As it is: `end` and `overdrive` are the part's and k goes on in it, so that a struct would be built for each k.
impl<'a> Followed<'a> {
    // This is the line state after event k.
    #[tactic(auto, unfolding(crate::specs::Loops::line_next))]
    fn line_next(self, k: usize, state: LineState) -> LineState
        ensures { result ≡ line_next self.entry.recording.trace.now
            self.entry.recording.answers.now self.entry.kind self.entry.body.now k state }
    {
        let event = Event::from(self.recording.event(k));
        after_event(state, self.kind, self.body, event, self.recording.level(k))
    }

    // A read of the device, which is at overdrive or not, goes on in event k if this is a slot that it hears and that
    // shows bit `at`, or if it passes over it.
    #[tactic(auto, unfolding(crate::specs::Loops::goes_on_at))]
    fn reads_on(self, overdrive: bool, k: usize, at: usize) -> bool
        requires { at < 1024 }
        ensures { result ≡ goes_on_at self.entry.recording.trace.now
            self.entry.recording.answers.now self.entry.body.now overdrive k at }
    {
        let byte = self.recording.event(k);
        if is_slot_at(byte, overdrive) {
            return self.recording.level(k) == wanted_bit(self.body, at);
        }
        is_passed_at(byte, overdrive)
    }

    // This tells whether the recorded answers from event k on, before event `end`, show as many bits as are due.
    fn bits_shown(self, overdrive: bool, end: usize, k: usize, count: usize) -> bool
        requires { count ≤ 1024 }
        ensures { result ≡ shown_from self.entry.recording.trace.now
            self.entry.recording.answers.now self.entry.body.now overdrive 0 count k (end - k) }
    {
        let mut at = 0;
        for event in k..end {
            if at == count {
                return true;
            }
            if !self.reads_on(overdrive, event, at) {
                return false;
            }
            at += bits_in(self.recording.event(event), overdrive);
        }
        at == count
    }

    // A read whose command completed in the event before k showed all that is to be copied.
    #[tactic(auto, unfolding(crate::specs::Loops::read_shown))]
    fn read_shown(self, overdrive: bool, end: usize, k: usize) -> bool
        ensures { result ≡ read_shown self.entry.recording.trace.now
            self.entry.recording.answers.now self.entry.body.now overdrive end k }
    {
        let count = REGISTER_BITS + 8 * usize::from(wanted_bytes(self.body));
        self.bits_shown(overdrive, end, k, count)
    }

    // A write leaves nothing of what was shown before it.
    #[tactic(auto, unfolding(crate::specs::Loops::part_by))]
    fn part_by(self, overdrive: bool, end: usize, k: usize, part: Part, mark: Mark) -> Part
        requires { k < 18446744073709551615 }
        ensures { result ≡ part_by self.entry.recording.trace.now
            self.entry.recording.answers.now self.entry.body.now overdrive end k part mark }
    {
        match mark {
            Mark::Unmarked => part,
            Mark::Wrote => Part {
                wrote: true,
                shown: false,
            },
            Mark::Reads => {
                let here = self.read_shown(overdrive, end, k + 1);
                Part {
                    shown: part.shown | here,
                    ..part
                }
            }
        }
    }

    // Event k, which finds the device in a line state, leaves this part.
    #[tactic(auto, unfolding(crate::specs::Loops::part_at))]
    fn part_at(self, end: usize, k: usize, state: LineState, part: Part) -> Part
        requires { k < 18446744073709551615 }
        ensures { result ≡ part_at self.entry.recording.trace.now
            self.entry.recording.answers.now self.entry.body.now end k state part }
    {
        let mark = mark_of(state, self.recording.event(k), self.recording.level(k));
        self.part_by(state.overdrive, end, k, part, mark)
    }

    // These are the writes and reads of the device from event `from` up to event `end`. The reset before them left the
    // device at overdrive or at regular speed. Nothing that is marked depends on more of the body than the code.
    fn part_in(self, overdrive: bool, from: usize, end: usize) -> Part
        ensures { result ≡ part_over self.entry.recording.trace.now
            self.entry.recording.answers.now self.entry.kind self.entry.body.now end
            (reset_at overdrive) (part_so false false) from (end - from) }
    {
        let mut state = LineState::at_reset(overdrive);
        let mut part = Part::default();
        for k in from..end {
            part = self.part_at(end, k, state, part);
            state = self.line_next(k, state);
        }
        part
    }

    // The walk back looks at event j. A part begins at the speed of its reset.
    #[tactic(auto, unfolding(crate::specs::Loops::back_at, crate::specs::Loops::back_over))]
    fn back_at(self, j: usize, back: Back) -> Back
        requires { j < 18446744073709551615 }
        ensures { result ≡ back_at self.entry.recording.trace.now
            self.entry.recording.answers.now self.entry.kind self.entry.body.now j back }
    {
        let byte = self.recording.event(j);
        let before = is_overdrive_before(byte, back.overdrive);
        if begins_part(byte, back.overdrive) {
            let overdrive = matches!(Event::from(byte), Event::OverdriveReset);
            let part = self.part_in(overdrive, j + 1, back.end);
            back_by(j, back, before, part)
        } else {
            Back {
                overdrive: before,
                ..back
            }
        }
    }

    // A copy that the device accepts in the event at the reader's place, at overdrive or at regular speed, was read
    // back: between its last write and the copy a read showed all that is copied. Any one read is enough, so that the
    // walk goes on to the last write.
    fn is_careful(self, overdrive: bool) -> bool
        ensures { result ≡ careful_at self.entry.recording.trace.now
            self.entry.recording.answers.now self.entry.kind self.entry.body.now overdrive
            self.entry.recording.at }
    {
        let end = self.recording.at;
        let mut back = Back {
            end,
            shown: false,
            decided: false,
            overdrive,
        };
        for j in (0..end).rev() {
            back = self.back_at(j, back);
            if back.decided {
                return back.shown;
            }
        }
        false
    }
}

// ---- one event on all devices

// A copy is accepted with the third byte of a pattern that is equal to the registers.
// As it is: at and same come from a stage, and the value from a slot, so that they are no struct of their own.
#[tactic(auto, unfolding(crate::specs::Loops::pattern_accepted))]
fn is_accepted(at: u8, same: bool, value: u8, body: &[u8]) -> bool
    ensures { result ≡ pattern_accepted at same value body.now }
{
    2 <= at && sram::pattern_same(at, same, value, body)
}

// Device i, which is at overdrive or not, accepts a copy in the event at the reader's place that was not read back.
#[tactic(auto, unfolding(crate::specs::Loops::careless_at))]
fn is_careless(
    recording: Recording,
    image: &[u8],
    i: usize,
    overdrive: bool,
    at: u8,
    same: bool,
    value: u8,
) -> bool
    ensures { result ≡ careless_at recording.entry.trace.now recording.entry.answers.now image.now
        (place_in image.now i) overdrive recording.entry.at at same value }
{
    let place = bus::place_of(image, i);
    let body = &image[place.start..place.end];
    let followed = Followed {
        recording,
        kind: place.kind,
        body,
    };
    is_accepted(at, same, value, body) && !followed.is_careful(overdrive)
}

fn is_write_or_copy(value: u8) -> bool
    ensures { result ≡ (eqb value 0x0F || eqb value 0x55) }
{
    matches!(value, WRITE_SCRATCHPAD | COPY_SCRATCHPAD)
}

// In the event at the reader's place device i is looked at, which is in a line state before it. The rules look only at
// the last slot of a transfer, which the device has to hear, but every device at the memory command counts, whatever
// its speed.
#[tactic(auto, unfolding(crate::specs::Loops::seen_with, crate::specs::Loops::seen_by))]
fn seen_with(recording: Recording, image: &[u8], i: usize, state: LineState, seen: Seen) -> Seen
    requires { seen.commands < 18446744073709551615 }
    ensures { result ≡ seen_with recording.entry.trace.now recording.entry.answers.now image.now
        recording.entry.at i state seen }
{
    let k = recording.at;
    let last = is_slot_at(recording.event(k), state.overdrive) & !state.goes_on();
    let value = bits::shift_in(state.transfer.register, recording.level(k));
    match doing_of(state.transfer.stage) {
        Doing::Command => Seen {
            commands: seen.commands + 1,
            completed: seen.completed | (last & is_write_or_copy(value)),
            ..seen
        },
        Doing::Pattern { at, same } if last => {
            let careless = is_careless(recording, image, i, state.overdrive, at, same, value);
            Seen {
                careless: seen.careless | careless,
                ..seen
            }
        }
        _ => seen,
    }
}

// The rules look only at devices that are past the ROM stage. In most events most devices are not, and this test alone
// passes over them, without a copy of what was seen so far.
#[tactic(auto, unfolding(crate::specs::Loops::at_memory))]
fn is_at_memory(state: LineState) -> bool
    ensures { result ≡ at_memory state.transfer.stage }
{
    matches!(state.transfer.stage, Stage::Memory(_))
}

// ---- the verdict so far

// In event k, whose answer is as recorded, this is the first broken rule, if one is.
#[tactic(auto, unfolding(crate::specs::Judge::so_far, crate::specs::Loops::verdict_here))]
fn verdict_here(seen: Seen, k: usize) -> Option<Broken>
    ensures { so_far result ≡ verdict_here seen k }
{
    let rule = if (1 < seen.commands) & seen.completed {
        Rule::Command
    } else if seen.careless {
        Rule::Copy
    } else {
        return None;
    };
    Some(Broken { rule, event: k })
}

// A rule that was broken at an event before k stays the verdict, unless the answer of event k breaks rule A, which goes
// before the others.
#[tactic(auto, unfolding(crate::specs::Judge::so_far, crate::specs::Loops::verdict_kept))]
fn verdict_kept(broken: Broken, agrees: bool, k: usize) -> Broken
    ensures { so_far (Some result) ≡ verdict_kept broken.rule broken.event agrees k }
{
    if agrees | (broken.rule == Rule::Answers) {
        broken
    } else {
        Broken {
            rule: Rule::Answers,
            event: k,
        }
    }
}

// Event k, whose answer agrees with what was recorded or not, leaves this verdict.
#[tactic(auto, unfolding(crate::specs::Judge::so_far, crate::specs::Loops::verdict_next))]
fn verdict_next(verdict: Option<Broken>, agrees: bool, seen: Seen, k: usize) -> Option<Broken>
    ensures { so_far result ≡ verdict_next (so_far verdict) agrees seen k }
{
    match verdict {
        Some(broken) => Some(verdict_kept(broken, agrees, k)),
        None if agrees => verdict_here(seen, k),
        None => Some(Broken {
            rule: Rule::Answers,
            event: k,
        }),
    }
}

// So many of the n devices are still looked at. Once a rule is broken only a later A changes the verdict, and what is
// seen of the devices has no part in that: a walk back at each further copy would be for nothing.
#[tactic(auto, unfolding(crate::specs::Judge::so_far, crate::specs::Loops::still_looked_at))]
fn still_looked_at(verdict: Option<Broken>, n: usize) -> usize
    ensures { result ≡ still_looked_at (so_far verdict) n }
{
    if verdict.is_none() { n } else { 0 }
}

// ---- the numbers of a verdict

// A C program is told the rules A, B and C as 1, 2 and 3.
impl From<Rule> for u64 {
    ghost from_gives = { λ rule number. number ≡ rule_number rule };

    #[tactic(auto, unfolding(crate::specs::Judge::rule_number))]
    fn from(rule: Rule) -> u64 {
        match rule {
            Rule::Answers => 1,
            Rule::Command => 2,
            Rule::Copy => 3,
        }
    }
}

// What the judge answers is told as a verdict, a refusal by its number.
impl From<Result<Option<Broken>, Refusal>> for Verdict {
    ghost from_gives = { λ answer verdict. verdict ≡ told answer };

    #[tactic(auto, unfolding(crate::specs::Judge::told, crate::specs::Judge::so_far))]
    fn from(answer: Result<Option<Broken>, Refusal>) -> Self {
        match answer {
            Ok(None) => Verdict::Accepted,
            Ok(Some(Broken { rule, event })) => Verdict::Broken { rule, event },
            Err(refusal) => Verdict::Refused(u32::from(refusal)),
        }
    }
}

// The refusal's number is 0 where the recording is judged.
// As it is: this and the next two give the C interface its numbers.
#[tactic(auto, unfolding(crate::specs::Judge::refusal_of))]
pub fn refusal_of(verdict: Verdict) -> u32
    ensures { result ≡ refusal_of verdict }
{
    match verdict {
        Verdict::Accepted | Verdict::Broken { .. } => ACCEPTED,
        Verdict::Refused(number) => number,
    }
}

// The broken rule is 1 for A, 2 for B and 3 for C; it is 0 where none is broken.
#[tactic(auto, unfolding(crate::specs::Judge::rule_of))]
pub fn rule_of(verdict: Verdict) -> u64
    ensures { result ≡ rule_of verdict }
{
    match verdict {
        Verdict::Broken { rule, .. } => u64::from(rule),
        Verdict::Accepted | Verdict::Refused(_) => 0,
    }
}

// The event that breaks the rule is 0 where none is broken.
#[tactic(auto, unfolding(crate::specs::Judge::broken_at))]
pub fn event_of(verdict: Verdict) -> u64
    ensures { result ≡ broken_at verdict }
{
    match verdict {
        // As it is: a C program is told a u64, and no From goes from usize to it.
        Verdict::Broken { event, .. } => event as u64,
        Verdict::Accepted | Verdict::Refused(_) => 0,
    }
}

// ---- why a recording is not judged

// A recording is refused for the first cause that applies. All are the run's but two of the last, the lengths of the
// answers and of the work space.
fn check(
    image: &[u8],
    trace: &[u8],
    answers: usize,
    work: usize,
    lines: usize,
) -> Result<(), Refusal>
    ensures { told_number result ≡ judge_refusal image.now trace.now answers work lines }
{
    bus::check(image, trace, trace.len(), lines)?;
    if answers != trace.len() {
        return Err(Refusal::NoRoom);
    }
    if work < image.len() {
        return Err(Refusal::NoRoom);
    }
    Ok(())
}

// ---- all devices, and the trace

// The image is laid over the start of the work space.
// As it is: `copy_from_slice` is the C library's memmove, and the library for C needs nothing of the C library.
fn lay(image: &[u8], work: &mut [u8])
    ensures { work.new ≡ sets work.old 0 image.now }
{
    for (k, byte) in image.iter().enumerate() {
        bits::put_byte(work, k, *byte);
    }
}

// Each of the first n devices is looked at in the event at the reader's place, before the event; one in the ROM stage
// adds nothing to what is seen. Nothing changes.
// As it is: n stands beside the line states, as `seen_up_to` says what the first n of all lent line states show.
fn look(recording: Recording, image: &[u8], lines: &[LineState], n: usize) -> Seen
    requires { n ≤ length lines.now }
    ensures { result ≡ seen_up_to recording.entry.trace.now recording.entry.answers.now image.now
        lines.now recording.entry.at n }
{
    let mut seen = Seen::default();
    for (i, state) in lines[..n].iter().enumerate() {
        if is_at_memory(*state) {
            seen = seen_with(recording, image, i, *state, seen);
        }
    }
    seen
}

// The reader of a recording goes from event to event. Each is looked at while no rule is broken, then given to the n
// devices in the work space; whether its level agrees with the recorded answer, and what was seen, leave the next
// verdict.
// As it is: n stands beside the line states, as `bus::step` has it, whose definition keeps those from n on.
fn judge_events(
    trace: &[u8],
    answers: &[u8],
    work: &mut [u8],
    lines: &mut [LineState],
    n: usize,
) -> Option<Broken>
    requires { n ≤ length lines.old }
    ensures { judge_state (so_far result) work.new lines.new
        ≡ judge_events_up_to trace.now answers.now n (length trace.now)
        (judge_state Accepted work.old lines.old) }
{
    let mut verdict = None;
    // As it is: tests/forms holds that the place of a reader that moves tells the turns, so that this is no `for`.
    let mut recording = Recording::new(trace, answers);
    while recording.at < trace.len() {
        let k = recording.at;
        let byte = recording.event(k);
        let looked = still_looked_at(verdict, n);
        let seen = look(recording, work, lines, looked);
        let result = bus::step(work, lines, n, byte);
        let agrees = recording.agrees(result.level);
        verdict = verdict_next(verdict, agrees, seen, k);
        recording = recording.next();
    }
    verdict
}

// A recording that is refused changes nothing; in any other the bench runs the whole trace in the work space, whatever
// the verdict is.
// As it is: image, trace, answers and work space are arguments of their own, as the C interface lends each by itself.
#[tactic(auto, using(crate::proofs::Shown::events_room), unfolding(image::specs::Refusal::told_number))]
pub fn judge(
    image: &[u8],
    trace: &[u8],
    answers: &[u8],
    work: &mut [u8],
    lines: &mut [LineState],
) -> Result<Option<Broken>, Refusal>
    ensures { JudgeLeaves
        (judge_of image.now trace.now answers.now work.old
        lines.old) (told result) work.new lines.new }
{
    check(image, trace, answers.len(), work.len(), lines.len())?;
    let n = bus::device_count(image);
    lay(image, work);
    bus::wait_all(lines, n);
    Ok(judge_events(trace, answers, work, lines, n))
}
