// This crate is the searching master: it is given one level, and returns the next event and the next master.
//
// A pass is a reset, the command F0h in eight slots, and for each of the 64 bits of a code two read slots and one
// direction. A stage names the event that was sent last, and its `at` is the bit of the command or of the code that the
// event belongs to. The level that a step is given is the level of that event.
#![tactic(auto)]

mod driving;

ghost use Rattle.std.specs.Prelude.{◌≡◌, ◌<◌};
ghost use Rattle.master.specs.Master.{most_passes, fresh_master, master_at_stage, answer_value};
ghost use Rattle.master.specs.Master.{answer_of, master_answer, master_in_range, master_after_reset};
ghost use Rattle.master.specs.Master.{master_after_command};
ghost use Rattle.master.specs.Master.{at_discrepancy, send_direction, master_after_reads, pass_completed};
ghost use Rattle.master.specs.Master.{stage_after_pass, pass_end, master_after_direction, master_after_level};
ghost use Rattle.master.specs.Master.{next_master, step_of};

pub use driving::{Driven, Outcome, drive, keep_code};

// A master ends for one of these reasons.
#[derive(Clone, Copy)]
pub enum End {
    // No discrepancy is open, or no device was present at the first reset.
    Done,
    // Both read slots of a bit read 1, or no device was present at a later reset.
    NoDevice,
    // The 64 bits of a pass fail the CRC.
    WrongCrc,
    // A discrepancy is open after pass 64.
    Unexplored,
}

// A step answers with an event to send, or with the end.
// As it is: an end is no error, as `Done` is the search that found all, so a `Result` of event and end would mislead.
#[derive(Clone, Copy)]
pub enum Answer {
    // As it is: an event is its byte, as a search hands it to the bus and writes it to the trace, and knows no other.
    // The next event is 0 for a write-zero slot, 1 for a write-one slot (also the read slot), or 2 for a reset.
    Event(u8),
    End(End),
}

// A stage names the event that was sent last.
#[derive(Clone, Copy)]
pub enum Stage {
    // No event has been sent so far.
    Fresh,
    Reset,
    Command { at: u8 },
    FirstRead { at: u8 },
    // The level of the first read slot was `first`.
    SecondRead { at: u8, first: bool },
    // The direction that was sent is `bit`.
    Direction { at: u8, bit: bool },
    // The master has ended and sends no more events.
    Ended(End),
}

// A master is the state of a search. A step that completes a code hands it up: `passes` is one more than before, and
// `previous` is that code. The fields are private, so that no other crate can build a master: there are only the fresh
// one and those that a step hands back. The last open discrepancy of a pass, where it has one, is the highest bit where
// both read slots read 0 and 0 was sent.
#[derive(Clone, Copy)]
pub struct Master {
    stage: Stage,
    // So many codes are completed.
    passes: u8,
    // This pass has these directions so far, and this last open discrepancy.
    code: [u8; 8],
    opened: Option<u8>,
    // The pass before had this code and this last open discrepancy.
    previous: [u8; 8],
    last: Option<u8>,
}

// A master sends these events besides the slots that send a bit.
pub const RESET: u8 = 2;

const READ_SLOT: u8 = 1;

// The search command goes out in eight slots, least significant bit first.
const SEARCH_ROM: u8 = 0xF0;

const COMMAND_BITS: u8 = 8;

// A registration code has 64 bits, which are 8 bytes.
const CODE_BITS: u8 = 64;

pub const CODE_BYTES: usize = 8;

// A search takes at most so many passes, as there are at most 64 devices.
const MOST_PASSES: u8 = 64;

// A pass is a reset and the 200 slots after it.
pub const PASS_EVENTS: usize = 201;

// A step returns its answer, and the master for the next step. The fields are private, so that only a step makes one.
#[derive(Clone, Copy)]
pub struct Step {
    answer: Answer,
    next: Master,
}

impl Step {
    pub fn answer(self) -> Answer
        ensures { result ≡ self.answer }
    {
        self.answer
    }

    pub fn next(self) -> Master
        ensures { result ≡ self.next }
    {
        self.next
    }
}

// A master that has come to a stage answers with that stage's event, or with its end. The slot that sends a bit is the
// event of the same value.
// As it is: it is the rule of what a stage sends, and so is no conversion of one value into another.
#[tactic(auto, unfolding(crate::specs::Master::answer_of, crate::specs::Master::slot_event))]
fn answer_of(stage: Stage) -> Answer
    ensures { result ≡ answer_of stage }
{
    match stage {
        Stage::Fresh | Stage::Reset => Answer::Event(RESET),
        Stage::Command { at } => Answer::Event(u8::from(bits::bit_of(SEARCH_ROM, at))),
        Stage::FirstRead { .. } | Stage::SecondRead { .. } => Answer::Event(READ_SLOT),
        Stage::Direction { bit, .. } => Answer::Event(u8::from(bit)),
        Stage::Ended(end) => Answer::End(end),
    }
}

// Where both read slots read 0, the direction is the previous code's bit before the last open discrepancy, 1 at it, and
// 0 after it or where none is open.
#[tactic(auto, unfolding(crate::specs::Master::at_discrepancy))]
fn at_discrepancy(last: Option<u8>, previous: [u8; 8], at: u8) -> bool
    ensures { result ≡ at_discrepancy last previous at }
{
    match last {
        None => false,
        Some(open) if at < open => bits::bit_at(&previous, usize::from(at)),
        Some(open) => at == open,
    }
}

// The search goes on while a discrepancy is open, up to 64 passes.
#[tactic(auto, unfolding(crate::specs::Master::stage_after_pass))]
fn after_pass(opened: Option<u8>, passes: u8) -> Stage
    ensures { result ≡ stage_after_pass opened passes }
{
    match opened {
        None => Stage::Ended(End::Done),
        Some(_) if passes < MOST_PASSES => Stage::Reset,
        Some(_) => Stage::Ended(End::Unexplored),
    }
}

impl Master {
    // A pass completes one code, so that this is also the number of completed codes.
    pub fn passes(self) -> u8
        ensures { result ≡ self.passes }
    {
        self.passes
    }

    // A fresh master has sent nothing.
    #[tactic(auto, unfolding(crate::specs::Master::fresh_master))]
    pub fn fresh() -> Master
        ensures { result ≡ fresh_master }
    {
        Master {
            stage: Stage::Fresh,
            passes: 0,
            code: [0; 8],
            opened: None,
            previous: [0; 8],
            last: None,
        }
    }

    // A master is in range if a fresh one can come to its numbers.
    // As it is: with one arm for the three stages of a bit a search of one device takes some hundredths longer.
    // As it is: no invariant holds the range, as `master_after_level` says what a step of any other master does.
    #[tactic(auto, unfolding(crate::specs::Master::master_in_range, crate::specs::Master::stage_in_range))]
    fn in_range(self) -> bool
        ensures { result ≡ master_in_range self }
    {
        match self.stage {
            Stage::Fresh | Stage::Ended(_) => true,
            Stage::Reset => self.passes < MOST_PASSES,
            Stage::Command { at } => at < COMMAND_BITS && self.passes < MOST_PASSES,
            Stage::FirstRead { at } => at < CODE_BITS && self.passes < MOST_PASSES,
            Stage::SecondRead { at, .. } => at < CODE_BITS && self.passes < MOST_PASSES,
            Stage::Direction { at, .. } => at < CODE_BITS && self.passes < MOST_PASSES,
        }
    }

    // This is the same master in another stage.
    #[tactic(auto, unfolding(crate::specs::Master::master_at_stage))]
    fn with_stage(self, stage: Stage) -> Master
        ensures { result ≡ master_at_stage self stage }
    {
        Master { stage, ..self }
    }

    // Level 0 after a reset is presence, which begins the command. No presence ends the search, with a number unless it
    // is the first reset.
    #[tactic(auto, unfolding(crate::specs::Master::master_after_reset))]
    fn after_reset(self, level: bool) -> Master
        ensures { result ≡ master_after_reset self level }
    {
        if !level {
            self.with_stage(Stage::Command { at: 0 })
        } else if self.passes == 0 {
            self.with_stage(Stage::Ended(End::Done))
        } else {
            self.with_stage(Stage::Ended(End::NoDevice))
        }
    }

    // After a bit of the command comes the next one, or the first read slot of bit 0.
    #[tactic(auto, unfolding(crate::specs::Master::master_after_command))]
    fn after_command(self, at: u8) -> Master
        ensures { result ≡ master_after_command self at }
    {
        if at < COMMAND_BITS - 1 {
            self.with_stage(Stage::Command { at: at + 1 })
        } else {
            self.with_stage(Stage::FirstRead { at: 0 })
        }
    }

    // A direction is sent, and becomes the bit of this pass's code.
    #[tactic(auto, unfolding(crate::specs::Master::send_direction))]
    fn send_direction(self, at: u8, bit: bool, opened: Option<u8>) -> Master
        ensures { result ≡ send_direction self at bit opened }
    {
        let mut code = self.code;
        bits::put_bit(&mut code, usize::from(at), bit);
        Master {
            stage: Stage::Direction { at, bit },
            code,
            opened,
            ..self
        }
    }

    // The levels of both read slots decide the direction; at 1,1 no device is left on the bus that answers.
    // As it is: with a match on the pair of levels a search of one device takes a tenth longer.
    #[tactic(auto, unfolding(crate::specs::Master::master_after_reads, crate::specs::Master::open_after))]
    fn after_reads(self, at: u8, first: bool, second: bool) -> Master
        ensures { result ≡ master_after_reads self at first second }
    {
        if first && second {
            self.with_stage(Stage::Ended(End::NoDevice))
        } else if first {
            self.send_direction(at, true, self.opened)
        } else if second {
            self.send_direction(at, false, self.opened)
        } else if at_discrepancy(self.last, self.previous, at) {
            self.send_direction(at, true, self.opened)
        } else {
            self.send_direction(at, false, Some(at))
        }
    }

    // The pass's code is completed, and with its last open discrepancy it guides the next pass.
    #[tactic(auto, unfolding(crate::specs::Master::pass_completed))]
    fn completed(self, stage: Stage) -> Master
        requires { self.passes < most_passes }
        ensures { result ≡ pass_completed self stage }
    {
        let previous = self.code;
        Master {
            stage,
            passes: self.passes + 1,
            code: [0; 8],
            opened: None,
            previous,
            last: self.opened,
        }
    }

    // A pass ends with its code completed, or with the end of the search where the code fails the CRC.
    #[tactic(auto, unfolding(crate::specs::Master::pass_end))]
    fn pass_end(self) -> Master
        requires { self.passes < most_passes }
        ensures { result ≡ pass_end self }
    {
        // As it is: with the field itself lent, and no copy, a search of one device takes a twentieth longer.
        let code = self.code;
        if !bits::registration_check(&code) {
            return self.with_stage(Stage::Ended(End::WrongCrc));
        }
        self.completed(after_pass(self.opened, self.passes + 1))
    }

    // After a direction comes the next bit, or the end of the pass.
    #[tactic(auto, unfolding(crate::specs::Master::master_after_direction))]
    fn after_direction(self, at: u8) -> Master
        requires { self.passes < most_passes }
        ensures { result ≡ master_after_direction self at }
    {
        if at < CODE_BITS - 1 {
            self.with_stage(Stage::FirstRead { at: at + 1 })
        } else {
            self.pass_end()
        }
    }

    // This is the master after a step. One that is out of range, which no fresh master comes to, counts as ended.
    #[tactic(auto, unfolding(crate::specs::Master::master_after_level, crate::specs::Master::step_by_stage))]
    fn after(self, level: bool) -> Master
        ensures { result ≡ master_after_level self level }
    {
        if !self.in_range() {
            return self.with_stage(Stage::Ended(End::Done));
        }
        match self.stage {
            Stage::Fresh => Master::fresh().with_stage(Stage::Reset),
            Stage::Reset => self.after_reset(level),
            Stage::Command { at } => self.after_command(at),
            Stage::FirstRead { at } => self.with_stage(Stage::SecondRead { at, first: level }),
            Stage::SecondRead { at, first } => self.after_reads(at, first, level),
            Stage::Direction { at, .. } => self.after_direction(at),
            Stage::Ended(_) => self,
        }
    }

    // One step is given the level of the event that was sent last; nonzero counts as 1.
    pub fn step(self, level: u8) -> Step
        ensures { (result ≡ step_of self level)
            × (answer_value result.answer ≡ master_answer (next_master self level)) }
    {
        let next = self.after(level != 0);
        Step {
            answer: answer_of(next.stage),
            next,
        }
    }
}
