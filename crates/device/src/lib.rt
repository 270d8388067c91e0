// This crate is one device on the line: its line state by value, and what a slot, a reset and a program pulse leave of
// it and of its body.
//
// A slot is two functions, which are given the level of the line in a slot that the device hears: `step` returns the
// line state after it and only reads the body; `slot` returns the same line state, changes the body and says what a
// copy did. Inside a transfer both are `shifted`, and in its last slot the stage decides. In `sends`, `step`, `slot`,
// `reset`, `pulsed` and `pulse` a line state that the device cannot be in counts as waiting. Their versions that end in
// `_as_is` leave that test out: no slot, reset or pulse leads out of the range (proofs/Range.antt), so that a run and a
// search, whose devices wait at the start, take the step as it is.
#![tactic(auto)]

ghost use Rattle.std.specs.Prelude.{◌≡◌};
ghost use Rattle.line.specs.Transfers.{goes_on, last_slot, shifted};
ghost use Rattle.device.specs.Device.{memory_command, memory_next, stage_next, memory_write, stage_write};
ghost use Rattle.device.specs.Device.{memory_reset, stage_reset, stage_pulse, stage_program};
ghost use Rattle.sram.specs.Sram.{bytes_copied};
ghost use Rattle.device.specs.Device.{memory_copy, stage_copy, copy_in_slot_as_is, copy_in_slot};
ghost use Rattle.device.specs.Device.{stepped, line_state, reset_at, stage_speed};
ghost use Rattle.device.specs.Device.{waiting_state, waits, sends_as_is, state_after_slot_as_is};
ghost use Rattle.device.specs.Device.{body_after_slot_as_is, body_after_reset_as_is};
ghost use Rattle.device.specs.Device.{state_after_pulse_as_is, body_after_pulse_as_is, memory_range, stage_range};
ghost use Rattle.device.specs.Device.{line_state_in_range, or_waiting, sends_of};
ghost use Rattle.device.specs.Device.{state_after_slot, body_after_slot, body_after_reset, state_after_pulse};
ghost use Rattle.device.specs.Device.{body_after_pulse};

use kind::Kind;
use line::{MemoryStage, Stage, Transfer};
use sram::Written;

// A line state is where a device is on the line: document 01's line record.
#[derive(Clone, Copy)]
pub struct LineState {
    pub transfer: Transfer,
    // The device is at overdrive speed, else at regular speed.
    pub overdrive: bool,
}

// A slot hands up the line state after it, and what a copy did in it, where one was made.
#[derive(Clone, Copy)]
pub struct Stepped {
    pub next: LineState,
    pub copy: Option<Written>,
}

// ---- the end of a transfer, by the stage

// As it is: kind, body, speed, byte and level are no struct, as the arms hand on other parts of it, some to be written.

// A memory command leads to the first transfer of a memory function of the device's kind.
#[tactic(auto, unfolding(crate::specs::Device::memory_command))]
fn memory_command(kind: Kind, value: u8, body: &[u8]) -> Transfer
    ensures { result ≡ memory_command kind value body.now }
{
    match kind {
        Kind::Sram { .. } => sram::command(value, body),
        Kind::Eprom => eprom::command(value),
        Kind::Unknown => line::waiting(),
    }
}

#[tactic(auto, unfolding(crate::specs::Device::memory_next))]
fn memory_next(m: MemoryStage, kind: Kind, value: u8, body: &[u8]) -> Transfer
    ensures { result ≡ memory_next m kind value body.now }
{
    match m {
        MemoryStage::Command => memory_command(kind, value, body),
        MemoryStage::Sram(s) => sram::next(s, kind::memory_size(kind), value, body),
        MemoryStage::Eprom(e) => eprom::next(e, value, body),
    }
}

// When the transfer of a stage ends, in which `value` was received and whose last slot was at `level`, this transfer
// follows it. The device was at overdrive in it where `overdrive` is true.
#[tactic(auto, unfolding(crate::specs::Device::stage_next))]
fn stage_next(
    stage: Stage,
    kind: Kind,
    overdrive: bool,
    value: u8,
    body: &[u8],
    level: bool,
) -> Transfer
    ensures { result ≡ stage_next stage kind overdrive value body.now level }
{
    match stage {
        Stage::Rom(r) => rom::next(r, kind, overdrive, value, body, level),
        Stage::Memory(m) => memory_next(m, kind, value, body),
    }
}

// This tells whether the device is then at overdrive: only a ROM stage changes the speed.
// As it is: next and speed are two functions, as `rom_next` and `rom_speed` are two definitions, and most are plain.
#[tactic(auto, unfolding(crate::specs::Device::stage_speed))]
fn stage_speed(
    stage: Stage,
    kind: Kind,
    overdrive: bool,
    value: u8,
    body: &[u8],
    level: bool,
) -> bool
    ensures { result ≡ stage_speed stage kind overdrive value body.now level }
{
    match stage {
        Stage::Rom(r) => rom::speed(r, kind, overdrive, value, body, level),
        Stage::Memory(_) => overdrive,
    }
}

fn stepped_to(transfer: Transfer, overdrive: bool, copy: Option<Written>) -> Stepped
    ensures { result ≡ stepped (line_state transfer overdrive) copy }
{
    Stepped {
        next: LineState {
            transfer,
            overdrive,
        },
        copy,
    }
}

// The next transfer is worked out from the body as it was: it comes before the body changes.
fn memory_end(
    m: MemoryStage,
    kind: Kind,
    overdrive: bool,
    value: u8,
    body: &mut [u8],
    level: bool,
) -> Stepped
    ensures { (result ≡ stepped (line_state (memory_next m kind value body.old) overdrive)
        (memory_copy m kind value body.old))
        × (body.new ≡ memory_write m kind value body.old level) }
{
    match m {
        MemoryStage::Command => {
            let next = memory_command(kind, value, body);
            stepped_to(next, overdrive, None)
        }
        MemoryStage::Sram(s) => {
            let size = kind::memory_size(kind);
            let next = sram::next(s, size, value, body);
            let copy = sram::write(s, size, value, body, level);
            stepped_to(next, overdrive, copy)
        }
        MemoryStage::Eprom(e) => {
            let next = eprom::next(e, value, body);
            stepped_to(next, overdrive, None)
        }
    }
}

// The end of a transfer changes the body; this is the line state after it, and what a copy did. Only a DS1992,
// DS1993 or DS1996 writes in a slot.
fn stage_end(
    stage: Stage,
    kind: Kind,
    overdrive: bool,
    value: u8,
    body: &mut [u8],
    level: bool,
) -> Stepped
    ensures { (result ≡ stepped (line_state (stage_next stage kind overdrive value body.old level)
        (stage_speed stage kind overdrive value body.old level))
        (stage_copy stage kind value body.old))
        × (body.new ≡ stage_write stage kind value body.old level) }
{
    match stage {
        Stage::Rom(r) => {
            let next = rom::next(r, kind, overdrive, value, body, level);
            let speed = rom::speed(r, kind, overdrive, value, body, level);
            stepped_to(next, speed, None)
        }
        Stage::Memory(m) => memory_end(m, kind, overdrive, value, body, level),
    }
}

// ---- a reset and a program pulse, by the stage

// Of the memory functions only that of a DS1992, DS1993 or DS1996 changes the body in a reset.
// As it is: this is a function of its own, as one test of both stages takes a third more time in a reset.
#[tactic(auto, unfolding(crate::specs::Device::memory_reset))]
fn memory_reset(m: MemoryStage, body: &mut [u8])
    ensures { body.new ≡ memory_reset m body.old }
{
    if let MemoryStage::Sram(s) = m {
        sram::reset(s, body);
    }
}

// This changes the body as a reset does in a stage.
#[tactic(auto, unfolding(crate::specs::Device::stage_reset))]
fn stage_reset(stage: Stage, body: &mut [u8])
    ensures { body.new ≡ stage_reset stage body.old }
{
    match stage {
        Stage::Rom(_) => {}
        Stage::Memory(m) => memory_reset(m, body),
    }
}

// This is the transfer after a program pulse that comes in a stage, in which `transfer` is under way. Only the memory
// function of a DS1982 takes a pulse.
#[tactic(auto, unfolding(crate::specs::Device::stage_pulse, crate::specs::Device::memory_pulse))]
fn stage_pulse(stage: Stage, transfer: Transfer, body: &[u8]) -> Transfer
    ensures { result ≡ stage_pulse stage transfer body.now }
{
    match stage {
        Stage::Memory(MemoryStage::Eprom(e)) => eprom::pulse(e, transfer, body),
        _ => transfer,
    }
}

// This changes the body as a program pulse does in a stage.
#[tactic(auto, unfolding(crate::specs::Device::stage_program, crate::specs::Device::memory_program))]
fn stage_program(stage: Stage, body: &mut [u8])
    ensures { body.new ≡ stage_program stage body.old }
{
    if let Stage::Memory(MemoryStage::Eprom(e)) = stage {
        eprom::program(e, body);
    }
}

// ---- the range, by the stage

#[tactic(auto, unfolding(crate::specs::Device::memory_range))]
fn memory_in_range(m: MemoryStage, kind: Kind, left: u8) -> bool
    ensures { result ≡ memory_range m kind left }
{
    match m {
        MemoryStage::Command => line::under_way(8, left),
        MemoryStage::Sram(s) => {
            kind::is_sram(kind) && sram::in_range(s, kind::memory_size(kind), left)
        }
        MemoryStage::Eprom(e) => kind::is_eprom(kind) && eprom::in_range(e, left),
    }
}

// A device with a flat battery is in no memory stage.
#[tactic(auto, unfolding(crate::specs::Device::stage_range))]
fn stage_in_range(stage: Stage, kind: Kind, overdrive: bool, register: u8, left: u8) -> bool
    ensures { result ≡ stage_range stage kind overdrive register left }
{
    match stage {
        Stage::Rom(r) => rom::in_range(r, overdrive, register, left),
        Stage::Memory(m) => !kind::is_flat(kind) && memory_in_range(m, kind, left),
    }
}

impl Stepped {
    // This is the number of bytes that were copied to memory in the slot; it is 0 where no copy was made, too.
    #[tactic(auto, unfolding(sram::specs::Sram::bytes_copied))]
    pub fn bytes(self) -> u8
        ensures { result ≡ bytes_copied self.copy }
    {
        self.copy.map_or(0, |written| written.bytes)
    }
}

impl LineState {
    // Every device waits at the start of a run, at regular speed.
    pub fn waiting() -> LineState
        ensures { result ≡ waiting_state }
    {
        LineState {
            transfer: line::waiting(),
            overdrive: false,
        }
    }

    // A reset leaves a device at the ROM command, at the speed of the reset.
    pub fn at_reset(overdrive: bool) -> LineState
        ensures { result ≡ reset_at overdrive }
    {
        LineState {
            transfer: line::at_rom_command(),
            overdrive,
        }
    }

    // ---- a line state as it is

    // A device waits that is at regular speed and has no transfer under way: it stays as it is until a reset. The loop
    // of the slots asks most devices nothing else: the slots left and the speed are compared with 0 in one test.
    pub fn waits(self) -> bool
        ensures { result ≡ waits self }
    {
        (self.transfer.left | u8::from(self.overdrive)) == 0
    }

    // This is the level that the device sends in a slot.
    #[tactic(auto, unfolding(crate::specs::Device::sends_as_is, line::specs::Transfers::transfer_sends))]
    pub fn sends_as_is(self) -> bool
        ensures { result ≡ sends_as_is self }
    {
        line::sends(self.transfer.register)
    }

    // A transfer goes on if slots are left of it after the next one. The next one then needs neither the kind nor the
    // body, and changes no body.
    pub fn goes_on(self) -> bool
        ensures { result ≡ goes_on self.transfer }
    {
        line::goes_on(self.transfer.left)
    }

    // The next slot is the last of the transfer.
    pub fn is_last(self) -> bool
        ensures { result ≡ last_slot self.transfer }
    {
        self.transfer.left == 1
    }

    // This is the line state after a slot at a level that does no more than shift the register: one after which slots
    // of the transfer are left.
    pub fn shifted(self, level: bool) -> LineState
        ensures { result ≡ line_state (shifted self.transfer level) self.overdrive }
    {
        let register = bits::shift_in(self.transfer.register, level);
        let left = line::one_less(self.transfer.left);
        let mut next = self;
        next.transfer.register = register;
        next.transfer.left = left;
        next
    }

    // This is the line state after a slot at a level: inside a transfer the register is shifted, and after its last
    // slot the stage and the byte received decide.
    pub fn step_as_is(self, kind: Kind, body: &[u8], level: bool) -> LineState
        ensures { result ≡ state_after_slot_as_is self kind body.now level }
    {
        if self.goes_on() {
            return self.shifted(level);
        }
        let transfer = self.transfer;
        let stage = transfer.stage;
        let overdrive = self.overdrive;
        let value = bits::shift_in(transfer.register, level);
        LineState {
            transfer: stage_next(stage, kind, overdrive, value, body, level),
            overdrive: stage_speed(stage, kind, overdrive, value, body, level),
        }
    }

    // This is the line state after a slot at a level, and what a copy did in it; the body is changed as the slot does.
    // Only the last slot of a transfer can change it.
    pub fn slot_as_is(self, kind: Kind, body: &mut [u8], level: bool) -> Stepped
        ensures { (result ≡ stepped (state_after_slot_as_is self kind body.old level)
            (copy_in_slot_as_is self kind body.old level))
            × (body.new ≡ body_after_slot_as_is self kind body.old level) }
    {
        if self.goes_on() {
            return Stepped {
                next: self.shifted(level),
                copy: None,
            };
        }
        let transfer = self.transfer;
        let stage = transfer.stage;
        let value = bits::shift_in(transfer.register, level);
        stage_end(stage, kind, self.overdrive, value, body, level)
    }

    // A reset changes the body by the stage in which it comes, and leaves the device at the ROM command, at the speed
    // of the reset.
    #[tactic(auto, unfolding(crate::specs::Device::body_after_reset_as_is))]
    pub fn reset_as_is(self, body: &mut [u8], overdrive: bool) -> LineState
        ensures { (result ≡ reset_at overdrive)
            × (body.new ≡ body_after_reset_as_is self body.old) }
    {
        stage_reset(self.transfer.stage, body);
        LineState::at_reset(overdrive)
    }

    // This is the line state after a program pulse.
    #[tactic(auto, unfolding(crate::specs::Device::state_after_pulse_as_is))]
    pub fn pulsed_as_is(self, body: &[u8]) -> LineState
        ensures { result ≡ state_after_pulse_as_is self body.now }
    {
        LineState {
            transfer: stage_pulse(self.transfer.stage, self.transfer, body),
            overdrive: self.overdrive,
        }
    }

    // A program pulse changes the body, and this returns the line state after it, which is worked out first, from the
    // body as it was.
    pub fn pulse_as_is(self, body: &mut [u8]) -> LineState
        ensures { (result ≡ state_after_pulse_as_is self body.old)
            × (body.new ≡ body_after_pulse_as_is self body.old) }
    {
        let next = self.pulsed_as_is(body);
        stage_program(self.transfer.stage, body);
        next
    }

    // ---- any line state

    // As it is: each of these is another method after `or_waiting`, which one function for all would have to be given.

    // A line state is in range if it is one that the device can be in.
    #[tactic(auto, unfolding(crate::specs::Device::line_state_in_range))]
    pub fn in_range(self, kind: Kind, body: &[u8]) -> bool
        ensures { result ≡ line_state_in_range self kind body.now }
    {
        let transfer = self.transfer;
        let stage = transfer.stage;
        let overdrive = self.overdrive;
        let sized = body.len() == kind::body_size(kind);
        let known = kind::is_speed_known(kind, overdrive);
        sized && known && stage_in_range(stage, kind, overdrive, transfer.register, transfer.left)
    }

    // A line state that the device cannot be in counts as waiting. The test stands in this one place.
    #[tactic(auto, unfolding(crate::specs::Device::or_waiting))]
    pub fn or_waiting(self, kind: Kind, body: &[u8]) -> LineState
        ensures { result ≡ or_waiting self kind body.now }
    {
        if self.in_range(kind, body) {
            self
        } else {
            LineState::waiting()
        }
    }

    // This is the level that the device sends in a slot that it hears.
    #[tactic(auto, unfolding(crate::specs::Device::sends_of))]
    pub fn sends(self, kind: Kind, body: &[u8]) -> bool
        ensures { result ≡ sends_of self kind body.now }
    {
        self.or_waiting(kind, body).sends_as_is()
    }

    // This is the line state after a slot at a level; the body is only read.
    #[tactic(auto, unfolding(crate::specs::Device::state_after_slot))]
    pub fn step(self, kind: Kind, body: &[u8], level: bool) -> LineState
        ensures { result ≡ state_after_slot self kind body.now level }
    {
        self.or_waiting(kind, body).step_as_is(kind, body, level)
    }

    // This is the line state after a slot at a level, and what a copy did in it; the body is changed as the slot does.
    pub fn slot(self, kind: Kind, body: &mut [u8], level: bool) -> Stepped
        ensures { (result ≡ stepped (state_after_slot self kind body.old level)
            (copy_in_slot self kind body.old level))
            × (body.new ≡ body_after_slot self kind body.old level) }
    {
        let state = self.or_waiting(kind, body);
        state.slot_as_is(kind, body, level)
    }

    // A reset that the device hears changes the body by the stage in which it comes, and leaves the device at the ROM
    // command, at the speed of the reset.
    #[tactic(auto, unfolding(crate::specs::Device::body_after_reset))]
    pub fn reset(self, kind: Kind, body: &mut [u8], overdrive: bool) -> LineState
        ensures { (result ≡ reset_at overdrive)
            × (body.new ≡ body_after_reset self kind body.old) }
    {
        let state = self.or_waiting(kind, body);
        state.reset_as_is(body, overdrive)
    }

    // This is the line state after a program pulse; the body is only read.
    #[tactic(auto, unfolding(crate::specs::Device::state_after_pulse))]
    pub fn pulsed(self, kind: Kind, body: &[u8]) -> LineState
        ensures { result ≡ state_after_pulse self kind body.now }
    {
        self.or_waiting(kind, body).pulsed_as_is(body)
    }

    // A program pulse changes the body, and this returns the line state after it.
    #[tactic(auto, unfolding(crate::specs::Device::state_after_pulse, crate::specs::Device::body_after_pulse))]
    pub fn pulse(self, kind: Kind, body: &mut [u8]) -> LineState
        ensures { (result ≡ state_after_pulse self kind body.old)
            × (body.new ≡ body_after_pulse self kind body.old) }
    {
        let state = self.or_waiting(kind, body);
        state.pulse_as_is(body)
    }
}
