// This crate is all devices on the line: the level of an event, which every device is given, and the run of a trace.
//
// The image holds the devices' bodies, and a lent slice holds their line states. One device's part in an event is a
// function by value over the image and its line state; the loops over all devices, over the trace, and the run above
// them only fetch, call and store.
#![tactic(auto)]

ghost use Rattle.std.specs.Prelude.{◌≡◌, ◌≤◌, ◌+◌, ◌-◌, true, false, not, length, eqb, ltb};
ghost use Rattle.image.specs.Image.{count_of, kind_at};
ghost use Rattle.image.specs.Refusal.{some_below, told_number};
ghost use Rattle.kind.specs.Kind.{is_eprom};
ghost use Rattle.bus.specs.Bus.{event_of, hears, master_high, read_slot, is_slot, is_overdrive};
ghost use Rattle.bus.specs.Refusal.{some_byte, bad_trace, no_first_reset, bad_pulse, no_run_room};
ghost use Rattle.bus.specs.Refusal.{run_refusal};
ghost use Rattle.bus.specs.Run.{RunLeaves, run_of, run_told};
ghost use Rattle.bus.specs.Loops.{place_in, asked_of, goes_on_at, scan_where, turn_state, turn_image, leaves_high};
ghost use Rattle.bus.specs.Loops.{slot_byte, image_with_body, moves_in, ends_in, passes_from, shifted_from};
ghost use Rattle.bus.specs.Loops.{turn_copied, slot_turn, copied_up_to, copied_on, event_result};
ghost use Rattle.bus.specs.Loops.{copied_by_events, heard_state_as_is, heard_body_as_is, device_in};
ghost use Rattle.bus.specs.Loops.{fewer_of, scan_on, step_on};
ghost use Rattle.bus.specs.Loops.{turn_states_of, bus_state, turns_up_to, filled_up_to, run_state, run_events_up_to};
ghost use Rattle.device.specs.Device.{waiting_state};

use device::LineState;
use image::{Entry, Refusal};
use kind::Kind;

// An event on the line is a slot in which the master sends a bit, a reset, or a program pulse; slots and resets come at
// regular speed or at overdrive.
#[derive(Clone, Copy)]
pub enum Event {
    Slot(bool),
    Reset,
    Pulse,
    OverdriveSlot(bool),
    OverdriveReset,
}

// A place is a device's kind and the part of the image that is its body.
#[derive(Clone, Copy)]
pub struct Place {
    pub kind: Kind,
    pub start: usize,
    pub end: usize,
}

// A scan is the level of an event, and how many devices count as looked at for it: in a slot in which the master sends
// 1, at either speed, those up to the first that pulls low, in entry order, else none.
#[derive(Clone, Copy)]
pub struct Scan {
    pub level: bool,
    pub looked: usize,
}

// The part of a device in an event leaves it in a line state, and copies so many bytes to its memory.
#[derive(Clone, Copy)]
struct SlotTurn {
    next: LineState,
    copied: u64,
}

// An event has a level, for which so many devices were looked at, and all devices together copy so many bytes in it.
#[derive(Clone, Copy)]
pub struct EventResult {
    pub level: bool,
    pub looked: usize,
    pub copied: u64,
}

// A run refuses a trace that is longer than this.
const MOST_EVENTS: usize = 32768;

// ---- one device

// Each byte of a trace is an event: 0 and 1 are slots, 2 is a reset, 4, 5 and 6 are the same at overdrive, and any
// other counts as the program pulse. A run refuses bytes over 6 before it comes here.
impl From<u8> for Event {
    ghost from_gives = { λ byte event. event ≡ event_of byte };

    #[tactic(auto, unfolding(crate::specs::Bus::event_of))]
    fn from(byte: u8) -> Self {
        match byte {
            0 => Event::Slot(false),
            1 => Event::Slot(true),
            2 => Event::Reset,
            4 => Event::OverdriveSlot(false),
            5 => Event::OverdriveSlot(true),
            6 => Event::OverdriveReset,
            _ => Event::Pulse,
        }
    }
}

// The slots are events 0 and 1 at regular speed, and 4 and 5 at overdrive.
// As it is: a slot is told by its byte, here and below, as a run that makes an `Event` of each takes a tenth more time.
#[tactic(auto, unfolding(crate::specs::Bus::event_of, crate::specs::Bus::is_slot))]
fn is_slot(byte: u8) -> bool
    ensures { result ≡ is_slot (event_of byte) }
{
    matches!(byte, 0 | 1 | 4 | 5)
}

// The events at overdrive are 4, 5 and 6. The program pulse has no speed.
#[tactic(auto, unfolding(crate::specs::Bus::event_of, crate::specs::Bus::is_overdrive))]
fn is_overdrive(byte: u8) -> bool
    ensures { result ≡ is_overdrive (event_of byte) }
{
    matches!(byte, 4..=6)
}

// The master sends 1 in a slot, an event 1 or 5.
#[tactic(auto, unfolding(crate::specs::Bus::event_of, crate::specs::Bus::read_slot))]
fn is_read_slot(byte: u8) -> bool
    ensures { result ≡ read_slot (event_of byte) }
{
    matches!(byte, 1 | 5)
}

// The master holds the line low in a slot in which it sends 0, an event 0 or 4.
#[tactic(auto, unfolding(crate::specs::Bus::event_of, crate::specs::Bus::master_high))]
fn holds_low(byte: u8) -> bool
    ensures { result ≡ not (master_high (event_of byte)) }
{
    matches!(byte, 0 | 4)
}

// A device hears a slot that comes at its own speed, and an overdrive reset if it is at overdrive. Every device hears a
// regular reset and a program pulse.
#[tactic(auto, unfolding(crate::specs::Bus::hears))]
fn hears(event: Event, state: LineState) -> bool
    ensures { result ≡ hears event state }
{
    match event {
        Event::Slot(_) => !state.overdrive,
        Event::Reset | Event::Pulse => true,
        Event::OverdriveSlot(_) | Event::OverdriveReset => state.overdrive,
    }
}

// In an event a device leaves the line high if it does not hear it, or if it answers with a 1: in a slot it answers
// with what it sends, and in a reset with its presence, a 0. In a regular slot most devices send a 1, so that this is
// asked first, and of most devices nothing else.
fn leaves_high(byte: u8, state: LineState) -> bool
    ensures { result ≡ leaves_high (event_of byte) state }
{
    match byte {
        0 | 1 => state.sends_as_is() || state.overdrive,
        2 => false,
        4 | 5 => !state.overdrive | state.sends_as_is(),
        6 => !state.overdrive,
        _ => true,
    }
}

// The place of device i is found from its entry alone, so that the cost does not depend on i. A device that the image
// does not have, or for whose entry or body it has no room, has an empty body and no kind.
// As it is: `place_in` says a place of every device, which callers take as a device, so that there is no `Option`.
pub fn place_of(image: &[u8], i: usize) -> Place
    ensures { result ≡ place_in image.now i }
{
    if i < device_count(image) && 5 + 4 * i < image.len() {
        // As it is: i is below the count of devices, a byte, and no From goes from usize to u8.
        let Entry { kind, start } = image::entry_at(image, i as u8);
        let end = start + kind::body_size(kind);
        if end <= image.len() {
            return Place { kind, start, end };
        }
    }
    Place {
        kind: Kind::Unknown,
        start: 0,
        end: 0,
    }
}

// All of n devices are asked for the level of an event, and none where the master holds the line low: the level then
// does not depend on what they send.
#[tactic(auto, unfolding(crate::specs::Loops::asked_of))]
fn asked(byte: u8, n: usize) -> usize
    ensures { result ≡ asked_of (event_of byte) n }
{
    if holds_low(byte) { 0 } else { n }
}

// The scan of an event goes on until a device pulls low or the last has been asked.
// As it is: a must-fail edit (scan_and_its_end_past_the_first_low) holds that `goes_on_at` says where the scan ends.
#[tactic(auto, unfolding(crate::specs::Loops::goes_on_at))]
fn looks_on(high: bool, looked: usize, asked: usize) -> bool
    ensures { result ≡ goes_on_at high looked asked }
{
    high & (looked < asked)
}

// A scan is the level of an event, where `high` tells whether those that were asked leave the line high, together with
// the number of devices that were looked at for it. They are counted only in a slot in which the master sends 1.
#[tactic(auto, unfolding(crate::specs::Loops::scan_where))]
fn scan_of(byte: u8, high: bool, looked: usize) -> Scan
    ensures { result ≡ scan_where (event_of byte) high looked }
{
    Scan {
        level: !holds_low(byte) & high,
        looked: if is_read_slot(byte) { looked } else { 0 },
    }
}

// A slot does nothing to a device at its own speed that has no transfer under way, and a slot at overdrive nothing to
// one at regular speed, which does not hear it. To any other it does something: a regular slot makes a device at
// overdrive wait.
#[tactic(auto, unfolding(crate::specs::Loops::moves_in))]
fn moves_in(state: LineState, overdrive: bool) -> bool
    ensures { result ≡ moves_in overdrive state }
{
    if overdrive {
        state.overdrive & (state.transfer.left != 0)
    } else {
        !state.waits()
    }
}

// A slot does more to a device than shift its register where it is the last of the device's transfer, or where it comes
// at regular speed and finds the device at overdrive.
#[tactic(auto, unfolding(crate::specs::Loops::ends_in))]
fn ends_in(state: LineState, overdrive: bool) -> bool
    ensures { result ≡ ends_in overdrive state }
{
    if overdrive {
        state.overdrive & state.is_last()
    } else {
        state.overdrive | state.is_last()
    }
}

// This is device i's part in a slot at a level that is the last of its transfer, or that comes at regular speed and
// finds it at overdrive, where `overdrive` tells at which speed the slot comes: a device that a regular slot finds at
// overdrive waits from then on, and any other takes its step. No other slot of a run looks for a body. A run's line
// states are in range from the first event on (proofs/Ranges.antt), so that no range is tested.
#[tactic(auto, using(crate::proofs::Laws::inside_of))]
fn slot(image: &mut [u8], i: usize, state: LineState, overdrive: bool, level: bool) -> SlotTurn
    requires { ends_in overdrive state ≡ true }
    ensures { (result ≡ slot_turn (turn_state image.old i state (slot_byte overdrive) level)
        (turn_copied image.old i state (slot_byte overdrive) level))
        × (image.new ≡ turn_image image.old i state (slot_byte overdrive) level) }
{
    if state.overdrive != overdrive {
        let next = LineState::waiting();
        return SlotTurn { next, copied: 0 };
    }
    let Place { kind, start, end } = place_of(image, i);
    let stepped = state.slot_as_is(kind, &mut image[start..end], level);
    let next = stepped.next;
    let copied = u64::from(stepped.bytes());
    SlotTurn { next, copied }
}

// This is what a reset or a program pulse leaves of device i, which hears it. No slot comes here, so that an event that
// is not a reset is the pulse. The level has no part in it, and is 1 in the contract.
#[tactic(auto, using(crate::proofs::Laws::inside_of))]
fn turn(image: &mut [u8], i: usize, state: LineState, event: Event) -> LineState
    requires { is_slot event ≡ false }
    ensures { (result ≡ heard_state_as_is event true (device_in image.old i state))
        × (image.new ≡ image_with_body image.old (place_in image.old i)
        (heard_body_as_is event true (device_in image.old i state))) }
{
    let Place { start, end, .. } = place_of(image, i);
    let body = &mut image[start..end];
    match event {
        Event::Reset => state.reset_as_is(body, false),
        Event::OverdriveReset => state.reset_as_is(body, true),
        _ => state.pulse_as_is(body),
    }
}

// ---- one device, for a search, which only reads the image
// As it is: these take other methods of a device than `slot` and `turn` do, so that a trait would have both bodies.

// This is device i's line state after a slot at a level that is the last of its transfer, or that comes at regular
// speed and finds it at overdrive, for a search, which only reads the bodies.
#[tactic(auto, using(crate::proofs::Laws::inside_of))]
fn read_slot(image: &[u8], i: usize, state: LineState, overdrive: bool, level: bool) -> LineState
    requires { ends_in overdrive state ≡ true }
    ensures { result ≡ turn_state image.now i state (slot_byte overdrive) level }
{
    if state.overdrive != overdrive {
        return LineState::waiting();
    }
    let Place { kind, start, end } = place_of(image, i);
    state.step_as_is(kind, &image[start..end], level)
}

// This is device i's line state after a reset or a program pulse that it hears, for a search, which only reads the
// bodies.
#[tactic(auto, using(crate::proofs::Laws::inside_of))]
fn read_turn(image: &[u8], i: usize, state: LineState, event: Event) -> LineState
    requires { is_slot event ≡ false }
    ensures { result ≡ heard_state_as_is event true (device_in image.now i state) }
{
    match event {
        Event::Reset => LineState::at_reset(false),
        Event::OverdriveReset => LineState::at_reset(true),
        _ => {
            let Place { start, end, .. } = place_of(image, i);
            state.pulsed_as_is(&image[start..end])
        }
    }
}

// ---- how many devices

// Byte 0 of an image is the number of its devices.
pub fn device_count(image: &[u8]) -> usize
    ensures { result ≡ count_of image.now }
{
    usize::from(image::count(image))
}

// Of n devices, only as many are served as line states are lent.
#[tactic(auto, using(std::proofs::lemmas::Bool::Decides::nat_tests), unfolding(crate::specs::Loops::fewer_of))]
fn served(lines: &[LineState], n: usize) -> usize
    ensures fewer { result ≡ fewer_of n (length lines.now) }
    ensures lent { result ≤ length lines.now }
{
    n.min(lines.len())
}

// ---- why a run is refused

// This tells whether a byte of the trace is over 6.
// As it is: the loop looks at every byte, as `any`, which may end early, compiles to a test of each byte by itself.
#[tactic(auto, using(crate::proofs::Laws::byte_more), unfolding(crate::specs::Refusal::some_byte))]
fn has_unknown_event(trace: &[u8]) -> bool
    ensures { result ≡ some_byte (λ byte. ltb 6 byte) trace.now }
{
    let mut found = false;
    for byte in trace {
        found |= 6 < *byte;
    }
    found
}

// Cause 5 is a trace that is too long, or that has a byte over 6.
#[tactic(auto, unfolding(crate::specs::Refusal::bad_trace))]
fn is_bad_trace(trace: &[u8]) -> bool
    ensures { result ≡ bad_trace trace.now }
{
    MOST_EVENTS < trace.len() || has_unknown_event(trace)
}

// Cause 11 is a trace with events whose first is not a reset, a 2. An empty trace has no event that could come before a
// reset.
#[tactic(auto, unfolding(crate::specs::Refusal::no_first_reset))]
fn lacks_first_reset(trace: &[u8]) -> bool
    ensures { result ≡ no_first_reset trace.now }
{
    match trace.first() {
        Some(first) => *first != 2,
        None => false,
    }
}

// This tells whether a program pulse, a 3, is in the trace.
// As it is: the loop looks at every byte, as `contains`, which may end early, tests each byte by itself.
#[tactic(auto, using(crate::proofs::Laws::byte_more), unfolding(crate::specs::Refusal::some_byte))]
fn has_pulse(trace: &[u8]) -> bool
    ensures { result ≡ some_byte (λ byte. eqb byte 3) trace.now }
{
    let mut found = false;
    for byte in trace {
        found |= *byte == 3;
    }
    found
}

// This tells whether some device is not a DS1982.
fn has_other_kind(image: &[u8]) -> bool
    ensures { result
        ≡ some_below (count_of image.now) (λ i. not (is_eprom (kind_at image.now i))) }
{
    (0..image::count(image)).any(|i| !kind::is_eprom(image::entry_at(image, i).kind))
}

// Cause 6 is a program pulse in the trace while a device is not a DS1982.
#[tactic(auto, unfolding(crate::specs::Refusal::bad_pulse))]
fn is_bad_pulse(image: &[u8], trace: &[u8]) -> bool
    ensures { result ≡ bad_pulse image.now trace.now }
{
    has_pulse(trace) && has_other_kind(image)
}

// Cause 7 is too little room for the answers, or too few line states.
#[tactic(auto, unfolding(crate::specs::Refusal::no_run_room))]
fn lacks_room(image: &[u8], trace: &[u8], answers: usize, lines: usize) -> bool
    ensures { result ≡ no_run_room image.now trace.now answers lines }
{
    answers < trace.len() || lines < device_count(image)
}

// A run is refused for the first cause that applies: one of the image's, then those of the trace and of the room.
pub fn check(image: &[u8], trace: &[u8], answers: usize, lines: usize) -> Result<(), Refusal>
    ensures { told_number result ≡ run_refusal image.now trace.now answers lines }
{
    image::check(image)?;
    if is_bad_trace(trace) {
        return Err(Refusal::BadTrace);
    }
    if lacks_first_reset(trace) {
        return Err(Refusal::NoFirstReset);
    }
    if is_bad_pulse(image, trace) {
        return Err(Refusal::BadPulse);
    }
    if lacks_room(image, trace, answers, lines) {
        return Err(Refusal::NoRoom);
    }
    Ok(())
}

// ---- all devices
// As it is: image and line states are apart, as the level needs no image, and a search lends it only to be read.
// As it is: n stands beside the slice, as `turns_up_to` says what the first n of all lent line states become.
// As it is: the loops go by index, as `turns_up_to` and `shifted_from` speak of all lent line states, not of a part.

// The level of an event on the first n devices comes with how many of them were looked at, for any line states, which
// are not tested for their range. The scan stops at the first device that pulls low, as nothing behind it changes the
// level. A device that waits or does not hear the event is looked at like any other. Only the line states are read, and
// nothing changes.
// As it is: any byte is an event, and tests/forms holds the loop, which looks at one device and ends where one is low.
#[tactic(auto, using(crate::proofs::Levels::scan_turn))]
pub fn level(lines: &[LineState], n: usize, byte: u8) -> Scan
    ensures { result ≡ scan_on lines.now n byte }
{
    let served = served(lines, n);
    let asked = asked(byte, served);
    let mut high = true;
    let mut looked = 0;
    while looks_on(high, looked, asked) {
        let state = lines[looked];
        high = leaves_high(byte, state);
        looked += 1;
    }
    scan_of(byte, high, looked)
}

// The devices from `from` on have their part in a slot at a level, up to the first whose transfer ends in it, or that a
// regular slot finds at overdrive. The number that is returned is the place of that device, or n where there is none.
// Inside a transfer a slot only shifts the register, and a device that waits is passed over, as is one at regular speed
// in a slot at overdrive. Nearly all turns are of this kind, so they have a loop of their own, which loads no more of a
// line state than it asks for: what was stored in parts is slow to load whole.
fn shift_all(lines: &mut [LineState], from: usize, n: usize, overdrive: bool, level: bool) -> usize
    requires { (from ≤ n) × (n ≤ length lines.old) }
    ensures { (result ≡ from + passes_from overdrive (n - from) from lines.old)
        × (lines.new
        ≡ shifted_from overdrive level from (passes_from overdrive (n - from) from lines.old)
        lines.old) }
{
    for i in from..n {
        let state = lines[i];
        if moves_in(state, overdrive) {
            if ends_in(state, overdrive) {
                return i;
            }
            lines[i] = state.shifted(level);
        }
    }
    n
}

// Each of the first n devices has its part in a slot at a level, one after the other, where `overdrive` tells at which
// speed the slot comes; no device's part depends on another's. The bytes that they copy are added up. Slots have a loop
// of their own, as nearly all events are slots.
// As it is: the index goes on to the next device to which more than a shift happens, and not by one.
fn slot_all(
    image: &mut [u8],
    lines: &mut [LineState],
    n: usize,
    overdrive: bool,
    level: bool,
) -> u64
    requires { n ≤ length lines.old }
    ensures { (result
        ≡ copied_up_to (slot_byte overdrive) level n (bus_state image.old lines.old))
        × (bus_state image.new lines.new
        ≡ turns_up_to (slot_byte overdrive) level n (bus_state image.old lines.old)) }
{
    let mut copied: u64 = 0;
    let mut i = shift_all(lines, 0, n, overdrive, level);
    while i < n {
        let state = lines[i];
        let after = slot(image, i, state, overdrive, level);
        lines[i] = after.next;
        copied = copied.saturating_add(after.copied);
        i = shift_all(lines, i + 1, n, overdrive, level);
    }
    copied
}

// Each of the first n devices that hears it has its part in a reset or a program pulse; the others stay as they are.
// The level has no part in it, and is 1 in the contract.
// As it is: the byte is a const parameter, as a loop that tells the event at each device takes twice the time.
fn turn_each<const BYTE: u8>(image: &mut [u8], lines: &mut [LineState], n: usize)
    requires { (n ≤ length lines.old) × (is_slot (event_of BYTE) ≡ false) }
    ensures { bus_state image.new lines.new
        ≡ turns_up_to BYTE true n (bus_state image.old lines.old) }
{
    let event = Event::from(BYTE);
    for i in 0..n {
        let state = lines[i];
        if hears(event, state) {
            lines[i] = turn(image, i, state, event);
        }
    }
}

// Each of the first n devices that hears it has its part in an event that is no slot, which is a reset at one of the
// two speeds or a program pulse; each of the three has a loop of its own.
fn turn_all(image: &mut [u8], lines: &mut [LineState], n: usize, byte: u8)
    requires { (n ≤ length lines.old) × (is_slot (event_of byte) ≡ false) }
    ensures { bus_state image.new lines.new
        ≡ turns_up_to byte true n (bus_state image.old lines.old) }
{
    match Event::from(byte) {
        Event::Reset => turn_each::<2>(image, lines, n),
        Event::OverdriveReset => turn_each::<6>(image, lines, n),
        _ => turn_each::<3>(image, lines, n),
    }
}

// Each of the first n devices has its part in an event at its level. No byte is copied but in a slot.
fn step_event(image: &mut [u8], lines: &mut [LineState], n: usize, byte: u8, level: bool) -> u64
    requires { n ≤ length lines.old }
    ensures { (result ≡ copied_up_to byte level n (bus_state image.old lines.old))
        × (bus_state image.new lines.new
        ≡ turns_up_to byte level n (bus_state image.old lines.old)) }
{
    if is_slot(byte) {
        let overdrive = is_overdrive(byte);
        slot_all(image, lines, n, overdrive, level)
    } else {
        turn_all(image, lines, n, byte);
        0
    }
}

// An event on the bus has a level, which each of the first n devices is then given, and the bytes that they copy are
// added up; image and line states may be any.
// As it is: any byte is taken, and one over 6 counts as a program pulse.
pub fn step(image: &mut [u8], lines: &mut [LineState], n: usize, byte: u8) -> EventResult
    ensures { (result ≡ event_result (scan_on lines.old n byte)
        (copied_on n byte (bus_state image.old lines.old)))
        × (image.new ≡ (step_on n byte (bus_state image.old lines.old)).image)
        × (lines.new ≡ (step_on n byte (bus_state image.old lines.old)).lines) }
{
    let served = served(lines, n);
    let Scan { level, looked } = level(lines, n, byte);
    let copied = step_event(image, lines, served, byte, level);
    EventResult {
        level,
        looked,
        copied,
    }
}

// This leaves the line states of the first n devices as a slot at a level does, where `overdrive` tells at which speed
// the slot comes. The image is only read.
// As it is: the index goes on as that of `slot_all`, whose loop also writes the image and adds bytes up.
fn read_slot_all(image: &[u8], lines: &mut [LineState], n: usize, overdrive: bool, level: bool)
    requires { n ≤ length lines.old }
    ensures { lines.new
        ≡ turn_states_of image.now lines.old n (slot_byte overdrive) level }
{
    let mut i = shift_all(lines, 0, n, overdrive, level);
    while i < n {
        let state = lines[i];
        let after = read_slot(image, i, state, overdrive, level);
        lines[i] = after;
        i = shift_all(lines, i + 1, n, overdrive, level);
    }
}

// This leaves the line states of the first n devices as a reset or a program pulse does. The image is only read. The
// level has no part in it, and is 1 in the contract.
// As it is: one loop for this and `turn_all` would be given the image by a trait, longer than these five lines.
fn read_turn_all(image: &[u8], lines: &mut [LineState], n: usize, byte: u8)
    requires { (n ≤ length lines.old) × (is_slot (event_of byte) ≡ false) }
    ensures { lines.new ≡ turn_states_of image.now lines.old n byte true }
{
    let event = Event::from(byte);
    for i in 0..n {
        let state = lines[i];
        if hears(event, state) {
            lines[i] = read_turn(image, i, state, event);
        }
    }
}

// This leaves the line states of the first n devices as an event at a level does, for any image and any line states.
// The image is only read.
// As it is: any byte is taken, and one over 6 counts as a program pulse.
pub fn step_all(image: &[u8], lines: &mut [LineState], n: usize, byte: u8, level: bool)
    ensures { lines.new ≡ turn_states_of image.now lines.old n byte level }
{
    let served = served(lines, n);
    if is_slot(byte) {
        let overdrive = is_overdrive(byte);
        read_slot_all(image, lines, served, overdrive, level);
    } else {
        read_turn_all(image, lines, served, byte);
    }
}

// Each of the first n devices then waits for a reset, whatever its line state was.
pub fn wait_all(lines: &mut [LineState], n: usize)
    ensures { lines.new
        ≡ filled_up_to (fewer_of n (length lines.old)) waiting_state lines.old }
{
    let served = served(lines, n);
    lines[..served].fill(LineState::waiting());
}

// Each event of a trace on n devices gives its level as an answer, and then to each device. The bytes copied are added
// up over the whole trace.
// As it is: image, trace, answers and line states are arguments of their own, as the C interface lends each by itself.
// As it is: `run_events_up_to` says what the first k answers of all are, so that the loop has k, where a zip has none.
fn run_events(
    image: &mut [u8],
    trace: &[u8],
    answers: &mut [u8],
    lines: &mut [LineState],
    n: usize,
) -> u64
    requires { (length trace.now ≤ length answers.old) × (n ≤ length lines.old) }
    ensures { (result ≡ copied_by_events trace.now n (length trace.now)
        (run_state image.old answers.old lines.old))
        × (run_state image.new answers.new lines.new
        ≡ run_events_up_to trace.now n (length trace.now)
        (run_state image.old answers.old lines.old)) }
{
    let mut copied: u64 = 0;
    for (k, byte) in trace.iter().enumerate() {
        let result = step(image, lines, n, *byte);
        answers[k] = u8::from(result.level);
        copied = copied.saturating_add(result.copied);
    }
    copied
}

// This runs a trace and returns the number of bytes copied. A run that is refused changes nothing; in any other every
// device starts waiting, whatever the line states held.
pub fn run(
    image: &mut [u8],
    trace: &[u8],
    answers: &mut [u8],
    lines: &mut [LineState],
) -> Result<u64, Refusal>
    ensures { RunLeaves
        (run_of image.old trace.now answers.old lines.old) (run_told result)
        image.new answers.new lines.new }
{
    check(image, trace, answers.len(), lines.len())?;
    let n = device_count(image);
    wait_all(lines, n);
    Ok(run_events(image, trace, answers, lines, n))
}
