// This crate is the memory stage of a DS1992, DS1993 or DS1996, with its scratchpad and memory. `size` is the number of
// bytes of memory, and the only thing here in which they differ.
//
// The end of a transfer is two functions: `next` returns the transfer that follows and only reads the body, `write`
// changes the body and says what a copy did. So a search, which changes no body, needs only the first.
#![tactic(auto)]

ghost use Rattle.std.specs.Prelude.{◌≡◌, ◌+◌, ◌<◌};
ghost use Rattle.sram.specs.Sram.{in_sram, target_address, target_offset, ending_offset, load_address};
ghost use Rattle.sram.specs.Sram.{write_data_bit, load_target, begin_byte};
ghost use Rattle.sram.specs.Sram.{write_bit, after_data_bit, end_data, read_register, read_scratchpad, after_register};
ghost use Rattle.sram.specs.Sram.{after_scratchpad};
ghost use Rattle.sram.specs.Sram.{copy_pattern, copy_accepted, pattern_same, after_pattern, copy_length};
ghost use Rattle.sram.specs.Sram.{copy_to_memory};
ghost use Rattle.sram.specs.Sram.{accept_copy, copy_writes, pattern_copy, sram_copy};
ghost use Rattle.sram.specs.Sram.{pattern_write, read_memory, data_range, sram_command, sram_next, sram_write};
ghost use Rattle.sram.specs.Sram.{sram_reset, sram_range};

use line::{MemoryStage, SramStage, Stage, Transfer};

// The flags of E/S are named by their bit numbers in the whole body.
const PF: usize = 8 * kind::ES + 5;

const OF: usize = 8 * kind::ES + 6;

const AA: usize = 8 * kind::ES + 7;

// The registers TA1, TA2 and E/S have the numbers 0, 1 and 2; E/S is the last that is read or compared.
const LAST_REGISTER: u8 = 2;

// A copy writes so many bytes to memory, from an address on. The address is the target also where no byte is written: a
// copy of nothing is a copy too.
#[derive(Clone, Copy)]
pub struct Written {
    pub address: u16,
    pub bytes: u8,
}

// As it is: `Stage` is of `line`, and `in_sram`, the definition that a `From` would state, is of this crate.
fn in_sram(s: SramStage) -> Stage
    ensures { result ≡ in_sram s }
{
    Stage::Memory(MemoryStage::Sram(s))
}

// ---- the registers

// The target address is held in TA1 and TA2.
fn target(body: &[u8]) -> u16
    ensures { result ≡ target_address body.now }
{
    u16::from_le_bytes([
        bits::byte_at(body, kind::TA1),
        bits::byte_at(body, kind::TA2),
    ])
}

// T4:T0 of the target address are the offset in the scratchpad that it names.
pub fn target_offset(body: &[u8]) -> u8
    ensures { result ≡ target_offset body.now }
{
    bits::byte_at(body, kind::TA1) % kind::SCRATCHPAD_LENGTH
}

// The five low bits of E/S are the offset of the last byte that was written to the scratchpad.
pub fn ending_offset(body: &[u8]) -> u8
    ensures { result ≡ ending_offset body.now }
{
    bits::byte_at(body, kind::ES) % kind::SCRATCHPAD_LENGTH
}

// TA1 and TA2 load an address exactly as it was sent, also where it is past the end of the memory.
#[tactic(auto, unfolding(crate::specs::Sram::load_address))]
fn load_address(low: u8, high: u8, body: &mut [u8])
    ensures { body.new ≡ load_address low high body.old }
{
    bits::put_byte(body, kind::TA1, low);
    bits::put_byte(body, kind::TA2, high);
}

// ---- write scratchpad

// Each data bit is a transfer of its own, since it goes into the scratchpad at once.
fn write_data(offset: u8, bit: u8) -> Transfer
    ensures { result ≡ write_data_bit offset bit }
{
    line::listening_once(in_sram(SramStage::WriteData { offset, bit }))
}

// The next data bit has the next place; once offset 31 is complete, the place stays.
#[tactic(auto, unfolding(crate::specs::Sram::after_data_bit))]
fn after_data(offset: u8, bit: u8) -> Transfer
    ensures { result ≡ after_data_bit offset bit }
{
    if kind::SCRATCHPAD_LENGTH <= offset {
        write_data(offset, bit)
    } else if bit < 7 {
        write_data(offset, bit + 1)
    } else {
        write_data(offset + 1, 0)
    }
}

// With the last bit of its address, a write to the scratchpad loads the registers and clears the flags.
#[tactic(auto, unfolding(crate::specs::Sram::load_target))]
fn load_target(low: u8, high: u8, body: &mut [u8])
    ensures { body.new ≡ load_target low high body.old }
{
    load_address(low, high, body);
    bits::put_byte(body, kind::ES, low % kind::SCRATCHPAD_LENGTH);
}

// The first bit of a data byte makes that byte's offset the ending offset; the flags stay.
#[tactic(auto, unfolding(crate::specs::Sram::begin_byte))]
fn begin_byte(offset: u8, bit: u8, body: &mut [u8])
    requires { offset < 32 }
    ensures { body.new ≡ begin_byte offset bit body.old }
{
    if bit == 0 {
        let es = bits::byte_at(body, kind::ES);
        bits::put_byte(
            body,
            kind::ES,
            es / kind::SCRATCHPAD_LENGTH * kind::SCRATCHPAD_LENGTH + offset,
        );
    }
}

// A data bit goes into the scratchpad at once; one that comes after offset 31 is complete only sets OF.
#[tactic(auto, unfolding(crate::specs::Sram::write_bit, crate::specs::Sram::store_bit))]
fn write_bit(offset: u8, bit: u8, body: &mut [u8], level: bool)
    ensures { body.new ≡ write_bit offset bit body.old level }
{
    if kind::SCRATCHPAD_LENGTH <= offset {
        bits::put_bit(body, OF, true);
        return;
    }
    begin_byte(offset, bit, body);
    let place = kind::SCRATCHPAD + usize::from(offset);
    let byte = bits::byte_at(body, place);
    bits::put_byte(body, place, bits::with_bit(byte, bit, level));
}

// A reset after 1 to 7 bits of a data byte sets PF, unless OF is set.
#[tactic(auto, unfolding(crate::specs::Sram::end_data))]
fn end_data(sent: u8, body: &mut [u8])
    ensures { body.new ≡ end_data sent body.old }
{
    if sent != 0 && !bits::bit_at(body, OF) {
        bits::put_bit(body, PF, true);
    }
}

// ---- read scratchpad

// The device sends TA1, TA2 or E/S, as `at` is 0, 1 or 2.
fn read_register(at: u8, body: &[u8]) -> Transfer
    ensures { result ≡ read_register at body.now }
{
    line::sending(
        in_sram(SramStage::ReadRegister { at }),
        bits::byte_at(body, kind::TA1 + usize::from(at)),
    )
}

// The device sends the byte of the scratchpad at `offset`.
// As it is: one function for this and `read_register` would be given the stage, and so be `line::sending` itself.
fn read_scratchpad(offset: u8, body: &[u8]) -> Transfer
    ensures { result ≡ read_scratchpad offset body.now }
{
    line::sending(
        in_sram(SramStage::ReadScratchpad { offset }),
        bits::byte_at(body, kind::SCRATCHPAD + usize::from(offset)),
    )
}

// After TA1 and TA2 the next register is sent, after E/S the scratchpad from T4:T0 on.
#[tactic(auto, unfolding(crate::specs::Sram::after_register))]
fn after_register(at: u8, body: &[u8]) -> Transfer
    ensures { result ≡ after_register at body.now }
{
    if at < LAST_REGISTER {
        read_register(at + 1, body)
    } else {
        read_scratchpad(target_offset(body), body)
    }
}

// After a byte of the scratchpad the next one is sent, and ones after offset 31.
#[tactic(auto, unfolding(crate::specs::Sram::after_scratchpad))]
fn after_scratchpad(offset: u8, body: &[u8]) -> Transfer
    ensures { result ≡ after_scratchpad offset body.now }
{
    if offset < 31 {
        read_scratchpad(offset + 1, body)
    } else {
        line::waiting()
    }
}

// ---- copy scratchpad

// The device receives byte `at` of the pattern; `same` tells whether the bytes before it were equal to the registers.
fn copy_pattern(at: u8, same: bool) -> Transfer
    ensures { result ≡ copy_pattern at same }
{
    line::listening(in_sram(SramStage::CopyPattern { at, same }))
}

// After a copy the device sends zeros until a reset.
fn copied() -> Transfer
    ensures { result ≡ copy_accepted }
{
    line::sending(in_sram(SramStage::Copied), 0)
}

// The pattern is still equal if the bytes before this one were (`same`) and this one is equal to its register. Every
// flag of E/S counts.
#[tactic(auto, unfolding(crate::specs::Sram::pattern_same))]
pub fn pattern_same(at: u8, same: bool, value: u8, body: &[u8]) -> bool
    ensures { result ≡ pattern_same at same value body.now }
{
    same && bits::byte_at(body, kind::TA1 + usize::from(at)) == value
}

// The third byte of the pattern decides: after an equal pattern the device sends zeros, else ones.
#[tactic(auto, unfolding(crate::specs::Sram::after_pattern))]
fn after_pattern(at: u8, same: bool) -> Transfer
    ensures { result ≡ after_pattern at same }
{
    if at < LAST_REGISTER {
        copy_pattern(at + 1, same)
    } else if same {
        copied()
    } else {
        line::waiting()
    }
}

// A copy writes no byte if the ending offset is below T4:T0 or the target is past memory.
#[tactic(auto, unfolding(crate::specs::Sram::copy_length))]
fn copy_length(size: u16, body: &[u8]) -> u8
    ensures { result ≡ copy_length size body.now }
{
    let offset = target_offset(body);
    let end = ending_offset(body);
    if end < offset || size <= target(body) {
        0
    } else {
        end + 1 - offset
    }
}

// A copy takes the scratchpad from T4:T0 through the ending offset to memory at the target, and says where it wrote and
// how many bytes. It may go byte by byte, as the two parts of the body do not overlap.
// As it is: `copy_within` would ask that both parts lie in the body, while `copy_to_memory` takes a body of any size.
#[tactic(auto, unfolding(crate::specs::Sram::copy_to_memory, crate::specs::Sram::copy_bytes))]
fn copy(size: u16, body: &mut [u8]) -> Written
    ensures { (result ≡ copy_writes size body.old)
        × (body.new ≡ copy_to_memory size body.old) }
{
    let from = kind::SCRATCHPAD + usize::from(target_offset(body));
    let address = target(body);
    let bytes = copy_length(size, body);
    let to = kind::MEMORY + usize::from(address);
    for k in 0..usize::from(bytes) {
        let byte = bits::byte_at(body, from + k);
        bits::put_byte(body, to + k, byte);
    }
    Written { address, bytes }
}

// A pattern that is equal to the registers makes the copy, and sets AA even if no byte is written.
#[tactic(auto, unfolding(crate::specs::Sram::accept_copy))]
fn accept_copy(size: u16, body: &mut [u8]) -> Written
    ensures { (result ≡ copy_writes size body.old)
        × (body.new ≡ accept_copy size body.old) }
{
    let written = copy(size, body);
    bits::put_bit(body, AA, true);
    written
}

// Only the third byte of the pattern can make a copy and change the body, and only if the whole pattern is equal.
#[tactic(auto, unfolding(crate::specs::Sram::pattern_write, crate::specs::Sram::pattern_copy))]
fn write_pattern(at: u8, same: bool, size: u16, body: &mut [u8]) -> Option<Written>
    ensures { (result ≡ pattern_copy at same size body.old)
        × (body.new ≡ pattern_write at same size body.old) }
{
    if at < LAST_REGISTER || !same {
        return None;
    }
    Some(accept_copy(size, body))
}

// ---- read memory

// The device sends the byte of the memory at an address, or ones past the end of the memory.
#[tactic(auto, unfolding(crate::specs::Sram::read_memory))]
fn read_memory(address: u16, size: u16, body: &[u8]) -> Transfer
    ensures { result ≡ read_memory address size body.now }
{
    if address < size {
        let [low, high] = address.to_le_bytes();
        line::sending(
            in_sram(SramStage::ReadMemory { low, high }),
            bits::byte_at(body, kind::MEMORY + usize::from(address)),
        )
    } else {
        line::waiting()
    }
}

// After a byte of the memory the next one is sent. The comparison keeps the sum from overflowing.
#[tactic(auto, unfolding(crate::specs::Sram::read_memory))]
fn after_memory(address: u16, size: u16, body: &[u8]) -> Transfer
    ensures { result ≡ read_memory (address + 1) size body.now }
{
    if address < size {
        read_memory(address + 1, size, body)
    } else {
        line::waiting()
    }
}

// ---- every function

// A memory command leads to the first transfer of its function, and any other command to waiting.
// As it is: a command is its byte, as its definition has it, and any other byte is one too, which leads to waiting.
#[tactic(auto, unfolding(crate::specs::Sram::sram_command))]
pub fn command(value: u8, body: &[u8]) -> Transfer
    ensures { result ≡ sram_command value body.now }
{
    match value {
        0x0F => line::listening(in_sram(SramStage::WriteLow)),
        0xAA => read_register(0, body),
        0x55 => copy_pattern(0, true),
        0xF0 => line::listening(in_sram(SramStage::ReadLow)),
        _ => line::waiting(),
    }
}

// When the transfer of a stage ends, in which `value` was received, this transfer follows it.
#[tactic(auto, unfolding(crate::specs::Sram::sram_next))]
pub fn next(s: SramStage, size: u16, value: u8, body: &[u8]) -> Transfer
    ensures { result ≡ sram_next s size value body.now }
{
    match s {
        SramStage::WriteLow => line::listening(in_sram(SramStage::WriteHigh { low: value })),
        SramStage::WriteHigh { low } => write_data(low % kind::SCRATCHPAD_LENGTH, 0),
        SramStage::WriteData { offset, bit } => after_data(offset, bit),
        SramStage::ReadRegister { at } => after_register(at, body),
        SramStage::ReadScratchpad { offset } => after_scratchpad(offset, body),
        SramStage::CopyPattern { at, same } => after_pattern(
            at,
            pattern_same(at, same, value, body),
        ),
        SramStage::Copied => copied(),
        SramStage::ReadLow => line::listening(in_sram(SramStage::ReadHigh { low: value })),
        SramStage::ReadHigh { low } => { read_memory(u16::from_le_bytes([low, value]), size, body) }
        SramStage::ReadMemory { low, high } => {
            after_memory(u16::from_le_bytes([low, high]), size, body)
        }
    }
}

// This changes the body as the end of a transfer does, in which `value` was received and whose last slot was at
// `level`, and says what a copy did, where one was made.
#[tactic(auto, unfolding(crate::specs::Sram::sram_write, crate::specs::Sram::sram_copy))]
pub fn write(s: SramStage, size: u16, value: u8, body: &mut [u8], level: bool) -> Option<Written>
    ensures { (result ≡ sram_copy s size value body.old)
        × (body.new ≡ sram_write s size value body.old level) }
{
    match s {
        SramStage::WriteHigh { low } => load_target(low, value, body),
        SramStage::WriteData { offset, bit } => write_bit(offset, bit, body, level),
        SramStage::ReadHigh { low } => load_address(low, value, body),
        SramStage::CopyPattern { at, same } => {
            let equal = pattern_same(at, same, value, body);
            return write_pattern(at, equal, size, body);
        }
        _ => {}
    }
    None
}

// A reset changes the body only where it cuts off a data byte.
#[tactic(auto, unfolding(crate::specs::Sram::sram_reset))]
pub fn reset(s: SramStage, body: &mut [u8])
    ensures { body.new ≡ sram_reset s body.old }
{
    if let SramStage::WriteData { bit, .. } = s {
        end_data(bit, body);
    }
}

// A data bit has a place in the scratchpad, or it comes after offset 31 is complete.
#[tactic(auto, unfolding(crate::specs::Sram::data_range))]
fn data_in_range(offset: u8, bit: u8) -> bool
    ensures { result ≡ data_range offset bit }
{
    if offset < kind::SCRATCHPAD_LENGTH {
        bit < 8
    } else {
        offset == kind::SCRATCHPAD_LENGTH && bit == 0
    }
}

// This tells whether the numbers of a transfer of this stage are in their range.
#[tactic(auto, unfolding(crate::specs::Sram::sram_range))]
pub fn in_range(s: SramStage, size: u16, left: u8) -> bool
    ensures { result ≡ sram_range s size left }
{
    match s {
        SramStage::WriteData { offset, bit } => {
            data_in_range(offset, bit) && line::under_way(1, left)
        }
        SramStage::ReadRegister { at } | SramStage::CopyPattern { at, .. } => {
            at < 3 && line::under_way(8, left)
        }
        SramStage::ReadScratchpad { offset } => {
            offset < kind::SCRATCHPAD_LENGTH && line::under_way(8, left)
        }
        SramStage::ReadMemory { low, high } => {
            u16::from_le_bytes([low, high]) < size && line::under_way(8, left)
        }
        _ => line::under_way(8, left),
    }
}
