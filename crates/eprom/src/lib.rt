// This crate is the DS1982's memory stage: which transfer a memory command begins, which follows after the last slot of
// a transfer, what a program pulse does, and the view of the bytes still to be read.
//
// The end of a transfer only reads the body. A pulse is two functions: `pulse` returns the transfer after it and only
// reads the body, `program` changes the body.
#![tactic(auto)]

mod fields;
mod reads;
mod view;
mod writes;

ghost use Rattle.std.specs.Prelude.{◌≡◌};
ghost use Rattle.eprom.specs.Eprom.{eprom_command, eprom_next, eprom_pulse, eprom_program, eprom_range};

use fields::{field_length, field_read};
use line::{EpromRead, EpromStage, Field, Transfer};
pub use view::remaining;

// A memory command leads to the first transfer of its function, and any other command to waiting.
// As it is: a command is its byte, as its definition has it, and any other byte is one too, which leads to waiting.
#[tactic(auto, unfolding(crate::specs::Eprom::eprom_command))]
pub fn command(value: u8) -> Transfer
    ensures { result ≡ eprom_command value }
{
    match value {
        0xF0 => reads::read_low(EpromRead::Memory),
        0xAA => reads::read_low(EpromRead::Status),
        0xC3 => reads::read_low(EpromRead::Pages),
        0x0F => writes::write_low(Field::Data),
        0x55 => writes::write_low(Field::Status),
        _ => line::waiting(),
    }
}

// When the transfer of a stage ends, in which `value` was received, this transfer follows it. A slot where a pulse is
// due makes the device wait.
#[tactic(auto, unfolding(crate::specs::Eprom::eprom_next))]
pub fn next(e: EpromStage, value: u8, body: &[u8]) -> Transfer
    ensures { result ≡ eprom_next e value body.now }
{
    match e {
        EpromStage::ReadLow { read } => reads::read_high(read, value),
        EpromStage::ReadHigh { read, low } => {
            reads::read_latch(read, u16::from_le_bytes([low, value]))
        }
        EpromStage::ReadCrc { read, address } => reads::after_crc(read, address, body),
        EpromStage::ReadByte { read, address, crc } => reads::after_byte(read, address, crc, body),
        EpromStage::WriteLow { field } => writes::write_high(field, value),
        EpromStage::WriteHigh { field, low } => {
            writes::write_latch(field, u16::from_le_bytes([low, value]))
        }
        EpromStage::WriteData {
            field,
            address,
            crc,
        } => writes::after_data(field, address, crc, value),
        EpromStage::WriteCrc {
            field,
            address,
            byte,
        } => writes::await_pulse(field, address, byte),
        EpromStage::PulseDue { .. } => line::waiting(),
        EpromStage::Stored { field, address } => writes::next_pass(field, address),
    }
}

// This is the transfer after a program pulse, worked out before the body changes; `transfer` is the one under way in
// this stage.
#[tactic(auto, unfolding(crate::specs::Eprom::eprom_pulse))]
pub fn pulse(e: EpromStage, transfer: Transfer, body: &[u8]) -> Transfer
    ensures { result ≡ eprom_pulse e transfer body.now }
{
    match e {
        EpromStage::PulseDue {
            field,
            address,
            byte,
        } => writes::send_programmed(field, address, byte, body),
        _ => transfer,
    }
}

// A program pulse changes the body only where one is due.
#[tactic(auto, unfolding(crate::specs::Eprom::eprom_program))]
pub fn program(e: EpromStage, body: &mut [u8])
    ensures { body.new ≡ eprom_program e body.old }
{
    if let EpromStage::PulseDue {
        field,
        address,
        byte,
    } = e
    {
        writes::program_byte(field, address, byte, body);
    }
}

// This tells whether the numbers of a transfer in this stage are in their range.
#[tactic(auto, unfolding(crate::specs::Eprom::eprom_range))]
pub fn in_range(e: EpromStage, left: u8) -> bool
    ensures { result ≡ eprom_range e left }
{
    match e {
        EpromStage::ReadCrc { read, address } => {
            address <= field_length(field_read(read)) && line::under_way(8, left)
        }
        EpromStage::ReadByte { read, address, .. } => {
            address < field_length(field_read(read)) && line::under_way(8, left)
        }
        EpromStage::WriteData { field, address, .. }
        | EpromStage::WriteCrc { field, address, .. }
        | EpromStage::Stored { field, address } => {
            address < field_length(field) && line::under_way(8, left)
        }
        EpromStage::PulseDue { field, address, .. } => {
            address < field_length(field) && line::under_way(1, left)
        }
        _ => line::under_way(8, left),
    }
}
