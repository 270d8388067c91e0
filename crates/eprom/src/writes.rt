// The writes 0Fh and 55h receive the address, and then in each pass a data byte; its CRC is sent, the program pulse is
// due, and the stored byte is sent.
ghost use Rattle.std.specs.Prelude.{◌≡◌};
ghost use Rattle.eprom.specs.Writes.{write_low, write_high, write_data_byte, write_latch, after_data_byte, await_pulse};
ghost use Rattle.eprom.specs.Writes.{page_protected, programmed_byte, programmed_body, send_stored, next_write_pass};

use crate::fields::{command_crc, cut, field_length, field_start, in_eprom, stored, write_command};
use kind::PAGE_LENGTH;
use line::{EpromStage, Field, Transfer};

// As it is: field and address are two arguments, as the definitions, like `programmed_body`, and the stages have them.

// The device receives the low byte of the address.
pub(crate) fn write_low(field: Field) -> Transfer
    ensures { result ≡ write_low field }
{
    line::listening(in_eprom(EpromStage::WriteLow { field }))
}

// The device receives the high byte of the address.
pub(crate) fn write_high(field: Field, low: u8) -> Transfer
    ensures { result ≡ write_high field low }
{
    line::listening(in_eprom(EpromStage::WriteHigh { field, low }))
}

// The device receives a data byte, which is then shifted into the CRC register `crc`.
fn write_data(field: Field, address: u8, crc: u8) -> Transfer
    ensures { result ≡ write_data_byte field address crc }
{
    line::listening(in_eprom(EpromStage::WriteData {
        field,
        address,
        crc,
    }))
}

// Once the address is received it is cut, and the first data byte comes next; the CRC begins with the command and the
// cut address.
#[tactic(auto, using(crate::proofs::Laws::cut_fits), unfolding(crate::specs::Writes::write_latch))]
pub(crate) fn write_latch(field: Field, address: u16) -> Transfer
    ensures { result ≡ write_latch field address }
{
    let start = cut(field, address);
    let crc = command_crc(write_command(field), start);
    // As it is: a cut address is below 128, and no From goes from u16 to u8.
    write_data(field, start as u8, crc)
}

// After a data byte its CRC is sent.
#[tactic(auto, unfolding(crate::specs::Writes::after_data_byte))]
pub(crate) fn after_data(field: Field, address: u8, crc: u8, byte: u8) -> Transfer
    ensures { result ≡ after_data_byte field address crc byte }
{
    line::sending(
        in_eprom(EpromStage::WriteCrc {
            field,
            address,
            byte,
        }),
        bits::crc_byte(crc, byte),
    )
}

// After a CRC a program pulse is due, and a slot that comes instead reads 1.
pub(crate) fn await_pulse(field: Field, address: u8, byte: u8) -> Transfer
    ensures { result ≡ await_pulse field address byte }
{
    line::listening_once(in_eprom(EpromStage::PulseDue {
        field,
        address,
        byte,
    }))
}

// A protected byte is one of the data that no pulse changes, as the bit of its page in status byte 0 is 0.
#[tactic(auto, unfolding(crate::specs::Writes::page_protected))]
fn protected(field: Field, address: u8, body: &[u8]) -> bool
    ensures { result ≡ page_protected field address body.now }
{
    match field {
        Field::Data => !bits::bit_of(stored(Field::Status, 0, body), address / PAGE_LENGTH),
        Field::Status => false,
    }
}

// A pulse replaces the byte at an address by its AND with the data byte, unless it is protected.
#[tactic(auto, unfolding(crate::specs::Writes::programmed_byte))]
fn programmed_byte(field: Field, address: u8, byte: u8, body: &[u8]) -> u8
    ensures { result ≡ programmed_byte field address byte body.now }
{
    let old = stored(field, address, body);
    if protected(field, address, body) {
        old
    } else {
        old & byte
    }
}

// This changes the body as a pulse does at an address.
#[tactic(auto, unfolding(crate::specs::Writes::programmed_body))]
pub(crate) fn program_byte(field: Field, address: u8, byte: u8, body: &mut [u8])
    ensures { body.new ≡ programmed_body field address byte body.old }
{
    let new = programmed_byte(field, address, byte, body);
    bits::put_byte(body, field_start(field) + usize::from(address), new);
}

// The device sends the byte at an address as a pulse leaves it. This is worked out while the body does not have that
// byte yet.
pub(crate) fn send_programmed(field: Field, address: u8, byte: u8, body: &[u8]) -> Transfer
    ensures { result ≡ send_stored field address (programmed_body field address byte body.now) }
{
    line::sending(
        in_eprom(EpromStage::Stored { field, address }),
        programmed_byte(field, address, byte, body),
    )
}

// After the stored byte the next pass begins, with the CRC register loaded with the new address. After the last address
// there is no next pass.
#[tactic(auto, unfolding(crate::specs::Writes::next_write_pass))]
pub(crate) fn next_pass(field: Field, address: u8) -> Transfer
    ensures { result ≡ next_write_pass field address }
{
    let last = field_length(field) - 1;
    if address < last {
        let next = address + 1;
        write_data(field, next, next)
    } else {
        line::waiting()
    }
}
