// The reads F0h, AAh and C3h send a CRC, then bytes to the field's end and their CRC, with C3h page by page. A whole
// byte is shifted into the CRC generator when its transfer begins, so that the end of a transfer need not read the byte
// again.
ghost use Rattle.std.specs.Prelude.{◌≡◌};
ghost use Rattle.eprom.specs.Reads.{read_low, read_high, send_crc, send_byte, read_latch, after_crc, ends_span};
ghost use Rattle.eprom.specs.Reads.{after_byte};

use crate::fields::{command_crc, cut, field_length, field_read, in_eprom, read_command, stored};
use kind::{DATA_LENGTH, PAGE_LENGTH, STATUS_LENGTH};
use line::{EpromRead, EpromStage, Transfer};

// As it is: one function for `read_low` and `write_low` would be given the stage, and so be `line::listening` itself.
// As it is: read, address and crc are arguments, as `send_byte` and the stages have them, each with other ones beside.

// The device receives the low byte of the address.
pub(crate) fn read_low(read: EpromRead) -> Transfer
    ensures { result ≡ read_low read }
{
    line::listening(in_eprom(EpromStage::ReadLow { read }))
}

// The device receives the high byte of the address.
pub(crate) fn read_high(read: EpromRead, low: u8) -> Transfer
    ensures { result ≡ read_high read low }
{
    line::listening(in_eprom(EpromStage::ReadHigh { read, low }))
}

// The device sends a CRC; the byte at `address` comes after it.
fn send_crc(read: EpromRead, address: u8, crc: u8) -> Transfer
    ensures { result ≡ send_crc read address crc }
{
    line::sending(in_eprom(EpromStage::ReadCrc { read, address }), crc)
}

// The device sends the byte at `address`; `crc` is the CRC of those before it.
#[tactic(auto, unfolding(crate::specs::Reads::send_byte))]
fn send_byte(read: EpromRead, address: u8, crc: u8, body: &[u8]) -> Transfer
    ensures { result ≡ send_byte read address crc body.now }
{
    let byte = stored(field_read(read), address, body);
    let with_it = bits::crc_byte(crc, byte);
    line::sending(
        in_eprom(EpromStage::ReadByte {
            read,
            address,
            crc: with_it,
        }),
        byte,
    )
}

// Once the address is received it is cut, and the CRC of the command and the cut address is sent.
#[tactic(auto, using(crate::proofs::Laws::cut_fits), unfolding(crate::specs::Reads::read_latch))]
pub(crate) fn read_latch(read: EpromRead, address: u16) -> Transfer
    ensures { result ≡ read_latch read address }
{
    let start = cut(field_read(read), address);
    let crc = command_crc(read_command(read), start);
    // As it is: a cut address is below 128, and no From goes from u16 to u8.
    send_crc(read, start as u8, crc)
}

// After a CRC come the bytes from `address` on, or past the field's end ones.
#[tactic(auto, unfolding(crate::specs::Reads::after_crc))]
pub(crate) fn after_crc(read: EpromRead, address: u8, body: &[u8]) -> Transfer
    ensures { result ≡ after_crc read address body.now }
{
    if address < field_length(field_read(read)) {
        send_byte(read, address, 0, body)
    } else {
        line::waiting()
    }
}

// A CRC comes before the byte at `next` where that would be past the field's end, or with C3h past the page's.
#[tactic(auto, unfolding(crate::specs::Reads::ends_span))]
fn ends_span(read: EpromRead, next: u8) -> bool
    ensures { result ≡ ends_span read next }
{
    match read {
        EpromRead::Memory => next == DATA_LENGTH,
        EpromRead::Status => next == STATUS_LENGTH,
        EpromRead::Pages => next % PAGE_LENGTH == 0,
    }
}

// After a byte comes the next one, or `crc`, which is the CRC of all bytes since the last CRC.
#[tactic(auto, unfolding(crate::specs::Reads::after_byte))]
pub(crate) fn after_byte(read: EpromRead, address: u8, crc: u8, body: &[u8]) -> Transfer
    ensures { result ≡ after_byte read address crc body.now }
{
    if field_length(field_read(read)) <= address {
        return line::waiting();
    }
    let next = address + 1;
    if ends_span(read, next) {
        send_crc(read, next, crc)
    } else {
        send_byte(read, next, crc, body)
    }
}
