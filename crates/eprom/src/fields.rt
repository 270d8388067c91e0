// This module is the two fields of a DS1982: where they are in the body, the commands that read and write them, and the
// addresses in them.
ghost use Rattle.std.specs.Prelude.{◌≡◌};
ghost use Rattle.eprom.specs.Fields.{in_eprom, field_start, field_length, stored_byte, field_read, read_command};
ghost use Rattle.eprom.specs.Fields.{write_command, cut_address, command_crc};

use kind::{DATA_LENGTH, STATUS_LENGTH};
use line::{EpromRead, EpromStage, Field, MemoryStage, Stage};

// A stage of a DS1982's memory function is a stage of a device.
// As it is: `Stage` is of `line`, and `in_eprom`, the definition that a `From` would state, is of this crate.
pub(crate) fn in_eprom(e: EpromStage) -> Stage
    ensures { result ≡ in_eprom e }
{
    Stage::Memory(MemoryStage::Eprom(e))
}

// This is where a field's first byte is in the body.
#[tactic(auto, unfolding(crate::specs::Fields::field_start))]
pub(crate) fn field_start(field: Field) -> usize
    ensures { result ≡ field_start field }
{
    match field {
        Field::Data => kind::DATA,
        Field::Status => kind::STATUS,
    }
}

// This is how many bytes a field has.
// As it is: each table of the two fields is a function, as it is a definition of its own; only the rows are alike.
#[tactic(auto, unfolding(crate::specs::Fields::field_length))]
pub(crate) fn field_length(field: Field) -> u8
    ensures { result ≡ field_length field }
{
    match field {
        Field::Data => DATA_LENGTH,
        Field::Status => STATUS_LENGTH,
    }
}

// This is the byte of a field at an address.
#[tactic(auto, unfolding(crate::specs::Fields::stored_byte))]
pub(crate) fn stored(field: Field, address: u8, body: &[u8]) -> u8
    ensures { result ≡ stored_byte field address body.now }
{
    bits::byte_at(body, field_start(field) + usize::from(address))
}

// This is the field that a read sends.
#[tactic(auto, unfolding(crate::specs::Fields::field_read))]
pub(crate) fn field_read(read: EpromRead) -> Field
    ensures { result ≡ field_read read }
{
    match read {
        EpromRead::Memory | EpromRead::Pages => Field::Data,
        EpromRead::Status => Field::Status,
    }
}

// As it is: a `From` would have to stand in `line`, which has the types and knows no command.
#[tactic(auto, unfolding(crate::specs::Fields::read_command))]
pub(crate) fn read_command(read: EpromRead) -> u8
    ensures { result ≡ read_command read }
{
    match read {
        EpromRead::Memory => 0xF0,
        EpromRead::Status => 0xAA,
        EpromRead::Pages => 0xC3,
    }
}

#[tactic(auto, unfolding(crate::specs::Fields::write_command))]
pub(crate) fn write_command(field: Field) -> u8
    ensures { result ≡ write_command field }
{
    match field {
        Field::Data => 0x0F,
        Field::Status => 0x55,
    }
}

// An address is cut to its field as it is latched.
#[tactic(auto, unfolding(crate::specs::Fields::cut_address))]
pub(crate) fn cut(field: Field, address: u16) -> u16
    ensures { result ≡ cut_address field address }
{
    address % u16::from(field_length(field))
}

// This is the CRC of a command and of the two bytes of an address, which is the cut one.
#[tactic(auto, unfolding(crate::specs::Fields::command_crc, bits::specs::Crc::crc_from))]
pub(crate) fn command_crc(code: u8, address: u16) -> u8
    ensures { result ≡ command_crc code address }
{
    let [low, high] = address.to_le_bytes();
    bits::crc_from(0, &[code, low, high])
}
