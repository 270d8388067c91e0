// This module is the view of the bytes that a read has still to send.
ghost use Rattle.std.specs.Prelude.{◌≡◌};
ghost use Rattle.eprom.specs.View.{fields_fit, bytes_to_read, place_to_read};

use crate::fields::cut;
use kind::{DATA_LENGTH, STATUS_LENGTH};
use line::Field;

// This tells whether the fields have the lengths of a DS1982's.
#[tactic(auto, unfolding(crate::specs::View::fields_fit))]
fn fields_fit(data: &[u8], status: &[u8]) -> bool
    ensures { result ≡ fields_fit «data».now status.now }
{
    data.len() == usize::from(DATA_LENGTH) && status.len() == usize::from(STATUS_LENGTH)
}

// The bytes still to be read from a start address are the very part of one of the two fields. An empty part may lie
// anywhere.
// As it is: a command is its byte, as its definition matches it, and any other byte is one too, with nothing to read.
pub fn remaining<'a>(command: u8, address: u16, data: &'a [u8], status: &'a [u8]) -> &'a [u8]
    ensures { (result.now ≡ bytes_to_read command address «data».now status.now)
        × (result.ref_ptr ≡ place_to_read command address «data».entry status.entry result.ref_ptr) }
{
    if !fields_fit(data, status) {
        return &data[0..0];
    }
    let data_start = usize::from(cut(Field::Data, address));
    let status_start = usize::from(cut(Field::Status, address));
    match command {
        0xF0 | 0xC3 => &data[data_start..],
        0xAA => &status[status_start..],
        _ => &data[0..0],
    }
}
