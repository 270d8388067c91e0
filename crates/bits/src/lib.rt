// This crate is the bits of bytes, least significant first, and the CRC-8 of a registration code.
//
// Every function accepts any input: a read past the end gives 0, and a write past the end changes nothing.
#![tactic(auto)]

mod crc;

ghost use Rattle.std.specs.Prelude.{◌≡◌, ◌<◌, ◌^◌, get_or, set};
ghost use Rattle.bits.specs.Bit.{bit_of, bit_at, with_bit, put_bit, shift_in};

pub use crc::{crc_byte, crc_from, registration_check};

// A byte becomes a number of the machine's width.
// As it is: the edits wide_byte_one_more and wide_byte_without_its_highest_bit hold this function beside usize::from.
pub fn wide(byte: u8) -> usize
    ensures { result ≡ byte }
{
    usize::from(byte)
}

// This is byte i of a slice, or 0 past its end.
pub fn byte_at(s: &[u8], i: usize) -> u8
    ensures { result ≡ get_or s.now i 0 }
{
    s.get(i).copied().unwrap_or(0)
}

// This stores byte i of a slice, and past its end nothing.
pub fn put_byte(s: &mut [u8], i: usize, byte: u8)
    ensures { s.new ≡ set s.old i byte }
{
    if i < s.len() {
        s[i] = byte;
    }
}

// This is bit i of a byte, or 0 past bit 7.
#[tactic(auto, unfolding(crate::specs::Bit::bit_of))]
pub fn bit_of(byte: u8, i: u8) -> bool
    ensures { result ≡ bit_of byte i }
{
    i < 8 && (byte >> i) % 2 == 1
}

// Bit i has the place value 2 ^ i.
fn power(i: u8) -> u8
    requires { i < 8 }
    ensures { result ≡ 2 ^ i }
{
    1 << i
}

// Bit i of a byte is put at a level, and the others stay as they were.
#[tactic(auto, unfolding(crate::specs::Bit::with_bit, crate::specs::Bit::at_level))]
pub fn with_bit(byte: u8, i: u8, level: bool) -> u8
    ensures { result ≡ with_bit byte i level }
{
    if 8 <= i {
        return byte;
    }
    match (bit_of(byte, i), level) {
        (true, false) => byte - power(i),
        (false, true) => byte + power(i),
        _ => byte,
    }
}

// This is bit i of a slice, or 0 past its end.
// As it is: the place below 8 is cast, here and in `put_bit`, as no From goes from usize to u8 and it needs no test.
#[tactic(auto, unfolding(crate::specs::Bit::bit_at))]
pub fn bit_at(s: &[u8], i: usize) -> bool
    ensures { result ≡ bit_at s.now i }
{
    bit_of(byte_at(s, i / 8), (i % 8) as u8)
}

// This stores bit i of a slice, and past its end nothing.
#[tactic(auto, unfolding(crate::specs::Bit::put_bit))]
pub fn put_bit(s: &mut [u8], i: usize, level: bool)
    ensures { s.new ≡ put_bit s.old i level }
{
    let byte = byte_at(s, i / 8);
    put_byte(s, i / 8, with_bit(byte, (i % 8) as u8, level));
}

// A shift register of eight bits is filled from its top: after eight levels it holds the byte that they spell.
#[tactic(auto, unfolding(crate::specs::Bit::shift_in))]
pub fn shift_in(register: u8, level: bool) -> u8
    ensures { result ≡ shift_in register level }
{
    register / 2 + 128 * u8::from(level)
}
