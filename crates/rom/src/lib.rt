// This crate is the ROM stage, which decides which devices are addressed.
#![tactic(auto)]

ghost use Rattle.std.specs.Prelude.{◌≡◌, ◌<◌, ◌≤◌, ◌+◌, true, false};
ghost use Rattle.std.specs.Bool.{beq};
ghost use Rattle.bits.specs.Bit.{bit_at};
ghost use Rattle.line.specs.Transfers.{waiting};
ghost use Rattle.rom.specs.Rom.{rom_range, read_byte, match_bit, search_bit, addressed, rom_command, after_read};
ghost use Rattle.rom.specs.Rom.{rom_next, overdrive_match_bit, overdrive_command, rom_speed, command_speed};

use kind::Kind;
use line::{RomStage, Stage, Transfer};

// The last of the 8 code bytes has number 7, and the last of the 64 code bits number 63.
const LAST_BYTE: u8 = 7;

const LAST_BIT: u8 = 63;

// A search transfer has three bits, the lowest sent first: the code bit, its complement, and a one while the device
// listens.
const SEARCH_ONE: u8 = 0b101;

const SEARCH_ZERO: u8 = 0b110;

// As it is: kind and body are no struct here, as most functions need one of the two, and the body is only lent.

// The device sends a byte of the code.
fn read_byte(byte: u8, body: &[u8]) -> Transfer
    ensures { result ≡ read_byte byte body.now }
{
    line::sending(
        Stage::Rom(RomStage::Read { byte }),
        bits::byte_at(body, usize::from(byte)),
    )
}

// The device receives the level that a bit of the code is compared with.
fn match_bit(at: u8) -> Transfer
    ensures { result ≡ match_bit at }
{
    line::listening_once(Stage::Rom(RomStage::Match { at }))
}

// The device sends a bit of the code and its complement, and receives the direction.
#[tactic(auto, unfolding(crate::specs::Rom::search_bit))]
fn search_bit(at: u8, body: &[u8]) -> Transfer
    ensures { result ≡ search_bit at body.now }
{
    let register = if bits::bit_at(body, usize::from(at)) {
        SEARCH_ONE
    } else {
        SEARCH_ZERO
    };
    Transfer {
        register,
        left: 3,
        stage: Stage::Rom(RomStage::Search { at }),
    }
}

// A device that is addressed is at the memory command, and one with a flat battery waits instead. There is no other way
// out of the ROM stage to the memory.
#[tactic(auto, unfolding(crate::specs::Rom::addressed))]
fn addressed(kind: Kind) -> Transfer
    ensures { result ≡ addressed kind }
{
    if kind::is_flat(kind) {
        line::waiting()
    } else {
        line::at_memory_command()
    }
}

// The device receives the level that a bit of the code is compared with, at overdrive.
fn overdrive_match_bit(at: u8, before: bool) -> Transfer
    ensures { result ≡ overdrive_match_bit at before }
{
    line::listening_once(Stage::Rom(RomStage::OverdriveMatch { at, before }))
}

// A DS1996 has two commands more, overdrive skip and overdrive match; `overdrive` tells whether it was at overdrive
// before. Any other command leads to waiting, and for the other kinds these two do so as well.
#[tactic(auto, unfolding(crate::specs::Rom::overdrive_command))]
fn overdrive_command(value: u8, kind: Kind, overdrive: bool) -> Transfer
    ensures { result ≡ overdrive_command value kind overdrive }
{
    if !kind::has_overdrive(kind) {
        return line::waiting();
    }
    match value {
        0x3C => addressed(kind),
        0x69 => overdrive_match_bit(0, overdrive),
        _ => line::waiting(),
    }
}

// A ROM command leads to the first transfer of its function; `overdrive` tells at which speed it came.
// As it is: a command is its byte, as its definition has it, and any other byte is one too, which leads to waiting.
#[tactic(auto, unfolding(crate::specs::Rom::rom_command))]
fn command(value: u8, kind: Kind, overdrive: bool, body: &[u8]) -> Transfer
    ensures { result ≡ rom_command value kind overdrive body.now }
{
    match value {
        0x33 => read_byte(0, body),
        0x55 => match_bit(0),
        0xF0 => search_bit(0, body),
        0xCC => addressed(kind),
        _ => overdrive_command(value, kind, overdrive),
    }
}

// After a byte of the code comes the next one; after the last the device is addressed.
#[tactic(auto, unfolding(crate::specs::Rom::after_read))]
fn after_read(byte: u8, kind: Kind, body: &[u8]) -> Transfer
    ensures { result ≡ after_read byte kind body.now }
{
    if byte < LAST_BYTE {
        read_byte(byte + 1, body)
    } else {
        addressed(kind)
    }
}

// A bit of the code is compared with the level of a slot.
fn is_same(at: u8, body: &[u8], level: bool) -> bool
    ensures { result ≡ beq (bit_at body.now at) level }
{
    bits::bit_at(body, usize::from(at)) == level
}

// After a code bit that is equal to the level or the direction comes the next one, by the transfer that `next_bit`
// gives, and after the last the device is addressed; a mismatch makes the device wait.
fn after_bit<F: FnOnce(u8) -> Transfer>(at: u8, kind: Kind, same: bool, next_bit: F) -> Transfer
    requires { F.IsAlwaysCallable next_bit }
    ensures going_on { same ≡ true → at < 63 → F.post next_bit (at + 1) result }
    ensures whole { same ≡ true → 63 ≤ at → result ≡ addressed kind }
    ensures mismatch { same ≡ false → result ≡ waiting }
{
    if !same {
        line::waiting()
    } else if at < LAST_BIT {
        next_bit(at + 1)
    } else {
        addressed(kind)
    }
}

// When the transfer of a stage ends, in which `value` was received and whose last slot was at `level`, this transfer
// follows it. The device was at overdrive in it where `overdrive` is true.
#[tactic(auto, unfolding(crate::specs::Rom::rom_next))]
pub fn next(
    r: RomStage,
    kind: Kind,
    overdrive: bool,
    value: u8,
    body: &[u8],
    level: bool,
) -> Transfer
    ensures { result ≡ rom_next r kind overdrive value body.now level }
{
    match r {
        RomStage::Waiting => line::waiting(),
        RomStage::Command => command(value, kind, overdrive, body),
        RomStage::Read { byte } => after_read(byte, kind, body),
        RomStage::Match { at } => after_bit(at, kind, is_same(at, body, level), match_bit),
        RomStage::Search { at } => {
            let same = is_same(at, body, level);
            after_bit(at, kind, same, |next| search_bit(next, body))
        }
        RomStage::OverdriveMatch { at, before } => {
            let same = is_same(at, body, level);
            after_bit(at, kind, same, |next| overdrive_match_bit(next, before))
        }
    }
}

// A DS1996 is at overdrive after overdrive skip and overdrive match; any other command leaves a device at its speed.
#[tactic(auto, unfolding(crate::specs::Rom::command_speed))]
fn command_speed(value: u8, kind: Kind, overdrive: bool) -> bool
    ensures { result ≡ command_speed value kind overdrive }
{
    match value {
        0x3C | 0x69 => kind::has_overdrive(kind) || overdrive,
        _ => overdrive,
    }
}

// This tells whether a device is at overdrive after the transfer of a stage ends. A mismatch after overdrive match
// leaves it at the speed that it had before that command.
#[tactic(auto, unfolding(crate::specs::Rom::rom_speed))]
pub fn speed(r: RomStage, kind: Kind, overdrive: bool, value: u8, body: &[u8], level: bool) -> bool
    ensures { result ≡ rom_speed r kind overdrive value body.now level }
{
    match r {
        RomStage::Command => command_speed(value, kind, overdrive),
        RomStage::OverdriveMatch { at, before } if !is_same(at, body, level) => before,
        _ => overdrive,
    }
}

// This tells whether the numbers of a transfer of this stage are in their range, where `overdrive` tells whether the
// device is at overdrive.
#[tactic(auto, unfolding(crate::specs::Rom::rom_range))]
pub fn in_range(r: RomStage, overdrive: bool, register: u8, left: u8) -> bool
    ensures { result ≡ rom_range r overdrive register left }
{
    match r {
        RomStage::Waiting => register == 255 && left == 0,
        RomStage::Command => line::under_way(8, left),
        RomStage::Read { byte } => byte < 8 && line::under_way(8, left),
        RomStage::Match { at } => at < 64 && line::under_way(1, left),
        RomStage::Search { at } => at < 64 && line::under_way(3, left),
        RomStage::OverdriveMatch { at, .. } => { overdrive && at < 64 && line::under_way(1, left) }
    }
}
