// A device on the line is one shift register and a stage.
//
// A device goes by transfers of 1 to 8 slots. In each slot it sends the lowest bit of its shift register, and the level
// of the line comes in at the register's top, so that a device listens by sending ones. The stage names the transfer
// that is under way; only after its last slot do the stage and the byte received decide which transfer comes next.
//
// All numbers of a stage are bytes, so that a transfer fits into eight of them.
#![tactic(auto)]

ghost use Rattle.std.specs.Prelude.{◌≡◌, ◌-◌, ltb};
ghost use Rattle.line.specs.Transfers.{waiting, sending, listening, listening_once, at_rom_command};
ghost use Rattle.bits.specs.Bit.{bit_of};
ghost use Rattle.line.specs.Transfers.{at_memory_command, under_way};

// The ROM stage decides which device is addressed. A device that waits for a reset is in this stage too.
#[derive(Clone, Copy)]
pub enum RomStage {
    Waiting,
    // The device receives the command.
    Command,
    // The device sends byte `byte` of the registration code.
    Read { byte: u8 },
    // The device receives bit `at` of the code, in one slot.
    Match { at: u8 },
    // The device sends bit `at` of the code, then its complement, and receives the direction, in three slots.
    Search { at: u8 },
    // The device receives bit `at` of the code at overdrive speed, in one slot; `before` tells whether it was at
    // overdrive before the command, as a mismatch leaves it at the speed that it had then.
    OverdriveMatch { at: u8, before: bool },
}

// These are the memory functions of a DS1992, DS1993 or DS1996.
#[derive(Clone, Copy)]
pub enum SramStage {
    // Write scratchpad receives the address, low byte first, then each data bit in a slot of its own. `offset` and
    // `bit` are the place in the scratchpad of the bit that comes next; `offset` is 32 when offset 31 is complete.
    WriteLow,
    WriteHigh { low: u8 },
    WriteData { offset: u8, bit: u8 },
    // Read scratchpad sends TA1, TA2 and E/S, which are registers 0 to 2, then the scratchpad.
    ReadRegister { at: u8 },
    ReadScratchpad { offset: u8 },
    // Copy scratchpad receives byte `at` of the pattern, with `same` if those before it are equal to the registers;
    // then it sends zeros.
    CopyPattern { at: u8, same: bool },
    Copied,
    // Read memory receives the address, low byte first, then sends the memory, here its byte at the address `low`,
    // `high`.
    ReadLow,
    ReadHigh { low: u8 },
    ReadMemory { low: u8, high: u8 },
}

// A DS1982 has two fields.
#[derive(Clone, Copy)]
pub enum Field {
    Data,
    Status,
}

// A DS1982 has three reads: F0h, AAh and C3h.
#[derive(Clone, Copy)]
pub enum EpromRead {
    Memory,
    Status,
    Pages,
}

// These are the memory functions of a DS1982.
#[derive(Clone, Copy)]
pub enum EpromStage {
    // A read receives the address, low byte first; then it sends a CRC, with the address of the byte that comes after
    // it, or a byte, with the CRC of the bytes since the last CRC, this one among them.
    ReadLow {
        read: EpromRead,
    },
    ReadHigh {
        read: EpromRead,
        low: u8,
    },
    ReadCrc {
        read: EpromRead,
        address: u8,
    },
    ReadByte {
        read: EpromRead,
        address: u8,
        crc: u8,
    },
    // A write receives the address, low byte first; then for each address it receives the data byte, with the CRC
    // generator's register before it, sends the CRC, has one slot where the program pulse is due, and sends the stored
    // byte.
    WriteLow {
        field: Field,
    },
    WriteHigh {
        field: Field,
        low: u8,
    },
    WriteData {
        field: Field,
        address: u8,
        crc: u8,
    },
    WriteCrc {
        field: Field,
        address: u8,
        byte: u8,
    },
    PulseDue {
        field: Field,
        address: u8,
        byte: u8,
    },
    Stored {
        field: Field,
        address: u8,
    },
}

// After the ROM stage a device receives the memory command, then goes through a memory function of its kind.
#[derive(Clone, Copy)]
pub enum MemoryStage {
    Command,
    Sram(SramStage),
    Eprom(EpromStage),
}

#[derive(Clone, Copy)]
pub enum Stage {
    Rom(RomStage),
    Memory(MemoryStage),
}

// A transfer is what a device sends or receives in the next slots.
#[derive(Clone, Copy)]
pub struct Transfer {
    // The shift register sends from its lowest bit and receives at its highest.
    pub register: u8,
    // So many slots are left of the transfer; 0 are left where the device waits.
    pub left: u8,
    pub stage: Stage,
}

// ---- which transfer comes next

// A device that waits has no transfer under way: it waits for a reset and sends ones.
pub fn waiting() -> Transfer
    ensures { result ≡ waiting }
{
    Transfer {
        register: 255,
        left: 0,
        stage: Stage::Rom(RomStage::Waiting),
    }
}

// A byte is sent in eight slots.
pub fn sending(stage: Stage, byte: u8) -> Transfer
    ensures { result ≡ sending stage byte }
{
    Transfer {
        register: byte,
        left: 8,
        stage,
    }
}

// A byte is received in eight slots, in which the device sends ones.
pub fn listening(stage: Stage) -> Transfer
    ensures { result ≡ listening stage }
{
    sending(stage, 255)
}

// A single bit is received in one slot, in which the device sends a one.
pub fn listening_once(stage: Stage) -> Transfer
    ensures { result ≡ listening_once stage }
{
    Transfer {
        register: 255,
        left: 1,
        stage,
    }
}

// A reset leaves every device at the ROM command.
pub fn at_rom_command() -> Transfer
    ensures { result ≡ at_rom_command }
{
    listening(Stage::Rom(RomStage::Command))
}

// A device that is addressed is at the memory command.
pub fn at_memory_command() -> Transfer
    ensures { result ≡ at_memory_command }
{
    listening(Stage::Memory(MemoryStage::Command))
}

// While a transfer of `slots` slots is under way, at least one slot is left of it, and no more than it has.
#[tactic(auto, unfolding(crate::specs::Transfers::under_way))]
pub fn under_way(slots: u8, left: u8) -> bool
    ensures { result ≡ under_way slots left }
{
    (1..=slots).contains(&left)
}

// ---- a slot of a transfer

// The functions of a slot are given the number that they need and not the transfer: the compiler may load whole what
// goes to a function as a struct, and what was stored by the byte is slow to load so.

// A device sends the lowest bit of its register.
pub fn sends(register: u8) -> bool
    ensures { result ≡ bit_of register 0 }
{
    bits::bit_of(register, 0)
}

// A transfer goes on if slots are left of it after the next one.
pub fn goes_on(left: u8) -> bool
    ensures { result ≡ ltb 1 left }
{
    1 < left
}

// One slot less is left, or none where none was.
pub fn one_less(left: u8) -> u8
    ensures { result ≡ left - 1 }
{
    left.saturating_sub(1)
}
