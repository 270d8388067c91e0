// This program runs published registration codes and small images through the registration check and the image's
// refusals.
//
// The codes are those engraved in the data sheets of the DS1996 and DS1982, and the worked example of the CRC. What is
// printed is compared with a stored text.
#![tactic(auto)]

use std::io;

// The first body starts after the count, the edition and three entries of four bytes.
const FIRST: u16 = 14;

const SECOND: u16 = FIRST + 144;

const THIRD: u16 = SECOND + 171;

const LENGTH: usize = 473;

// These are the first n bytes of a slice.
fn first(s: &[u8], n: usize) -> &[u8] {
    s.get(..n).unwrap_or(s)
}

fn print_code(rt: HostRuntime, code: &[u8; 8]) -> io::Result<()> {
    for byte in code {
        print!(rt; "{byte:02x} ")?;
    }
    Ok(())
}

// This is a code with one bit the other way.
fn damaged(code: [u8; 8], bit: usize) -> [u8; 8] {
    let mut damaged = code;
    bits::put_bit(&mut damaged, bit, !bits::bit_at(&code, bit));
    damaged
}

// This counts how many of the 64 codes that differ in one bit are refused.
fn refused_damages(code: [u8; 8]) -> usize {
    (0..64)
        .filter(|bit| !bits::registration_check(&damaged(code, *bit)))
        .count()
}

// The registration check says yes or no.
fn answer(code: &[u8]) -> &'static str {
    if bits::registration_check(code) {
        "yes"
    } else {
        "no"
    }
}

fn check(rt: HostRuntime, code: [u8; 8]) -> io::Result<()> {
    print_code(rt, &code)?;
    println!(rt;
        "{}, first 7 bytes {}, one-bit damages refused {}",
        answer(&code),
        answer(first(&code, 7)),
        refused_damages(code)
    )
}

// This is a code of a family and a serial number of one byte, with its CRC.
fn code_of(family: u8, serial: u8) -> [u8; 8] {
    let mut code = [family, serial, 0, 0, 0, 0, 0, 0];
    code[7] = bits::crc_from(0, first(&code, 7));
    code
}

// This writes a code at the start of a body.
// As it is: a start may lie past the end, and std has no method that puts a slice and drops what has no room.
fn put_code(image: &mut [u8], start: u16, code: [u8; 8]) {
    for (k, byte) in code.iter().enumerate() {
        bits::put_byte(image, usize::from(start) + k, *byte);
    }
}

// This writes the entry of device i, whose body starts at `start`, and its code there.
fn place(image: &mut [u8], i: u8, start: u16, code: [u8; 8]) {
    let entry = 2 + 4 * usize::from(i);
    let [low, high] = start.to_le_bytes();
    bits::put_byte(image, entry, code[0]);
    bits::put_byte(image, entry + 2, low);
    bits::put_byte(image, entry + 3, high);
    put_code(image, start, code);
}

// This is an image of a DS1982, a DS1992 and a DS1982.
fn three_devices() -> [u8; LENGTH] {
    let mut image = [0u8; LENGTH];
    image[0] = 3;
    image[1] = 1;
    place(
        &mut image,
        0,
        FIRST,
        [0x09, 0x2B, 0xC5, 0xFB, 0, 0, 0, 0x97],
    );
    place(&mut image, 1, SECOND, code_of(0x08, 1));
    place(
        &mut image,
        2,
        THIRD,
        [0x09, 0xB3, 0xD8, 0xFB, 0, 0, 0, 0x17],
    );
    image
}

// This is the image with one byte changed.
fn with(image: [u8; LENGTH], at: u16, byte: u8) -> [u8; LENGTH] {
    let mut changed = image;
    bits::put_byte(&mut changed, usize::from(at), byte);
    changed
}

// This is the image with another code where a body starts.
fn with_code(image: [u8; LENGTH], start: u16, code: [u8; 8]) -> [u8; LENGTH] {
    let mut changed = image;
    put_code(&mut changed, start, code);
    changed
}

// What is not refused is reported with 0, as a C program is told it.
fn report(rt: HostRuntime, label: &str, image: &[u8]) -> io::Result<()> {
    let number = match image::check(image) {
        Ok(()) => image::ACCEPTED,
        Err(refusal) => refusal.into(),
    };
    println!(rt; "{label}: {number}")
}

// This reports the refusal of the first n bytes of an image of three devices.
fn report_first(rt: HostRuntime, label: &str, image: [u8; LENGTH], n: usize) -> io::Result<()> {
    report(rt, label, first(&image, n))
}

fn small_images(rt: HostRuntime) -> io::Result<()> {
    report(rt, "no bytes", b"")?;
    report(rt, "one byte", b"\x00")?;
    report(rt, "00 01", b"\x00\x01")?;
    report(rt, "00 02", b"\x00\x02")?;
    report(rt, "00 01 00", b"\x00\x01\x00")?;
    let mut image = [0u8; 177];
    image[0] = 1;
    image[1] = 1;
    place(&mut image, 0, 6, code_of(0x08, 1));
    report(rt, "one DS1992, 177 bytes", &image)?;
    report(rt, "its first 176 bytes", first(&image, 176))
}

// Each cause comes alone. In the last the equal codes are those of devices that are not neighbours.
fn single_causes(rt: HostRuntime, image: [u8; LENGTH]) -> io::Result<()> {
    report(rt, "three devices", &image)?;
    report_first(rt, "1: shorter than its entries", image, 13)?;
    report(rt, "1: more than 64 devices", &with(image, 0, 65))?;
    report(rt, "1: edition 3", &with(image, 1, 3))?;
    report(
        rt,
        "1: second entry byte 1 at device 2",
        &with(image, 11, 1),
    )?;
    report(rt, "1: unknown family at device 1", &with(image, 6, 0x04))?;
    report(rt, "2: offset of device 1 one more", &with(image, 8, 159))?;
    report(rt, "2: offset of device 2, high byte", &with(image, 13, 2))?;
    report_first(rt, "2: last byte missing", image, 472)?;
    report(rt, "3: CRC of device 0", &with(image, FIRST + 7, 0x96))?;
    report(rt, "3: serial of device 2", &with(image, THIRD + 6, 1))?;
    report(
        rt,
        "3: code of family 09 at a DS1992",
        &with_code(image, SECOND, code_of(0x09, 1)),
    )?;
    report(
        rt,
        "4: devices 0 and 2",
        &with_code(image, THIRD, [0x09, 0x2B, 0xC5, 0xFB, 0, 0, 0, 0x97]),
    )
}

// Two causes come together, the lower number's at the later device: the lower number wins over the whole image.
fn cause_pairs(rt: HostRuntime, image: [u8; LENGTH]) -> io::Result<()> {
    let doubled = with_code(image, THIRD, [0x09, 0x2B, 0xC5, 0xFB, 0, 0, 0, 0x97]);
    report(rt, "1 and 2", &with(with(image, 4, 15), 10, 0x04))?;
    report(rt, "1 and 3", &with(with(image, FIRST + 7, 0), 11, 1))?;
    report(rt, "1 and 4", &with(doubled, 7, 1))?;
    report(rt, "2 and 3", &with(with(image, FIRST + 7, 0), 12, 0))?;
    report_first(rt, "2 and 4", doubled, 472)?;
    report(rt, "3 and 4", &with(doubled, SECOND + 7, 0))
}

// In edition 2 the second byte of an entry is 1 where the battery is flat, which is refused on a DS1982.
fn second_edition(rt: HostRuntime, image: [u8; LENGTH]) -> io::Result<()> {
    let second = with(image, 1, 2);
    report(rt, "three devices, edition 2", &second)?;
    report(rt, "flat battery of the DS1992", &with(second, 7, 1))?;
    report(
        rt,
        "1: second entry byte 2 at the DS1992",
        &with(second, 7, 2),
    )?;
    report(rt, "1: flat battery of a DS1982", &with(second, 11, 1))
}

fn main(rt: HostRuntime) -> io::Result<()> {
    check(rt, [0x0C, 0x2B, 0xC5, 0xFB, 0, 0, 0, 0x5E])?;
    check(rt, [0x09, 0x2B, 0xC5, 0xFB, 0, 0, 0, 0x97])?;
    check(rt, [0x09, 0xB3, 0xD8, 0xFB, 0, 0, 0, 0x17])?;
    check(rt, [0x02, 0x1C, 0xB8, 0x01, 0, 0, 0, 0xA2])?;
    small_images(rt)?;
    let image = three_devices();
    single_causes(rt, image)?;
    cause_pairs(rt, image)?;
    second_edition(rt, image)
}
