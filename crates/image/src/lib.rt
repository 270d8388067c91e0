// This crate reads an image, which is a table of contents and then the bodies of the devices, packed, and tells why an
// image is refused. What a refusal leaves of a C host's numbers is a definition beside it (specs/Counted.antt).
#![tactic(auto)]

ghost use Rattle.std.specs.Prelude.{◌≡◌, length};
ghost use Rattle.kind.specs.Kind.{body_size};
ghost use Rattle.image.specs.Image.{count_of, edition_of, family_at, second_at, offset_at, flat_at, kind_at, code_at};
ghost use Rattle.image.specs.Image.{entry_of};
ghost use Rattle.image.specs.Refusal.{some_below, equal_bytes, edition_known, battery_malformed, entry_malformed};
ghost use Rattle.image.specs.Refusal.{image_malformed, image_too_long, body_misplaced};
ghost use Rattle.image.specs.Refusal.{code_refused, some_code_refused, code_repeated, some_code_repeated};
ghost use Rattle.image.specs.Refusal.{image_refusal, refusal_number, told_number};

use kind::Kind;

// An entry names its device's kind, with the state of its battery, and where the body starts in the image.
#[derive(Clone, Copy)]
pub struct Entry {
    pub kind: Kind,
    pub start: usize,
}

// An image, a run, a search or a judgement is refused for one of these causes, and the first that applies is given.
#[derive(Clone, Copy, Debug, PartialEq, Eq)]
pub enum Refusal {
    // The image is too short for its entries, has over 64 devices or an unknown edition, or an entry is malformed.
    MalformedImage,
    // A body is not at its packed place, or the image is of another length, or too long.
    MisplacedBody,
    // A code has a wrong CRC, or another family than its entry.
    WrongCode,
    // Two codes are equal.
    EqualCodes,
    // The trace is too long, or has a byte that is no event.
    BadTrace,
    // The trace does not begin with a regular reset.
    NoFirstReset,
    // The trace has a program pulse while a device is not a DS1982.
    BadPulse,
    // A buffer is too short, recorded answers are of another length than the trace, or line states are too few.
    NoRoom,
}

// A C program is told a refusal by its number.
impl From<Refusal> for u32 {
    ghost from_gives = { λ refusal number. number ≡ refusal_number refusal };

    #[tactic(auto, unfolding(crate::specs::Refusal::refusal_number))]
    fn from(refusal: Refusal) -> u32 {
        match refusal {
            Refusal::MalformedImage => 1,
            Refusal::MisplacedBody => 2,
            Refusal::WrongCode => 3,
            Refusal::EqualCodes => 4,
            Refusal::BadTrace => 5,
            Refusal::BadPulse => 6,
            Refusal::NoRoom => 7,
            Refusal::NoFirstReset => 11,
        }
    }
}

// A C program is told by the number 0 that nothing is refused.
pub const ACCEPTED: u32 = 0;

// An image of more bytes than this is refused.
const MOST_BYTES: usize = 65535;

// Byte 0 of an image is the number of its devices.
pub fn count(image: &[u8]) -> u8
    ensures { result ≡ count_of image.now }
{
    bits::byte_at(image, 0)
}

// As it is: image and i stay arguments, as a run and a C program lend an image as bytes that change between two calls.
fn family_at(image: &[u8], i: u8) -> u8
    ensures { result ≡ family_at image.now i }
{
    bits::byte_at(image, 2 + 4 * bits::wide(i))
}

fn second_at(image: &[u8], i: u8) -> u8
    ensures { result ≡ second_at image.now i }
{
    bits::byte_at(image, 2 + 4 * bits::wide(i) + 1)
}

// As it is: an edition is its byte, as `battery_malformed` says what any byte but 1 does, and so it is no enum.
fn edition(image: &[u8]) -> u8
    ensures { result ≡ edition_of image.now }
{
    bits::byte_at(image, 1)
}

// In edition 2 the second byte of an entry is 1 where the device's battery is flat; in edition 1 all are good.
fn flat_at(image: &[u8], i: u8) -> bool
    ensures { result ≡ flat_at image.now i }
{
    edition(image) == 2 && second_at(image, i) == 1
}

fn kind_at(image: &[u8], i: u8) -> Kind
    ensures { result ≡ kind_at image.now i }
{
    kind::kind_of(family_at(image, i), flat_at(image, i))
}

fn offset_at(image: &[u8], i: u8) -> u16
    ensures { result ≡ offset_at image.now i }
{
    let low = bits::byte_at(image, 2 + 4 * bits::wide(i) + 2);
    let high = bits::byte_at(image, 2 + 4 * bits::wide(i) + 3);
    u16::from_le_bytes([low, high])
}

// The entry of device i is decoded. The body is found from its offset alone, so that the cost does not depend on i.
#[tactic(auto, unfolding(crate::specs::Image::entry_of))]
pub fn entry_at(image: &[u8], i: u8) -> Entry
    ensures { result ≡ entry_of image.now i }
{
    Entry {
        kind: kind_at(image, i),
        start: usize::from(offset_at(image, i)),
    }
}

// This tells whether the second byte of an entry is none that the edition has for a device of this kind: edition 1 has
// only 0, edition 2 has 0 and 1, and 1 only for a device with a battery, which a DS1982 is not.
#[tactic(auto, unfolding(crate::specs::Refusal::battery_malformed))]
fn is_battery_malformed(edition: u8, second: u8, kind: Kind) -> bool
    ensures { result ≡ battery_malformed edition second kind }
{
    if edition == 1 {
        second != 0
    } else {
        1 < second || second == 1 && kind::is_eprom(kind)
    }
}

#[tactic(auto, unfolding(crate::specs::Refusal::entry_malformed))]
fn is_entry_malformed(image: &[u8], i: u8) -> bool
    ensures { result ≡ entry_malformed image.now i }
{
    let kind = kind_at(image, i);
    is_battery_malformed(edition(image), second_at(image, i), kind) || kind::is_unknown(kind)
}

fn has_malformed_entry(image: &[u8]) -> bool
    ensures { result ≡ some_below (count_of image.now) (λ i. entry_malformed image.now i) }
{
    (0..count(image)).any(|i| is_entry_malformed(image, i))
}

// An image is of edition 1 or 2.
#[tactic(auto, unfolding(crate::specs::Refusal::edition_known))]
fn is_edition_known(edition: u8) -> bool
    ensures { result ≡ edition_known edition }
{
    matches!(edition, 1 | 2)
}

// Cause 1 is an image too short for its entries, over 64 devices, another edition than 1 or 2, or a malformed entry.
#[tactic(auto, unfolding(crate::specs::Refusal::image_malformed))]
fn is_malformed(image: &[u8]) -> bool
    ensures { result ≡ image_malformed image.now }
{
    let n = count(image);
    image.len() < 2 + 4 * bits::wide(n)
        || 64 < n
        || !is_edition_known(edition(image))
        || has_malformed_entry(image)
}

// Cause 2 is an image that is too long.
#[tactic(auto, unfolding(crate::specs::Refusal::image_too_long))]
fn is_too_long(image: &[u8]) -> bool
    ensures { result ≡ image_too_long image.now }
{
    MOST_BYTES < image.len()
}

// Cause 2 is also a body that is not at its packed place, or an image of another length than the packed bodies have.
fn is_misplaced(image: &[u8]) -> bool
    ensures { result ≡ body_misplaced image.now }
{
    let n = count(image);
    let mut at = 2 + 4 * bits::wide(n);
    for i in 0..n {
        if usize::from(offset_at(image, i)) != at {
            return true;
        }
        at += kind::body_size(kind_at(image, i));
    }
    image.len() != at
}

#[tactic(auto, using(crate::proofs::Laws::short_code), unfolding(crate::specs::Refusal::code_refused))]
fn is_code_refused(image: &[u8], i: u8) -> bool
    ensures { result ≡ code_refused image.now i }
{
    let start = usize::from(offset_at(image, i));
    let end = start + kind::CODE_LENGTH;
    if image.len() < end {
        return true;
    }
    !bits::registration_check(&image[start..end]) || image[start] != family_at(image, i)
}

// Cause 3 is a code with a wrong CRC, or with another family than its entry.
fn is_miscoded(image: &[u8]) -> bool
    ensures { result ≡ some_code_refused image.now }
{
    (0..count(image)).any(|i| is_code_refused(image, i))
}

// As it is: `equal_bytes` takes a code past the image's end as zeros, so that two slices of it cannot be compared.
fn same_code(image: &[u8], i: u8, j: u8) -> bool
    ensures { result ≡ equal_bytes 8 (code_at image.now i) (code_at image.now j) }
{
    let a = usize::from(offset_at(image, i));
    let b = usize::from(offset_at(image, j));
    (0..kind::CODE_LENGTH).all(|k| bits::byte_at(image, a + k) == bits::byte_at(image, b + k))
}

// This tells whether the code of device j is that of a device before it, next to it or not.
fn is_repeated(image: &[u8], j: u8) -> bool
    ensures { result ≡ code_repeated image.now j }
{
    (0..j).any(|i| same_code(image, i, j))
}

// Cause 4 is two equal codes.
fn is_doubled(image: &[u8]) -> bool
    ensures { result ≡ some_code_repeated image.now }
{
    (0..count(image)).any(|j| is_repeated(image, j))
}

// An image is refused for the first cause that applies.
pub fn check(image: &[u8]) -> Result<(), Refusal>
    ensures { told_number result ≡ image_refusal image.now }
{
    if is_malformed(image) {
        return Err(Refusal::MalformedImage);
    }
    if is_too_long(image) || is_misplaced(image) {
        return Err(Refusal::MisplacedBody);
    }
    if is_miscoded(image) {
        return Err(Refusal::WrongCode);
    }
    if is_doubled(image) {
        return Err(Refusal::EqualCodes);
    }
    Ok(())
}
