// This crate is what a C program calls of the search, on numbers and byte slices. It is an object of its own: in one
// with `troughiron` what ends a transfer of a device would have two callers, would not be inlined, and the search and
// the run would be slower.
#![tactic(auto)]

ghost use Rattle.std.specs.Prelude.{◌≡◌, OnOk};
ghost use Rattle.search_laws.specs.Search.{search_of};
ghost use Rattle.search_laws.specs.Searched.{Searched};
ghost use Rattle.search.specs.Found.{search_told};
ghost use Rattle.search_call.specs.Host.{OwnSearchLeaves, HostSearchLeaves, host_search};

use device::LineState;
use image::{ACCEPTED, Refusal};
use search::Found;

// The search has 64 line states of its own, as an image has at most 64 devices.
fn search_own(image: &[u8], codes: &mut [u8], trace: &mut [u8]) -> Result<Found, Refusal>
    ensures { OwnSearchLeaves (host_search image.now codes.old trace.old) (search_told result)
        codes.new trace.new
        × OnOk result (Searched image.now (search_of image.now)) }
{
    let mut lines = [LineState::waiting(); 64];
    search::search(image, codes, trace, &mut lines)
}

// The search writes the numbers of passes, resets and slots only where it is not refused.
#[unsafe(no_mangle)]
pub extern "C" fn troughiron_search(
    image: &[u8],
    codes: &mut [u8],
    trace: &mut [u8],
    passes: &mut u64,
    resets: &mut u64,
    slots: &mut u64,
) -> u32
    ensures { HostSearchLeaves (host_search image.now codes.old trace.old)
        passes.old resets.old slots.old result codes.new trace.new
        passes.new resets.new slots.new
        × (result ≡ 0 → Searched image.now (search_of image.now)) }
{
    match search_own(image, codes, trace) {
        Ok(found) => {
            *passes = found.passes;
            *resets = found.resets;
            *slots = found.slots;
            ACCEPTED
        }
        Err(refusal) => u32::from(refusal),
    }
}
