// This crate is what a C program calls, on numbers and byte slices, but for the search and the judge, whose calls are
// in `search_call` and `judge_call`.
#![tactic(auto)]

ghost use Rattle.std.specs.Prelude.{◌≡◌, cond};
ghost use Rattle.bits.specs.Crc.{registration_check};
ghost use Rattle.bus.specs.Run.{run_told};
ghost use Rattle.troughiron.specs.Host.{OwnRunLeaves, HostRunLeaves, host_run};

use device::LineState;
use image::{ACCEPTED, Refusal};

// The run has 64 line states of its own, as an image has at most 64 devices.
fn run_own(image: &mut [u8], trace: &[u8], answers: &mut [u8]) -> Result<u64, Refusal>
    ensures { OwnRunLeaves (host_run image.old trace.now answers.old) (run_told result)
        image.new answers.new }
{
    let mut lines = [LineState::waiting(); 64];
    bus::run(image, trace, answers, &mut lines)
}

// The run writes the number of bytes copied only where it is not refused.
#[unsafe(no_mangle)]
pub extern "C" fn troughiron_run(
    image: &mut [u8],
    trace: &[u8],
    answers: &mut [u8],
    copied: &mut u64,
) -> u32
    ensures { HostRunLeaves (host_run image.old trace.now answers.old)
        copied.old result image.new answers.new copied.new }
{
    match run_own(image, trace, answers) {
        Ok(bytes) => {
            *copied = bytes;
            ACCEPTED
        }
        Err(refusal) => u32::from(refusal),
    }
}

// The registration check returns 1 for yes and 0 for no.
#[unsafe(no_mangle)]
pub extern "C" fn troughiron_registration_check(code: &[u8]) -> u32
    ensures { result ≡ cond (registration_check code.now) 1 0 }
{
    u32::from(bits::registration_check(code))
}
