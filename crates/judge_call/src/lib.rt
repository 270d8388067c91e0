// This crate is what a C program calls of the judge, on numbers and byte slices. It is an object of its own: in one
// with `troughiron` a step of the bus would have two callers, would not be inlined, and the run would be slower.
#![tactic(auto)]

ghost use Rattle.judge.specs.Judge.{told};
ghost use Rattle.judge_call.specs.Host.{OwnJudgeLeaves, HostJudgeLeaves, host_judge};

use device::LineState;
use image::Refusal;
use judge::{Broken, Verdict};

// The judge has 64 line states of its own, as an image has at most 64 devices.
fn judge_own(
    image: &[u8],
    trace: &[u8],
    answers: &[u8],
    work: &mut [u8],
) -> Result<Option<Broken>, Refusal>
    ensures { OwnJudgeLeaves
        (host_judge image.now trace.now answers.now work.old) (told result)
        work.new }
{
    let mut lines = [LineState::waiting(); 64];
    judge::judge(image, trace, answers, work, &mut lines)
}

// The judge writes the broken rule and its event only where the recording is not refused.
#[unsafe(no_mangle)]
pub extern "C" fn troughiron_judge(
    image: &[u8],
    trace: &[u8],
    answers: &[u8],
    work: &mut [u8],
    rule: &mut u64,
    event: &mut u64,
) -> u32
    ensures { HostJudgeLeaves
        (host_judge image.now trace.now answers.now work.old)
        rule.old event.old result work.new rule.new event.new }
{
    let answer = judge_own(image, trace, answers, work);
    let verdict = Verdict::from(answer);
    if answer.is_ok() {
        *rule = judge::rule_of(verdict);
        *event = judge::event_of(verdict);
    }
    judge::refusal_of(verdict)
}
