// This crate is the reader of a recorded session: a struct that holds the trace that a program sent, the answers that
// it recorded, and a place in both. A reader begins before the first event, is asked at each event, and moves on to the
// next. The methods are thin; what they tell is a function over plain slices and numbers.
#![tactic(auto)]

ghost use Rattle.std.specs.Prelude.{◌≡◌, length, get_or};
ghost use Rattle.recording.specs.Recorded.{agrees_at, next_at, level_at};

#[derive(Clone, Copy)]
pub struct Recording<'a, 'b> {
    trace: &'a [u8],
    answers: &'b [u8],
    // Events are counted from 0.
    pub at: usize,
}

#[tactic(auto, unfolding(crate::specs::Recorded::agrees_at, bits::specs::Bit::level_byte))]
fn agrees_at(trace: &[u8], answers: &[u8], k: usize, level: bool) -> bool
    ensures { result ≡ agrees_at trace.now answers.now k level }
{
    k < trace.len() && k < answers.len() && answers[k] == u8::from(level)
}

// At the end of the trace the reader stays.
#[tactic(auto, unfolding(crate::specs::Recorded::next_at))]
fn next_at(events: usize, k: usize) -> usize
    ensures { result ≡ next_at events k }
{
    if k < events { k + 1 } else { k }
}

impl<'a, 'b> Recording<'a, 'b> {
    // The reader stands before the first event.
    pub fn new(trace: &'a [u8], answers: &'b [u8]) -> Self
        ensures { (result.trace ≡ trace.entry) × (result.answers ≡ answers.entry) × (result.at ≡ 0) }
    {
        Recording {
            trace,
            answers,
            at: 0,
        }
    }

    // This is the byte of event k; past the end of the trace it is 0.
    pub fn event(self, k: usize) -> u8
        ensures { result ≡ get_or self.entry.trace.now k 0 }
    {
        bits::byte_at(self.trace, k)
    }

    // The recorded answer of event k counts as the level of the line. Where it is not, rule A is broken, and no other
    // rule counts.
    pub fn level(self, k: usize) -> bool
        ensures { result ≡ level_at self.entry.answers.now k }
    {
        bits::byte_at(self.answers, k) == 1
    }

    // This tells whether the answer that was recorded for the event at the reader's place is this level.
    pub fn agrees(self, level: bool) -> bool
        ensures { result ≡ agrees_at self.entry.trace.now self.entry.answers.now self.entry.at level }
    {
        agrees_at(self.trace, self.answers, self.at, level)
    }

    // The reader moves past the event at its place.
    pub fn next(self) -> Self
        ensures { (result.trace ≡ self.entry.trace) × (result.answers ≡ self.entry.answers)
            × (result.at ≡ next_at (length self.entry.trace.now) self.entry.at) }
    {
        let at = next_at(self.trace.len(), self.at);
        Recording { at, ..self }
    }
}
