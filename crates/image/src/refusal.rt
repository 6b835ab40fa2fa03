// Why a call was refused: the question that was answered with no. docs/numbers.md has them all; each crate puts those of its calls.
ghost use Rattle.std.specs.Prelude.{◌≡◌};
ghost use Rattle.image.specs.Refusals.{number, no_of};

#[derive(Clone, Copy, Debug, PartialEq, Eq)]
pub enum Refusal {
    Header,
    Mark,
    Version,
    Counts,
    Length,
    BlockStart,
    Annotation,
    Fields,
    LastInBlock,
    Input,
    Places,
    Interval,
    Registers,
    Words,
    Buffer,
    Shape,
    Slot,
    Ended,
    NotRunning,
    Work,
    Lanes,
}

impl Refusal {
    // The question's number.
    pub fn number(self) -> u8
        ensures { result ≡ number self }
    {
        match self {
            Refusal::Header => 1,
            Refusal::Mark => 2,
            Refusal::Version => 3,
            Refusal::Counts => 4,
            Refusal::Length => 5,
            Refusal::BlockStart => 6,
            Refusal::Annotation => 7,
            Refusal::Fields => 8,
            Refusal::LastInBlock => 9,
            Refusal::Input => 10,
            Refusal::Places => 11,
            Refusal::Interval => 12,
            Refusal::Registers => 13,
            Refusal::Words => 14,
            Refusal::Buffer => 15,
            Refusal::Shape => 20,
            Refusal::Slot => 21,
            Refusal::Ended => 22,
            Refusal::NotRunning => 23,
            Refusal::Work => 24,
            Refusal::Lanes => 41,
        }
    }
}

// An answer as C gets it: 0, or the refusal's number.
pub fn code(answer: Result<(), Refusal>) -> u8
    ensures { result ≡ no_of answer }
{
    match answer {
        Ok(()) => 0,
        Err(refusal) => refusal.number(),
    }
}
