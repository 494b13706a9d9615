// Why a call is refused.
ghost use Rattle.std.specs.Prelude.{◌≡◌};
ghost use Rattle.answers.specs.Refusal.{marks};
ghost use Rattle.answers.specs.Answer.{number_of, code_of, or_none};

// Its number is what C is told.
#[derive(Clone, Copy, PartialEq, Eq, Debug)]
pub enum Refusal {
    State = 1,
    Setting = 2,
    Key = 3,
    Short = 4,
    Session = 5,
    Length = 6,
    Small = 7,
    Spent = 8,
    Old = 9,
    Repeat = 10,
    Stale = 11,
    Plain = 12,
    Mac = 13,
    Inner = 14,
    Padding = 15,
    Size = 16,
    Room = 17,
    Held = 18,
    Epochs = 19,
    Wrapped = 20,
    Frame = 21,
    // Those of the controller's table.
    Twice = 22,
    Rows = 23,
    Unknown = 24,
}

impl Refusal {
    // The largest of page 01's own.
    pub const LARGEST: Refusal = Refusal::Frame;

    pub fn number(self) -> u8
        ensures { result ≡ number_of self }
    {
        self as u8
    }

    // Whether the number of the record is marked all the same.
    #[tactic(auto, unfolding(crate::specs::Refusal::marks))]
    pub fn marks(self) -> bool
        ensures { result ≡ marks (number_of self) }
    {
        matches!(self, Refusal::Inner)
    }
}

// What C is told of a result: 0 and what is handed out, or the refusal's number and this `none`.
pub fn told<T: Copy>(answer: Result<T, Refusal>, none: T) -> (u8, T)
    ensures { (result.0 ≡ code_of answer) × (result.1 ≡ or_none none answer) }
{
    match answer {
        Ok(value) => (0, value),
        Err(why) => (why.number(), none),
    }
}

// The byte that C is told of a call that hands out nothing: 0, or the refusal's number.
pub fn code(answer: Result<(), Refusal>) -> u8
    ensures { result ≡ code_of answer }
{
    match answer {
        Ok(()) => 0,
        Err(why) => why.number(),
    }
}
