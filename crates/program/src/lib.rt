// The program as data and as bytes, what a thread's next line does, and the records of steps with their bytes:
// definitions, the round trip between programs and bytes, and what code shares with them. Main results: read_spelling
// and accepted_is_spelling (RoundTrip), longer_judged_by_front (Longer).
#![tactic(auto)]

ghost use Rattle.std.specs.Prelude.{◌≡◌};
ghost use Rattle.program.specs.Steps.{kind_number};
ghost use Rattle.program.specs.Number.{refusal_number};

// "kind (R, W or M for read-modify-write)": the kind of an access.
#[derive(Clone, Copy, Debug, PartialEq, Eq)]
pub enum Kind {
    Read,
    Write,
    Update,
}

// What a step shows: that its line is local, or the kind and location of its access and the value read or written. Local
// is one of four kinds that a step of the trace has, so this is no `Option` of an access.
#[derive(Clone, Copy, Debug, PartialEq, Eq)]
pub enum Label {
    Local,
    Access { kind: Kind, location: u8, value: u8 },
}

// Why an input is not accepted: the first check before the search that fails, with the check's question.
#[derive(Clone, Copy, Debug, PartialEq, Eq)]
pub enum Refusal {
    // "Does the input hold a whole PR record at its start?"
    NoHeader,
    // "Are T, L and K in range?"
    OutOfRange,
    // "Is the record that is due there, whole and with its mark?"
    NoRecord,
    // "For TH, is n at most 64?"
    TooManyLines,
    // "accepts 1 to 11": is op one of them?
    NoSuchOp,
    // "12 when op 11 stands in a program whose L is 16": is there room for the fence's location?
    NoRoomForFence,
    // "Is a used reg 0 to 3, and is every unused field 0?"
    BadFields,
    // "Is a used target in range?"
    NoSuchTarget,
    // "Is each used operand in range?"
    NoSuchOperand,
    // "Does the input end?"
    MoreBytes,
}

// "four bytes a step"
pub const STEP_SIZE: usize = 4;

// "kinds 0 to 3 for L, R, W, M"
impl From<Kind> for u8 {
    ghost from_gives = { λ kind number. number ≡ kind_number kind };

    #[tactic(auto, unfolding(crate::specs::Steps::kind_number))]
    fn from(kind: Kind) -> u8 {
        match kind {
            Kind::Read => 1,
            Kind::Write => 2,
            Kind::Update => 3,
        }
    }
}

// The number of the check that failed.
impl From<Refusal> for u8 {
    ghost from_gives = { λ refusal number. number ≡ refusal_number refusal };

    fn from(refusal: Refusal) -> u8 {
        match refusal {
            Refusal::NoHeader => 1,
            Refusal::OutOfRange => 2,
            Refusal::NoRecord => 3,
            Refusal::TooManyLines => 4,
            Refusal::NoSuchOp => 5,
            Refusal::NoRoomForFence => 12,
            Refusal::BadFields => 6,
            Refusal::NoSuchTarget => 7,
            Refusal::NoSuchOperand => 8,
            Refusal::MoreBytes => 9,
        }
    }
}
