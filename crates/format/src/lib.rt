// The program bytes of document 01: the reader, and the line at a place of an accepted input.
// The meaning is specs/Format.antt of the crate program; each contract is an equation with it.
#![tactic(auto)]

mod lines;
pub mod source;
mod threads;

ghost use Rattle.std.specs.Prelude.{◌≡◌, IfOk};
ghost use Rattle.program.specs.Format.{are_in_range, read_program};
ghost use Rattle.program.specs.Number.{outcome_of};
ghost use Rattle.format.specs.Answer.{reading};
ghost use Rattle.format.specs.Read.{header_read};

use program::Refusal;
use records::is_record;
use source::Source;
pub use source::line_at;
use threads::read_threads;

// The bytes of each record.
const PR_SIZE: usize = 5;

const TH_SIZE: usize = 3;

const IN_SIZE: usize = 7;

// The byte at which the lines of a thread start, and how many there are. Short numbers, as a program
// has 3,613 bytes at most.
#[derive(Clone, Copy, Debug, PartialEq, Eq)]
pub struct Span {
    pub start: u16,
    pub count: u16,
}

// What an accepted input says of itself: T, the number of all locations that runs have (L, and one more where there is
// a fence), K, and for each thread where its lines are, with none past the last thread.
#[derive(Clone, Copy, Debug, PartialEq, Eq)]
pub struct Header {
    pub threads: usize,
    pub locations: usize,
    pub values: usize,
    pub lines: [Span; limits::THREADS],
}

#[derive(Clone, Copy, Debug, PartialEq, Eq)]
pub enum Operand {
    Constant(u8),
    Register(usize),
}

// A line, with the fields that it uses.
#[derive(Clone, Copy, Debug, PartialEq, Eq)]
pub enum Line {
    Sum {
        reg: usize,
        a: Operand,
        b: Operand,
    },
    Equal {
        reg: usize,
        a: Operand,
        b: Operand,
    },
    Less {
        reg: usize,
        a: Operand,
        b: Operand,
    },
    Jump {
        target: u8,
        a: Operand,
    },
    Write {
        location: usize,
        a: Operand,
    },
    Read {
        reg: usize,
        location: usize,
    },
    Fadd {
        reg: usize,
        location: usize,
        a: Operand,
    },
    Cas {
        reg: usize,
        location: usize,
        a: Operand,
        b: Operand,
    },
    Wait {
        location: usize,
        a: Operand,
    },
    Bcas {
        location: usize,
        a: Operand,
        b: Operand,
    },
    Fence,
}

// Check 2.
#[tactic(auto, unfolding(program::specs::Format::are_in_range))]
fn are_in_range(t: u8, l: u8, k: u8) -> bool
    ensures { result ≡ are_in_range t l k }
{
    (1..=limits::THREADS).contains(&usize::from(t))
        && (1..=limits::LOCATIONS).contains(&usize::from(l))
        && (limits::MIN_VALUES..=limits::VALUES).contains(&usize::from(k))
}

// The checks, and the header of the program that the bytes spell.
#[tactic(auto, using(crate::proofs::FieldChecks::header_checked), unfolding(program::specs::Format::read_program))]
fn read_header(bytes: &[u8]) -> Result<Header, Refusal>
    ensures { outcome_of result ≡ reading (read_program bytes.now) }
{
    if !is_record(bytes, 0, b"PR", PR_SIZE) {
        return Err(Refusal::NoHeader);
    }
    let (t, l, k) = (bytes[2], bytes[3], bytes[4]);
    if !are_in_range(t, l, k) {
        return Err(Refusal::OutOfRange);
    }
    read_threads(bytes, t, l, k)
}

// Reads any input: the first failed check, or the input with the header of the program that it spells.
#[tactic(auto, using(crate::proofs::SourceLines::source_read))]
pub fn read(bytes: &[u8]) -> Result<Source<'_>, Refusal>
    ensures outcome { header_read result ≡ reading (read_program bytes.now) }
    ensures bytes { IfOk result (λ source. source.bytes.now ≡ bytes.now) }
{
    let header = read_header(bytes)?;
    Ok(Source { bytes, header })
}
