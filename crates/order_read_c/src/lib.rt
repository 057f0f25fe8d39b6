// The reader for C and Rust: a static library of two functions.
#![tactic(auto)]

ghost use Rattle.std.specs.Prelude.{◌≡◌, map};
ghost use Rattle.format.specs.declared.Span.{Span};
ghost use Rattle.program.specs.Format.{read_program};
ghost use Rattle.format.specs.Answer.{operand_means, line_means};
ghost use Rattle.order_read_c.specs.Answer.{header_answer, no_operand, operand_answer};
ghost use Rattle.order_read_c.specs.Answer.{make_line, no_line, line_fields, line_answer};

use format::{Line, Operand, Span};

// The answer of order_read: the number of the failed check, or 0 and the program's header.
#[repr(C)]
#[derive(Clone, Copy)]
pub struct HeaderAnswer {
    // 0 where the input is accepted, else the number of the first failed check, 1 to 9 or 12.
    pub number: usize,
    // T, L (the named locations, without the fence's) and K; 0 where the input is refused.
    pub threads: usize,
    pub locations: usize,
    pub values: usize,
    // For each thread the byte at which its lines start and how many there are; 0 past the last thread.
    pub starts: [usize; limits::THREADS],
    pub counts: [usize; limits::THREADS],
}

// An operand of a line: kind 0 where the line has none, 1 for a constant, 2 for a register.
#[repr(C)]
#[derive(Clone, Copy)]
pub struct OperandAnswer {
    pub kind: usize,
    pub number: usize,
}

// The answer of order_line: the line's op and fields, and 0 in the fields that it does not use; op 0 where there is no
// such line.
#[repr(C)]
#[derive(Clone, Copy)]
pub struct LineAnswer {
    pub op: usize,
    pub reg: usize,
    pub target: usize,
    pub a: OperandAnswer,
    pub b: OperandAnswer,
}

// Where the lines of each thread start, and how many there are.
fn starts_of(lines: [Span; limits::THREADS]) -> [usize; limits::THREADS]
    ensures { result ≡ map (λ (span : Span). span.start) lines }
{
    lines.map(|span| usize::from(span.start))
}

fn counts_of(lines: [Span; limits::THREADS]) -> [usize; limits::THREADS]
    ensures { result ≡ map (λ (span : Span). span.count) lines }
{
    lines.map(|span| usize::from(span.count))
}

// Reads any input.
#[tactic(auto, using(crate::proofs::Answers::header_read_there))]
#[unsafe(no_mangle)]
pub extern "C" fn order_read(program: &[u8]) -> HeaderAnswer
    ensures { result ≡ header_answer (read_program program.now) }
{
    match format::read(program) {
        Ok(source) => HeaderAnswer {
            number: 0,
            threads: source.header.threads,
            // The header's own count has the fence's location too.
            locations: usize::from(program[3]),
            values: source.header.values,
            starts: starts_of(source.header.lines),
            counts: counts_of(source.header.lines),
        },
        Err(refusal) => HeaderAnswer {
            number: usize::from(u8::from(refusal)),
            threads: 0,
            locations: 0,
            values: 0,
            starts: [0; limits::THREADS],
            counts: [0; limits::THREADS],
        },
    }
}

fn no_operand() -> OperandAnswer
    ensures { result ≡ no_operand }
{
    OperandAnswer { kind: 0, number: 0 }
}

#[tactic(auto, unfolding(crate::specs::Answer::operand_answer, format::specs::Answer::operand_means))]
fn operand_of(x: Operand) -> OperandAnswer
    ensures { result ≡ operand_answer (operand_means x) }
{
    match x {
        Operand::Constant(v) => OperandAnswer {
            kind: 1,
            number: usize::from(v),
        },
        Operand::Register(r) => OperandAnswer { kind: 2, number: r },
    }
}

fn make_line(op: usize, reg: usize, target: usize, a: OperandAnswer, b: OperandAnswer) -> LineAnswer
    ensures { result ≡ make_line op reg target a b }
{
    LineAnswer {
        op,
        reg,
        target,
        a,
        b,
    }
}

#[tactic(auto, unfolding(crate::specs::Answer::line_fields, format::specs::Answer::line_means))]
fn fields_of(line: Line) -> LineAnswer
    ensures { result ≡ line_fields (line_means line) }
{
    let none = no_operand();
    match line {
        Line::Sum { reg, a, b } => make_line(1, reg, 0, operand_of(a), operand_of(b)),
        Line::Equal { reg, a, b } => make_line(2, reg, 0, operand_of(a), operand_of(b)),
        Line::Less { reg, a, b } => make_line(3, reg, 0, operand_of(a), operand_of(b)),
        Line::Jump { target, a } => make_line(4, 0, usize::from(target), operand_of(a), none),
        Line::Write { location, a } => make_line(5, 0, location, operand_of(a), none),
        Line::Read { reg, location } => make_line(6, reg, location, none, none),
        Line::Fadd { reg, location, a } => make_line(7, reg, location, operand_of(a), none),
        Line::Cas {
            reg,
            location,
            a,
            b,
        } => make_line(8, reg, location, operand_of(a), operand_of(b)),
        Line::Wait { location, a } => make_line(9, 0, location, operand_of(a), none),
        Line::Bcas { location, a, b } => make_line(10, 0, location, operand_of(a), operand_of(b)),
        Line::Fence => make_line(11, 0, 0, none, none),
    }
}

fn no_line() -> LineAnswer
    ensures { result ≡ no_line }
{
    let none = no_operand();
    make_line(0, 0, 0, none, none)
}

// Line number `line` of thread number `thread`, both from 0, of any input.
#[tactic(auto, using(crate::proofs::Answers::line_read))]
#[unsafe(no_mangle)]
pub extern "C" fn order_line(program: &[u8], thread: usize, line: usize) -> LineAnswer
    ensures { result ≡ line_answer (read_program program.now) thread line }
{
    let Ok(source) = format::read(program) else {
        return no_line();
    };
    if source.header.threads <= thread {
        return no_line();
    }
    match source.line(thread, line) {
        None => no_line(),
        Some(found) => fields_of(found),
    }
}
