// The lines of a thread: their checks, and the line of a record that passed.
ghost use Rattle.std.specs.Prelude.{◌≡◌, ◌≤◌, length, drop};
ghost use Rattle.program.specs.Program.{is_fence};
ghost use Rattle.program.specs.Ops.{op_at};
ghost use Rattle.program.specs.Outcome.{told};
ghost use Rattle.program.specs.Number.{outcome_of};
ghost use Rattle.program.specs.Format.{operand, fields_to_line, read_line, read_lines};
ghost use Rattle.records.specs.Fields.{table_row};
ghost use Rattle.format.specs.Answer.{operand_means, line_means};
ghost use Rattle.format.specs.Inner.{line_is_fence, lines_have_fence};

use crate::{IN_SIZE, Line, Operand};
use program::Refusal;
use records::{FIRST_REGISTER, Fields, Op, is_record};

// Checks 5 to 8 of the fields of a line, with 12 directly after 5: whether the line is a fence.
#[tactic(auto, using(crate::proofs::FieldChecks::fields_checked), unfolding(program::specs::Format::fields_to_line))]
fn check_fields(fields: Fields, l: u8, k: u8, n: u8) -> Result<bool, Refusal>
    ensures { outcome_of result
        ≡ told is_fence (fields_to_line l k n fields.op fields.reg fields.target fields.a fields.b) }
{
    let op = Op::try_from(fields.op)?;
    if !fields.leaves_room(l) {
        return Err(Refusal::NoRoomForFence);
    }
    let row = op.row();
    if !row.is_reg_and_rest(fields) {
        return Err(Refusal::BadFields);
    }
    if !row.is_target(fields, l, n) {
        return Err(Refusal::NoSuchTarget);
    }
    if !row.are_operands(fields, k) {
        return Err(Refusal::NoSuchOperand);
    }
    Ok(op == Op::Fence)
}

// Check 3, then those of the fields, of the line that is due at the cursor.
#[tactic(auto, using(crate::proofs::Turns::line_checks))]
fn check_line(bytes: &[u8], at: usize, l: u8, k: u8, n: u8) -> Result<bool, Refusal>
    requires { at ≤ length bytes.now }
    ensures { outcome_of result ≡ told line_is_fence (read_line l k n (drop at bytes.now)) }
{
    if !is_record(bytes, at, b"IN", IN_SIZE) {
        return Err(Refusal::NoRecord);
    }
    check_fields(Fields::at(bytes, at), l, k, n)
}

// All n lines of a thread, from the cursor: whether a fence is among them.
#[tactic(auto, using(crate::proofs::Turns::line_turns))]
pub fn check_lines(bytes: &[u8], at: usize, l: u8, k: u8, n: u8) -> Result<bool, Refusal>
    requires { at ≤ length bytes.now }
    ensures { outcome_of result ≡ told lines_have_fence (read_lines l k n n (drop at bytes.now)) }
{
    let mut fenced = false;
    let mut next = at;
    for _ in 0..n {
        fenced |= check_line(bytes, next, l, k, n)?;
        next += IN_SIZE;
    }
    Ok(fenced)
}

// An operand among k values. (A byte between the values and the registers stands for none, and is never used.)
#[tactic(auto, unfolding(crate::specs::Answer::operand_means, program::specs::Format::operand))]
fn operand_of(k: usize, x: u8) -> Operand
    ensures { operand_means result ≡ operand k x }
{
    if usize::from(x) < k {
        Operand::Constant(x)
    } else {
        Operand::Register(usize::from(x).saturating_sub(FIRST_REGISTER))
    }
}

// The line that an op makes of the fields of its record.
#[tactic(auto, using(crate::proofs::FieldChecks::row_makes), unfolding(crate::specs::Answer::line_means))]
fn made(op: Op, fields: Fields, k: usize) -> Line
    ensures { line_means result
        ≡ (table_row op).makes fields.reg fields.target (operand k fields.a) (operand k fields.b) }
{
    let reg = usize::from(fields.reg);
    let location = usize::from(fields.target);
    let a = operand_of(k, fields.a);
    let b = operand_of(k, fields.b);
    match op {
        Op::Sum => Line::Sum { reg, a, b },
        Op::Equal => Line::Equal { reg, a, b },
        Op::Less => Line::Less { reg, a, b },
        Op::Jump => Line::Jump {
            target: fields.target,
            a,
        },
        Op::Write => Line::Write { location, a },
        Op::Read => Line::Read { reg, location },
        Op::Fadd => Line::Fadd { reg, location, a },
        Op::Cas => Line::Cas {
            reg,
            location,
            a,
            b,
        },
        Op::Wait => Line::Wait { location, a },
        Op::Bcas => Line::Bcas { location, a, b },
        Op::Fence => Line::Fence,
    }
}

// The line that the fields of an op's record are.
pub fn decode(fields: Fields, k: usize) -> Line
    ensures { line_means result
        ≡ (op_at fields.op).makes fields.reg fields.target (operand k fields.a) (operand k fields.b) }
{
    made(Op::of(fields.op), fields, k)
}
