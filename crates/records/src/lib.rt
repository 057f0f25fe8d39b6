// The ops of a line's record, and the tests of one record, by their definitions in specs/Format.antt of the crate
// program: its mark, and the fields of a line. Which test comes first is the reader's (crate format).
#![tactic(auto)]

ghost use Rattle.std.specs.Prelude.{◌≡◌, ◌+◌, ◌≤◌, length, drop};
ghost use Rattle.program.specs.Ops.{op_at};
ghost use Rattle.program.specs.Format.{is_record, is_operand, is_target, is_reg_and_rest, are_operands, leaves_room};
ghost use Rattle.records.specs.Fields.{OpDecoded, op_number, table_row, fields_of, make_row, row_of};

use program::Refusal;

// The byte that stands for register 0 as an operand.
pub const FIRST_REGISTER: usize = 128;

// The ops, in the order of their bytes, 1 to 11.
#[derive(Clone, Copy, Debug, PartialEq, Eq)]
pub enum Op {
    Sum,
    Equal,
    Less,
    Jump,
    Write,
    Read,
    Fadd,
    Cas,
    Wait,
    Bcas,
    Fence,
}

// What a used target names.
#[derive(Clone, Copy, Debug, PartialEq, Eq)]
pub enum Target {
    Location,
    Line,
}

// Which fields an op uses.
#[derive(Clone, Copy, Debug, PartialEq, Eq)]
pub struct Row {
    pub reg: bool,
    pub target: Option<Target>,
    pub a: bool,
    pub b: bool,
}

// The fields of a line's record, as they stand in the bytes.
#[derive(Clone, Copy, Debug, PartialEq, Eq)]
pub struct Fields {
    pub op: u8,
    pub reg: u8,
    pub target: u8,
    pub a: u8,
    pub b: u8,
}

// Check 5.
impl TryFrom<u8> for Op {
    type Error = Refusal;

    ghost try_from_gives = { OpDecoded };

    #[tactic(auto, unfolding(program::specs::Ops::is_op, program::specs::Ops::op_table))]
    fn try_from(byte: u8) -> Result<Op, Refusal> {
        match byte {
            1 => Ok(Op::Sum),
            2 => Ok(Op::Equal),
            3 => Ok(Op::Less),
            4 => Ok(Op::Jump),
            5 => Ok(Op::Write),
            6 => Ok(Op::Read),
            7 => Ok(Op::Fadd),
            8 => Ok(Op::Cas),
            9 => Ok(Op::Wait),
            10 => Ok(Op::Bcas),
            11 => Ok(Op::Fence),
            _ => Err(Refusal::NoSuchOp),
        }
    }
}

fn uses(reg: bool, target: Option<Target>, a: bool, b: bool) -> Row
    ensures { result ≡ make_row reg target a b }
{
    Row { reg, target, a, b }
}

impl From<Op> for u8 {
    ghost from_gives = { λ op byte. byte ≡ op_number op };

    fn from(op: Op) -> u8 {
        match op {
            Op::Sum => 1,
            Op::Equal => 2,
            Op::Less => 3,
            Op::Jump => 4,
            Op::Write => 5,
            Op::Read => 6,
            Op::Fadd => 7,
            Op::Cas => 8,
            Op::Wait => 9,
            Op::Bcas => 10,
            Op::Fence => 11,
        }
    }
}

impl Op {
    // The op whose row of the op table a byte gets: the first, where no op has the byte.
    pub fn of(byte: u8) -> Op
        ensures { table_row result ≡ op_at byte }
    {
        Op::try_from(byte).unwrap_or(Op::Sum)
    }

    // The op table: the fields that each op uses, reg, target, A and B.
    #[tactic(auto, unfolding(program::specs::Ops::op_at, program::specs::Ops::op_table, program::specs::Ops::sum_op))]
    pub fn row(self) -> Row
        ensures { result ≡ row_of (table_row self) }
    {
        match self {
            Op::Sum | Op::Equal | Op::Less => uses(true, None, true, true),
            Op::Jump => uses(false, Some(Target::Line), true, false),
            Op::Write | Op::Wait => uses(false, Some(Target::Location), true, false),
            Op::Read => uses(true, Some(Target::Location), false, false),
            Op::Fadd => uses(true, Some(Target::Location), true, false),
            Op::Cas => uses(true, Some(Target::Location), true, true),
            Op::Bcas => uses(false, Some(Target::Location), true, true),
            Op::Fence => uses(false, None, false, false),
        }
    }
}

// The record that is due stands at the cursor, whole and with its mark.
#[tactic(auto, using(crate::proofs::AtCursor::record_due))]
pub fn is_record(bytes: &[u8], at: usize, mark: &[u8; 2], size: usize) -> bool
    requires { at ≤ length bytes.now }
    ensures { result ≡ is_record mark.now size (drop at bytes.now) }
{
    size <= bytes.len() - at && bytes[at..].starts_with(mark)
}

// An operand among k values.
#[tactic(auto, unfolding(program::specs::Format::is_operand))]
fn is_operand(k: u8, x: u8) -> bool
    ensures { result ≡ is_operand k x }
{
    x < k || (FIRST_REGISTER..FIRST_REGISTER + limits::REGISTERS).contains(&usize::from(x))
}

impl Fields {
    // The fields of the record at the cursor.
    #[tactic(auto, unfolding(crate::specs::Fields::fields_of))]
    pub fn at(bytes: &[u8], at: usize) -> Fields
        requires { at + 7 ≤ length bytes.now }
        ensures { result ≡ fields_of (drop at bytes.now) }
    {
        Fields {
            op: bytes[at + 2],
            reg: bytes[at + 3],
            target: bytes[at + 4],
            a: bytes[at + 5],
            b: bytes[at + 6],
        }
    }

    // Check 12, among l locations: a fence wants one more.
    #[tactic(auto, unfolding(program::specs::Format::leaves_room, program::specs::Format::when_used))]
    pub fn leaves_room(self, l: u8) -> bool
        ensures { result ≡ leaves_room l self.op }
    {
        self.op != u8::from(Op::Fence) || usize::from(l) < limits::LOCATIONS
    }

    // Check 6.
    pub fn is_reg_and_rest(self) -> bool
        ensures { result ≡ is_reg_and_rest (op_at self.op) self.reg self.target self.a self.b }
    {
        Op::of(self.op).row().is_reg_and_rest(self)
    }

    // Check 7, among l locations, in a thread of n lines.
    pub fn is_target(self, l: u8, n: u8) -> bool
        ensures { result ≡ is_target (op_at self.op).target l n self.target }
    {
        Op::of(self.op).row().is_target(self, l, n)
    }

    // Check 8, among k values.
    pub fn are_operands(self, k: u8) -> bool
        ensures { result ≡ are_operands (op_at self.op) k self.a self.b }
    {
        Op::of(self.op).row().are_operands(self, k)
    }
}

// The tests by the row of the line's op, for a caller that has looked it up: three look-ups by three jumps cost more than
// the tests.
impl Row {
    // Check 6.
    #[tactic(auto, using(crate::proofs::RowTests::five_by_row))]
    pub fn is_reg_and_rest(self, fields: Fields) -> bool
        requires { self ≡ row_of (op_at fields.op) }
        ensures { result ≡ is_reg_and_rest (op_at fields.op) fields.reg fields.target fields.a fields.b }
    {
        (!self.reg || usize::from(fields.reg) < limits::REGISTERS)
            && (self.reg || fields.reg == 0)
            && (self.target.is_some() || fields.target == 0)
            && (self.a || fields.a == 0)
            && (self.b || fields.b == 0)
    }

    // Check 7, among l locations, in a thread of n lines.
    #[tactic(auto, using(crate::proofs::RowTests::target_by_row))]
    pub fn is_target(self, fields: Fields, l: u8, n: u8) -> bool
        requires { self ≡ row_of (op_at fields.op) }
        ensures { result ≡ is_target (op_at fields.op).target l n fields.target }
    {
        match self.target {
            None => true,
            Some(Target::Location) => fields.target < l,
            Some(Target::Line) => fields.target <= n,
        }
    }

    // Check 8, among k values.
    #[tactic(auto, using(crate::proofs::RowTests::two_by_row))]
    pub fn are_operands(self, fields: Fields, k: u8) -> bool
        requires { self ≡ row_of (op_at fields.op) }
        ensures { result ≡ are_operands (op_at fields.op) k fields.a fields.b }
    {
        (!self.a || is_operand(k, fields.a)) && (!self.b || is_operand(k, fields.b))
    }
}
