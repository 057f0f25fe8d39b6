// The checker for C and Rust: a static library of two functions. order_check.h is its C header.
#![tactic(auto)]

ghost use Rattle.std.specs.Prelude.{◌≡◌, length};
ghost use Rattle.program.specs.Format.{read_program};
ghost use Rattle.checker.specs.Indexed.{index_after};
ghost use Rattle.order_check_c.specs.Answer.{ending_numbers, numbers_of, Told};

use checker::{check, check_indexed};
use rules::Ending;
use verdicts::Report;

// A report of an ending, which is a witness: NR.
fn numbers_of_ending(count: usize, steps: usize, ending: Ending) -> [u64; 8]
    ensures { result ≡ ending_numbers count steps ending }
{
    [
        1,
        0,
        count as u64,
        steps as u64,
        ending.thread as u64 + 1,
        u8::from(ending.kind) as u64,
        ending.location as u64,
        ending.value as u64,
    ]
}

// A report in eight numbers.
fn numbers_of(report: Report) -> [u64; 8]
    ensures { result ≡ numbers_of report }
{
    match report {
        Report::Robust { count } => [0, 0, count as u64, 0, 0, 0, 0, 0],
        Report::Ended {
            count,
            steps,
            ending,
        } => numbers_of_ending(count, steps, ending),
        Report::Full { count } => [2, 11, count as u64, 0, 0, 0, 0, 0],
        Report::Short { wanted } => [3, 10, 0, wanted as u64, 0, 0, 0, 0],
        Report::Refused { number } => [3, number as u64, 0, 0, 0, 0, 0, 0],
    }
}

// Checks a program in a lent table and a lent trace, and tells the answer in eight numbers.
#[unsafe(no_mangle)]
pub extern "C" fn order_check(
    program: &[u8],
    table: &mut [u8],
    trace: &mut [u8],
    answer: &mut [u64; 8],
)
    ensures { Told (read_program program.now) table.old table.new
        trace.old trace.new answer.new }
{
    let report = check(program, table, trace);
    *answer = numbers_of(report);
}

// The same with a lent index.
#[unsafe(no_mangle)]
pub extern "C" fn order_check_indexed(
    program: &[u8],
    table: &mut [u8],
    trace: &mut [u8],
    index: &mut [u64],
    answer: &mut [u64; 8],
)
    ensures told { Told (read_program program.now) table.old table.new
        trace.old trace.new answer.new }
    ensures index { index.new
        ≡ index_after (read_program program.now) (length table.old) index.old }
{
    let report = check_indexed(program, table, trace, index);
    *answer = numbers_of(report);
}
