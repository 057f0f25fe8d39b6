// The printing program: reads a program's bytes from standard input and writes the report's text to standard output.
#![tactic(auto)]

ghost use Rattle.std.specs.Prelude.{◌≡◌, ◌≤◌, ◌<◌, length, take, IfOk};
ghost use Rattle.std.specs.Io.KnownBytes.{Consumes, IsAtEnd};
ghost use Rattle.order_check.specs.Printed.{Sizes, PrintedFor, IsFront};

use checker::check_indexed;
use program::STEP_SIZE;
use report::text;
use std::io::{ErrorKind, Read, Result, Write, copy, sink};
use std::process::ExitCode;

// What is kept of standard input: more than the longest program, of 3,613 bytes.
const INPUT: usize = 4096;

// "a table of 49,152 bytes"
const TABLE: usize = 49152;

// "The printing program's trace grows to 8,192 bytes."
const TRACE: usize = 8192;

// An index that has room for all places of the table: at most 1,694, of 29 bytes each, in half of its slots.
const INDEX: usize = 4096;

// Room for the longest text: a line of at most 76 bytes, and one of at most 17 for each step that the trace can have.
const TEXT: usize = 76 + 17 * (TRACE / STEP_SIZE);

// Reads until the buffer is full or the input ends, which one read tells; how many bytes were read. Nothing says that
// an input ends, so the turns are counted, to a number that no run uses up.
fn fill<R: Read>(reader: &mut R, buffer: &mut [u8]) -> Result<usize>
    ensures bound { IfOk result (λ kept. kept ≤ length buffer.new) }
    ensures bytes { IfOk result (λ kept.
        Consumes (R.remaining reader.old) (R.remaining reader.new) (take kept buffer.new)) }
    ensures end { IfOk result (λ kept. kept < length buffer.new → IsAtEnd (R.remaining reader.new)) }
{
    let mut kept = 0;
    for _ in 0..u64::MAX {
        if kept == buffer.len() {
            return Ok(kept);
        }
        match reader.read(&mut buffer[kept..]) {
            Ok(0) => return Ok(kept),
            Ok(more) => kept += more,
            Err(error) => {
                if error.kind() != ErrorKind::Interrupted {
                    return Err(error);
                }
            }
        }
    }
    Err(ErrorKind::TimedOut.into())
}

// Reads the input to its end and keeps its front; how many bytes were kept.
fn read_input<R: Read>(reader: &mut R, buffer: &mut [u8]) -> Result<usize>
    ensures bound { IfOk result (λ kept. kept ≤ length buffer.new) }
    ensures front { IfOk result (λ kept. IsFront (R.remaining reader.old) (take kept buffer.new) (length buffer.new)) }
    ensures end { IfOk result (λ kept. IsAtEnd (R.remaining reader.new)) }
{
    let kept = fill(reader, buffer)?;
    if kept == buffer.len() {
        copy(reader, &mut sink())?;
    }
    Ok(kept)
}

// Checks the program that was kept and lays the report's text in the buffer; how many bytes of it are text. The input's
// buffer is lent whole, since the promise speaks of its length: what was kept is all of the input where it is shorter.
fn print(
    input: &[u8],
    kept: usize,
    places: &mut [u8],
    trace: &mut [u8],
    slots: &mut [u64],
    buffer: &mut [u8],
) -> usize
    requires sizes { Sizes (length input.now) kept (length places.old) (length trace.old) (length buffer.old) }
    requires input_is { 4096 ≡ length input.now }
    requires slots_are { 4096 ≡ length slots.old }
    requires buffer_is { 34892 ≡ length buffer.old }
    ensures printed { PrintedFor input.now kept places.old places.new
        trace.old trace.new (take result buffer.new) }
    ensures counts { (result ≤ length buffer.new) × (result ≡ length (take result buffer.new)) }
{
    let report = check_indexed(&input[..kept], places, trace, slots);
    text(report, trace, buffer)
}

fn main(rt: HostRuntime) -> ExitCode {
    // Before the first branch: an array that is made behind one is cleared twice.
    let mut input = [0; INPUT];
    let mut places = [0; TABLE];
    let mut trace = [0; TRACE];
    let mut slots = [0; INDEX];
    let mut lines = [0; TEXT];
    let Ok(kept) = read_input(&mut rt.stdin(), &mut input) else {
        let _ = eprintln!(rt; "order_check: standard input can't be read to its end");
        return ExitCode::FAILURE;
    };
    let length = print(
        &input,
        kept,
        &mut places,
        &mut trace,
        &mut slots,
        &mut lines,
    );
    if rt.stdout().write_all(&lines[..length]).is_err() {
        let _ = eprintln!(rt; "order_check: standard output can't be written");
        return ExitCode::FAILURE;
    }
    ExitCode::SUCCESS
}
