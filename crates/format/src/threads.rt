// The threads of a program.
ghost use Rattle.std.specs.Prelude.{◌≡◌, ◌≤◌, length, drop};
ghost use Rattle.limits.specs.Limits.{max_threads};
ghost use Rattle.program.specs.Outcome.{and_then, told};
ghost use Rattle.program.specs.Number.{outcome_of};
ghost use Rattle.program.specs.Format.{size_pr, read_thread, read_threads, ends_after};
ghost use Rattle.format.specs.Answer.{reading};
ghost use Rattle.format.specs.Inner.{lines_told};

use crate::lines::check_lines;
use crate::{Header, IN_SIZE, PR_SIZE, Span, TH_SIZE};
use program::Refusal;
use records::is_record;

// A thread that was read: how many lines it has, and whether a fence is among them.
#[derive(Clone, Copy, Debug, PartialEq, Eq)]
pub struct ThreadRead {
    pub count: u8,
    pub fenced: bool,
}

#[tactic(auto, using(crate::proofs::Turns::thread_checks))]
fn read_thread(bytes: &[u8], at: usize, l: u8, k: u8) -> Result<ThreadRead, Refusal>
    requires { at ≤ length bytes.now }
    ensures { outcome_of result ≡ told lines_told (read_thread l k (drop at bytes.now)) }
{
    if !is_record(bytes, at, b"TH", TH_SIZE) {
        return Err(Refusal::NoRecord);
    }
    let count = bytes[at + 2];
    if limits::LINES < usize::from(count) {
        return Err(Refusal::TooManyLines);
    }
    let fenced = check_lines(bytes, at + TH_SIZE, l, k, count)?;
    Ok(ThreadRead { count, fenced })
}

// The t threads of a program with l named locations and k values, from the first TH record to the end of the input.
pub fn read_threads(bytes: &[u8], t: u8, l: u8, k: u8) -> Result<Header, Refusal>
    requires { (size_pr ≤ length bytes.now) × (t ≤ max_threads) }
    ensures { outcome_of result
        ≡ reading (and_then (read_threads l k t (drop size_pr bytes.now)) (ends_after l k)) }
{
    let mut header = Header {
        threads: usize::from(t),
        locations: usize::from(l),
        values: usize::from(k),
        lines: [Span { start: 0, count: 0 }; limits::THREADS],
    };
    let mut fenced = false;
    let mut next = PR_SIZE;
    for i in 0..header.threads {
        let lines = read_thread(bytes, next, l, k)?;
        header.lines[i] = Span {
            start: (next + TH_SIZE) as u16,
            count: u16::from(lines.count),
        };
        fenced |= lines.fenced;
        next += TH_SIZE + usize::from(lines.count) * IN_SIZE;
    }
    if next < bytes.len() {
        return Err(Refusal::MoreBytes);
    }
    header.locations += usize::from(fenced);
    Ok(header)
}
