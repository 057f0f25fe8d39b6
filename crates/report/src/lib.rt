// What is printed for a report, as bytes in a lent buffer: document 01, "The printing program".
// The meaning is specs/Text.antt.
#![tactic(auto)]

mod lines;
mod put;

ghost use Rattle.std.specs.Prelude.{◌≡◌, ◌≤◌, min, length};
ghost use Rattle.report.specs.Prints.{Prints};
ghost use Rattle.report.specs.Text.{text_of, longest_text, laid};

use crate::put::Cursor;
use verdicts::Report;

// Prints the text of a report, with the trace of its steps.
fn put_text(cursor: &mut Cursor, report: Report, trace: &[u8])
    ensures put { Prints cursor.old (text_of report trace.now) cursor.new }
    ensures short { length (text_of report trace.now) ≤ longest_text (length trace.now) }
{
    match report {
        Report::Robust { count } => cursor.put_line(b"RB", count),
        Report::Ended {
            count,
            steps,
            ending,
        } => {
            cursor.put_ending(count, steps, ending);
            cursor.put_steps(trace, steps);
        }
        Report::Full { count } => cursor.put_line(b"FU", count),
        Report::Short { wanted: _ } => cursor.put_line(b"NO", 10),
        Report::Refused { number } => cursor.put_line(b"NO", number as usize),
    }
}

// Lays the text of a report, with the trace of its steps, in a lent buffer, as far as that reaches, and gives how many
// bytes were written.
pub fn text(report: Report, trace: &[u8], out: &mut [u8]) -> usize
    ensures length { result ≡ min (length (text_of report trace.now)) (length out.old) }
    ensures short { length (text_of report trace.now) ≤ longest_text (length trace.now) }
    ensures written { out.new ≡ laid (text_of report trace.now) out.old }
{
    let mut cursor = Cursor { out, at: 0 };
    put_text(&mut cursor, report, trace);
    cursor.at
}
