// An accepted input, and its lines.
ghost use Rattle.std.specs.Prelude.{◌≡◌, ℕ, ◌+◌, ◌*◌, ◌<◌, ◌≤◌, true, length, get_or};
ghost use Rattle.std.proofs.Math.ListN.{get_elem?};
ghost use Rattle.program.specs.Program.{Line as ModelLine, lines_of};
ghost use Rattle.program.specs.Format.{size_in, read_program, program_of};
ghost use Rattle.format.specs.Source.{header_of, is_accepted};
ghost use Rattle.format.specs.Answer.{LineAt, line_means, found_line};

use crate::lines::decode;
use crate::{Header, IN_SIZE, Line};
use records::Fields;

// The bytes of an accepted input, with its program's header.
#[derive(Clone, Copy)]
pub struct Source<'a> {
    pub bytes: &'a [u8],
    pub header: Header,
    pub ghost accepted: { is_accepted (read_program bytes.now) ≡ true },
    pub ghost of_program: { header ≡ header_of (program_of bytes.now) },
}

impl Source<'_> {
    // Line n of thread t, if it has so many.
    #[tactic(auto, using(crate::proofs::SourceLines::lines_known))]
    pub fn line(&self, t: usize, n: usize) -> Option<Line>
        requires { t < self.now.header.threads }
        ensures { found_line result ≡ get_elem? (lines_of (program_of self.now.bytes.now) t) n }
    {
        let span = self.header.lines[t];
        if usize::from(span.count) <= n {
            return None;
        }
        Some(line_at(self.bytes, usize::from(span.start), self.header.values, n))
    }
}

// Line i of the thread whose lines start at the byte `start` of an accepted input, where K is k.
#[tactic(auto, using(crate::proofs::AcceptedLines::line_made))]
pub fn line_at(bytes: &[u8], start: usize, k: usize, i: usize) -> Line
    requires { start + i * size_in + size_in ≤ length bytes.now }
    ensures { (t : ℕ) → LineAt bytes.now start k i t → (other : ModelLine)
        → line_means result ≡ get_or (lines_of (program_of bytes.now) t) i other }
{
    decode(Fields::at(bytes, start + i * IN_SIZE), k)
}
