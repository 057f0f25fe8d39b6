// The lines of the printed text.
ghost use Rattle.std.specs.Prelude.{◌≡◌, ◌∷◌, [], ◌++◌, ◌≤◌, length};
ghost use Rattle.report.specs.Prints.{Prints};
ghost use Rattle.report.specs.Text.{decimal, space, line, letter_of, mark_nr, step_line, step_lines};
ghost use Rattle.report.specs.Text.{ending_line, longest_line};

use crate::put::Cursor;
use program::STEP_SIZE;
use rules::Ending;

// "kinds 0 to 3 for L, R, W, M"; any other byte, which no trace of ours has, gets a question mark.
#[tactic(auto, unfolding(crate::specs::Text::letter_of))]
fn letter_of(kind: u8) -> u8
    ensures { result ≡ letter_of kind }
{
    match kind {
        0 => b'L',
        1 => b'R',
        2 => b'W',
        3 => b'M',
        _ => b'?',
    }
}

impl Cursor<'_> {
    // A line of a mark and one number.
    pub fn put_line(&mut self, mark: &[u8], n: usize)
        ensures { Prints self.old (line (mark.now ∷ decimal n ∷ [])) self.new }
    {
        self.put_bytes(mark);
        self.put_field(n);
        self.put_byte(b'\n');
    }

    // A kind, by its number, as a field behind another.
    fn put_kind(&mut self, kind: u8)
        ensures { Prints self.old (space ∷ letter_of kind ∷ []) self.new }
    {
        self.put_byte(b' ');
        self.put_byte(letter_of(kind));
    }

    // The access that a line ends with: its kind, location and value.
    fn put_access(&mut self, kind: u8, location: usize, value: u8)
        ensures { Prints self.old
            (space ∷ line ((letter_of kind ∷ []) ∷ decimal location ∷ decimal value ∷ [])) self.new }
    {
        self.put_kind(kind);
        self.put_field(location);
        self.put_field(value as usize);
        self.put_byte(b'\n');
    }

    // The line of one step, from its four bytes.
    fn put_step(&mut self, thread: u8, kind: u8, location: u8, value: u8)
        ensures { Prints self.old (step_line thread kind location value) self.new }
    {
        self.put_bytes(b"ST");
        self.put_field(thread as usize);
        self.put_access(kind, location as usize, value);
    }

    // The lines of the steps, as far as the trace has them whole.
    pub fn put_steps(&mut self, trace: &[u8], steps: usize)
        ensures { Prints self.old (step_lines steps trace.now) self.new }
    {
        let (whole, _) = trace.as_chunks::<STEP_SIZE>();
        for [thread, kind, location, value] in &whole[..steps.min(whole.len())] {
            self.put_step(*thread, *kind, *location, *value);
        }
    }

    // The fields of an NR line up to the thread.
    fn put_run(&mut self, count: usize, steps: usize, thread: usize)
        ensures { Prints self.old
            (mark_nr ++ (space ∷ decimal count) ++ (space ∷ decimal steps) ++ (space ∷ decimal thread)) self.new }
    {
        self.put_bytes(b"NR");
        self.put_field(count);
        self.put_field(steps);
        self.put_field(thread);
    }

    // The line of an ending, which is a witness: NR.
    pub fn put_ending(&mut self, count: usize, steps: usize, ending: Ending)
        ensures put { Prints self.old (ending_line count steps ending) self.new }
        ensures short { length (ending_line count steps ending) ≤ longest_line }
    {
        let thread = ending.thread as usize + 1;
        self.put_run(count, steps, thread);
        self.put_access(u8::from(ending.kind), ending.location, ending.value);
    }
}
