// Printing at a cursor.
ghost use Rattle.std.specs.Prelude.{◌∷◌, []};
ghost use Rattle.report.specs.Prints.{Prints};
ghost use Rattle.report.specs.Text.{decimal, space};

// A buffer, and where printing goes on in it, which is never past its end.
#[derive(Drop)]
pub struct Cursor<'a> {
    pub out: &'a mut [u8],
    pub at: usize,
}

impl Cursor<'_> {
    pub fn put_byte(&mut self, byte: u8)
        ensures { Prints self.old (byte ∷ []) self.new }
    {
        if self.at < self.out.len() {
            self.out[self.at] = byte;
            self.at += 1;
        }
    }

    pub fn put_bytes(&mut self, bytes: &[u8])
        ensures { Prints self.old bytes.now self.new }
    {
        for byte in bytes {
            self.put_byte(*byte);
        }
    }

    // A number in decimal: the digits before the last, then the last. By hand: what the library
    // promises of a number's text is that text or a cut one, and here each digit counts.
    fn put_decimal(&mut self, n: usize)
        ensures { Prints self.old (decimal n) self.new }
    {
        if n < 10 {
            return self.put_byte(b'0' + n as u8);
        }
        self.put_decimal(n / 10);
        self.put_byte(b'0' + (n % 10) as u8);
    }

    // A number as a field behind another.
    pub fn put_field(&mut self, n: usize)
        ensures { Prints self.old (space ∷ decimal n) self.new }
    {
        self.put_byte(b' ');
        self.put_decimal(n);
    }
}
