// The line that is being written: bytes put into a lent list one after another.
ghost use Rattle.std.specs.Prelude.{[], ◌∷◌};
ghost use Rattle.decimals.specs.Decimal.{decimal, signed};
ghost use Rattle.decimals.specs.Puts.{Puts};

use itoa::Buffer;

// The lent bytes, and where the next go.
#[derive(Drop)]
pub struct Line<'a> {
    pub out: &'a mut [u8],
    pub at: usize,
}

impl Line<'_> {
    // Puts bytes as they are.
    pub fn put_bytes(&mut self, s: &[u8])
        ensures { Puts s.now self.old self.new }
    {
        self.at = report::put_row(self.out, self.at, s);
    }

    // Puts one byte. By an index test, for the bytes of a printed text are put one by one: as a text of one byte
    // each takes four times the time.
    pub fn put_byte(&mut self, b: u8)
        ensures { Puts (b ∷ []) self.old self.new }
    {
        if self.at < self.out.len() {
            self.out[self.at] = b;
            self.at += 1;
        }
    }

    // Puts a number's digits.
    pub fn put_decimal(&mut self, n: u64)
        ensures { Puts (decimal n) self.old self.new }
    {
        let mut buffer = Buffer::new();
        self.put_bytes(buffer.format(n).as_bytes());
    }

    // Puts a signed number's digits, behind a minus sign where it is below 0.
    pub fn put_signed(&mut self, z: i64)
        ensures { Puts (signed z) self.old self.new }
    {
        let mut buffer = Buffer::new();
        self.put_bytes(buffer.format(z).as_bytes());
    }
}
