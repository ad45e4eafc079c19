// A writer of bytes, texts and numbers into lent memory.
ghost use Rattle.std.specs.Prelude.{[], ◌∷◌};
ghost use Rattle.listing.specs.Text.{decimal, hexadecimal, bits_of, line};

// The digits of `hex`.
const HEX: [u8; 16] = *b"0123456789ABCDEF";

// Lent memory, and the place in it where the next byte goes. Past the memory's end bytes are counted and not written, so that the place tells the length
// needed; the last place stays.
#[derive(Drop)]
pub struct Writer<'a> {
    pub out: &'a mut [u8],
    pub at: usize,
}

impl Writer<'_> {
    ghost use Rattle.listing.specs.Writing.{Wrote};

    // One byte.
    pub fn byte(&mut self, b: u8)
        ensures { Wrote self.old (b ∷ []) self.new }
    {
        if self.at < self.out.len() {
            self.out[self.at] = b;
        }
        self.at = self.at.saturating_add(1);
    }

    // The bytes of a text.
    pub fn text(&mut self, text: &[u8])
        ensures { Wrote self.old text.now self.new }
    {
        for b in text {
            self.byte(*b);
        }
    }

    // A number in decimal digits.
    pub fn decimal(&mut self, n: u64)
        ensures { Wrote self.old (decimal n) self.new }
    {
        self.text(itoa::Buffer::new().format(n).as_bytes());
    }

    // A word in 16 hexadecimal digits, capitals.
    pub fn hex(&mut self, n: u64)
        ensures { Wrote self.old (hexadecimal n) self.new }
    {
        for i in 0..16u64 {
            let digit = (n >> (60 - 4 * i)) % 16;
            self.byte(HEX[digit as usize]);
        }
    }

    // A space and a number in decimal digits.
    pub fn number(&mut self, n: u64)
        ensures { Wrote self.old (32 ∷ decimal n) self.new }
    {
        self.byte(b' ');
        self.decimal(n);
    }

    // A space and a double's bits in hexadecimal digits; 7FF8000000000000 for a NaN.
    pub fn double(&mut self, x: f64)
        ensures { Wrote self.old (32 ∷ bits_of x) self.new }
    {
        self.byte(b' ');
        self.hex(value::to_bits(x));
    }

    // A line of a word and a number.
    pub fn line(&mut self, word: &[u8], n: u64)
        ensures { Wrote self.old (line word.now (decimal n ∷ [])) self.new }
    {
        self.text(word);
        self.number(n);
        self.byte(b'\n');
    }
}
