// Text put together from the left in lent bytes, piece by piece. A byte takes at most some 8 basic steps, a digit some 20.
ghost use Rattle.std.specs.Prelude.{[], ◌∷◌, ◌++◌};
ghost use Rattle.search.specs.Listing.{decimal, bytes_of};
ghost use Rattle.text.specs.Private.Putting.{HasRoom, Puts};

// Lent bytes, and the place in them from which on the next piece is put: each method puts its piece there and goes on to the place after it.
#[derive(Drop)]
pub(crate) struct Writer<'a> {
    pub(crate) text: &'a mut [u8],
    pub(crate) at: usize,
}

#[tactic(auto, using(crate::proofs::Laws::Putting::pieces), unfolding(search::specs::Listing::bytes_of))]
impl Writer<'_> {
    // Puts these bytes.
    pub(crate) fn bytes(&mut self, piece: &[u8])
        requires { HasRoom self.old piece.now }
        ensures { Puts self.old piece.now self.new }
    {
        let end = self.at + piece.len();
        self.text[self.at..end].copy_from_slice(piece);
        self.at = end;
    }

    // Puts a byte.
    pub(crate) fn byte(&mut self, byte: u8)
        requires { HasRoom self.old (byte ∷ []) }
        ensures { Puts self.old (byte ∷ []) self.new }
    {
        self.text[self.at] = byte;
        self.at += 1;
    }

    // Puts the number in decimal: all digits but the last, which are those of a tenth of it, then the last. At most 20 calls deep.
    #[tactic(auto, using(crate::proofs::Laws::Decimal::by_digits))]
    pub(crate) fn decimal(&mut self, n: u64)
        requires { HasRoom self.old (decimal n) }
        ensures { Puts self.old (decimal n) self.new }
    {
        if n < 10 {
            return self.byte(48 + n as u8);
        }
        self.decimal(n / 10);
        self.byte(48 + (n % 10) as u8);
    }

    // Puts a label and a number.
    pub(crate) fn labelled(&mut self, label: &[u8], n: u64)
        requires { HasRoom self.old (label.now ++ decimal n) }
        ensures { Puts self.old (label.now ++ decimal n) self.new }
    {
        self.bytes(label);
        self.decimal(n);
    }

    // Puts a label, a number and a line feed.
    pub(crate) fn ended(&mut self, label: &[u8], n: u64)
        requires { HasRoom self.old (label.now ++ decimal n ++ bytes_of "\n") }
        ensures { Puts self.old (label.now ++ decimal n ++ bytes_of "\n") self.new }
    {
        self.labelled(label, n);
        self.byte(b'\n');
    }
}
