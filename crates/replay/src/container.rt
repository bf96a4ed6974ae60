// The containers that the program reads, and parts of them, from the left: what would stand past the end is 0 or missing.
ghost use Rattle.std.specs.Prelude.{◌≡◌, ◌-◌, ◌≤◌, length, take, drop};

// What is left of a container, or of a part of one.
#[derive(Clone, Copy)]
pub(crate) struct Reader<'a> {
    rest: &'a [u8],
}

impl<'a> Reader<'a> {
    pub(crate) fn new(bytes: &'a [u8]) -> Reader<'a>
        ensures { result.rest.now ≡ bytes.now }
    {
        Reader { rest: bytes }
    }

    // How many bytes are left.
    pub(crate) fn len(&self) -> usize
        ensures { result ≡ length self.now.rest.now }
    {
        self.rest.len()
    }

    // The next `n` bytes, or as many as there are.
    pub(crate) fn bytes(&mut self, n: usize) -> &'a [u8]
        ensures taken { result.now ≡ take n self.old.rest.now }
        ensures left { self.new.rest.now ≡ drop n self.old.rest.now }
    {
        let (taken, rest) = self.rest.split_at(n.min(self.rest.len()));
        self.rest = rest;
        taken
    }

    // The next `N` bytes.
    pub(crate) fn next<const N: usize>(&mut self) -> [u8; N]
        ensures { self.new.rest.now ≡ drop N self.old.rest.now }
    {
        let mut bytes = [0; N];
        for (to, from) in bytes.iter_mut().zip(self.bytes(N)) {
            *to = *from;
        }
        bytes
    }

    // The next byte.
    pub(crate) fn byte(&mut self) -> u8
        ensures { self.new.rest.now ≡ drop 1 self.old.rest.now }
    {
        u8::from_le_bytes(self.next())
    }

    // The number of a field in one byte, and the index of an element in two.
    pub(crate) fn place(&mut self) -> (u8, usize)
        ensures { self.new.rest.now ≡ drop 3 self.old.rest.now }
    {
        let number = self.byte();
        (number, usize::from(u16::from_le_bytes(self.next())))
    }

    // The bytes that follow their count in two bytes.
    pub(crate) fn part(&mut self) -> &'a [u8]
        ensures { length self.new.rest.now ≤ length self.old.rest.now - 2 }
    {
        let n = usize::from(u16::from_le_bytes(self.next()));
        self.bytes(n)
    }

    // The atoms that follow their count in one byte.
    pub(crate) fn atoms(&mut self) -> &'a [u8]
        ensures { length self.new.rest.now ≤ length self.old.rest.now - 1 }
    {
        let n = usize::from(self.byte());
        self.bytes(n)
    }
}
