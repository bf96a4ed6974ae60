// Sets of atoms 0 to 127 in two words, by value. Every function takes every set and every atom; an atom past 127 is in no set. Each
// takes a handful of basic steps, none of them a loop but that of `of`.
ghost use Rattle.std.specs.Prelude.{◌≡◌, eqb, ltb, [], ◌∷◌, MatchOption};
ghost use Rattle.std.specs.Iterator.{YieldsFirst, item_count};
ghost use Rattle.sets.specs.Lists.{keep};
ghost use Rattle.sets.specs.Sets.{most_atoms, member, union, without, set_of, subset, members, meets, highest, size};
ghost use Rattle.sets.specs.Masks.{mask_means, with_atom};
ghost use Rattle.sets.specs.Dictionary.{lowest_first};

// A set of atoms: atoms 0 to 63 in the low word, 64 to 127 in the high one, atom a at digit a % 64. Two sets are equal exactly if they have the same atoms
// (`mask_eq`). The high word stands first, so that the derived order is that of the sets as numbers, the sums of 2^atom (`mask_lt`).
#[derive(Clone, Copy, PartialEq, Eq, PartialOrd, Ord)]
pub struct Mask {
    pub high: u64,
    pub low: u64,
}

impl Mask {
    // The set of no atoms.
    pub fn empty() -> Mask
        ensures { mask_means result ≡ 0 }
    {
        Mask { high: 0, low: 0 }
    }

    // The set of the atoms listed; one past 127 joins nothing. At most some 14 n + 4 basic steps for n of them.
    pub fn of(atoms: &[u8]) -> Mask
        ensures { mask_means result ≡ set_of (keep (λ a. ltb a most_atoms) atoms.now) }
    {
        let mut set = Mask::empty();
        for a in atoms {
            set = set.with(*a);
        }
        set
    }

    // Whether the set has no atoms.
    pub fn is_empty(self) -> bool
        ensures { result ≡ eqb (mask_means self) 0 }
    {
        self.low == 0 && self.high == 0
    }

    // Whether `a` is in the set; an atom past 127 is not.
    pub fn member(self, a: u8) -> bool
        ensures { result ≡ member a (mask_means self) }
    {
        if a < 64 {
            return (self.low >> a) & 1 == 1;
        }
        if a < 128 {
            return (self.high >> (a - 64)) & 1 == 1;
        }
        false
    }

    // The set and `a`; an atom past 127 joins nothing.
    pub fn with(self, a: u8) -> Mask
        ensures { mask_means result ≡ with_atom a (mask_means self) }
    {
        if a < 64 {
            return Mask {
                low: self.low | (1u64 << a),
                ..self
            };
        }
        if 127 < a {
            return self;
        }
        Mask {
            high: self.high | (1u64 << (a - 64)),
            ..self
        }
    }

    // The set less `a`; an atom past 127 was not in it.
    pub fn without(self, a: u8) -> Mask
        ensures { mask_means result ≡ without a (mask_means self) }
    {
        if a < 64 {
            return Mask {
                low: self.low & !(1u64 << a),
                ..self
            };
        }
        if a < 128 {
            return Mask {
                high: self.high & !(1u64 << (a - 64)),
                ..self
            };
        }
        self
    }

    // The atoms in one set or in the other.
    pub fn union(self, other: Mask) -> Mask
        ensures { mask_means result ≡ union (mask_means self) (mask_means other) }
    {
        Mask {
            high: self.high | other.high,
            low: self.low | other.low,
        }
    }

    // Whether every atom of the set is in the other: no digit of it is left beside those of the other. Without a branch, so that a loop over sets becomes
    // vector code.
    pub fn subset(self, other: Mask) -> bool
        ensures { result ≡ subset (mask_means self) (mask_means other) }
    {
        (((self.low | other.low) ^ other.low) | ((self.high | other.high) ^ other.high)) == 0
    }

    // Whether some atom of the set is in the other.
    pub fn meets(self, other: Mask) -> bool
        ensures { result ≡ meets (mask_means self) (mask_means other) }
    {
        (self.low & other.low) != 0 || (self.high & other.high) != 0
    }

    // The highest atom of the set; 0 where the set is empty.
    pub fn highest(self) -> u8
        ensures { result ≡ highest (mask_means self) }
    {
        if 0 < self.high {
            return 127 - (self.high.leading_zeros() as u8);
        }
        if 0 < self.low {
            return 63 - (self.low.leading_zeros() as u8);
        }
        0
    }

    // The lowest atom of the set, if it has one.
    fn lowest(self) -> Option<u8>
        ensures { MatchOption result (members (mask_means self) ≡ []) (λ a. members (mask_means self) ≡ a ∷ members (without a (mask_means self))) }
    {
        if self.low != 0 {
            return Some(self.low.trailing_zeros() as u8);
        }
        if self.high != 0 {
            return Some(64 + self.high.trailing_zeros() as u8);
        }
        None
    }

    // The atoms of the set, ascending. Each takes some 20 basic steps.
    pub fn atoms(self) -> Atoms
        ensures { members (mask_means result.left) ≡ members (mask_means self) }
    {
        Atoms { left: self }
    }

    // How many atoms the set has.
    pub fn size(self) -> usize
        ensures { result ≡ size (mask_means self) }
    {
        (self.low.count_ones() + self.high.count_ones()) as usize
    }

    // Whether the lowest atom in which the two sets differ is in this one; false where they are equal. Of two sets of one size this is whether the ascending
    // list of this one's atoms comes first in dictionary order (`lowest_first-dictionary`).
    pub fn comes_first(self, other: Mask) -> bool
        ensures { result ≡ lowest_first (mask_means self) (mask_means other) }
    {
        if self.low == other.low {
            return word_comes_first(self.high, other.high);
        }
        word_comes_first(self.low, other.low)
    }
}

// The atoms of a set, ascending: those that are still to come.
#[derive(Clone, Copy)]
pub struct Atoms {
    left: Mask,
}

impl Iterator for Atoms {
    type Item = u8;

    ghost next_gives = { YieldsFirst (λ s. members (mask_means s.left)) };

    ghost remaining = { item_count (λ s. members (mask_means s.left)) };

    fn next(&mut self) -> Option<u8> {
        let a = self.left.lowest()?;
        self.left = self.left.without(a);
        Some(a)
    }
}

// Whether the lowest digit in which two words differ is set in the first; false where they are equal.
fn word_comes_first(a: u64, b: u64) -> bool
    ensures { result ≡ lowest_first a b }
{
    if a == b {
        return false;
    }
    (a >> (a ^ b).trailing_zeros()) & 1 == 1
}
