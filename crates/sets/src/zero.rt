// Whether a slice of numbers is zero from an index on, as the unused room of a table and of a search has to be.
ghost use Rattle.std.specs.Prelude.{◌≡◌, ℕ, List};
ghost use Rattle.sets.specs.Lists.{zero_from};
ghost use Rattle.sets.specs.Words.{WordLaws, number_laws};

use std::ops::BitOrAssign;

// An unsigned number of some width.
pub trait Word: Copy + Default + PartialEq + BitOrAssign {
    // The number that it is.
    ghost number: { Self → ℕ };

    // The numbers of a list of them: at each of the types below the list itself.
    ghost numbers: { List Self → List ℕ };

    // That the operators do what they do with the numbers.
    ghost laws: { WordLaws number numbers Self.is_default Self.eq Self.can_bitor_assign Self.bitor_assign_gives };
}

impl Word for u8 {
    ghost number = { λ n. n };

    ghost numbers = { λ ns. ns };

    ghost laws = { number_laws };
}

impl Word for u32 {
    ghost number = { λ n. n };

    ghost numbers = { λ ns. ns };

    ghost laws = { number_laws };
}

impl Word for u64 {
    ghost number = { λ n. n };

    ghost numbers = { λ ns. ns };

    ghost laws = { number_laws };
}

// Is every number from `n` on zero? It looks at all of them, with no branch on what it finds, which becomes vector code. At most 5 basic steps a number.
pub fn zero_from<T: Word>(array: &[T], n: usize) -> bool
    ensures { result ≡ zero_from n (T.numbers array.now) }
{
    let mut digits = T::default();
    for word in &array[n.min(array.len())..] {
        digits |= *word;
    }
    digits == T::default()
}
