// Boards: what a board, its file and its table are, said in `specs/`, with the laws that the crates above cite; the types of the table and of the answers;
// and in code the few facts of a table that the crates above ask for once (`facts`), and what they are made of (`weights`). This crate knows nothing of
// searching.
//
// The code that reads files and tells which tables some file loads to is the crate `files`; the yes-or-no is the crate `holding`.
#![tactic(auto)]

ghost use Rattle.std.specs.Prelude.{◌≡◌};
ghost use Rattle.board.specs.Answers.{refusal_number};
ghost use Rattle.board.specs.Table.{zero_table};

pub mod facts;
mod weights;

// A board: the hypotheses and the rules in the order of the file, one array a field. Room past a count is zero. Laid out as in C, for `firmware`.
#[repr(C)]
#[derive(Clone, Copy)]
pub struct Table {
    pub atoms: usize,
    pub hypotheses: usize,
    pub rules: usize,
    // of each hypothesis: the number of its declaration, its atom, its weight
    pub declaration: [u8; 128],
    pub atom: [u8; 128],
    pub weight: [u32; 128],
    // of each rule: its head, and eight places for body atoms, 255 where a place is empty
    pub head: [u8; 256],
    pub body: [u8; 2048],
}

impl Table {
    // The table whose every field is zero. Three counts and five arrays, some 3 KB.
    pub fn zero() -> Table
        ensures { result ≡ zero_table }
    {
        Table {
            atoms: 0,
            hypotheses: 0,
            rules: 0,
            declaration: [0; 128],
            atom: [0; 128],
            weight: [0; 128],
            head: [0; 256],
            body: [0; 2048],
        }
    }
}

// The table beside a refusal, so that `unwrap_or_default` of what loading answers is what document 01 hands back.
impl Default for Table {
    ghost is_default = { λ t. t ≡ zero_table };

    fn default() -> Table {
        Table::zero()
    }
}

// Why a call is refused: the rows of document 01's table "What the scope says no to", each under its word and with its number.
#[derive(Clone, Copy, PartialEq, Eq)]
pub enum Refusal {
    CutOff = 1,
    Kind = 2,
    Misplaced = 3,
    Atom = 4,
    Declaration = 5,
    Hypothesis = 6,
    Weight = 7,
    Product = 8,
    Body = 9,
    Head = 10,
    Level = 11,
    Rules = 12,
    Table = 20,
    Length = 21,
    AskedAtom = 22,
    AskedOrder = 23,
    BoardState = 25,
    StoreFull = 31,
    Overlap = 32,
    ListFull = 33,
    Search = 34,
    Line = 36,
}

impl Refusal {
    // Its number in document 01.
    pub fn number(self) -> u64
        ensures { result ≡ refusal_number self }
    {
        self as u64
    }
}

// Why a file is refused, and the place in it.
#[derive(Clone, Copy, PartialEq, Eq)]
pub struct RefusedAt {
    pub refusal: Refusal,
    pub place: usize,
}

// A record by its kind: the atom count; a hypothesis' declaration, atom and weight; a rule's head and its eight places for body atoms; the end.
#[derive(Clone, Copy, PartialEq, Eq)]
pub enum Record {
    Count(u8),
    Hypothesis(u8, u8, u32),
    Rule(u8, [u8; 8]),
    End,
}

// A record that was read, and the place of the next.
#[derive(Clone, Copy, PartialEq, Eq)]
pub struct Found {
    pub record: Record,
    pub next: usize,
}
