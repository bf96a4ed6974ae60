// What holds in a board state (document 01, "Board tables and board states"): the atom test and the rule test as its two sentences stand,
// and the test that some atoms are a board state. `yes_or_no` is the one entry point; what it means is in `specs/` of the crate `board`.
//
// The counts of basic steps below are for r rules, n hypotheses and a state of d atoms.
#![tactic(auto)]

ghost use Rattle.std.specs.Prelude.{◌≡◌, ◌<◌};
ghost use Rattle.board.specs.Sizes.{most_atoms};
ghost use Rattle.board.specs.Answers.{answer_means};
ghost use Rattle.board.specs.Board.{declaration, declarations, is_atom_of, is_state_of};
ghost use Rattle.board.specs.EntryPoints.{yes_or_no};
ghost use Rattle.board.specs.Table.{rule_in, board_of};
ghost use Rattle.board.specs.Holds.{rule_holds, holds, in_state};
ghost use Rattle.holding.specs.Private.Remembered.{lent_holds, SoundRules, Remembered};

use board::{Refusal, Table};
use files::accepted::Accepted;

// What is asked of a table and a state, and what was found of each atom so far; an atom that was not asked yet has nothing. The table's rules are sound,
// and what was found is right.
#[derive(Drop)]
struct Asking<'a> {
    table: &'a Table,
    state: &'a [u8],
    known: [Option<bool>; 128],
    ghost sound: { SoundRules table.now.head table.now.body table.now.rules },
    ghost remembered: { Remembered (lent_holds table.now.head table.now.body table.now.rules state.now) known },
}

impl Asking<'_> {
    // "An atom holds in a board state if it is chosen or if one of its rules holds." What is found is kept in `known`. An atom that was asked takes 5 steps.
    // One that was not goes through the rules once and is kept then, so with all that it calls this is at most some (a + 1) * (5 d + 5 r + 17) + 120 r steps,
    // 2 * a + 2 calls deep.
    #[cycle(atom_holds_rule_holds)]
    fn atom_holds(&mut self, a: u8) -> bool
        requires { a < most_atoms }
        ensures value { let t = self.old.table.now in result ≡ lent_holds t.head t.body t.rules self.old.state.now a }
        ensures table { self.new.table ≡ self.old.table }
        ensures state { self.new.state ≡ self.old.state }
    {
        let at = usize::from(a);
        if let Some(found) = self.known[at] {
            return found;
        }
        if self.state.contains(&a) {
            self.known[at] = Some(true);
            return true;
        }
        let t = self.table;
        for rule in 0..t.rules {
            if t.head[rule] == a && self.rule_holds(rule) {
                self.known[at] = Some(true);
                return true;
            }
        }
        self.known[at] = Some(false);
        false
    }

    // "A rule holds if all its body atoms hold": those in the filled places of the rule's eight. Body atoms are below the head. Some 70 steps, and those
    // of at most eight atom tests.
    #[cycle(atom_holds_rule_holds)]
    fn rule_holds(&mut self, rule: usize) -> bool
        requires { rule < self.old.table.now.rules }
        ensures value { let t = self.old.table.now in result ≡ rule_holds (lent_holds t.head t.body t.rules self.old.state.now) (rule_in t.head t.body rule) }
        ensures table { self.new.table ≡ self.old.table }
        ensures state { self.new.state ≡ self.old.state }
    {
        let t = self.table;
        let first = 8 * rule;
        for place in 0..8 {
            let b = t.body[first + place];
            if b != 255 && !self.atom_holds(b) {
                return false;
            }
        }
        true
    }
}

// Whether the atom holds in the state, by the rules of the table: at most some (a + 1) * (5 d + 5 r + 17) + 120 r + 130 steps.
fn holds_in(accepted: Accepted<'_>, state: &[u8], a: u8) -> bool
    requires { a < most_atoms }
    ensures { result ≡ holds (in_state state.now) (board_of accepted.entry.table.now) a }
{
    let mut asking = Asking {
        table: accepted.table,
        state,
        known: [None; 128],
    };
    asking.atom_holds(a)
}

// Whether some hypothesis of declaration `d` has the atom: at most some 7 n + 3 steps.
fn is_choice(accepted: Accepted<'_>, d: usize, a: u8) -> bool
    ensures { result ≡ is_atom_of (declaration (board_of accepted.entry.table.now).hypotheses d) a }
{
    let t = accepted.table;
    (0..t.hypotheses).any(|k| usize::from(t.declaration[k]) == d && t.atom[k] == a)
}

// Whether the state is one choice per declaration, in declaration order: at most some d * (7 n + 12) + 5 steps.
fn is_state(accepted: Accepted<'_>, state: &[u8]) -> bool
    ensures { result ≡ is_state_of (declarations (board_of accepted.entry.table.now)) state.now }
{
    state.len() == accepted.table.declarations()
        && state
            .iter()
            .enumerate()
            .all(|(d, a)| is_choice(accepted, d, *a))
}

// Does the atom hold in the board state, a choice of each declaration handed in as atoms in declaration order? Refuses with 20 a table that no file
// loads to, with 25 what is no board state and with 22 an atom that is none, in that order. At most some 330,000 basic steps on any table, a
// quarter of them for 20. Its stack is at most 128 calls of the atom test within each other, measured at 64 bytes
// each, so some 9 KB in all.
pub fn yes_or_no(t: &Table, state: &[u8], atom: u8) -> Result<bool, Refusal>
    ensures { answer_means result ≡ yes_or_no t.now state.now atom }
{
    let accepted = Accepted::try_from(t)?;
    if !is_state(accepted, state) {
        return Err(Refusal::BoardState);
    }
    if t.atoms <= usize::from(atom) {
        return Err(Refusal::AskedAtom);
    }
    Ok(holds_in(accepted, state, atom))
}
