// What has to be known of the records before one, whether it may stand after them, and its field checks, in ascending number (document 01, "The board
// file", "What the scope says no to"). Declarations follow one another, so of all sizes only that of the last one matters, and no record walks over the
// earlier ones.
ghost use Rattle.std.specs.Prelude.{◌≡◌, ◌||◌, [], suc, ◌≤◌, ◌<◌, eqb, length};
ghost use Rattle.board.specs.Sizes.{most_hypotheses, most_rules};
ghost use Rattle.board.specs.Board.{Board, declaration};
ghost use Rattle.board.specs.File.{count, hypothesis, rule};
ghost use Rattle.board.specs.Load.{misplaced, first_failing, field_checks};
ghost use Rattle.board.specs.EntryPoints.{record_means};
ghost use Rattle.board.specs.Private.Passes.{Follows};
ghost use Rattle.files.specs.Private.Kinds.{kind_number};
ghost use Rattle.files.specs.Private.Seen.{SeenOf};
ghost use Rattle.files.specs.Private.Taking.{field_refusal, SeenAfter, failed_number};

use crate::places::{ascend, top};
use crate::record::Kind;
use board::{Record, Refusal};
use sets::mask::Mask;

// What the records so far leave to know of them: how many atoms and rules there are, how many declarations, how many hypotheses are of the last one, and
// the set of the hypotheses' atoms.
#[derive(Clone, Copy)]
pub(crate) struct Seen {
    pub atoms: usize,
    pub rules: usize,
    pub declarations: usize,
    pub last: usize,
    pub hypotheses: Mask,
}

impl Seen {
    // Of so many atoms, before the first hypothesis and the first rule.
    pub(crate) fn of_atoms(atoms: usize) -> Seen
        ensures { SeenOf (record { atoms = atoms; hypotheses = []; rules = [] }) result }
    {
        Seen {
            atoms,
            rules: 0,
            declarations: 0,
            last: 0,
            hypotheses: Mask::empty(),
        }
    }

    // With one record more, which passes. At most some 15 basic steps.
    pub(crate) fn with(self, passed: Record) -> Seen
        requires { (self.last ≤ most_hypotheses) × (self.rules ≤ most_rules) }
        ensures { SeenAfter self (record_means passed) result }
    {
        match passed {
            Record::Count(n) => Seen {
                atoms: usize::from(n),
                ..self
            },
            Record::Hypothesis(d, a, _) => {
                let number = usize::from(d);
                Seen {
                    declarations: number + 1,
                    last: self.size_of(number) + 1,
                    hypotheses: self.hypotheses.with(a),
                    ..self
                }
            }
            Record::Rule(..) => Seen {
                rules: self.rules + 1,
                ..self
            },
            Record::End => self,
        }
    }

    // Whether a record of this kind may not stand here. At most 5 basic steps.
    pub(crate) fn is_misplaced(self, kind: Kind) -> bool
        ensures { (b : Board) → SeenOf b self → result ≡ misplaced b (kind_number kind) }
    {
        match kind {
            Kind::Count => self.atoms != 0,
            Kind::Hypothesis => self.atoms == 0 || 0 < self.rules,
            Kind::Rule | Kind::End => self.atoms == 0,
        }
    }

    // A declaration's number is the last one or the next.
    fn follows(self, number: usize) -> bool
        requires { number < 256 }
        ensures { result ≡ (eqb (suc number) self.declarations || eqb number self.declarations) }
    {
        number + 1 == self.declarations || number == self.declarations
    }

    // How many hypotheses declaration `number` has so far, where it is the last one or the next. 2 basic steps.
    fn size_of(self, number: usize) -> usize
        ensures size { (b : Board) → SeenOf b self → Follows b.hypotheses number → result ≡ length (declaration b.hypotheses number) }
        ensures few { result ≤ self.last }
    {
        if number == self.declarations {
            0
        } else {
            self.last
        }
    }

    // The first check that a hypothesis record fails, if it fails one. At most some 30 basic steps.
    pub(crate) fn hypothesis_check(self, d: u8, a: u8, w: u32) -> Result<(), Refusal>
        ensures { (b : Board) → SeenOf b self → failed_number result ≡ first_failing (field_checks b (hypothesis d a w)) }
    {
        let number = usize::from(d);
        if self.atoms <= usize::from(a) {
            return Err(Refusal::Atom);
        }
        if 31 < number || !self.follows(number) {
            return Err(Refusal::Declaration);
        }
        if self.hypotheses.member(a) || 16 <= self.size_of(number) {
            return Err(Refusal::Hypothesis);
        }
        if w == 0 {
            return Err(Refusal::Weight);
        }
        Ok(())
    }

    // The first check that a rule record fails, if it fails one. Two walks over the eight places: at most some 140 basic steps.
    pub(crate) fn rule_check(self, head: u8, places: &[u8; 8]) -> Result<(), Refusal>
        ensures { (b : Board) → SeenOf b self → failed_number result ≡ first_failing (field_checks b (rule head places.now)) }
    {
        let past = top(places);
        if self.atoms <= usize::from(head) || self.atoms < past {
            return Err(Refusal::Atom);
        }
        if !ascend(places) {
            return Err(Refusal::Body);
        }
        if self.hypotheses.member(head) {
            return Err(Refusal::Head);
        }
        if usize::from(head) < past {
            return Err(Refusal::Level);
        }
        if 256 <= self.rules {
            return Err(Refusal::Rules);
        }
        Ok(())
    }

    // The first field check that a record fails, if it fails one; of the end record nothing is asked here.
    pub(crate) fn field_check(self, found: Record) -> Result<(), Refusal>
        ensures { (b : Board) → SeenOf b self → failed_number result ≡ field_refusal b (record_means found) }
    {
        match found {
            Record::Count(n) => count_check(n),
            Record::Hypothesis(d, a, w) => self.hypothesis_check(d, a, w),
            Record::Rule(head, places) => self.rule_check(head, &places),
            Record::End => Ok(()),
        }
    }
}

// The check that a count record fails, if it fails one.
fn count_check(n: u8) -> Result<(), Refusal>
    ensures { (b : Board) → failed_number result ≡ first_failing (field_checks b (count n)) }
{
    if n == 0 || 128 < n {
        return Err(Refusal::Atom);
    }
    Ok(())
}
