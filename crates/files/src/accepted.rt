// Which tables are accepted: those that some file loads to (document 01, refusal 20). The checks go once over the hypotheses and once over the rules; W
// takes two walks more over the hypotheses.
ghost use Rattle.std.specs.Prelude.{◌≡◌, ◌≤◌, ◌<◌, T, false, MatchResult};
ghost use Rattle.sets.specs.Lists.{all, below};
ghost use Rattle.board.specs.Sizes.{most_atoms, most_rules};
ghost use Rattle.board.specs.Board.{Board};
ghost use Rattle.board.specs.Table.{hypotheses_in, is_table};
ghost use Rattle.board.specs.declared.Refusal.TheVariants as refusal;
ghost use Rattle.board.specs.Private.Fields.{rule_stands, room_stands};
ghost use Rattle.files.specs.Private.Seen.{Passing, SeenOf};

use crate::checks::Seen;
use crate::record::eight_bytes;
use board::facts::MOST_W;
use board::{Record, Refusal, Table};
use sets::zero::zero_from;

// The greatest weight: three bytes hold it.
const MOST_WEIGHT: u32 = 16_777_215;

// What is known of the hypotheses, where each passes the checks after those before it. At most some 60 n + 5 basic steps for n hypotheses.
fn hypotheses_pass(t: &Table) -> Option<Seen>
    requires { (t.now.atoms ≤ most_atoms) × (t.now.hypotheses ≤ most_atoms) }
    ensures { Passing t.now.atoms (hypotheses_in t.now.declaration t.now.atom t.now.weight t.now.hypotheses) result }
{
    let mut seen = Seen::of_atoms(t.atoms);
    for i in 0..t.hypotheses {
        let d = t.declaration[i];
        let a = t.atom[i];
        let w = t.weight[i];
        if MOST_WEIGHT < w || seen.hypothesis_check(d, a, w).is_err() {
            return None;
        }
        seen = seen.with(Record::Hypothesis(d, a, w));
    }
    Some(seen)
}

// Does rule `j` pass the checks after all hypotheses, of which this is known, and the rules before it? At most some 220 basic steps.
fn rule_passes(t: &Table, seen: Seen, j: usize) -> bool
    requires { (j < t.now.rules) × (t.now.rules ≤ most_rules) }
    ensures { (b : Board) → SeenOf b seen → result ≡ rule_stands b.atoms b.hypotheses t.now.head t.now.body j }
{
    let places = eight_bytes(&t.body, 8 * j);
    let before = Seen { rules: j, ..seen };
    before.rule_check(t.head[j], places).is_ok()
}

// Does each of the rules? At most some 220 basic steps a rule.
fn rules_pass(t: &Table, seen: Seen) -> bool
    requires { t.now.rules ≤ most_rules }
    ensures { (b : Board) → SeenOf b seen → result ≡ all (rule_stands b.atoms b.hypotheses t.now.head t.now.body) (below t.now.rules) }
{
    (0..t.rules).all(|j| rule_passes(t, seen, j))
}

// Is all unused room zero? Some 13,000 basic steps.
fn room_stands(t: &Table) -> bool
    requires { t.now.rules ≤ most_rules }
    ensures { result ≡ room_stands t.now.hypotheses t.now.rules t.now.declaration t.now.atom t.now.weight t.now.head t.now.body }
{
    zero_from(&t.declaration, t.hypotheses)
        && zero_from(&t.atom, t.hypotheses)
        && zero_from(&t.weight, t.hypotheses)
        && zero_from(&t.head, t.rules)
        && zero_from(&t.body, 8 * t.rules)
}

// Does some file load to the table? At most some 128 * 60 + 256 * 220 + 13,000 basic steps, so some 80,000, on any table. Its stack is the totals of its
// declarations, 2 KB, and some hundred bytes.
pub fn is_table(t: &Table) -> bool
    ensures { result ≡ is_table t.now }
{
    if !(1..=128).contains(&t.atoms) || 128 < t.hypotheses || 256 < t.rules {
        return false;
    }
    let Some(seen) = hypotheses_pass(t) else {
        return false;
    };
    rules_pass(t, seen) && t.whole_weight() <= MOST_W && room_stands(t)
}

// A table that some file loads to, lent. What is done with such tables alone takes one of these, and asks nothing more of it.
#[derive(Clone, Copy)]
pub struct Accepted<'a> {
    pub table: &'a Table,
    pub ghost loads: { T (is_table table.now) },
}

impl<'a> TryFrom<&'a Table> for Accepted<'a> {
    type Error = Refusal;

    ghost try_from_gives = { λ t r. MatchResult r (λ a. a.table.now ≡ t.now) (λ e. (is_table t.now ≡ false) × (e ≡ refusal.Table)) };

    // The table as one that some file loads to; else it is refused with 20. What `is_table` takes.
    fn try_from(t: &'a Table) -> Result<Accepted<'a>, Refusal> {
        if !is_table(t) {
            return Err(Refusal::Table);
        }
        Ok(Accepted { table: t })
    }
}
