// Which searches are well formed (document 01, "The search", and refusal 34), over words that are lent: whoever has a table prepared tests any number of
// searches over it.
#![tactic(auto)]

ghost use Rattle.std.specs.Prelude.{◌≡◌};
ghost use Rattle.board.specs.Board.{Board};
ghost use Rattle.prepared.specs.Prepared.{Known};
ghost use Rattle.wellformed.specs.Lent.{limits_of, lent_formed};

use crate::tests::{entry_fits, lines_apart, lines_first};
use prepared::Prepared;
use search::Counts;
use search::layout::{entries_end, entry_at, entry_room, line_at, line_room, lines_end};

pub mod lines;
mod tests;

// Whether the search with these counts, whose entries and lines stand in `entry` and `line`, is well formed at these limits over the table that is known.
// Counts past what the slices have room for are not well formed. The entry that goes first stands at the highest index. The last two tests rely on those
// before them. On a full search some 980,000 basic steps at 5 atoms a set, of which 590,000 are the pairs of lines, and at most some 2,300,000 at 32. Nothing
// is copied.
pub fn is_well_formed<'a>(
    known: &Prepared,
    entry: &'a [u64],
    line: &'a [u64],
    counts: Counts,
    limits: Counts,
) -> bool
    ensures { (b : Board) → Known b known.now → result ≡ lent_formed (limits_of limits) b entry.now line.now counts }
{
    let n = counts.entries;
    let m = counts.lines;
    if limits.entries < n || limits.lines < m || entry_room(entry) < n || line_room(line) < m {
        return false;
    }
    entries_end(entry, n)
        && lines_end(line, m)
        && (0..n).all(|i| entry_fits(known, entry_at(entry, i)))
        && (0..m).all(|i| entry_fits(known, line_at(line, i)))
        && (1..n).all(|i| entry_at(entry, i).goes_before(entry_at(entry, i - 1)))
        && (1..m).all(|i| line_at(line, i - 1).goes_before(line_at(line, i)))
        && lines_apart(known, line, m)
        && lines_first(entry, line, n, m)
}
