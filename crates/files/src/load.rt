// Loading a board file (document 01, "The board file").
ghost use Rattle.std.specs.Prelude.{◌≡◌, List, ℕ, ◌≤◌, length};
ghost use Rattle.std.specs.Result.{result_unwrap_or};
ghost use Rattle.board.specs.Sizes.{most_atoms};
ghost use Rattle.board.specs.Answers.{file_answer_means};
ghost use Rattle.board.specs.Board.{Board};
ghost use Rattle.board.specs.Load.{load, misplaced_at};
ghost use Rattle.board.specs.Table.{table_of, table_in, zero_table};
ghost use Rattle.board.specs.EntryPoints.{outcome_of, read_means, LoadsAs};
ghost use Rattle.files.specs.Private.Seen.{SeenOf};
ghost use Rattle.files.specs.Private.Taking.{passed_record, ending};

use crate::checks::Seen;
use crate::places::put;
use crate::record::{Kind, read_record};
use board::facts::MOST_W;
use board::{Found, Record, Refusal, RefusedAt, Table};

// Whether a record of a known kind stands at the place, and may not. At most 12 basic steps.
fn misplaced_at(file: &[u8], at: usize, seen: Seen) -> bool
    ensures { (b : Board) → SeenOf b seen → result ≡ misplaced_at file.now at b }
{
    if let Some(byte) = file.get(at)
        && let Ok(kind) = Kind::try_from(*byte)
    {
        return seen.is_misplaced(kind);
    }
    false
}

// What loading answers at an end record at `at`, where the file has `len` bytes and the next record would stand at `next`: 8, then 3, are asked.
// Some 3,000 basic steps.
fn ended(t: &Table, at: usize, next: usize, len: usize) -> Result<(), RefusedAt>
    requires { t.now.hypotheses ≤ most_atoms }
    ensures { (b : Board) (file : List ℕ) → t.now ≡ table_of b → length file ≡ len
        → file_answer_means result ≡ outcome_of (ending file at next b) }
{
    if MOST_W < t.whole_weight() {
        return Err(RefusedAt {
            refusal: Refusal::Product,
            place: at,
        });
    }
    if next < len {
        return Err(RefusedAt {
            refusal: Refusal::Misplaced,
            place: next,
        });
    }
    Ok(())
}

// The record at a place where it may stand and passes its field checks, and the place of the next; or the refusal. What an end record asks is left to
// `ended`. At most some 270 basic steps.
fn passed_record(file: &[u8], at: usize, seen: Seen) -> Result<Found, RefusedAt>
    ensures { (b : Board) → SeenOf b seen → read_means result ≡ passed_record file.now at b }
{
    if misplaced_at(file, at, seen) {
        return Err(RefusedAt {
            refusal: Refusal::Misplaced,
            place: at,
        });
    }
    let answer = read_record(file, at);
    let Ok(found) = answer else {
        return answer;
    };
    let checked = seen.field_check(found.record);
    checked.map_err(|refusal| RefusedAt { refusal, place: at })?;
    Ok(found)
}

// Loads a board file: the table, or the refusal and its place. A file is read up to its first failing record, and no more than 386 records
// pass: 128 hypotheses at some 200 basic steps, 256 rules at some 400, and the end at some 3,000, so at most some 130,000 in all, however long the
// file. Some 14 KB of stack: the table in hand and its copies, 3 KB each.
pub fn load(file: &[u8]) -> Result<Table, RefusedAt>
    ensures answers { LoadsAs (load file.now) result }
    ensures table { result_unwrap_or result zero_table ≡ table_in (load file.now) }
{
    let mut t = Table::zero();
    let mut seen = Seen::of_atoms(0);
    let mut at = 0;
    loop {
        let answer = passed_record(file, at, seen);
        let Ok(found) = answer else {
            return Err(answer.unwrap_err());
        };
        match found.record {
            Record::Count(n) => t.atoms = usize::from(n),
            Record::Hypothesis(d, a, w) => {
                let i = t.hypotheses;
                t.declaration[i] = d;
                t.atom[i] = a;
                t.weight[i] = w;
                t.hypotheses = i + 1;
            }
            Record::Rule(head, places) => {
                let i = t.rules;
                t.head[i] = head;
                put(&mut t.body, i, places);
                t.rules = i + 1;
            }
            Record::End => {
                ended(&t, at, found.next, file.len())?;
                return Ok(t);
            }
        }
        seen = seen.with(found.record);
        at = found.next;
    }
}
