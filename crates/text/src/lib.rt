// The listing of document 01, "The 001 board, whole", as bytes in a lent buffer: what is printed for a board file and an input. `specs/Lent` says what becomes
// of the buffer, `Listing` of the crate `search` which bytes are put there.
//
// The counts of basic steps below are beside those of loading, opening and the run. A listing of 256 lines of 32 atoms takes some 700,000.
#![tactic(auto)]

mod lines;
mod put;

ghost use Rattle.std.specs.Prelude.{◌≡◌, ◌++◌, ◌+◌, ◌≤◌, MatchOption, length};
ghost use Rattle.std.proofs.Math.Option.{some};
ghost use Rattle.board.specs.Answers.{refusal_number};
ghost use Rattle.board.specs.Board.{Board};
ghost use Rattle.board.specs.Table.{table_of, board_of};
ghost use Rattle.search.specs.EntryPoints.{open_question, ending_means, run_search};
ghost use Rattle.search.specs.Search.{bench};
ghost use Rattle.search.specs.Listing.{bytes_of, ending_text, ends_text, ran_text, refused_text, refused_file_text, opened_text, asked_text, listing};
ghost use Rattle.text.specs.Deciding.{file_bytes, input_bytes};
ghost use Rattle.text.specs.Lent.{most_text, LentAs};
ghost use Rattle.text.specs.Private.Putting.{HasRoom, Puts};

use board::{Refusal, RefusedAt};
use files::accepted::Accepted;
use files::load::load;
use opening::open;
use put::Writer;
use running::run;
use search::{Ending, Ran, Search};

// How many bytes have room for every listing (`most_text`).
pub const TEXT_BYTES: usize = 37203;

// How many bytes of a file and of an input decide what is printed (`listing_decided`): that these are the law's numbers is what the functions `file_bytes` and
// `input_bytes` ensure. As constants they are for the lengths of arrays.
pub const FILE_BYTES: usize = 3334;

pub const INPUT_BYTES: usize = 11;

// The law's number for a file (the definition `file_bytes`), which is `FILE_BYTES`. 1 basic step.
pub fn file_bytes() -> usize
    ensures { result ≡ file_bytes }
{
    FILE_BYTES
}

// The law's number for an input (the definition `input_bytes`), which is `INPUT_BYTES`. 1 basic step.
pub fn input_bytes() -> usize
    ensures { result ≡ input_bytes }
{
    INPUT_BYTES
}

// The question and the allowance that an input has: "a count byte, the atoms and a two-byte allowance, low byte first". Nothing where it is too short.
fn question_in(input: &[u8]) -> Option<(&[u8], u16)>
    ensures { (b : Board) → MatchOption result (asked_text bench b input.now ≡ refused_text 21)
        (λ asked. asked_text bench b input.now ≡ opened_text bench b (open_question (table_of b) asked.0.now) asked.1) }
{
    let (count, rest) = input.split_first()?;
    let (question, rest) = rest.split_at_checked(usize::from(*count))?;
    let [low, high, ..] = rest else {
        return None;
    };
    Some((question, u16::from_le_bytes([*low, *high])))
}

#[tactic(auto, using(crate::proofs::Laws::Putting::pieces), unfolding(search::specs::Listing::bytes_of, search::specs::Listing::refused_text, search::specs::Listing::refused_file_text))]
impl Writer<'_> {
    // Puts how a run ended, after a blank and before a line feed.
    #[tactic(auto, unfolding(search::specs::Listing::bytes_of, search::specs::Listing::ending_text, search::specs::EntryPoints::ending_means))]
    fn ending(&mut self, ending: Ending)
        requires { HasRoom self.old (bytes_of " " ++ ending_text (ending_means ending) ++ bytes_of "\n") }
        ensures { Puts self.old (bytes_of " " ++ ending_text (ending_means ending) ++ bytes_of "\n") self.new }
    {
        match ending {
            Ending::Done => self.bytes(b" done\n"),
            Ending::More => self.bytes(b" more\n"),
            Ending::Refused(refusal) => self.ended(b" ", refusal.number()),
        }
    }

    // Puts the last line.
    fn last(&mut self, ran: Ran)
        requires { HasRoom self.old (ends_text ran.low ran.high ran.steps (ending_means ran.ending)) }
        ensures { Puts self.old (ends_text ran.low ran.high ran.steps (ending_means ran.ending)) self.new }
    {
        self.labelled(b"low ", ran.low);
        self.labelled(b" high ", ran.high);
        self.labelled(b" steps ", u64::from(ran.steps));
        self.ending(ran.ending);
    }

    // Puts what is printed of a refused question.
    fn refused(&mut self, refusal: Refusal)
        requires { HasRoom self.old (refused_text (refusal_number refusal)) }
        ensures { Puts self.old (refused_text (refusal_number refusal)) self.new }
    {
        self.ended(b"refused ", refusal.number());
    }

    // Puts what is printed of a refused file.
    fn refused_file(&mut self, refused: RefusedAt)
        requires { HasRoom self.old (refused_file_text (refusal_number refused.refusal) refused.place) }
        ensures { Puts self.old (refused_file_text (refusal_number refused.refusal) refused.place) self.new }
    {
        self.labelled(b"refused ", refused.refusal.number());
        self.ended(b" at ", refused.place as u64);
    }

    // Runs a search and puts what is printed of the run.
    fn ran(&mut self, accepted: Accepted<'_>, search: &mut Search, allowance: u16)
        requires { let t = accepted.table.now in HasRoom self.old (ran_text (board_of t) (run_search bench t search.old allowance)) }
        ensures { let t = accepted.entry.table.now in Puts self.old (ran_text (board_of t) (run_search bench t search.old allowance)) self.new }
    {
        let t = accepted.table;
        let ran = run(t, search, allowance);
        self.ended(b"total ", t.whole_weight());
        self.lines(&search.line, search.lines);
        self.last(ran);
    }

    // Opens a question and puts what is printed of it.
    #[tactic(auto, using(crate::proofs::Laws::Answered::questions))]
    fn opened(&mut self, accepted: Accepted<'_>, question: &[u8], allowance: u16)
        requires { let t = accepted.table.now in HasRoom self.old (opened_text bench (board_of t) (open_question t question.now) allowance) }
        ensures { let t = accepted.entry.table.now in Puts self.old (opened_text bench (board_of t) (open_question t question.now) allowance) self.new }
    {
        match open(accepted.table, question) {
            Ok(mut search) => self.ran(accepted, &mut search, allowance),
            Err(refusal) => self.refused(refusal),
        }
    }

    // Takes the input apart and puts what is printed of it.
    fn asked(&mut self, accepted: Accepted<'_>, input: &[u8])
        requires { HasRoom self.old (asked_text bench (board_of accepted.table.now) input.now) }
        ensures { Puts self.old (asked_text bench (board_of accepted.entry.table.now) input.now) self.new }
    {
        match question_in(input) {
            Some((question, allowance)) => self.opened(accepted, question, allowance),
            None => self.refused(Refusal::Length),
        }
    }

    // Loads a file and puts what is printed of it and an input.
    fn loaded(&mut self, file: &[u8], input: &[u8])
        requires { self.old.at + most_text ≤ length self.old.text.now }
        ensures { Puts self.old (listing (some file.now) input.now) self.new }
    {
        match load(file) {
            Ok(t) => self.asked(Accepted { table: &t }, input),
            Err(refused) => self.refused_file(refused),
        }
    }
}

// Puts the listing for a board file and an input into `text` and answers how many bytes it has. `text` has room for every listing from `TEXT_BYTES` on; with less
// nothing is put there, and the answer is 0. The bytes after the listing stay as they were.
pub fn listing(file: &[u8], input: &[u8], text: &mut [u8]) -> usize
    ensures { LentAs (listing (some file.now) input.now) text.old text.new result }
{
    if text.len() < TEXT_BYTES {
        return 0;
    }
    let mut writer = Writer { text, at: 0 };
    writer.loaded(file, input);
    writer.at
}
