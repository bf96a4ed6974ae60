// The entry points under C names, for `tools/staticlib firmware`; `include/vilthomm.h` declares them. Each calls the entry point of a crate below and hands
// on what it answers, an enum written as a number: 0 where nothing was refused (of a run 0 for done and 1 for more), else the refusal's number. In C a slice
// is two arguments, a pointer and a length.
#![tactic(auto)]

ghost use Rattle.std.specs.Prelude.{◌≡◌};
ghost use Rattle.std.proofs.Math.Option.{some};
ghost use Rattle.board.specs.Answers.{answer_means};
ghost use Rattle.board.specs.Load.{load};
ghost use Rattle.board.specs.EntryPoints.{yes_or_no};
ghost use Rattle.search.specs.Search.{bench};
ghost use Rattle.search.specs.EntryPoints.{open_question, run_search, ending_means, share_of};
ghost use Rattle.search.specs.Listing.{listing};
ghost use Rattle.text.specs.Lent.{LentAs};
ghost use Rattle.firmware.specs.Answers.{load_answer, open_answer, ending_number, run_answer, share_answer, holds_answer, number_of, granted_number, total_of, total_answer};

use board::{Refusal, Table};
use files::accepted::Accepted;
use files::load::load;
use holding::yes_or_no;
use opening::open;
use running::run;
use search::{Ending, Search};
use shares::share;
use text::listing;

// A table; or a refusal's number, its place in the file, and the table whose every field is zero.
#[repr(C)]
#[derive(Clone, Copy)]
pub struct LoadAnswer {
    pub number: u64,
    pub place: usize,
    pub table: Table,
}

// A search with one entry; or a refusal's number, and the search whose every field is zero.
#[repr(C)]
#[derive(Clone, Copy)]
pub struct OpenAnswer {
    pub number: u64,
    pub search: Search,
}

// The search that a run leaves; how it ended: 0 done, 1 more, else a refusal's number; how many steps it took, and both ends of the bound.
#[repr(C)]
#[derive(Clone, Copy)]
pub struct RunAnswer {
    pub search: Search,
    pub ending: u64,
    pub steps: u64,
    pub low: u64,
    pub high: u64,
}

// A share; or a refusal's number, and 0.
#[repr(C)]
#[derive(Clone, Copy)]
pub struct ShareAnswer {
    pub number: u64,
    pub thousandths: u64,
}

// 1 for yes and 0 for no; or a refusal's number, and 0.
#[repr(C)]
#[derive(Clone, Copy)]
pub struct HoldsAnswer {
    pub number: u64,
    pub holds: u64,
}

// W; or a refusal's number, and 0.
#[repr(C)]
#[derive(Clone, Copy)]
pub struct TotalAnswer {
    pub number: u64,
    pub total: u64,
}

// Loads a board file.
#[unsafe(no_mangle)]
pub extern "C" fn vilthomm_load(file: &[u8]) -> LoadAnswer
    ensures { result ≡ load_answer (load file.now) }
{
    match load(file) {
        Ok(table) => LoadAnswer {
            number: 0,
            place: 0,
            table,
        },
        Err(refused) => LoadAnswer {
            number: refused.refusal.number(),
            place: refused.place,
            table: Table::zero(),
        },
    }
}

// Opens a question.
#[unsafe(no_mangle)]
pub extern "C" fn vilthomm_open(table: Table, question: &[u8]) -> OpenAnswer
    ensures { result ≡ open_answer (open_question table question.now) }
{
    match open(&table, question) {
        Ok(search) => OpenAnswer { number: 0, search },
        Err(refusal) => OpenAnswer {
            number: refusal.number(),
            search: Search::zero(),
        },
    }
}

// The number of an ending.
fn ending_number(ending: Ending) -> u64
    ensures { result ≡ ending_number (ending_means ending) }
{
    match ending {
        Ending::Done => 0,
        Ending::More => 1,
        Ending::Refused(refusal) => refusal.number(),
    }
}

// Runs a search over a table, for at most `allowance` steps.
#[unsafe(no_mangle)]
pub extern "C" fn vilthomm_run(table: Table, search: Search, allowance: u16) -> RunAnswer
    ensures { result ≡ run_answer (run_search bench table search allowance) }
{
    let mut search = search;
    let ran = run(&table, &mut search, allowance);
    RunAnswer {
        search,
        ending: ending_number(ran.ending),
        steps: u64::from(ran.steps),
        low: ran.low,
        high: ran.high,
    }
}

// The number of an answer, 0 where nothing was refused, and its value, 0 beside a refusal.
fn number_and_value(answer: Result<u64, Refusal>) -> (u64, u64)
    ensures number { result.0 ≡ number_of (answer_means answer) }
    ensures value { result.1 ≡ granted_number (answer_means answer) }
{
    match answer {
        Ok(value) => (0, value),
        Err(refusal) => (refusal.number(), 0),
    }
}

// The share of a line, in thousandths.
#[unsafe(no_mangle)]
pub extern "C" fn vilthomm_share(table: Table, search: Search, line: usize) -> ShareAnswer
    ensures { result ≡ share_answer (share_of bench table search line) }
{
    let (number, thousandths) = number_and_value(share(&table, &search, line));
    ShareAnswer {
        number,
        thousandths,
    }
}

// Does the atom hold in the board state, one choice of each declaration in declaration order?
#[unsafe(no_mangle)]
pub extern "C" fn vilthomm_yes_or_no(table: Table, state: &[u8], atom: u8) -> HoldsAnswer
    ensures { result ≡ holds_answer (yes_or_no table state.now atom) }
{
    let (number, holds) = number_and_value(yes_or_no(&table, state, atom).map(u64::from));
    HoldsAnswer { number, holds }
}

// W of the table, where a file loads to it.
fn total(table: &Table) -> Result<u64, Refusal>
    ensures { answer_means result ≡ total_of table.now }
{
    let accepted = Accepted::try_from(table)?;
    Ok(accepted.table.whole_weight())
}

// W of the table: what the weights of all its board states add up to.
#[unsafe(no_mangle)]
pub extern "C" fn vilthomm_total(table: Table) -> TotalAnswer
    ensures { result ≡ total_answer (total_of table) }
{
    let (number, total) = number_and_value(total(&table));
    TotalAnswer { number, total }
}

// Puts the listing for a board file and an input into `text`, which has room for every listing from 37,203 bytes on, and answers how many bytes it has. With
// less room nothing is put there, and the answer is 0.
#[unsafe(no_mangle)]
pub extern "C" fn vilthomm_listing(file: &[u8], input: &[u8], text: &mut [u8]) -> usize
    ensures { LentAs (listing (some file.now) input.now) text.old text.new result }
{
    listing(file, input, text)
}
