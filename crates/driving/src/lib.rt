// `bounds::drive` under a C name, for the benchmark, which measures how much stack it takes (`bench/run`). No part of the product's archive.
#![tactic(auto)]

ghost use Rattle.std.specs.Prelude.{◌≡◌};
ghost use Rattle.search.specs.EntryPoints.{opened_search};
ghost use Rattle.bounds.specs.Demand3.{search_after};
ghost use Rattle.bounds.specs.Driver.{opened_on, driven_runs};

use bounds::drive;
use search::Search;

// Loads a board file, opens a question and runs with these allowances, one after the other: the search that is left. What else `drive` hands back is enums, which no
// C name may.
#[unsafe(no_mangle)]
pub extern "C" fn vilthomm_drive(file: &[u8], question: &[u8], allowances: &[u16]) -> Search
    ensures { result ≡ search_after (opened_search (opened_on file.now question.now))
        (driven_runs file.now question.now allowances.now) }
{
    drive(file, question, allowances).after.search
}
