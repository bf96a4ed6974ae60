// The acts of an item: what each does to the table and to the search, and what it prints.
ghost use Rattle.std.specs.Prelude.{◌≡◌, ◌-◌, ◌≤◌, length, drop};

use crate::container::Reader;
use crate::field::Field;
use crate::print::{print_opened, print_ran, print_share};
use crate::state::print_search;
use crate::truth::print_true;
use board::Table;
use opening::open;
use running::run;
use search::Search;
use shares::share;
use std::io;
use std::io::Write;

// An act, with what it needs.
#[derive(Clone, Copy)]
enum Act<'a> {
    Open(&'a [u8]),
    Run(u16),
    Share(u64),
    SetInSearch(Field),
    SetInTable(Field),
    TrueWeight,
    Nothing,
}

// The next field, index and value.
fn next_field(script: &mut Reader<'_>) -> Field
    ensures { script.new.rest.now ≡ drop 11 script.old.rest.now }
{
    let (number, index) = script.place();
    let value = u64::from_le_bytes(script.next());
    Field {
        number,
        index,
        value,
    }
}

// The next act of a script, of a byte at least. A byte that stands for none is an act that does nothing.
fn next_act<'a>(script: &mut Reader<'a>) -> Act<'a>
    ensures { length script.new.rest.now ≤ length script.old.rest.now - 1 }
{
    match script.byte() {
        1 => Act::Open(script.atoms()),
        2 => Act::Run(u16::from_le_bytes(script.next())),
        3 => Act::Share(u64::from_le_bytes(script.next())),
        4 => Act::SetInSearch(next_field(script)),
        5 => Act::SetInTable(next_field(script)),
        6 => Act::TrueWeight,
        _ => Act::Nothing,
    }
}

// What the acts are carried out on, and the question last opened.
#[derive(Drop)]
struct Held<'a> {
    table: Table,
    search: Search,
    asked: &'a [u8],
}

impl<'a> Held<'a> {
    // Opens the question, prints the answer, and keeps the search that it leaves.
    fn open<W: Write>(&mut self, out: &mut W, question: &'a [u8]) -> io::Result<()> {
        let opened = open(&self.table, question);
        self.asked = question;
        self.search = opened.unwrap_or_default();
        print_opened(out, opened.map(|_| ()))?;
        print_search(out, &self.search)
    }

    // Carries out an act, and prints what it answers.
    fn act<W: Write>(&mut self, out: &mut W, act: Act<'a>) -> io::Result<()> {
        match act {
            Act::Open(question) => self.open(out, question),
            Act::Run(allowance) => {
                print_ran(out, run(&self.table, &mut self.search, allowance))?;
                print_search(out, &self.search)
            }
            Act::Share(line) => {
                print_share(out, share(&self.table, &self.search, line as usize))
            }
            Act::SetInSearch(field) => {
                field.set_in_search(&mut self.search);
                Ok(())
            }
            Act::SetInTable(field) => {
                field.set_in_table(&mut self.table);
                Ok(())
            }
            Act::TrueWeight => print_true(out, &self.table, self.asked),
            Act::Nothing => Ok(()),
        }
    }
}

// All acts of an item. Before the first opening the question has no atom.
pub(crate) fn acts<W: Write>(out: &mut W, table: Table, script: &[u8]) -> io::Result<()> {
    let mut held = Held {
        table,
        search: Search::zero(),
        asked: &[],
    };
    let mut script = Reader::new(script);
    while 0 < script.len() {
        held.act(out, next_act(&mut script))?;
    }
    Ok(())
}
