// The items, by what follows the board file in them: what each calls and prints. Each reads two bytes at least, those of its file's length.
ghost use Rattle.std.specs.Prelude.{◌≡◌, ◌-◌, ◌*◌, ◌≤◌, length, drop};

use crate::act::acts;
use crate::container::Reader;
use crate::field::Field;
use crate::print::{
    print_loaded, print_opened, print_ran, print_read, print_refused_at, print_told,
};
use crate::state::print_search;
use board::Table;
use bounds::drive;
use files::accepted::is_table;
use files::load::load;
use files::record::read_record;
use holding::yes_or_no;
use std::io;
use std::io::Write;

// What is answered of the table of a file, which is the one whose every field is zero where the file is refused.
fn of_table<R, F: FnOnce(&mut Table) -> R>(file: &[u8], ask: F) -> R
    requires { F.IsAlwaysCallable ask }
{
    match load(file) {
        Ok(mut table) => ask(&mut table),
        Err(_) => ask(&mut Table::zero()),
    }
}

// Loads the file, and prints `accepted W` or `refused N at P`.
pub(crate) fn board_item<W: Write>(out: &mut W, item: &mut Reader<'_>) -> io::Result<()>
    ensures { length item.new.rest.now ≤ length item.old.rest.now - 2 }
{
    match load(item.part()) {
        Ok(table) => writeln!(out, "accepted {}", table.whole_weight()),
        Err(refused) => print_refused_at(out, refused),
    }
}

// Asks an atom in a board state, and prints `yes`, `no` or `refused N`.
pub(crate) fn state_item<W: Write>(out: &mut W, item: &mut Reader<'_>) -> io::Result<()>
    ensures { length item.new.rest.now ≤ length item.old.rest.now - 2 }
{
    let file = item.part();
    let state = item.atoms();
    let atom = item.byte();
    print_told(out, of_table(file, |t| yes_or_no(t, state, atom)))
}

// Reads the record at a place.
pub(crate) fn record_item<W: Write>(out: &mut W, item: &mut Reader<'_>) -> io::Result<()>
    ensures { length item.new.rest.now ≤ length item.old.rest.now - 2 }
{
    let file = item.part();
    print_read(
        out,
        read_record(file, u32::from_le_bytes(item.next()) as usize),
    )
}

// Tests the table of the file with a field set, and prints `table` or `no table`.
pub(crate) fn table_item<W: Write>(out: &mut W, item: &mut Reader<'_>) -> io::Result<()>
    ensures { length item.new.rest.now ≤ length item.old.rest.now - 2 }
{
    let file = item.part();
    let (number, index) = item.place();
    let value = u64::from(u32::from_le_bytes(item.next()));
    let field = Field {
        number,
        index,
        value,
    };
    let passes = of_table(file, |t| {
        field.set_in_table(t);
        is_table(t)
    });
    out.write_all(if passes { b"table\n" } else { b"no table\n" })
}

// Carries out acts on the table of the file.
pub(crate) fn acts_item<W: Write>(out: &mut W, item: &mut Reader<'_>) -> io::Result<()>
    ensures { length item.new.rest.now ≤ length item.old.rest.now - 2 }
{
    let loaded = load(item.part());
    print_loaded(out, &loaded)?;
    acts(out, loaded.unwrap_or_default(), item.part())
}

// Puts the next numbers of two bytes each into all of the room.
fn numbers(item: &mut Reader<'_>, room: &mut [u16])
    ensures { item.new.rest.now ≡ drop (2 * length room.old) item.old.rest.now }
{
    for number in room {
        *number = u16::from_le_bytes(item.next());
    }
}

// Drives with a question and allowances, and prints what is handed back; of the last run what it answered, or `no run`.
pub(crate) fn driven_item<W: Write>(out: &mut W, item: &mut Reader<'_>) -> io::Result<()>
    ensures { length item.new.rest.now ≤ length item.old.rest.now - 2 }
{
    let file = item.part();
    let question = item.atoms();
    let mut room = [0; 255];
    let allowances = &mut room[..usize::from(item.byte())];
    numbers(item, allowances);
    let driven = drive(file, question, allowances);
    print_loaded(out, &driven.loaded)?;
    print_opened(out, driven.opened)?;
    match driven.after.last {
        Some(ran) => print_ran(out, ran)?,
        None => out.write_all(b"no run\n")?,
    }
    print_search(out, &driven.after.search)
}
