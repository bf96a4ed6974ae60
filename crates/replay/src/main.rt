// Replays containers of items one after the other: calls what they say and prints what is answered. `tests/replay.py` writes the containers, and the lines as
// an independent reading of document 01 gives them.
//
// An item begins with a board file, after its length in two bytes. What follows it is told by the container (`item`), numbers low byte first:
//
//     boards.bin     nothing: loads the file
//     states.bin     a board state after the count of its atoms in one byte, and an atom: asks the yes-or-no
//     records.bin    a place in four bytes: reads the record there
//     tables.bin     a field's number in one byte, an index in two and a value in four: sets a field of the table (`field`) and tests it
//     runs.bin, handed.bin, shares.bin, changed.bin
//                    acts after their length in two bytes (`act`), each one byte of kind and what it needs. The search is at first the one whose every
//                    field is zero.
//                    1  a question after the count of its atoms in one byte: opens it
//                    2  an allowance in two bytes: runs the search that the last act left
//                    3  a line's number in eight bytes: asks for its share
//                    4  a field's number in one byte, an index in two and a value in eight: sets a field of the search
//                    5  the same for a field of the table
//                    6  goes through all board states and sums the weights of those in which the question last opened holds (`truth`)
//     driven.bin     a question, and allowances in two bytes each, both after their count in one byte: drives with them
//
// What is printed of each answer is said in `print`, of a search in `state`.
#![tactic(auto)]

ghost use Rattle.std.specs.Prelude.{◌-◌, ◌≤◌, length};

use container::Reader;
use item::{acts_item, board_item, driven_item, record_item, state_item, table_item};
use std::io::{BufWriter, Read, Write};
use std::rt::Files;
use std::{fs, io};

mod act;
mod container;
mod field;
mod item;
mod print;
mod state;
mod truth;

// The most bytes of a container that are read.
const CONTAINER_BYTES: usize = 262_144;

// Reads until the buffer is full, nothing is left or a read fails, and answers how many bytes stand at its beginning then.
fn read_full<R: Read>(reader: &mut R, buffer: &mut [u8]) -> usize
    ensures { result ≤ length buffer.new }
{
    let mut done = 0;
    while done < buffer.len() {
        match reader.read(&mut buffer[done..]) {
            Ok(0) | Err(_) => break,
            Ok(n) => done += n,
        }
    }
    done
}

// What stands in the file, as far as it can be read and the buffer has room; nothing where it will not open, which is said on standard error.
fn contents<'a>(rt: &(impl Files + Eprint), path: &str, buffer: &'a mut [u8]) -> &'a [u8]
    ensures { length result.now ≤ length buffer.old }
{
    match fs::open(rt, path) {
        Ok(mut file) => {
            let n = read_full(&mut file, buffer);
            &buffer[..n]
        }
        Err(error) => {
            let _ = eprintln!(rt; "{path}: {error}");
            &[]
        }
    }
}

// Carries out all items of a container, each of a byte at least.
fn replay<W: Write, F: FnMut(&mut W, &mut Reader<'_>) -> io::Result<()>>(
    rt: &(impl Files + Eprint),
    out: &mut W,
    path: &str,
    buffer: &mut [u8],
    mut item: F,
) -> io::Result<()>
    requires callable { F.IsAlwaysCallable item }
    requires progress { (f : F) (w : _) (c : _) (r : _) (w' : _) (c' : _) (f' : F) → F.step f w c r w' c' f'
        → length c'.now.rest.now ≤ length c.now.rest.now - 1 }
{
    let mut container = Reader::new(contents(rt, path, buffer));
    while 0 < container.len() {
        item(out, &mut container)?;
    }
    Ok(())
}

// A write that fails ends it with an error.
fn main(rt: HostRuntime) -> io::Result<()> {
    let mut out = BufWriter::new(rt.alloc(), rt.stdout())?;
    let mut space = [0; CONTAINER_BYTES];
    let buffer: &mut [u8] = &mut space;
    replay(&rt, &mut out, "boards.bin", buffer, board_item)?;
    replay(&rt, &mut out, "states.bin", buffer, state_item)?;
    replay(&rt, &mut out, "records.bin", buffer, record_item)?;
    replay(&rt, &mut out, "tables.bin", buffer, table_item)?;
    for path in ["runs.bin", "handed.bin", "shares.bin", "changed.bin"] {
        replay(&rt, &mut out, path, buffer, acts_item)?;
    }
    replay(&rt, &mut out, "driven.bin", buffer, driven_item)?;
    out.flush()
}
