// What is printed of a search: its counts and its sums, its lines in their order, then its entries, the first one first.
use search::Search;
use search::layout::{entry_at, line_at};
use sets::mask::Mask;
use std::io;
use std::io::Write;

// The most lines, and the most entries, that are printed one by one. Of more there are the count and the sums.
const MOST_PRINTED: usize = 16;

// Two sums over a row of words, both without what passes 64 bits: that of the words, and that of the first sum after each word.
#[derive(Clone, Copy)]
struct Sum {
    words: u64,
    sums: u64,
}

impl Sum {
    // With one word more.
    fn with(self, word: u64) -> Sum {
        let words = self.words.wrapping_add(word);
        let sums = self.sums.wrapping_add(words);
        Sum { words, sums }
    }

    // Over all words of a search, unused room too: of the counts, of the entries' first words, then of their second, and so on, and of the lines likewise.
    fn of(s: &Search) -> Sum {
        let mut sum = Sum { words: 0, sums: 0 };
        sum = sum.with(s.entries as u64).with(s.lines as u64);
        for k in 0..5 {
            for entry in s.entry.chunks_exact(5) {
                sum = sum.with(entry[k]);
            }
        }
        for word in &s.line {
            sum = sum.with(*word);
        }
        sum
    }
}

// Prints the atoms of a set, ascending, each after a blank.
fn print_set<W: Write>(out: &mut W, set: Mask) -> io::Result<()> {
    for atom in set.atoms() {
        write!(out, " {atom}")?;
    }
    Ok(())
}

// Prints the line at an index, `line W A A ..`.
fn print_line<W: Write>(out: &mut W, s: &Search, i: usize) -> io::Result<()> {
    let l = line_at(&s.line, i);
    write!(out, "line {}", l.weight)?;
    print_set(out, l.chosen)?;
    writeln!(out)
}

// Prints the entry at an index, `entry W A A .. pending A A ..`.
fn print_entry<W: Write>(out: &mut W, s: &Search, i: usize) -> io::Result<()> {
    let e = entry_at(&s.entry, i);
    write!(out, "entry {}", e.weight)?;
    print_set(out, e.chosen)?;
    write!(out, " pending")?;
    print_set(out, e.pending)?;
    writeln!(out)
}

// Prints a search. Of the entries the first one stands last.
pub(crate) fn print_search<W: Write>(out: &mut W, s: &Search) -> io::Result<()> {
    let sum = Sum::of(s);
    writeln!(
        out,
        "entries {} lines {} sum {} {}",
        s.entries, s.lines, sum.words, sum.sums
    )?;
    if s.lines <= MOST_PRINTED {
        for i in 0..s.lines {
            print_line(out, s, i)?;
        }
    }
    if s.entries <= MOST_PRINTED {
        for i in (0..s.entries).rev() {
            print_entry(out, s, i)?;
        }
    }
    Ok(())
}
