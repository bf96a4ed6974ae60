// The lines of each answer. A write that fails ends the printing with its error. A line without a number is written in one piece, as each number is: the pieces
// decide where the output's buffer is emptied, and so where what is said on standard error stands among the lines.
use board::{Found, Record, Refusal, RefusedAt};
use search::{Ending, Ran};
use std::io;
use std::io::Write;

// Prints `refused N at P`.
pub(crate) fn print_refused_at<W: Write>(out: &mut W, refused: RefusedAt) -> io::Result<()> {
    writeln!(
        out,
        "refused {} at {}",
        refused.refusal.number(),
        refused.place
    )
}

// Prints `board` or `refused N at P`.
pub(crate) fn print_loaded<W: Write, T: Drop>(
    out: &mut W,
    loaded: &Result<T, RefusedAt>,
) -> io::Result<()> {
    match loaded {
        Ok(_) => out.write_all(b"board\n"),
        Err(refused) => print_refused_at(out, *refused),
    }
}

// Prints `yes`, `no` or `refused N`.
pub(crate) fn print_told<W: Write>(out: &mut W, told: Result<bool, Refusal>) -> io::Result<()> {
    match told {
        Ok(true) => out.write_all(b"yes\n"),
        Ok(false) => out.write_all(b"no\n"),
        Err(refusal) => writeln!(out, "refused {}", refusal.number()),
    }
}

// Prints `share N` or `share refused N`.
pub(crate) fn print_share<W: Write>(out: &mut W, share: Result<u64, Refusal>) -> io::Result<()> {
    match share {
        Ok(thousandths) => writeln!(out, "share {thousandths}"),
        Err(refusal) => writeln!(out, "share refused {}", refusal.number()),
    }
}

// Prints `open` or `open refused N`.
pub(crate) fn print_opened<W: Write>(out: &mut W, opened: Result<(), Refusal>) -> io::Result<()> {
    match opened {
        Ok(()) => out.write_all(b"open\n"),
        Err(refusal) => writeln!(out, "open refused {}", refusal.number()),
    }
}

// Prints how a run ended, `done`, `more` or `refused N`, and `steps N low N high N`.
pub(crate) fn print_ran<W: Write>(out: &mut W, ran: Ran) -> io::Result<()> {
    match ran.ending {
        Ending::Done => write!(out, "done")?,
        Ending::More => write!(out, "more")?,
        Ending::Refused(refusal) => write!(out, "refused {}", refusal.number())?,
    }
    writeln!(
        out,
        " steps {} low {} high {}",
        ran.steps, ran.low, ran.high
    )
}

// Prints the record's kind and fields; of a rule the eight places each after a blank.
fn print_record<W: Write>(out: &mut W, record: Record) -> io::Result<()> {
    match record {
        Record::Count(atoms) => write!(out, "count {atoms}"),
        Record::Hypothesis(declaration, atom, weight) => {
            write!(out, "hypothesis {declaration} {atom} {weight}")
        }
        Record::Rule(head, places) => {
            write!(out, "rule {head}")?;
            for place in places {
                write!(out, " {place}")?;
            }
            Ok(())
        }
        Record::End => write!(out, "end"),
    }
}

// Prints `count N next P`, `hypothesis D A W next P`, `rule H P1 .. P8 next P`, `end next P` or `refused N at P`.
pub(crate) fn print_read<W: Write>(out: &mut W, read: Result<Found, RefusedAt>) -> io::Result<()> {
    match read {
        Ok(found) => {
            print_record(out, found.record)?;
            writeln!(out, " next {}", found.next)
        }
        Err(refused) => print_refused_at(out, refused),
    }
}
