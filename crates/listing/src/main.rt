// The listing program of document 01, "The 001 board, whole": prints the listing for the file `board.pha` in the folder it is run in and the bytes of
// standard input. A file that will not open, or that cannot be read, counts as empty.
//
// It reads `FILE_BYTES` of the file at most, and `INPUT_BYTES` of the input: these decide (`listing_decided` in the crate `text`), so a file of any length is
// answered. What it reads stands in arrays: it takes no heap, so no lack of it can keep the listing back.
#![tactic(auto)]

use std::io::{Read, Write};
use std::rt::Files;
use std::{fs, io};
use text::{FILE_BYTES, INPUT_BYTES, TEXT_BYTES, listing};

// What a reader gives until the buffer is full, nothing is left or a read fails.
fn beginning(mut reader: impl Read + Drop, buffer: &mut [u8]) -> &[u8] {
    let mut done = 0;
    while done < buffer.len() {
        match reader.read(&mut buffer[done..]) {
            Ok(0) | Err(_) => break,
            Ok(n) => done += n,
        }
    }
    &buffer[..done]
}

// The beginning of the board file.
fn board_file<'a>(rt: &impl Files, buffer: &'a mut [u8]) -> &'a [u8] {
    match fs::open(rt, "board.pha") {
        Ok(board) => beginning(board, buffer),
        Err(_) => &buffer[..0],
    }
}

// A write that fails ends it with an error.
fn main(rt: HostRuntime) -> io::Result<()> {
    let mut file = [0; FILE_BYTES];
    let file = board_file(&rt, &mut file);
    let mut input = [0; INPUT_BYTES];
    let input = beginning(rt.stdin(), &mut input);
    let mut text = [0; TEXT_BYTES];
    let n = listing(file, input, &mut text);
    rt.stdout().write_all(&text[..n])
}
