// Reads each log that an argument names, and prints the name and what the log is answered: as the program readlog does, and of a log that
// isn't long every answer of Listing, Change and Value, up to the first that is refused.
#![tactic(auto)]

use std::env::FillError;
use std::fs::File;
use std::io::{Error, ErrorKind};
use std::os::fd::AsRawFd;
use std::rt::Env;

// what a lent buffer holds before a listing
const MARK: u32 = 0xa5a5a5a5;

// No number past a listing of so many changes was changed.
fn is_kept(out: &[u32], changes: usize) -> bool {
    out.iter()
        .skip(changes.saturating_mul(5))
        .all(|n| *n == MARK)
}

// A listing into the first numbers of a buffer that holds marks.
fn ask_marked(rt: &impl Print, log: &[u8], out: &mut [u32], room: usize) {
    if out.len() < room {
        return;
    }
    let answer = report::print_list(log, &mut out[..room]);
    let changes = answer.map_or(0, |counts| counts.changes);
    let kept = is_kept(out, changes);
    let _ = rt.println(if kept { "kept" } else { "changed" });
}

// A listing into a buffer of so many numbers.
fn ask_list(rt: &impl Print, log: &[u8], room: usize) {
    let mut out = [MARK; 4096];
    let _ = print!(rt; "list {room} ");
    ask_marked(rt, log, &mut out, room);
}

// Whether change k, side and column was answered.
fn ask_value(rt: &impl Print, log: &[u8], k: usize, side: usize, column: usize) -> bool {
    let _ = print!(rt; "value {k} {side} {column} ");
    report::print_value(log, k, side, column).is_ok()
}

// The columns of a side, one more than a table can have.
fn ask_side(rt: &impl Print, log: &[u8], k: usize, side: usize) {
    for column in 0..513 {
        if !ask_value(rt, log, k, side, column) {
            return;
        }
    }
}

// Whether change k was answered.
fn ask_change(rt: &impl Print, log: &[u8], k: usize) -> bool {
    let _ = print!(rt; "change {k} ");
    let is_answered = report::print_change(log, k).is_ok();
    for side in 0..3 {
        ask_side(rt, log, k, side);
    }
    is_answered
}

// How many changes a log has, 0 where it is refused.
fn count_of(log: &[u8]) -> usize {
    binlog::check(log).map_or(0, |counts| counts.changes)
}

fn ask_all(rt: &impl Print, log: &[u8]) {
    let count = count_of(log);
    if 65_536 < count {
        return;
    }
    if 0 < count {
        ask_list(rt, log, 5 * count - 1);
    }
    ask_list(rt, log, 5 * count);
    ask_list(rt, log, 5 * count + 3);
    for k in 0..=count {
        if !ask_change(rt, log, k) {
            return;
        }
    }
}

// Opens the file for reading. The library takes no name that isn't UTF-8.
fn open_read(rt: &HostRuntime, path: &[u8]) -> Result<File, Error> {
    match std::str::from_utf8(path) {
        Ok(name) => File::open(rt, name),
        Err(_) => Err(Error::from(ErrorKind::InvalidInput)),
    }
}

// Writes a line to standard error: the name, a colon and the error's text.
fn fail(rt: &HostRuntime, path: &[u8], error: Error) {
    let stderr = rt.stderr();
    let _ = stderr.write_all(path);
    let _ = stderr.print(": ");
    let _ = stderr.println(error);
}

// Asks of what an open file holds.
fn print_opened(rt: &impl Print, file: &File) {
    // one byte more than is read of a log, so that a longer one shows
    let mut input = [0u8; 65537];
    let n = io::read_full(file.as_raw_fd(), &mut input);
    report::print_input(&input[..n]);
    if n <= 32_768 {
        ask_all(rt, &input[..n]);
    }
}

fn print_file(rt: &HostRuntime, path: &[u8]) {
    let _ = rt.print("== ");
    let _ = rt.write_all(path);
    let _ = rt.print("\n");
    match open_read(rt, path) {
        Ok(file) => print_opened(rt, &file),
        Err(error) => fail(rt, path, error),
    }
}

// The log that argument i names.
fn print_argument(rt: &HostRuntime, i: usize) {
    let mut path = io::buffer();
    let length = rt.arg(i, &mut path).unwrap_or(0);
    print_file(rt, &path[..length]);
}

// How many arguments the program was started with, its own name among them.
fn arg_count(rt: &HostRuntime) -> usize {
    for i in 0..usize::MAX {
        if let Err(FillError::NotPresent) = rt.arg(i, &mut [0u8; 0]) {
            return i;
        }
    }
    usize::MAX
}

fn main(rt: HostRuntime) {
    let count = arg_count(&rt);
    for i in 1..count {
        print_argument(&rt, i);
    }
}
