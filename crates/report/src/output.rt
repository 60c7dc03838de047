// The standard output without a runtime, for `println!` and `print!`. What can't be written is left out, and what comes after it is tried.
use std::fmt;
use std::fmt::{Display, Formatter};

const CAPACITY: usize = 1024;

#[derive(Clone, Copy)]
pub struct Output;

// Bytes on their way out, so that a short line takes one call.
// kept: a buffer with its length: no heap.
#[derive(Drop)]
struct Buffer {
    bytes: [u8; CAPACITY],
    len: usize,
}

impl Buffer {
    fn new() -> Self {
        Buffer {
            bytes: [0; CAPACITY],
            len: 0,
        }
    }

    fn flush(&mut self) {
        let len = self.len.min(CAPACITY);
        io::write_all(1, &self.bytes[..len]);
        self.len = 0;
    }
}

impl fmt::Write for Buffer {
    fn write_str(&mut self, s: &str) -> fmt::Result {
        for byte in s.as_bytes() {
            if CAPACITY <= self.len {
                self.flush();
            }
            let len = self.len.min(CAPACITY - 1);
            self.bytes[len] = *byte;
            self.len = len + 1;
        }
        Ok(())
    }
}

// All of a value and what ends it, as far as it can be written.
fn put<D: Display + Drop>(value: D, end: &str) {
    let mut f = Formatter::new(Buffer::new());
    let _ = f.write(&value);
    let _ = f.write(end);
    f.into_inner().flush();
}

impl Print for Output {
    fn print<D: Display + Drop>(&self, value: D) -> std::io::Result<()> {
        put(value, "");
        Ok(())
    }

    fn println<D: Display + Drop>(&self, value: D) -> std::io::Result<()> {
        put(value, "\n");
        Ok(())
    }

    fn write_all(&self, bytes: &[u8]) -> std::io::Result<()> {
        io::write_all(1, bytes);
        Ok(())
    }
}
