// CRC-32 of a slice: a short one by words, a long one by a window of bytes.
#![tactic(auto)]

ghost use Rattle.std.specs.Prelude.{◌≡◌, ◌^◌, ◌<◌, ◌≤◌, length};
ghost use Rattle.format.specs.Crc.{crc_from, crc32};

use fold::{clear, pay, room, take};

mod fold;

// The register c after 579 bytes or more, as a number of 64 bits. It begins as a past of the window that falls on the first four bytes alone.
fn folded(c: u64, s: &[u8]) -> u64
    requires fact_1 { c < 2 ^ 32 }
    requires fact_2 { 579 ≤ length s.now }
    ensures { result ≡ crc_from c s.now }
{
    let mut w = [0u8; 2944];
    w[61..65].copy_from_slice(&(c as u32).to_le_bytes());
    let mut q: usize = 61;
    let turns = (s.len() - 515) / 64;
    for k in 0..turns {
        q = room(&mut w, q);
        take(&mut w, q, s, 64 * k);
        q += 64;
    }
    clear(&mut w, q);
    let p = 64 * turns;
    let mut r = [0u8; 579];
    pay(&mut r, &w, q, s, p);
    words::after(0, &r[..s.len() - p])
}

// The register c after the bytes: a log's parts are fed one after the other. (A slice that is taken anew, `&s[..]`, is handed on as two numbers; as
// it came, it is copied at once, and a processor waits until the caller's numbers are stored.)
pub fn more(c: u32, s: &[u8]) -> u32
    ensures { result ≡ crc_from c s.now }
{
    if s.len() < 1280 {
        return words::after(c as u64, &s[..]) as u32;
    }
    folded(c as u64, s) as u32
}

// The checksum.
pub fn checksum(s: &[u8]) -> u32
    ensures { result ≡ crc32 s.now }
{
    !more(0xffff_ffff, s)
}
