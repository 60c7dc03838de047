// Numbers, packed numbers and bits at places of a byte string.
#![tactic(auto)]

ghost use Rattle.std.specs.Prelude.{◌≡◌, cond, ◌+◌, ◌*◌, ◌/◌, ◌%◌, ◌^◌, ◌≤◌, ◌<◌, leb, length};
ghost use Rattle.format.specs.Bytes.{field_at, big_at};
ghost use Rattle.format.specs.Columns.{bit, bits, count, bit_bytes};
ghost use Rattle.format.specs.Values.{signed};
ghost use Rattle.wire.specs.Answer.{packed_at, long_at, SameIs, TurnedIs};

// A packed number and the place after it (01, Table maps).
#[derive(Clone, Copy, Debug, PartialEq, Eq)]
pub struct PackedNumber {
    pub value: u64,
    pub end: usize,
}

// The number in k bytes at a place, the lowest first (01, Framing: little-endian unless said).
pub fn number(s: &[u8], at: usize, k: usize) -> u64
    requires { (k ≤ 8) × (at + k ≤ length s.now) }
    ensures { result ≡ field_at s.now at k }
{
    let mut v: u64 = 0;
    for i in (0..k).rev() {
        v = v * 256 + s[at + i] as u64;
    }
    v
}

// The eight bytes from at.
pub fn word(s: &[u8], at: usize) -> u64
    requires { at + 8 ≤ length s.now }
    ensures { result ≡ field_at s.now at 8 }
{
    u64::from_le_bytes([
        s[at],
        s[at + 1],
        s[at + 2],
        s[at + 3],
        s[at + 4],
        s[at + 5],
        s[at + 6],
        s[at + 7],
    ])
}

// The number of the same eight bytes in the opposite order.
pub fn turned(x: u64) -> u64
    ensures { TurnedIs x result }
{
    x.swap_bytes()
}

// The n bytes at one place are those at another.
pub fn same_bytes(s: &[u8], a: usize, b: usize, n: usize) -> bool
    requires { (a + n ≤ length s.now) × (b + n ≤ length s.now) }
    ensures { SameIs s.now a b n result }
{
    s[a..a + n] == s[b..b + n]
}

// The number in n bytes at a place, the highest first (01, Columns: 17, 18, 19 are big-endian).
// kept: no plainer as one function with `number`: which end is first would be asked at each byte.
pub fn big(s: &[u8], at: usize, n: usize) -> u64
    requires fact_1 { at + n ≤ length s.now }
    requires fact_2 { n ≤ 8 }
    ensures { result ≡ big_at s.now at n }
{
    let mut v: u64 = 0;
    for i in 0..n {
        let b = s[at + i] as u64;
        v = v * 256 + b;
    }
    v
}

// The signed number whose two's complement of n bytes is v (01, Columns: signed integer of 1, 2, 3, 4, 8 bytes).
pub fn two_complement(v: u64, n: u64) -> i64
    requires fact_1 { 1 ≤ n }
    requires fact_2 { n ≤ 8 }
    requires fact_3 { v < 2 ^ (8 * n) }
    ensures { result ≡ signed n v }
{
    let half = 1u64 << (8 * n - 1);
    if v < half {
        v as i64
    } else {
        let k = (half - 1) - (v - half);
        -1 - (k as i64)
    }
}

// The k bytes that a packed number's first byte brings, at a place (01, Table maps).
#[tactic(auto, unfolding(crate::specs::Answer::long_at))]
fn long(s: &[u8], at: usize, k: usize) -> Option<PackedNumber>
    requires { (k ≤ 8) × (at ≤ length s.now) }
    ensures { result ≡ long_at s.now at k }
{
    if k <= s.len() - at {
        Some(PackedNumber {
            value: number(s, at, k),
            end: at + k,
        })
    } else {
        None
    }
}

// The packed number at a place (01, Table maps): 0 to 250 is the value; 252, 253, 254 bring 2, 3, 8 more bytes; 251 and 255 are malformed.
pub fn packed(s: &[u8], at: usize) -> Option<PackedNumber>
    ensures { result ≡ packed_at s.now at }
{
    if s.len() <= at {
        return None;
    }
    let next = at + 1;
    match s[at] {
        252 => long(s, next, 2),
        253 => long(s, next, 3),
        254 => long(s, next, 8),
        251 | 255 => None,
        b => Some(PackedNumber {
            value: b as u64,
            end: next,
        }),
    }
}

// Bit i of a run of bytes (01, Rows events: bits run from each byte's lowest).
#[tactic(auto, unfolding(format::specs::Columns::bit))]
pub fn bit_at(s: &[u8], i: usize) -> bool
    requires { i / 8 < length s.now }
    ensures { result ≡ bit s.now i }
{
    let k = i / 8;
    let b = s[k] as u64;
    let shift = (i % 8) as u64;
    (b >> shift) % 2 == 1
}

// One more where a bit is set.
pub fn one_more(j: usize, set: bool) -> usize
    requires { j < 2 ^ 32 }
    ensures { result ≡ cond set (j + 1) j }
{
    j + set as usize
}

// How many of the first n bits are set (01, Rows events: spare bits are ignored).
pub fn count_bits(s: &[u8], n: usize) -> usize
    requires { (n ≤ 512) × (bit_bytes n ≤ length s.now) }
    ensures { result ≡ count (bits n s.now) }
{
    let mut k: usize = 0;
    for i in 0..n {
        let set = bit_at(s, i);
        k = one_more(k, set);
    }
    k
}

// One of the first n bits is set.
// kept: no plainer by count_bits: it stops at the first set bit.
pub fn any_bit(s: &[u8], n: usize) -> bool
    requires { (n ≤ 512) × (bit_bytes n ≤ length s.now) }
    ensures { result ≡ leb 1 (count (bits n s.now)) }
{
    for i in 0..n {
        if bit_at(s, i) {
            return true;
        }
    }
    false
}

// The n bits of a number from a bit on, counted from the bottom.
pub fn field(x: u64, from: u64, n: u64) -> u64
    requires { (from < 64) × (n < 64) }
    ensures { result ≡ x / 2 ^ from % 2 ^ n }
{
    (x >> from) & ((1u64 << n) - 1)
}
