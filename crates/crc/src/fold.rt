// Many bytes: each is carried into the bytes 281, 285, 344 and 515 after it, by a multiple of the polynomial whose terms are whole bytes. A
// window holds the last of them as they are with all that fell on them. A compiler takes many at a time, since none falls on one near to it.
ghost use Rattle.std.specs.Prelude.{◌≡◌, ◌+◌, ◌-◌, ◌%◌, ◌^◌, ◌≤◌, ◌<◌, length, drop};
ghost use Rattle.std.specs.Int.Bits.{bit_xor};
ghost use Rattle.format.specs.Bytes.{num, field_at};
ghost use Rattle.words.specs.Words.{mix};
ghost use Rattle.crc.specs.Window.{folds, register, Filled};

// Takes the 64 bytes from p into the window, after the 515 from q.
pub fn take(w: &mut [u8; 2944], q: usize, s: &[u8], p: usize)
    requires fact_1 { Filled 2944 w.old }
    requires fact_2 { q + 579 ≤ 2944 }
    requires fact_3 { p + 579 ≤ length s.now }
    ensures fact_1 { Filled 2944 w.new }
    ensures fact_2 { register s.now w.new (p + 64) (q + 64) ≡ register s.now w.old p q }
{
    for i in 0..64 {
        let k = q + i;
        w[k + 515] = (w[k] ^ (w[k + 171] ^ (w[k + 230] ^ w[k + 234]))) ^ s[p + i];
    }
}

// Makes room for 64 bytes, in a full window by moving its last 515 bytes to its front: where the last 515 are then.
pub fn room(w: &mut [u8; 2944], q: usize) -> usize
    requires fact_1 { Filled 2944 w.old }
    requires fact_2 { q ≤ 2109 }
    requires fact_3 { q % 64 ≡ 61 }
    ensures fact_1 { Filled 2944 w.new }
    ensures fact_2 { result + 64 ≤ 2109 }
    ensures fact_3 { result % 64 ≡ 61 }
    ensures fact_4 { field_at w.new result 515 ≡ field_at w.old q 515 }
{
    if q < 2109 {
        return q;
    }
    w.copy_within(2109..2624, 61);
    61
}

// Leaves nothing after the 515 bytes from q.
pub fn clear(w: &mut [u8; 2944], q: usize)
    requires fact_1 { Filled 2944 w.old }
    requires fact_2 { q ≤ 2109 }
    ensures fact_1 { Filled 2944 w.new }
    ensures fact_2 { num (drop q w.new) ≡ field_at w.old q 515 }
{
    w[q + 515..].fill(0);
}

// The bytes from p, with all that falls on them, where nothing is in the window after the 515 bytes from q.
// kept: no plainer as one function with `take`: they share a formula of one line, and one writes into the buffer that it reads.
pub fn pay(r: &mut [u8; 579], w: &[u8; 2944], q: usize, s: &[u8], p: usize)
    requires fact_1 { Filled 579 r.old }
    requires fact_2 { Filled 2944 w.now }
    requires fact_3 { (q ≤ 2109) × (p + 515 ≤ length s.now) × (length s.now < p + 579) }
    requires fact_4 { num (drop q w.now) < 2 ^ 4120 }
    ensures fact_1 { Filled 579 r.new }
    ensures fact_2 { field_at r.new 0 (length s.now - p) ≡ bit_xor (mix folds (num (drop q w.now))) (num (drop p s.now)) }
{
    for i in 0..s.len() - p {
        let k = q + i;
        r[i] = (w[k] ^ (w[k + 171] ^ (w[k + 230] ^ w[k + 234]))) ^ s[p + i];
    }
}
