// The register of CRC-32 after a slice, without tables. The bytes are words of 64 bits. The first word is carried forward: xored, shifted, into
// those that follow it, by a multiple of the polynomial that has few terms. So there is one word less, until one is left.
#![tactic(auto)]

ghost use Rattle.std.specs.Prelude.{◌≡◌, ℕ, ◌+◌, ◌-◌, ◌*◌, ◌%◌, ◌^◌, ◌<◌, ◌≤◌, length, drop};
ghost use Rattle.std.specs.Int.Bits.{bit_xor};
ghost use Rattle.format.specs.Bytes.{num};
ghost use Rattle.format.specs.Crc.{bit_steps, crc_from};
ghost use Rattle.words.specs.Words.{on, mix, next, itself, inverse₁, inverse₂};
ghost use Rattle.words.specs.Front.{five, two};

use wire::word;

// The first five words, with all that fell on them.
#[derive(Clone, Copy)]
struct Five {
    a: u64,
    b: u64,
    c: u64,
    d: u64,
    e: u64,
}

// The first two words, with all that fell on them, and what fell on the one after them.
// kept: no plainer as one type with `Five`: `carry_far` and `carry_near` share no line, since their multiples have other terms.
#[derive(Clone, Copy)]
struct Two {
    a: u64,
    b: u64,
    c: u64,
}

// Carries the first of five words into the others and into w, the word after them.
fn carry_far(f: Five, w: u64) -> Five
    ensures { (M R : ℕ) → 268 ≤ M → bit_steps M (five result R) ≡ bit_steps (64 + M) (five f (on w R)) }
{
    let a = f.a;
    Five {
        a: f.b,
        b: f.c ^ ((a << 55) ^ (a << 17)),
        c: f.d ^ ((a << 19) ^ ((a >> 9) ^ (a >> 47))),
        d: f.e ^ ((a << 44) ^ (a >> 45)),
        e: w ^ (a >> 20),
    }
}

// Carries the first of two words into the other and into w, the word after them.
fn carry_near(t: Two, w: u64) -> Two
    ensures { (M R : ℕ) → 127 ≤ M → bit_steps M (two result R) ≡ bit_steps (64 + M) (two t (on w R)) }
{
    let a = t.a;
    Two {
        a: t.b ^ ((a << 35) ^ ((a << 14) ^ ((a << 6) ^ (a << 2)))),
        b: (w ^ t.c)
            ^ ((a << 31)
                ^ ((a << 25) ^ ((a << 4) ^ ((a >> 29) ^ ((a >> 50) ^ ((a >> 58) ^ (a >> 62))))))),
        c: (a >> 33) ^ ((a >> 39) ^ (a >> 60)),
    }
}

// What one word carries into the word after it.
fn next_low(x: u64) -> u64
    ensures { result ≡ mix next (x * 2 ^ 64) % 2 ^ 64 }
{
    let u = (x << 1) ^ x;
    let v = (x << 2) ^ x;
    (((u << 4) ^ u) << 26) ^ ((((v << 4) ^ v) << 17) ^ ((x << 7) ^ (((u << 2) ^ u) << 1)))
}

// What it carries beyond that.
fn next_high(x: u64) -> u64
    ensures { result ≡ mix next x }
{
    let h = x >> 33;
    let u = h ^ (h >> 1);
    let v = h ^ (h >> 2);
    (u ^ (u >> 4)) ^ (((v ^ (v >> 4)) >> 8) ^ ((h >> 24) ^ ((u ^ (u >> 2)) >> 27)))
}

// A word times the inverse of the polynomial, in two factors.
// kept: no plainer as one function: each factor is a formula of its own, and only the form of the contract is shared.
fn inverse_one(x: u64) -> u64
    ensures { result ≡ bit_xor x (mix inverse₁ (x * 2 ^ 64) % 2 ^ 64) }
{
    x ^ ((x << 3) ^ ((x << 16) ^ (x << 47)))
}

fn inverse_two(x: u64) -> u64
    ensures { result ≡ bit_xor x (mix inverse₂ (x * 2 ^ 64) % 2 ^ 64) }
{
    let u = x ^ (x << 1);
    let v = x ^ (x << 3);
    v ^ ((u << 9)
        ^ ((v << 13)
            ^ ((v << 24)
                ^ ((x << 28) ^ ((x << 34) ^ ((x << 40) ^ ((x << 45) ^ ((x << 50) ^ (u << 54)))))))))
}

// What a multiple of the polynomial has above its 64 low bits; t is the half below those.
fn above(t: u64) -> u64
    ensures { result ≡ mix itself t }
{
    let u = t ^ (t >> 1);
    u ^ ((t >> 2)
        ^ (((u ^ (u >> 3)) >> 4)
            ^ ((u >> 10) ^ ((t >> 12) ^ ((t >> 16) ^ ((u >> 22) ^ (t >> 26)))))))
}

// The last word.
fn last_one(x: u64) -> u64
    ensures { result ≡ bit_steps 64 x }
{
    above(inverse_two(inverse_one(x)) >> 32)
}

// The last two words, with c above them.
fn last_two(a: u64, b: u64, c: u64) -> u64
    ensures { result ≡ bit_steps 128 (on a (on b c)) }
{
    last_one(next_low(a) ^ b) ^ (next_high(a) ^ c)
}

// The last five words. The first is carried by a multiple that ends with them.
fn last_five(f: Five) -> u64
    ensures { result ≡ bit_steps 320 (five f 0) }
{
    let a = f.a;
    let low = a << 7;
    let high = a >> 57;
    let t = Two {
        a: f.b,
        b: f.c ^ (a << 53),
        c: 0,
    };
    let d = f.d ^ ((a << 63) ^ (low ^ (a >> 11)));
    let e = f.e ^ ((a << 18) ^ (low ^ ((a >> 1) ^ high)));
    let r = carry_near(carry_near(t, d), e);
    last_two(r.a, r.b, ((a >> 46) ^ high) ^ r.c)
}

// Two words and then the bytes from at.
fn few(s: &[u8], at: usize, first: u64, second: u64) -> u64
    requires fact_1 { at ≤ length s.now }
    requires fact_2 { (length s.now - at) % 8 ≡ 0 }
    ensures { result ≡ bit_steps (128 + 8 * (length s.now - at)) (on first (on second (num (drop at s.now)))) }
{
    let mut t = Two {
        a: first,
        b: second,
        c: 0,
    };
    for k in 0..(s.len() - at) / 8 {
        t = carry_near(t, word(s, at + 8 * k));
    }
    last_two(t.a, t.b, t.c)
}

// The same for three words or more.
// kept: no plainer as one function with `few`: only the loop's head is shared, and a trait would name the words, the carry and the end of each.
fn many(s: &[u8], at: usize, first: u64, second: u64) -> u64
    requires fact_1 { at + 24 ≤ length s.now }
    requires fact_2 { (length s.now - at) % 8 ≡ 0 }
    ensures { result ≡ bit_steps (128 + 8 * (length s.now - at)) (on first (on second (num (drop at s.now)))) }
{
    let mut f = Five {
        a: first,
        b: second,
        c: word(s, at),
        d: word(s, at + 8),
        e: word(s, at + 16),
    };
    let from = at + 24;
    for k in 0..(s.len() - from) / 8 {
        f = carry_far(f, word(s, from + 8 * k));
    }
    last_five(f)
}

// The register c after the bytes, as a number of 64 bits. Bytes that are no whole word are the first ones, at the top of a word.
pub fn after(c: u64, s: &[u8]) -> u64
    requires { c < 2 ^ 32 }
    ensures { result ≡ crc_from c s.now }
{
    let n = s.len();
    if n == 0 {
        return c;
    }
    let k = (n - 1) % 8 + 1;
    let high = (c >> (4 * k)) >> (4 * k);
    if n <= 8 {
        let w = wire::number(s, 0, n);
        return last_one((w ^ c) << (64 - 8 * k)) ^ high;
    }
    let first = (word(s, 0) ^ c) << (64 - 8 * k);
    let second = word(s, k) ^ high;
    if n <= 40 {
        few(s, k + 8, first, second)
    } else {
        many(s, k + 8, first, second)
    }
}
