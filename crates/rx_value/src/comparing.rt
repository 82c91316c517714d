// The order and the equality of bytes, eight at a time.
ghost use Rattle.std.specs.Prelude.{◌≡◌, ◌+◌, ◌<◌, ◌≤◌, length};
ghost use Rattle.std.specs.Simd.Lanes.{chunk};
ghost use Rattle.std.specs.Slice.Scan.{big_endian, Settles};
ghost use Rattle.std.specs.Str.{bytes_eq};
ghost use Rattle.rx_value.specs.Order.{text_cmp};

use std::cmp::Ordering;

// How many bytes a word has.
const WORD: usize = 8;

// How many its half has.
const HALF: usize = 4;

/// How bytes stand to others: the first that differ decide, and else the lengths.
pub fn compare(a: &[u8], b: &[u8]) -> Ordering
    ensures { result ≡ text_cmp a.now b.now }
{
    let both = a.len().min(b.len());
    let (x, y) = numbers(a, b, both);
    x.cmp(&y).then(a.len().cmp(&b.len()))
}

/// Whether two texts are the same.
#[inline(always)]
pub fn is_same(a: &str, b: &str) -> bool
    ensures { result ≡ bytes_eq a.now b.now }
{
    are_same(a.as_bytes(), b.as_bytes())
}

// Most are of other lengths, and cost no call.
#[inline(always)]
fn are_same(a: &[u8], b: &[u8]) -> bool
    ensures { result ≡ bytes_eq a.now b.now }
{
    if a.len() != b.len() {
        return false;
    }
    same_bytes(a, b)
}

// The same of as many bytes.
fn same_bytes(a: &[u8], b: &[u8]) -> bool
    requires { length a.now ≡ length b.now }
    ensures { result ≡ bytes_eq a.now b.now }
{
    let (x, y) = numbers(a, b, a.len());
    x == y
}

// The first bytes of each, so many of them, as numbers that stand to each other as they do.
#[inline(always)]
fn numbers(a: &[u8], b: &[u8], n: usize) -> (u64, u64)
    requires { (n ≤ length a.now) × (n ≤ length b.now) }
    ensures { Settles a.now b.now n result.0 result.1 }
{
    if n < WORD {
        return short_words(a, b, n);
    }
    words(a, b, n - WORD)
}

// The same of those up to the end of the word at that place: the first words that differ, or the
// last. That may overlap those before.
#[inline(always)]
fn words(a: &[u8], b: &[u8], last: usize) -> (u64, u64)
    requires { (last + 8 ≤ length a.now) × (last + 8 ≤ length b.now) }
    ensures { Settles a.now b.now (last + 8) result.0 result.1 }
{
    let mut at = 0;
    while at < last {
        let x = word(a, at);
        let y = word(b, at);
        if x != y {
            return (x, y);
        }
        at += WORD;
    }
    let x_last = word(a, last);
    let y_last = word(b, last);
    (x_last, y_last)
}

// The same of fewer bytes than a word has.
#[inline(always)]
fn short_words(a: &[u8], b: &[u8], n: usize) -> (u64, u64)
    requires { (n < 8) × (n ≤ length a.now) × (n ≤ length b.now) }
    ensures { Settles a.now b.now n result.0 result.1 }
{
    if n >= HALF {
        return halves(a, b, n);
    }
    if n == 0 {
        return (0, 0);
    }
    let x = (a[0] as u64 * 0x100 + a[n / 2] as u64) * 0x100 + a[n - 1] as u64;
    let y = (b[0] as u64 * 0x100 + b[n / 2] as u64) * 0x100 + b[n - 1] as u64;
    (x, y)
}

// The same of at least half a word, and no more than two halves, which may overlap. Each is
// compared for itself, since the compiler reads a half at once, but not both as one number.
#[inline(always)]
fn halves(a: &[u8], b: &[u8], n: usize) -> (u64, u64)
    requires { (4 ≤ n) × (n ≤ 8) × (n ≤ length a.now) × (n ≤ length b.now) }
    ensures { Settles a.now b.now n result.0 result.1 }
{
    let x = half(a, 0);
    let y = half(b, 0);
    if x != y {
        return (x, y);
    }
    let x_last = half(a, n - HALF);
    let y_last = half(b, n - HALF);
    (x_last, y_last)
}

// The word at that place as a number, its first byte the greatest: its front half and its back one.
#[inline(always)]
fn word(bytes: &[u8], i: usize) -> u64
    requires { i + 8 ≤ length bytes.now }
    ensures { result ≡ big_endian 0 (chunk i 8 bytes.now) }
{
    half(bytes, i) * 0x1_0000_0000 + half(bytes, i + HALF)
}

// The same of half a word.
#[inline(always)]
fn half(bytes: &[u8], i: usize) -> u64
    requires { i + 4 ≤ length bytes.now }
    ensures value { result ≡ big_endian 0 (chunk i 4 bytes.now) }
    ensures bound { result < 0x1_0000_0000 }
{
    u32::from_be_bytes([bytes[i], bytes[i + 1], bytes[i + 2], bytes[i + 3]]) as u64
}
