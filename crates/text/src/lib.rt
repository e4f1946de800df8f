//! The listing's lines, written as text into a lent buffer.
//! Promises upward: exactly the bytes of the definition, and where they end.
//! Each writer asks that its text fits: all are inner, for the crates above.
#![tactic(auto)]

ghost use Rattle.std.specs.Prelude.{◌≡◌, ◌+◌, ◌≤◌, ◌<◌, length, drop};
ghost use Rattle.words.specs.Splices.{splice};
ghost use Rattle.text.specs.Text.{decimal, field, line_text, slots_text, end_text};

use words::{put_bytes, put_u8};

// The most digits that a number of 64 bits has.
const DIGITS: usize = 20;

const BASE: u64 = 10;

const ZERO_DIGIT: u8 = b'0';

const SPACE: u8 = b' ';

const LINE_FEED: u8 = b'\n';

// The digit of a number below 10. Inner.
fn digit(x: u64) -> u8
    requires { x < 10 }
    ensures { result ≡ 48 + x }
{
    ZERO_DIGIT + x as u8
}

// The decimal digits of n, at the end of d; they start at the place returned. Inner.
fn spell(n: u64, d: &mut [u8; DIGITS]) -> usize
    ensures { (result ≤ 20) × (drop result d.new ≡ decimal n) }
{
    let mut rest = n;
    for i in (0..DIGITS).rev() {
        d[i] = digit(rest % BASE);
        rest /= BASE;
        if rest == 0 {
            return i;
        }
    }
    unreachable!()
}

/// The decimal digits of n, at at; where they end. Inner.
pub fn put_decimal(out: &mut [u8], at: usize, n: u64) -> usize
    requires { at + length (decimal n) ≤ length out.old }
    ensures { (result ≡ at + length (decimal n)) × (out.new ≡ splice out.old at (decimal n)) }
{
    let mut d = [0u8; DIGITS];
    let s = spell(n, &mut d);
    put_bytes(out, at, &d[s..])
}

/// The decimal digits of n and the byte that ends them, at at; where they end. Inner.
pub fn put_field(out: &mut [u8], at: usize, n: u64, end: u8) -> usize
    requires { at + length (field n end) ≤ length out.old }
    ensures { (result ≡ at + length (field n end)) × (out.new ≡ splice out.old at (field n end)) }
{
    let next = put_decimal(out, at, n);
    put_u8(out, next, end);
    next + 1
}

/// The line of an entry met, at at: its number, tag byte, verdict, current epoch after it; where it ends. Inner.
pub fn put_line(out: &mut [u8], at: usize, n: u64, tag: u8, verdict: u32, epoch: u64) -> usize
    requires { at + length (line_text n tag verdict epoch) ≤ length out.old }
    ensures { (result ≡ at + length (line_text n tag verdict epoch)) × (out.new ≡ splice out.old at (line_text n tag verdict epoch)) }
{
    let a = put_field(out, at, n, SPACE);
    let b = put_field(out, a, u64::from(tag), SPACE);
    let c = put_field(out, b, u64::from(verdict), SPACE);
    put_field(out, c, epoch, LINE_FEED)
}

/// The first line, at at; where it ends. Inner.
pub fn put_slots(out: &mut [u8], at: usize) -> usize
    requires { at + length slots_text ≤ length out.old }
    ensures { (result ≡ at + length slots_text) × (out.new ≡ splice out.old at slots_text) }
{
    put_bytes(out, at, b"slots 4\n")
}

/// The last line, at at: the settled epoch and the bytes used; where it ends. Inner.
pub fn put_end(out: &mut [u8], at: usize, settled: u64, used: u64) -> usize
    requires { at + length (end_text settled used) ≤ length out.old }
    ensures { (result ≡ at + length (end_text settled used)) × (out.new ≡ splice out.old at (end_text settled used)) }
{
    let a = put_bytes(out, at, b"settled ");
    let b = put_field(out, a, settled, SPACE);
    let c = put_bytes(out, b, b"bytes ");
    put_field(out, c, used, LINE_FEED)
}
