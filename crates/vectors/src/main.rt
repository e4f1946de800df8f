//! Runs the digest on FIPS 180-4's examples and on messages whose lengths lie around every edge of the padding and of the
//! public call. What it must write is in the file stdout, which the second program writes too. proofs/ has the standards' worked
//! examples, computed from the definitions.
#![tactic(auto)]

ghost use Rattle.std.specs.Prelude.{◌≡◌, length};

use std::io;

// One byte more than the longest message of the public call.
const ROOM: usize = 65537;

fn room() -> [u8; ROOM]
    ensures { 65537 ≡ length result }
{
    [0; ROOM]
}

// Byte i is 7 i + 3, modulo 256.
fn fill(p: &mut [u8]) {
    let mut x: u8 = 3;
    for b in p.iter_mut() {
        *b = x;
        x = x.wrapping_add(7);
    }
}

fn show_bytes<R: Print>(rt: &R, b: &[u8]) -> io::Result<()> {
    for x in b {
        print!(rt; "{x:02x}")?;
    }
    Ok(())
}

// A line: the message's length, the verdict, the digest.
fn show<R: Print>(rt: &R, m: &[u8]) -> io::Result<()> {
    let outcome = sha256::digest(m);
    let n = m.len();
    let verdict = verdict::told(&outcome);
    print!(rt; "{n} {verdict} ")?;
    show_bytes(rt, &outcome.unwrap_or([0; 32]))?;
    println!(rt; "")
}

// The message's first n bytes.
fn show_first<R: Print>(rt: &R, p: &[u8], n: usize) -> io::Result<()> {
    if n <= p.len() {
        return show(rt, &p[..n]);
    }
    Ok(())
}

fn main(rt: HostRuntime) -> io::Result<()> {
    show(&rt, b"abc")?;
    show(
        &rt,
        b"abcdbcdecdefdefgefghfghighijhijkijkljklmklmnlmnomnopnopq",
    )?;
    show(
        &rt,
        b"abcdefghbcdefghicdefghijdefghijkefghijklfghijklmghijklmnhijklmnoijklmnopjklmnopqklmnopqrlmnopqrsmnopqrstnopqrstu",
    )?;
    let mut p = room();
    fill(&mut p);
    show_first(&rt, &p, 0)?;
    show_first(&rt, &p, 55)?;
    show_first(&rt, &p, 56)?;
    show_first(&rt, &p, 63)?;
    show_first(&rt, &p, 64)?;
    show_first(&rt, &p, 119)?;
    show_first(&rt, &p, 120)?;
    show_first(&rt, &p, 65535)?;
    show_first(&rt, &p, 65536)?;
    show_first(&rt, &p, 65537)
}
