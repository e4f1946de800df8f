//! The program: the set key from `set.key`, the log from standard input, its listing to standard output (document 01, "The program and
//! its listing").
//! Only this reads and writes; that what it does is safe and ends is proved, and the text that it writes is the listing's own promise.
#![tactic(auto)]

ghost use Rattle.std.specs.Io.{ReadsAtMost};
ghost use Rattle.std.specs.Prelude.{◌≡◌, length};

use listing::{LOG_LIMIT, TEXT_ROOM};
use std::fs::File;
use std::io;
use std::io::Read;
use std::rt::Files;

const KEY_BYTES: usize = 16;

// Room for a log and one byte more, by which a longer one shows.
const LOG_ROOM: usize = LOG_LIMIT + 1;

// A buffer, of which no more is said than its length.
fn room<const N: usize>() -> [u8; N]
    ensures { N ≡ length result }
{
    [0; N]
}

// Reads until to is full or from has ended; how many bytes, which are at the front of to.
fn read_full<R: Read>(from: &mut R, to: &mut [u8]) -> io::Result<usize>
    ensures { ReadsAtMost result to.new }
{
    let mut done = 0;
    while done < to.len() {
        let n = from.read(&mut to[done..])?;
        if n == 0 {
            break;
        }
        done += n;
    }
    Ok(done)
}

// The 16 bytes of `set.key`, if it is there and has no other length. A seventeenth shows by a second read.
fn read_key<R: Files>(files: &R) -> Option<[u8; KEY_BYTES]> {
    let mut file = File::open(files, "set.key").ok()?;
    let mut key = [0; KEY_BYTES];
    let mut more = [0; 1];
    let n = read_full(&mut file, &mut key).ok()?;
    let past = read_full(&mut file, &mut more).ok()?;
    (n == KEY_BYTES && past == 0).then_some(key)
}

// The key is looked at first.
fn main(rt: HostRuntime) -> io::Result<()> {
    let Some(key) = read_key(&rt) else {
        return rt.write_all(b"bad key\n");
    };
    let mut log = room::<LOG_ROOM>();
    let n = read_full(&mut rt.reader(), &mut log)?;
    if LOG_LIMIT < n {
        return rt.write_all(b"log too long\n");
    }
    let mut out = room::<TEXT_ROOM>();
    let end = listing::list(&key, &log[..n], &mut out);
    rt.write_all(&out[..end])
}
