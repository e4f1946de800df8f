//! The reader that keeps the lent log together with its place (document 01, "Verdict numbers", its last paragraph): thin functions over
//! the plain form, which has log and place apart.
//! Promises upward: the log from the place on, the entry there, its body as a part of the log itself, and the reader behind it, for any
//! log and any place.
#![tactic(auto)]

ghost use Rattle.std.specs.Prelude.{◌≡◌, ◌≤◌, length, drop};
ghost use Rattle.entry.specs.Entries.{read_entry, read_at, reading_used};
ghost use Rattle.reader.specs.Places.{body_at, next_at, placed};

use entry::{Entry, Unread};

/// The log, and a place in it.
#[derive(Clone, Copy, Debug, PartialEq, Eq)]
pub struct Reader<'a> {
    pub log: &'a [u8],
    pub at: usize,
}

// The length of the whole entry at the start of a log, or none.
#[tactic(auto, using(entry::proofs::Laws::read_used))]
fn whole(log: &[u8]) -> usize
    ensures { (result ≡ reading_used (read_entry log.now)) × (result ≤ length log.now) }
{
    entry::head_of(log).map_or(0, |h| entry::HEAD_BYTES + h.len)
}

/// The log from a place on; nothing past its end.
pub fn rest_at(log: &[u8], at: usize) -> &[u8]
    ensures { result.now ≡ drop at log.now }
{
    log.get(at..).unwrap_or(&log[..0])
}

/// The body of the entry at a place: the plain form.
pub fn body_at(log: &[u8], at: usize) -> &[u8]
    ensures { result.now ≡ body_at log.now at }
{
    entry::body(rest_at(log, at))
}

/// The place behind the entry at a place; the same place where no whole entry stands there.
pub fn next_at(log: &[u8], at: usize) -> usize
    ensures { result ≡ next_at log.now at }
{
    at + whole(rest_at(log, at))
}

impl<'a> Reader<'a> {
    /// At a place of a log.
    pub fn at(log: &'a [u8], place: usize) -> Self
        ensures { result ≡ placed log.entry place }
    {
        Self { log, at: place }
    }

    /// The log from the place on; nothing past its end.
    pub fn rest(self) -> &'a [u8]
        ensures { result.now ≡ drop self.entry.at self.entry.log.now }
    {
        rest_at(self.log, self.at)
    }

    /// The entry at the place.
    pub fn read(self) -> Result<(Entry, usize), Unread>
        ensures { result ≡ read_at self.entry.log.now self.entry.at }
    {
        entry::read_at(self.log, self.at)
    }

    /// Its body, a part of the log itself.
    pub fn body(self) -> &'a [u8]
        ensures { result.now ≡ body_at self.entry.log.now self.entry.at }
    {
        body_at(self.log, self.at)
    }

    /// The reader behind it.
    pub fn next(self) -> Self
        ensures { result ≡ placed self.entry.log (next_at self.entry.log.now self.entry.at) }
    {
        Self {
            at: next_at(self.log, self.at),
            ..self
        }
    }
}
