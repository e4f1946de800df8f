//! The listing of a log with four slots, into a lent buffer.
//! Promises upward: the text of the definition, for any key and any log that the program takes.
#![tactic(auto)]

ghost use Rattle.std.specs.Prelude.{◌≡◌, true, ◌+◌, ◌≤◌, ◌<◌, length};
ghost use Rattle.words.specs.Splices.{splice};
ghost use Rattle.rules.specs.Runs.{sound};
ghost use Rattle.text.specs.Text.{line_text, end_text};
ghost use Rattle.listing.specs.Listings.{rows_from, listing};
ghost use Rattle.listing.specs.Rooms.{log_limit, row_limit, end_limit, rows_limit, text_limit, Counts};

use state::Keyed;

/// The longest log that is listed.
pub const LOG_LIMIT: usize = 65536;

/// Room for the listing of any such log.
pub const TEXT_ROOM: usize = 1048576;

// Four slots.
const CACHE_BYTES: usize = 768;

// The line of an entry, at at, where the longest line fits; where it ends. Inner.
fn put_row(out: &mut [u8], at: usize, n: u64, tag: u8, verdict: u32, epoch: u64) -> usize
    requires { (n ≤ log_limit) × (at + row_limit ≤ length out.old) }
    ensures { (result ≡ at + length (line_text n tag verdict epoch)) × (out.new ≡ splice out.old at (line_text n tag verdict epoch)) × (length (line_text n tag verdict epoch) ≤ row_limit) }
{
    text::put_line(out, at, n, tag, verdict, epoch)
}

// The last line, at at, where the longest one fits; where it ends. Inner.
fn put_last(out: &mut [u8], at: usize, settled: u64, used: usize) -> usize
    requires { (used ≤ log_limit) × (at + end_limit ≤ length out.old) }
    ensures { (result ≡ at + length (end_text settled used)) × (out.new ≡ splice out.old at (end_text settled used)) × (result ≤ length out.old) }
{
    text::put_end(out, at, settled, used as u64)
}

// The lines of a log's entries from its start on, and the last line, at at; where they end. The cache is room to work in. Inner.
fn rows(start: Keyed, log: &[u8], cache: &mut [u8], out: &mut [u8], at: usize) -> usize
    requires { (length log.now ≤ log_limit) × (at + rows_limit ≤ length out.old) × (sound start.state cache.old ≡ true) }
    ensures { (result ≡ at + length (rows_from (length log.now) log.now 0 0 start.state cache.old)) × (out.new ≡ splice out.old at (rows_from (length log.now) log.now 0 0 start.state cache.old)) × (result ≤ length out.old) }
{
    let mut keyed = start;
    let mut place = 0;
    let mut n = 0;
    let mut end = at;
    while place < log.len() {
        let step = step::step_well(&keyed, run::left(log, place), cache);
        let verdict = step.verdict();
        keyed = keyed.with(step.state(keyed.state));
        n += 1;
        end = put_row(out, end, n, log[place], verdict, keyed.state.epoch.0);
        if run::halts(verdict) {
            return put_last(out, end, keyed.state.settled(), place);
        }
        place += step.used;
    }
    put_last(out, end, keyed.state.settled(), place)
}

/// The listing of log, at the start of out; its length. Inner.
pub fn list(key: &[u8; 16], log: &[u8], out: &mut [u8]) -> usize
    requires { (length log.now ≤ log_limit) × (text_limit ≤ length out.old) }
    ensures text { (result ≡ length (listing key.now log.now)) × (out.new ≡ splice out.old 0 (listing key.now log.now)) }
    ensures counted { Counts result out.new }
{
    let mut cache = [0u8; CACHE_BYTES];
    let at = text::put_slots(out, 0);
    let Ok(st) = state::open(key, &mut cache) else {
        unreachable!()
    };
    rows(Keyed::new(st), log, &mut cache, out, at)
}
