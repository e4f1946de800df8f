//! Epochs, times and the deferred message with its bytes, 51 to 187 of them.
//! Promises upward: the bytes determine epoch, time, key and value.
#![tactic(auto)]

ghost use Rattle.std.specs.Prelude.{◌≡◌, ◌+◌, ◌≤◌, length};
ghost use Rattle.words.specs.Splices.{splice};
ghost use Rattle.message.specs.Messages.{message_bytes};

use key::Key;
use value::Value;
use words::put_number;

/// The widest message.
pub const MESSAGE_BYTES: usize = 187;

// Where a message's time, key and value stand in it.
const TIME_AT: usize = 8;

const KEY_AT: usize = 16;

const VALUE_AT: usize = 50;

/// Epochs and clock times are both counts; an epoch is never accepted where a time is expected.
#[derive(Clone, Copy, Debug, PartialEq, Eq)]
pub struct Epoch(pub u64);

#[derive(Clone, Copy, Debug, PartialEq, Eq)]
pub struct Time(pub u64);

#[derive(Clone, Copy, Debug, PartialEq, Eq)]
pub struct Message {
    pub epoch: Epoch,
    pub time: Time,
    pub key: Key,
    pub value: Value,
}

/// A message, and how many bytes it takes. Inner.
#[tactic(auto, using(crate::proofs::Laws::message_length))]
pub fn write_message(m: Message, out: &mut [u8]) -> usize
    requires { length (message_bytes m) ≤ length out.old }
    ensures { (out.new ≡ splice out.old 0 (message_bytes m)) × (result ≡ length (message_bytes m)) }
{
    put_number::<8>(out, 0, m.epoch.0);
    put_number::<8>(out, TIME_AT, m.time.0);
    m.key.write(out, KEY_AT);
    VALUE_AT + value::write_value(m.value, out, VALUE_AT)
}
