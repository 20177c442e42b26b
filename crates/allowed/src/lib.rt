// Which numbers an event may carry. Every function takes any number.
#![tactic(auto)]

ghost use Rattle.std.specs.Prelude.{◌≡◌, ◌%◌};
ghost use Rattle.word.specs.Word.{bit_at};
ghost use Rattle.rules.specs.Numbers.{psn_ok, room_ok, size_ok, flags_ok, reason_ok};

use psn::{Psn, TURN};
use rules::{
    FLAGS_END, LARGEST_ROOM, LARGEST_SIZE, LEAST_ROOM, LEAST_SIZE, TRIMMED, TRIMMED_LAST_HOP,
};

pub fn psn_ok(p: Psn) -> bool
    ensures { result ≡ psn_ok p }
{
    p.0 < TURN
}

pub fn room_ok(room: u32) -> bool
    ensures { result ≡ room_ok room }
{
    if room < LEAST_ROOM {
        return false;
    }
    if LARGEST_ROOM < room {
        return false;
    }
    room % LEAST_ROOM == 0
}

pub fn size_ok(size: u16) -> bool
    ensures { result ≡ size_ok size }
{
    if size < LEAST_SIZE {
        return false;
    }
    size <= LARGEST_SIZE
}

// No bit but 0 to 4, and not trimmed in both ways.
pub fn flags_ok(flags: u8) -> bool
    ensures { result ≡ flags_ok flags }
{
    if FLAGS_END <= flags {
        return false;
    }
    if flag(flags, TRIMMED) {
        return !flag(flags, TRIMMED_LAST_HOP);
    }
    true
}

pub fn reason_ok(reason: u8) -> bool
    ensures { result ≡ reason_ok reason }
{
    if reason < 1 {
        return false;
    }
    reason <= 6
}

// Whether a flag's bit is set.
pub fn flag(flags: u8, i: u32) -> bool
    ensures { result ≡ bit_at flags (i % 64) }
{
    word::test(flags as u64, i)
}
