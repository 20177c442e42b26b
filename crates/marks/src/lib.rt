// Marks for resending in lent rows of words: the rows begin at place + 1's own block of 64.
#![tactic(auto)]

ghost use Rattle.marks.specs.Marks.{Finds, MarksBit, Marks, Reach, Takes};

use psn::Psn;

// A bit is marked if it is neither retired nor marked. How many became marked, 0 or 1.
fn mark(retired: &[u64], marked: &mut [u64], p: u32) -> u8
    ensures { MarksBit retired.now marked.old p marked.new result }
{
    let j = (p / 64) as usize;
    if word::test(row::word_at(retired, j) | row::word_at(marked, j), p) {
        return 0;
    }
    row::set(marked, p);
    1
}

// The bit of a packet number is marked if it is one of the n after the place, and neither retired nor marked. How many became marked, 0 or 1.
pub fn mark_psn(retired: &[u64], marked: &mut [u64], place: Psn, n: u32, psn: Psn) -> u8
    requires { Reach place.0 n }
    ensures { Marks retired.now marked.old place.0 n psn.0 marked.new result }
{
    let i = place.after(1).distance(psn);
    if n <= i {
        return 0;
    }
    mark(retired, marked, (place.0 + 1) % 64 + i)
}

// The marked packet number nearest after the place, among the n after it. The search goes over words and bits and stops at the first found, which is
// the loop's value, by break: the form that the customer's scope names for it. With `s + n <= 64 * j` as its end a resend is a fifth to a half slower.
fn nearest(marked: &[u64], place: Psn, n: u32) -> Option<Psn>
    requires { Reach place.0 n }
    ensures { Finds marked.now place.0 n result }
{
    let s = (place.0 + 1) % 64;
    let words = (s + n).div_ceil(64);
    let mut j = 0;
    loop {
        if words <= j {
            break None;
        }
        let w = row::word_at(marked, j as usize) & row::range(j, s, s + n);
        if w != 0 {
            break Some(place.after(1 + (64 * j + word::lowest(w) - s)));
        }
        j += 1;
    }
}

// The marked packet number nearest after the place, among the n after it, with its mark cleared.
pub fn take(marked: &mut [u64], place: Psn, n: u32) -> Option<Psn>
    requires { Reach place.0 n }
    ensures { Takes marked.old place.0 n marked.new result }
{
    let found = nearest(marked, place, n);
    if let Some(psn) = found {
        row::clear(marked, (place.0 + 1) % 64 + place.after(1).distance(psn));
    }
    found
}
