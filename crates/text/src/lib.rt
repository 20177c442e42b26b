// The text of a replay, line by line, on a page.
#![tactic(auto)]

ghost use Rattle.std.specs.Prelude.{◌≡◌, [], ◌∷◌, take};
ghost use Rattle.lines.specs.Text.{PutsOn};
ghost use Rattle.rules.specs.Replay.{line, stop as stop_of};
ghost use Rattle.text.specs.Text.{spaced, line_text, last_text, offset_of, head_text};

use lines::Page;
use paper::{Shown, VALUES};
use rules::{Answer, LONGEST_LOG, Refusal};

// The most bytes of a line: its numbers have at most 20 digits, with the space or the end of the line behind each.
pub const LINE: usize = 21 * (VALUES + 2);

// The values of a line, each behind a space.
fn push_values(page: &mut Page, s: Shown)
    ensures same_reference { page.new.bytes.ghost_name ≡ page.old.bytes.ghost_name }
    ensures puts { PutsOn page.old (spaced (take s.many s.values)) page.new }
{
    for v in s.values.iter().take(s.many) {
        page.push_next(*v);
    }
}

// A line: a kind's number, and what is shown of the reply.
fn push_shown(page: &mut Page, kind: u8, s: Shown)
    ensures same_reference { page.new.bytes.ghost_name ≡ page.old.bytes.ghost_name }
    ensures puts { PutsOn page.old (line_text (kind ∷ s.number ∷ take s.many s.values)) page.new }
{
    page.push_number(kind as u64);
    page.push_next(s.number as u64);
    push_values(page, s);
    page.push(b'\n');
}

// A record's line: its kind, the reply's number and, if that is 0, its values. The kind by its number, since the promise is for any.
pub fn push_line(page: &mut Page, kind: u8, reply: Result<Answer, Refusal>)
    ensures same_reference { page.new.bytes.ghost_name ≡ page.old.bytes.ghost_name }
    ensures puts { PutsOn page.old (line_text (line (record { kind = kind; answer = reply }))) page.new }
{
    push_shown(page, kind, paper::line_of(reply));
}

// The line of a record that is refused, its kind and the refusal by their numbers, since the promise is for any.
pub fn push_refused(page: &mut Page, kind: u8, number: u8)
    ensures same_reference { page.new.bytes.ghost_name ≡ page.old.bytes.ghost_name }
    ensures puts { PutsOn page.old (line_text (kind ∷ number ∷ [])) page.new }
{
    push_shown(page, kind, paper::refused(number));
}

// What ends the log: `end N`, or `log R at O`. The refusal by its number, 0 for none, since the promise is for any.
pub fn push_last(page: &mut Page, stop: u8, place: usize, count: usize)
    ensures same_reference { page.new.bytes.ghost_name ≡ page.old.bytes.ghost_name }
    ensures puts { PutsOn page.old (last_text (stop_of stop place count)) page.new }
{
    if stop == 0 {
        page.push_bytes(b"end");
        page.push_next(count as u64);
    } else {
        page.push_bytes(b"log");
        page.push_next(stop as u64);
        page.push_bytes(b" at");
        page.push_next(offset(stop, place));
    }
    page.push(b'\n')
}

// The offset of the bad record's first byte; the longest log's length for one that is too long.
fn offset(stop: u8, place: usize) -> u64
    ensures { result ≡ offset_of stop place }
{
    if stop == 13 {
        LONGEST_LOG as u64
    } else {
        place as u64
    }
}

// The first line.
pub fn head(page: &mut Page)
    ensures same_reference { page.new.bytes.ghost_name ≡ page.old.bytes.ghost_name }
    ensures puts { PutsOn page.old head_text page.new }
{
    page.push_bytes(b"mrc log 1\n");
}
