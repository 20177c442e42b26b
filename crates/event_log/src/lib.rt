// The reader and the writer of the event log.
#![tactic(auto)]

ghost use Rattle.std.specs.Prelude.{◌≡◌, ◌++◌, ◌+◌, ◌≤◌, length, drop};
ghost use Rattle.rules.specs.Numbers.{longest_log};
ghost use Rattle.rules.specs.Kinds.{kind_of};
ghost use Rattle.rules.specs.Log.{body as body_of, encode, read as read_of, whole as whole_of};
ghost use Rattle.rules.specs.Numbered.{kind_number};
ghost use Rattle.event_log.specs.Parts.{Holds, Reads, ReadsFirst, Writes};

use kinds::FIELDS;
use rules::{Event, Kind, LONGEST_LOG, MARK, RECORD_HEAD, Record, Refusal};

// A record's whole length.
fn whole(kind: Kind) -> usize
    ensures { result ≡ whole_of (kind_number kind) }
{
    RECORD_HEAD + fields::size(&kinds::widths(kind.number()))
}

// The values of the fields of the record of this kind that the bytes r begin with.
fn values(r: &[u8], kind: Kind) -> [u64; FIELDS]
    requires { whole_of (kind_number kind) ≤ length r.now }
    ensures { Holds r.now (kind_number kind) result }
{
    let mut v = [0; FIELDS];
    fields::read(&r[RECORD_HEAD..], &kinds::widths(kind.number()), &mut v);
    v
}

// The record that the bytes r begin with, which stand at a place of the log.
fn read_first(r: &[u8], place: usize) -> Result<Record, Refusal>
    requires { place + length r.now ≤ longest_log }
    ensures { ReadsFirst r.now place result }
{
    Refusal::CutShort.unless(3 <= r.len())?;
    Refusal::NoMark.unless(r.starts_with(&MARK))?;
    let kind = Kind::try_from(r[2])?;
    let n = whole(kind);
    Refusal::CutShort.unless(n <= r.len())?;
    Ok(Record {
        slot: r[3],
        event: kinds::event(kind, values(r, kind)),
        kind,
        next: place + n,
    })
}

// The record at a place of the log; none at its end and past it.
pub fn read(log: &[u8], place: usize) -> Result<Option<Record>, Refusal>
    ensures { Reads log.now place result }
{
    Refusal::LogTooLong.unless(log.len() <= LONGEST_LOG)?;
    if log.len() <= place {
        return Ok(None);
    }
    Ok(Some(read_first(&log[place..], place)?))
}

// The body of the record at a place of the log: that part of it from the slot byte on, empty where there is no record.
pub fn body(log: &[u8], place: usize) -> &[u8]
    ensures { result.now ≡ body_of log.now place (read_of log.now place) }
{
    match read(log, place) {
        Ok(Some(found)) => &log[place + 3..found.next],
        _ => &log[..0],
    }
}

// An event's record at the start of a buffer that has room for it.
fn fill(buffer: &mut [u8], slot: u8, event: Event)
    requires { whole_of (kind_of event) ≤ length buffer.old }
    ensures { buffer.new ≡ encode slot event ++ drop (whole_of (kind_of event)) buffer.old }
{
    let kind = kinds::kind(event).number();
    let widths = kinds::widths(kind);
    let v = kinds::values(event);
    buffer[..2].copy_from_slice(&MARK);
    buffer[2] = kind;
    buffer[3] = slot;
    fields::write(&mut buffer[RECORD_HEAD..], &widths, &v);
}

// An event's record, from the buffer's first byte on: its length.
pub fn write(buffer: &mut [u8], slot: u8, event: Event) -> Result<usize, Refusal>
    ensures { Writes slot event buffer.old result buffer.new }
{
    Refusal::BadPsn.unless(!kinds::high(event))?;
    let n = whole(kinds::kind(event));
    Refusal::BufferTooShort.unless(n <= buffer.len())?;
    fill(buffer, slot, event);
    Ok(n)
}
