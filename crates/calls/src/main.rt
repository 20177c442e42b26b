// The library by calls: reads calls from standard input and answers each with a line of numbers, so that what no log shows can be compared too. A
// call is eight numbers of 8 bytes, big-endian: the op, a, b, c and four fields. One that is out of this program's own range is answered by its op
// and a question mark, and changes nothing. The program keeps a table of 20 slots and 33,000 bytes for logs.
#![tactic(auto)]

ghost use Rattle.receiving.specs.Lent.{Sound as SoundLent};
ghost use Rattle.receiver.specs.Record.{lent_of, Sound};
ghost use Rattle.table.specs.Slots.{AllSound};

use connection::Connection;
use lines::Page;
use psn::Psn;
use receiver::Receiver;
use rules::{
    Answer, Arrival, Block, Event, Kind, LARGEST_ROOM, Opening, Options, Refusal, Sending, Start,
    Use, WORDS,
};
use sender::SIZES;

// A call in bytes and in numbers, and the most calls.
const CALL: usize = 64;

const NUMBERS: usize = 8;

const CALLS: usize = 65_536;

// The slots of the table, the bytes for logs, and how many of them a write's line shows at the most.
const TABLE: usize = 20;

const BYTES: usize = 33_000;

const SHOWN: usize = 40;

// Room for the longest line: of a record, whose numbers have at most 20 digits, its sizes 5, with the space or the end of the line behind each.
const LINE: usize = 21 * (8 + 3 * (1 + WORDS)) + 6 * SIZES;

// A call's numbers.
fn call_of(input: &[u8; CALL]) -> [u64; NUMBERS] {
    let widths = [64u8; NUMBERS];
    let mut v = [0u64; NUMBERS];
    fields::read(input, &widths, &mut v);
    v
}

// Says that a call is out of range.
fn unknown(page: &mut Page) {
    page.push_bytes(b" ?");
}

// Puts numbers, a space before each.
fn push_all<T: Copy + Into<u64>>(page: &mut Page, numbers: &[T]) {
    for n in numbers {
        page.push_next((*n).into());
    }
}

fn psn(n: u64) -> Option<Psn> {
    Some(Psn(u32::try_from(n).ok()?))
}

fn arrival(number: u64, size: u64, flags: u64, entropy: u64) -> Option<Arrival> {
    Some(Arrival {
        psn: psn(number)?,
        size: u16::try_from(size).ok()?,
        flags: u8::try_from(flags).ok()?,
        entropy: u32::try_from(entropy).ok()?,
    })
}

fn opening(room: u64, first: u64) -> Option<Opening> {
    Some(Opening {
        room: u16::try_from(room).ok()?,
        first: psn(first)?,
    })
}

// The event of a call, where there is its kind, c, and each of its fields fits.
fn event_of(call: [u64; NUMBERS]) -> Option<Event> {
    let [_, _, _, kind, f, g, h, j] = call;
    let kind = Kind::try_from(u8::try_from(kind).ok()?).ok()?;
    Some(match kind {
        Kind::Start => Event::Start(Start {
            sending: opening(f, g)?,
            receiving: opening(h, j)?,
            options: Options {},
        }),
        Kind::Close => Event::Use(Use::Close),
        Kind::Send => Event::Use(Use::Sends(Sending::Send {
            size: u16::try_from(f).ok()?,
        })),
        Kind::Arrive => Event::Use(Use::Receives(arrival(f, g, h, j)?)),
        Kind::Sack => Event::Use(Use::Sends(Sending::Sack {
            cack: psn(f)?,
            block: Block {
                base: psn(g)?,
                bitmap: h,
            },
        })),
        Kind::Nack => Event::Use(Use::Sends(Sending::Nack {
            psn: psn(f)?,
            reason: u8::try_from(g).ok()?,
        })),
        Kind::Timer => Event::Use(Use::Sends(Sending::Timer { psn: psn(f)? })),
        Kind::Resend => Event::Use(Use::Sends(Sending::Resend)),
    })
}

// Puts an event: its kind and its fields, 0 past the last.
fn push_event(page: &mut Page, event: Event) {
    page.push_next(kinds::kind(event).number() as u64);
    push_all(page, &kinds::values(event));
}

// The kind that was answered. No `From`, since both types are those of `rules`.
fn kind_of(answer: Answer) -> Kind {
    match answer {
        Answer::Started => Kind::Start,
        Answer::Closed => Kind::Close,
        Answer::Sent(_) => Kind::Send,
        Answer::Acked(_, _) | Answer::Nacked(_, _) => Kind::Arrive,
        Answer::Retired(_) => Kind::Sack,
        Answer::Marked(_) => Kind::Nack,
        Answer::Expired(_) => Kind::Timer,
        Answer::Resent(_) => Kind::Resend,
    }
}

// Puts what only the library hands out: a SACK's MPR, a NACK's reason.
fn push_unprinted(page: &mut Page, answer: Answer) {
    match answer {
        Answer::Acked(_, sack) => page.push_next(sack.mpr as u64),
        Answer::Nacked(_, nack) => page.push_next(nack.reason as u64),
        _ => {}
    }
}

// Puts a reply: its number, the kind that was answered, which is 0 beside a refusal, the values of its line, and what only the library hands out.
fn push_reply(page: &mut Page, reply: Result<Answer, Refusal>) {
    let shown = paper::line_of(reply);
    page.push_next(shown.number as u64);
    match reply {
        Ok(answer) => {
            page.push_next(kind_of(answer).number() as u64);
            for v in shown.values.iter().take(shown.many) {
                page.push_next(*v);
            }
            push_unprinted(page, answer);
        }
        Err(_) => page.push_next(0),
    }
}

// Op 1: the event of kind c with the fields, on slot b of the first a slots.
fn event_call(table: &mut [Connection], call: [u64; NUMBERS], page: &mut Page)
    requires { AllSound table.old }
    ensures { AllSound table.new }
{
    let lent = call[1] as usize;
    let slot = call[2] as usize;
    match event_of(call) {
        Some(event) if lent <= table.len() => {
            let reply = table::event(&mut table[..lent], slot, event);
            push_reply(page, reply);
        }
        _ => unknown(page),
    }
}

// Op 2: the first a slots are emptied.
fn empty_call(table: &mut [Connection], call: [u64; NUMBERS], page: &mut Page)
    requires { AllSound table.old }
    ensures { AllSound table.new }
{
    let lent = call[1] as usize;
    if lent <= table.len() {
        table::empty_all(&mut table[..lent]);
    } else {
        unknown(page);
    }
}

// Puts the sizes of n packet numbers from the first on.
fn push_sizes(page: &mut Page, sizes: &[u16; SIZES], first: u32, n: u32) {
    for i in 0..n {
        let k = first.wrapping_add(i) % LARGEST_ROOM;
        page.push_next(sizes[k as usize] as u64);
    }
}

// The words up to the last that has a bit.
fn used(words: &[u64]) -> &[u64] {
    match words.iter().rposition(|w| *w != 0) {
        Some(last) => &words[..=last],
        None => &[],
    }
}

// Puts the words of a row up to the last that has a bit, after their number.
fn push_words(page: &mut Page, words: &[u64]) {
    let words = used(words);
    page.push_next(words.len() as u64);
    push_all(page, words);
}

// Puts a receiver: its room, the expected packet number, its count and its words.
fn push_receiver(page: &mut Page, r: &Receiver) {
    push_all(page, &[r.head.room, r.head.expected.0, r.head.count]);
    push_words(page, &r.words);
}

// Puts a record: both sides, and the sizes of the packet numbers outstanding.
fn push_record(page: &mut Page, c: &Connection) {
    let s = &c.sender;
    let head = s.head;
    push_all(
        page,
        &[head.room, head.place.0, head.outstanding, head.held],
    );
    push_words(page, &s.retired);
    push_words(page, &s.marked);
    push_receiver(page, &c.receiver);
    push_sizes(
        page,
        &s.sizes,
        head.place.0.wrapping_add(1),
        head.outstanding,
    );
}

// Op 3: the record of slot a.
fn record_call(table: &[Connection], call: [u64; NUMBERS], page: &mut Page) {
    match table.get(call[1] as usize) {
        Some(c) => push_record(page, c),
        None => unknown(page),
    }
}

// Op 4: byte a becomes b.
fn poke_call(bytes: &mut [u8], call: [u64; NUMBERS], page: &mut Page) {
    let i = call[1] as usize;
    match u8::try_from(call[2]) {
        Ok(b) if i < bytes.len() => bytes[i] = b,
        _ => unknown(page),
    }
}

// Op 5: the first a bytes become b.
fn fill_call(bytes: &mut [u8], call: [u64; NUMBERS], page: &mut Page) {
    let n = call[1] as usize;
    match u8::try_from(call[2]) {
        Ok(b) if n <= bytes.len() => bytes[..n].fill(b),
        _ => unknown(page),
    }
}

// Puts the body of the record at a place of a log, after its length.
fn push_body(page: &mut Page, log: &[u8], place: usize) {
    let body = event_log::body(log, place);
    page.push_next(body.len() as u64);
    push_all(page, body);
}

// Puts what is read at a place of a log: the number, the kind and the place after it, which are 0 where there is no record, then the slot and the
// event of a record, and the body.
fn push_read(page: &mut Page, log: &[u8], place: usize) {
    match event_log::read(log, place) {
        Ok(Some(record)) => {
            let kind = record.kind.number();
            push_all(
                page,
                &[0, kind as u64, record.next as u64, record.slot as u64],
            );
            push_event(page, record.event);
        }
        Ok(None) => push_all(page, &[0u64, 0, 0]),
        Err(refusal) => push_all(page, &[refusal.number() as u64, 0, 0]),
    }
    push_body(page, log, place);
}

// Op 6: the record at place b of the first a bytes.
fn read_call(bytes: &[u8], call: [u64; NUMBERS], page: &mut Page) {
    let place = call[2] as usize;
    match bytes.get(..call[1] as usize) {
        Some(log) => push_read(page, log, place),
        None => unknown(page),
    }
}

// Puts what a write gave, its number and the length, and the first bytes of the buffer after it.
fn push_buffer(page: &mut Page, number: u64, length: u64, buffer: &[u8]) {
    push_all(page, &[number, length]);
    push_all(page, &buffer[..buffer.len().min(SHOWN)]);
}

// Writes an event's record.
fn push_written(page: &mut Page, buffer: &mut [u8], slot: u8, event: Event) {
    match event_log::write(buffer, slot, event) {
        Ok(length) => push_buffer(page, 0, length as u64, buffer),
        Err(refusal) => push_buffer(page, refusal.number() as u64, 0, buffer),
    }
}

// Op 7: the record of the event of kind c with the fields and slot b is written into the first a bytes.
fn write_call(bytes: &mut [u8], call: [u64; NUMBERS], page: &mut Page) {
    let n = call[1] as usize;
    match (u8::try_from(call[2]), event_of(call)) {
        (Ok(slot), Some(event)) if n <= bytes.len() => {
            push_written(page, &mut bytes[..n], slot, event)
        }
        _ => unknown(page),
    }
}

// An arrival at a receiver by value.
fn push_arrived(page: &mut Page, r: Receiver, a: Arrival)
    requires { Sound r }
{
    let out = r.arrive(a);
    push_reply(page, out.answer);
    push_receiver(page, &out.next);
}

// The same at a receiver's head over lent words.
fn push_lent(page: &mut Page, r: Receiver, a: Arrival)
    requires { SoundLent (lent_of r) }
{
    let mut words = r.words;
    let mut head = r.head;
    let reply = head.arrive(&mut words, a);
    push_reply(page, reply);
    push_receiver(page, &Receiver { head, words });
}

// A receiver of the least room that has just started, with this count; then an arrival at it, or at its head over lent words. A flag and no function
// of the caller's, whose premise would be longer than the two calls.
fn push_counted(page: &mut Page, first: Psn, a: Arrival, count: u32, lent: bool) {
    let begun = Receiver::start(Opening { room: 64, first });
    let mut r = begun.next;
    if r.head.room == 0 {
        return push_reply(page, begun.answer);
    }
    r.head.count = count;
    if lent {
        push_lent(page, r, a);
    } else {
        push_arrived(page, r, a);
    }
}

// Ops 8 and 9: a receiver started at packet number a, its count set to b, and an arrival with size c, flags, entropy and packet number.
fn arrive_call(call: [u64; NUMBERS], page: &mut Page, lent: bool) {
    let [_, first, count, size, flags, entropy, number, _] = call;
    match (
        psn(first),
        u32::try_from(count),
        arrival(number, size, flags, entropy),
    ) {
        (Some(first), Ok(count), Some(a)) => push_counted(page, first, a, count, lent),
        _ => unknown(page),
    }
}

// A call is answered. Its op is a number of the input, and this is the one place that reads it.
fn any_call(table: &mut [Connection], bytes: &mut [u8], call: [u64; NUMBERS], page: &mut Page)
    requires { AllSound table.old }
    ensures { AllSound table.new }
{
    let op = call[0];
    page.push_number(op);
    match op {
        1 => event_call(table, call, page),
        2 => empty_call(table, call, page),
        3 => record_call(table, call, page),
        4 => poke_call(bytes, call, page),
        5 => fill_call(bytes, call, page),
        6 => read_call(bytes, call, page),
        7 => write_call(bytes, call, page),
        8 => arrive_call(call, page, false),
        9 => arrive_call(call, page, true),
        _ => unknown(page),
    }
}

// Writes the page.
fn write(page: Page) {
    let end = page.at.min(page.bytes.len());
    io::write_all(1, &page.bytes[..end]);
}

// Call after call, until the input ends.
fn run(bytes: &mut [u8], out: &mut [u8]) {
    let none = Connection::empty();
    let mut table = [none; TABLE];
    let mut input = [0u8; CALL];
    for _ in 0..CALLS {
        let n = io::read_full(0, &mut input);
        if n < CALL {
            return;
        }
        let mut page = Page { bytes: out, at: 0 };
        any_call(&mut table, bytes, call_of(&input), &mut page);
        page.push(b'\n');
        write(page);
    }
}

fn main() {
    let mut bytes = [0u8; BYTES];
    let mut line = [0u8; LINE];
    run(&mut bytes, &mut line);
}
