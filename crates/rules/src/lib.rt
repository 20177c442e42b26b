// The plain types that the crates share: events, answers, what a log's reader and writer give. Document 01 as definitions over them stands in specs/.
#![tactic(auto)]

ghost use Rattle.std.specs.Prelude.{◌≡◌, cond, Ok, Err, MatchResult};
ghost use Rattle.rules.specs.Numbered.{kind_number, kind_of_number, number};
ghost use Rattle.rules.specs.Kinds.{kind_ok};
ghost use Rattle.rules.specs.declared.Refusal.TheVariants.{UnknownKind};

use psn::Psn;

// How many slots of a table are used at the most.
pub const SLOTS: usize = 16;

// How many slots the replay program keeps.
pub const PROGRAM_SLOTS: usize = 4;

// The smallest and the largest room; a room is a multiple of the smallest.
pub const LEAST_ROOM: u32 = 64;

pub const LARGEST_ROOM: u32 = 2048;

// Words of 64 packet numbers enough for the largest room, from any bit of the first word on.
pub const WORDS: usize = LARGEST_ROOM as usize / 64 + 1;

// The smallest and the largest packet size.
pub const LEAST_SIZE: u16 = 48;

pub const LARGEST_SIZE: u16 = 9216;

// The longest log in bytes.
pub const LONGEST_LOG: usize = 32_768;

// The mark that a record begins with.
pub const MARK: [u8; 2] = *b"MR";

// The bytes of a record before its fields.
pub const RECORD_HEAD: usize = 4;

// A packet's flags by their bits, and the first number that has another bit.
pub const ECN: u32 = 0;

pub const RTX: u32 = 1;

pub const TRIMMED: u32 = 2;

pub const TRIMMED_LAST_HOP: u32 = 3;

pub const NO_BUFFER: u32 = 4;

pub const FLAGS_END: u8 = 32;

// A packet as it arrives.
#[derive(Clone, Copy)]
pub struct Arrival {
    pub psn: Psn,
    pub size: u16,
    pub flags: u8,
    pub entropy: u32,
}

// 64 packet numbers from the base on: bit i speaks of base + i.
#[derive(Clone, Copy)]
pub struct Block {
    pub base: Psn,
    pub bitmap: u64,
}

// The start of one side: its room and its first packet number.
#[derive(Clone, Copy)]
pub struct Opening {
    pub room: u16,
    pub first: Psn,
}

// What a connection may have beside its two sides. Nothing yet.
#[derive(Clone, Copy)]
pub struct Options {}

// The start of a connection.
#[derive(Clone, Copy)]
pub struct Start {
    pub sending: Opening,
    pub receiving: Opening,
    pub options: Options,
}

// An event of the sending side.
#[derive(Clone, Copy)]
pub enum Sending {
    Send { size: u16 },
    Sack { cack: Psn, block: Block },
    // The reason is any number, which a refusal judges.
    Nack { psn: Psn, reason: u8 },
    Timer { psn: Psn },
    Resend,
}

// An event of the receiving side: an arrival is the only one.
pub type Receiving = Arrival;

// What befalls a connection in use.
#[derive(Clone, Copy)]
pub enum Use {
    Close,
    Sends(Sending),
    Receives(Receiving),
}

// An event on a slot.
#[derive(Clone, Copy)]
pub enum Event {
    Start(Start),
    Use(Use),
}

// The kinds of an event, each with its number in a record of a log.
#[derive(Clone, Copy, Debug, PartialEq, Eq)]
pub enum Kind {
    Start = 1,
    Close = 2,
    Send = 3,
    Arrive = 4,
    Sack = 5,
    Nack = 6,
    Timer = 7,
    Resend = 8,
}

impl Kind {
    // Its number.
    pub fn number(self) -> u8
        ensures { result ≡ kind_number self }
    {
        self as u8
    }
}

impl TryFrom<u8> for Kind {
    type Error = Refusal;

    ghost try_from_gives = { λ n r. r ≡ cond (kind_ok n) (Ok (kind_of_number n)) (Err UnknownKind) };

    fn try_from(number: u8) -> Result<Kind, Refusal> {
        match number {
            1 => Ok(Kind::Start),
            2 => Ok(Kind::Close),
            3 => Ok(Kind::Send),
            4 => Ok(Kind::Arrive),
            5 => Ok(Kind::Sack),
            6 => Ok(Kind::Nack),
            7 => Ok(Kind::Timer),
            8 => Ok(Kind::Resend),
            _ => Err(Refusal::UnknownKind),
        }
    }
}

// How an arrival is judged.
#[derive(Clone, Copy)]
pub enum Verdict {
    Fresh,
    Known,
    Beyond,
    NoBuffer,
    Trim,
    TrimLastHop,
}

// The reply to a packet that is fresh or known. count is the receiver's count of bytes divided by 256.
#[derive(Clone, Copy)]
pub struct Sack {
    pub cack: Psn,
    pub block: Block,
    pub count: u32,
    pub mpr: u8,
    pub entropy: u32,
    pub rtx: bool,
    pub mark: bool,
}

// The reply to any other packet. The reason is one of those that a sender takes.
#[derive(Clone, Copy)]
pub struct Nack {
    pub psn: Psn,
    pub reason: u8,
    pub entropy: u32,
    pub rtx: bool,
}

// What a SACK did: packets newly retired, the place and the held bytes after it, and the false alarms, those of the newly retired that were
// marked.
#[derive(Clone, Copy)]
pub struct Report {
    pub newly: u32,
    pub place: Psn,
    pub held: u32,
    pub alarms: u32,
}

// Why the card says no: document 01's refusals, each with its number.
#[derive(Clone, Copy, Debug, PartialEq, Eq)]
pub enum Refusal {
    // The slot is none of the table's, or none of those that are used.
    NoSuchSlot = 1,
    // The slot, or the record, is of no connection.
    NotInUse = 2,
    // A start of a slot that is in use.
    InUse = 3,
    // A room that is too small, too large or no multiple of the smallest.
    BadRoom = 4,
    // A packet number that is not below TURN.
    BadPsn = 5,
    // A packet size that is too small or too large.
    BadSize = 6,
    // As many packets are outstanding as the sending room holds.
    RoomFull = 7,
    // A packet number that was not sent.
    NeverSent = 8,
    // No packet is marked for resending.
    NothingMarked = 9,
    // The log ends inside a record.
    CutShort = 10,
    // A record does not begin with the mark.
    NoMark = 11,
    UnknownKind = 12,
    LogTooLong = 13,
    // Flags that no packet has.
    BadFlags = 14,
    // A NACK's reason that is none.
    BadReason = 15,
    // The buffer is shorter than the record to be written.
    BufferTooShort = 16,
    // A SACK that contradicts itself.
    Contradiction = 17,
}

impl Refusal {
    // Its number in document 01.
    pub fn number(self) -> u8
        ensures { result ≡ number self }
    {
        self as u8
    }

    // Nothing where a test holds, and else this refusal.
    pub fn unless(self, holds: bool) -> Result<(), Refusal>
        ensures { result ≡ cond holds (Ok tt) (Err self) }
    {
        if holds { Ok(()) } else { Err(self) }
    }
}

// The answer to an event that is not refused.
#[derive(Clone, Copy)]
pub enum Answer {
    Started,
    Closed,
    // The packet number that a send was given.
    Sent(Psn),
    Acked(Verdict, Sack),
    Nacked(Verdict, Nack),
    // What a SACK did.
    Retired(Report),
    // How many a NACK marked, and how many a timer.
    Marked(u8),
    Expired(u8),
    // The packet number to send again.
    Resent(Psn),
}

// What an event hands back: the answer or the refusal, and the next state of the record that it used up.
#[derive(Clone, Copy)]
pub struct Stepped<R> {
    pub answer: Result<Answer, Refusal>,
    pub next: R,
}

impl<R: Copy> Stepped<R> {
    // What a start hands back: the record that it opened; or the refusal, and the record of no connection.
    pub fn started(opened: Result<R, Refusal>, none: R) -> Stepped<R>
        ensures { MatchResult opened
            (λ r. (result.answer ≡ Ok Answer.Started) × (result.next ≡ r))
            (λ e. (result.answer ≡ Err e) × (result.next ≡ none)) }
    {
        match opened {
            Ok(next) => Stepped {
                answer: Ok(Answer::Started),
                next,
            },
            Err(refusal) => Stepped {
                answer: Err(refusal),
                next: none,
            },
        }
    }
}

// A field of a record: a packet number, or a number of so many bits.
#[derive(Clone, Copy)]
pub enum Cell {
    Psn,
    Bits(u8),
}

// A record of a log: its slot, its event, the event's kind, and the place after it.
#[derive(Clone, Copy)]
pub struct Record {
    pub slot: u8,
    pub event: Event,
    pub kind: Kind,
    pub next: usize,
}
