// The sending side by value: a head beside its own rows.
#![tactic(auto, unfolding(rules::specs::Sending::step))]

ghost use Rattle.std.specs.Prelude.{◌≡◌};
ghost use Rattle.rules.specs.Sender.{start as start_of};
ghost use Rattle.rules.specs.Sending.{nack as nack_of, resend as resend_of, sack as sack_of, send as send_of, step as step_of, timer as timer_of};
ghost use Rattle.sender.specs.Record.{empty as empty_of, meaning, Sound, Steps};

use psn::{Psn, TURN};
use rules::{Answer, Block, LARGEST_ROOM, Opening, Refusal, Sending, Stepped, WORDS};
use sending::Head;

// A size for each packet number of the largest room.
pub const SIZES: usize = LARGEST_ROOM as usize;

// A sender by value.
#[derive(Clone, Copy)]
pub struct Sender {
    pub head: Head,
    pub sizes: [u16; SIZES],
    pub retired: [u64; WORDS],
    pub marked: [u64; WORDS],
}

impl Sender {
    // The record of no connection: all zero.
    pub fn empty() -> Sender
        ensures { result ≡ empty_of }
    {
        Sender {
            head: Head {
                room: 0,
                place: Psn(0),
                outstanding: 0,
                held: 0,
            },
            sizes: [0; SIZES],
            retired: [0; WORDS],
            marked: [0; WORDS],
        }
    }

    // A start. Refused, it hands back the empty record.
    pub fn start(opening: Opening) -> Stepped<Sender>
        ensures { Steps empty_of (start_of opening) result.answer result.next }
    {
        let mut next = Sender::empty();
        let answer = next.open(opening);
        Stepped { answer, next }
    }

    // A start, at the record of no connection. In place: where it opens a record inside a `Result`, which is copied out of it, a start takes four
    // times as long.
    fn open(&mut self, opening: Opening) -> Result<Answer, Refusal>
        requires { self.old ≡ empty_of }
        ensures { Steps self.old (start_of opening) result self.new }
    {
        let room = opening.room as u32;
        let first = opening.first;
        Refusal::BadRoom.unless(allowed::room_ok(room))?;
        Refusal::BadPsn.unless(allowed::psn_ok(first))?;
        self.head.room = room;
        self.head.place = first.after(TURN - 1);
        self.retired[0] = word::low(first.0 % 64);
        Ok(Answer::Started)
    }

    // A packet of this size is sent.
    pub fn send(self, size: u16) -> Stepped<Sender>
        requires { Sound self }
        ensures { Steps self (send_of (meaning self) size) result.answer result.next }
    {
        self.step(Sending::Send { size })
    }

    // A SACK.
    pub fn sack(self, cack: Psn, block: Block) -> Stepped<Sender>
        requires { Sound self }
        ensures { Steps self (sack_of (meaning self) cack block) result.answer result.next }
    {
        self.step(Sending::Sack { cack, block })
    }

    // A NACK for a packet number, with its reason.
    pub fn nack(self, psn: Psn, reason: u8) -> Stepped<Sender>
        requires { Sound self }
        ensures { Steps self (nack_of (meaning self) psn reason) result.answer result.next }
    {
        self.step(Sending::Nack { psn, reason })
    }

    // A timer ran out for a packet number.
    pub fn timer(self, psn: Psn) -> Stepped<Sender>
        requires { Sound self }
        ensures { Steps self (timer_of (meaning self) psn) result.answer result.next }
    {
        self.step(Sending::Timer { psn })
    }

    // The marked packet number nearest after the place is handed out, and its mark cleared.
    pub fn resend(self) -> Stepped<Sender>
        requires { Sound self }
        ensures { Steps self (resend_of (meaning self)) result.answer result.next }
    {
        self.step(Sending::Resend)
    }

    // An event, at the head over its own rows. Taken apart for it: lent as parts of one record they are copied twice, and a NACK takes six times as
    // long.
    #[tactic(auto, using(crate::proofs::Stepping::lent_sound, crate::proofs::Stepping::step_meets))]
    pub fn step(self, event: Sending) -> Stepped<Sender>
        requires { Sound self }
        ensures { Steps self (step_of (meaning self) event) result.answer result.next }
    {
        let Sender {
            mut head,
            mut sizes,
            mut retired,
            mut marked,
        } = self;
        let answer = head.step(&mut sizes, &mut retired, &mut marked, event);
        Stepped {
            answer,
            next: Sender {
                head,
                sizes,
                retired,
                marked,
            },
        }
    }
}
