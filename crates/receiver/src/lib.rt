// The receiving side by value: a head beside its own words.
#![tactic(auto)]

ghost use Rattle.std.specs.Prelude.{◌≡◌};
ghost use Rattle.rules.specs.Receiver.{start as start_of};
ghost use Rattle.rules.specs.Receiving.{arrive as arrive_of, step as step_of};
ghost use Rattle.receiver.specs.Record.{empty as empty_of, meaning, Sound, Steps};

use psn::Psn;
use receiving::Head;
use rules::{Answer, Arrival, Opening, Receiving, Refusal, Stepped, WORDS};

// A receiver by value.
#[derive(Clone, Copy)]
pub struct Receiver {
    pub head: Head,
    pub words: [u64; WORDS],
}

impl Receiver {
    // The record of no connection: all zero.
    pub fn empty() -> Receiver
        ensures { result ≡ empty_of }
    {
        Receiver {
            head: Head {
                room: 0,
                expected: Psn(0),
                count: 0,
            },
            words: [0; WORDS],
        }
    }

    // A start. Refused, it hands back the empty record.
    pub fn start(opening: Opening) -> Stepped<Receiver>
        ensures { Steps empty_of (start_of opening) result.answer result.next }
    {
        let mut next = Receiver::empty();
        let answer = next.open(opening);
        Stepped { answer, next }
    }

    // A start, at the record of no connection. In place: where it opens a record inside a `Result`, which is copied out of it, a start takes four
    // times as long.
    fn open(&mut self, opening: Opening) -> Result<Answer, Refusal>
        requires { self.old ≡ empty_of }
        ensures { Steps self.old (start_of opening) result self.new }
    {
        let room = opening.room as u32;
        let first = opening.first;
        Refusal::BadRoom.unless(allowed::room_ok(room))?;
        Refusal::BadPsn.unless(allowed::psn_ok(first))?;
        self.head.room = room;
        self.head.expected = first;
        self.words[0] = word::low(first.0 % 64);
        Ok(Answer::Started)
    }

    // An arrival.
    pub fn arrive(mut self, a: Arrival) -> Stepped<Receiver>
        requires { Sound self }
        ensures { Steps self (arrive_of (meaning self) a) result.answer result.next }
    {
        let answer = self.head.arrive(&mut self.words, a);
        Stepped { answer, next: self }
    }

    // An event.
    #[tactic(auto, unfolding(rules::specs::Receiving::step))]
    pub fn step(self, event: Receiving) -> Stepped<Receiver>
        requires { Sound self }
        ensures { Steps self (step_of (meaning self) event) result.answer result.next }
    {
        self.arrive(event)
    }
}
