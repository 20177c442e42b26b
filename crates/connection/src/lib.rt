// One connection by value: a sender and a receiver that share nothing. An event touches one side, and the other comes back as it was.
#![tactic(auto)]

ghost use Rattle.std.specs.Prelude.{◌≡◌, not};
ghost use Rattle.rules.specs.Connection.{close as close_of, start as start_of, step as step_of, unused};
ghost use Rattle.connection.specs.Record.{empty as empty_of, meaning, Sound, Steps};

use receiver::Receiver;
use rules::{Answer, Refusal, Start, Stepped, Use};
use sender::Sender;

#[derive(Clone, Copy)]
pub struct Connection {
    pub sender: Sender,
    pub receiver: Receiver,
}

impl Connection {
    // The record of no connection: all zero.
    pub fn empty() -> Connection
        ensures { result ≡ empty_of }
    {
        Connection {
            sender: Sender::empty(),
            receiver: Receiver::empty(),
        }
    }

    // Whether it was started, and not closed since.
    pub fn in_use(&self) -> bool
        ensures { result ≡ not (unused (meaning self.now)) }
    {
        self.sender.head.room != 0
    }

    // A start. Refused, it hands back the empty record.
    pub fn start(opening: Start) -> Stepped<Connection>
        ensures { Steps empty_of (start_of opening) result.answer result.next }
    {
        let mut next = Connection::empty();
        let answer = next.open(opening);
        Stepped { answer, next }
    }

    // A start, at the record of no connection. In place: where it opens a record inside a `Result`, which is copied out of it, a start takes four
    // times as long.
    fn open(&mut self, opening: Start) -> Result<Answer, Refusal>
        requires { self.old ≡ empty_of }
        ensures { Steps self.old (start_of opening) result self.new }
    {
        let Start {
            sending,
            receiving,
            options: _,
        } = opening;
        Refusal::BadRoom.unless(allowed::room_ok(sending.room as u32))?;
        Refusal::BadRoom.unless(allowed::room_ok(receiving.room as u32))?;
        Refusal::BadPsn.unless(allowed::psn_ok(sending.first))?;
        Refusal::BadPsn.unless(allowed::psn_ok(receiving.first))?;
        self.sender = Sender::start(sending).next;
        self.receiver = Receiver::start(receiving).next;
        Ok(Answer::Started)
    }

    // A close.
    pub fn close(self) -> Stepped<Connection>
        requires { Sound self }
        ensures { Steps self (close_of (meaning self)) result.answer result.next }
    {
        if !self.in_use() {
            return Stepped {
                answer: Err(Refusal::NotInUse),
                next: self,
            };
        }
        Stepped {
            answer: Ok(Answer::Closed),
            next: Connection::empty(),
        }
    }

    // A close, or an event of one side: the other comes back as it was.
    pub fn step(self, event: Use) -> Stepped<Connection>
        requires { Sound self }
        ensures { Steps self (step_of (meaning self) event) result.answer result.next }
    {
        match event {
            Use::Close => self.close(),
            Use::Sends(e) => {
                let Stepped { answer, next } = self.sender.step(e);
                Stepped {
                    answer,
                    next: Connection {
                        sender: next,
                        receiver: self.receiver,
                    },
                }
            }
            Use::Receives(e) => {
                let Stepped { answer, next } = self.receiver.step(e);
                Stepped {
                    answer,
                    next: Connection {
                        sender: self.sender,
                        receiver: next,
                    },
                }
            }
        }
    }
}
