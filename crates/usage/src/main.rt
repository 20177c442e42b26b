// The library in use: a packet goes from one card to another, and its reply comes back. Nothing here needs a proof of its own.
#![tactic(auto)]

ghost use Rattle.connection.specs.Record.{Sound};

use connection::Connection;
use psn::Psn;
use rules::{Answer, Arrival, Opening, Options, Refusal, Sending, Start, Use};

// The reply reaches the card that sent: how many packets it newly retires.
fn heard(near: Connection, reply: Answer) -> Result<u32, Refusal>
    requires { Sound near }
{
    let Answer::Acked(_, sack) = reply else {
        return Ok(0);
    };
    let out = near.step(Use::Sends(Sending::Sack {
        cack: sack.cack,
        block: sack.block,
    }));
    match out.answer? {
        Answer::Retired(report) => Ok(report.newly),
        _ => Ok(0),
    }
}

// A start with rooms of 64, and the first packet number each way.
fn opening(send: u32, receive: u32) -> Start {
    Start {
        sending: Opening {
            room: 64,
            first: Psn(send),
        },
        receiving: Opening {
            room: 64,
            first: Psn(receive),
        },
        options: Options {},
    }
}

// One card sends, and the other receives.
fn exchange() -> Result<u32, Refusal> {
    let near = Connection::start(opening(10, 900)).next;
    let far = Connection::start(opening(900, 10)).next;
    let sent = near.step(Use::Sends(Sending::Send { size: 100 }));
    let Answer::Sent(psn) = sent.answer? else {
        return Ok(0);
    };
    let arrived = far.step(Use::Receives(Arrival {
        psn,
        size: 100,
        flags: 0,
        entropy: 7,
    }));
    heard(sent.next, arrived.answer?)
}

fn main() {
    if exchange() == Ok(1) {
        io::write_all(1, b"one packet retired\n");
    }
}
