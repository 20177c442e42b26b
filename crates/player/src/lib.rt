// The replay of a log, piece by piece: one record after the other, from empty slots on, and their lines in a buffer that the caller lends.
#![tactic(auto)]

ghost use Rattle.std.specs.Prelude.{◌≡◌};
ghost use Rattle.player.specs.Play.{begin as begin_of, Sound};
ghost use Rattle.player.specs.Piece.{Pieces};

use connection::Connection;
use lines::Page;
use rules::PROGRAM_SLOTS;
use text::LINE;

// Where a replay stands: the slots, the place in the log, the records read.
#[derive(Clone, Copy)]
pub struct State {
    pub slots: [Connection; PROGRAM_SLOTS],
    pub place: usize,
    pub count: usize,
}

// A piece of the text: how many bytes of the buffer it takes, and whether more follows.
#[derive(Clone, Copy)]
pub struct Piece {
    pub length: usize,
    pub more: bool,
}

impl State {
    // Every slot is empty, and nothing is read.
    pub fn begin() -> State
        ensures { result ≡ begin_of }
    {
        State {
            slots: [Connection::empty(); PROGRAM_SLOTS],
            place: 0,
            count: 0,
        }
    }

    // Fills the buffer from an index on: whole lines, record after record, for as long as another surely fits.
    pub fn fill(&mut self, log: &[u8], out: &mut [u8], from: usize) -> Piece
        requires { Sound self.old }
        ensures { Pieces log.now self.old from out.old result self.new out.new }
    {
        let at = from.min(out.len());
        let mut page = Page { bytes: out, at };
        // A `while`: how many records there is room for, their own text tells.
        while LINE <= page.bytes.len() - page.at {
            let stop = match event_log::read(log, self.place) {
                Ok(Some(record)) => {
                    let reply = table::event(&mut self.slots, record.slot as usize, record.event);
                    text::push_line(&mut page, record.kind.number(), reply);
                    self.place = record.next;
                    self.count += 1;
                    continue;
                }
                Ok(None) => 0,
                Err(refusal) => refusal.number(),
            };
            text::push_last(&mut page, stop, self.place, self.count);
            return Piece {
                length: page.at,
                more: false,
            };
        }
        Piece {
            length: page.at,
            more: true,
        }
    }
}
