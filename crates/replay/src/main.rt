// Replays a log from standard input: a line for each record, then what ends the log. A read that fails counts as the end of the input.
#![tactic(auto)]

ghost use Rattle.std.specs.Prelude.{◌≡◌, ◌+◌, ◌≤◌, length};
ghost use Rattle.rules.specs.Numbers.{longest_log};
ghost use Rattle.rules.specs.Replay.{replay as replay_of};
ghost use Rattle.text.specs.Text.{text_of};

use lines::Page;
use player::State;
use rules::LONGEST_LOG;

// The longest log and one byte more, so that a longer one is seen.
const INPUT: usize = LONGEST_LOG + 1;

// Room for the text between two writes.
const TEXT: usize = 65_536;

// Writes bytes, and answers how many they are.
fn print(bytes: &[u8]) -> usize
    ensures { result ≡ length bytes.now }
{
    io::write_all(1, bytes);
    bytes.len()
}

// Writes the head, then piece after piece, each as it is made, until the last line. Answers how many bytes it wrote.
fn write(log: &[u8]) -> usize
    requires { length log.now ≤ longest_log + 1 }
    ensures { result ≡ length (text_of (replay_of log.now)) }
{
    let mut out = [0u8; TEXT];
    let mut page = Page {
        bytes: &mut out,
        at: 0,
    };
    text::head(&mut page);
    let mut at = page.at;
    let mut state = State::begin();
    let mut total: usize = 0;
    // A loop: how many pieces there are, only the last one tells.
    loop {
        let piece = state.fill(log, &mut out, at);
        total += print(&out[..piece.length]);
        if !piece.more {
            return total;
        }
        at = 0;
    }
}

fn main() {
    let mut buffer = [0u8; INPUT];
    let n = io::read_full(0, &mut buffer);
    write(&buffer[..n]);
}
