// What a reply is on paper: its number, and the values that its line shows.
#![tactic(auto)]

ghost use Rattle.std.specs.Prelude.{◌≡◌, ◌≤◌, [], length};
ghost use Rattle.rules.specs.Paper.{code as code_of};
ghost use Rattle.paper.specs.Shown.{most, filled, shown};

use rules::{Answer, Refusal, Verdict};

// The most values that a line has.
pub const VALUES: usize = 8;

// The number of a reply and the values that its line shows: the first `many`, in an array, since nothing is allocated. The others are 0.
#[derive(Drop)]
pub struct Shown {
    pub number: u8,
    pub many: usize,
    pub values: [u64; VALUES],
}

// The arrival answer. Case by case, and not by a verdict's place among its kind: the numbers are document 01's.
#[tactic(auto, unfolding(rules::specs::Paper::code))]
pub fn code(v: Verdict) -> u64
    ensures { result ≡ code_of v }
{
    match v {
        Verdict::Fresh => 0,
        Verdict::Known => 1,
        Verdict::Beyond => 2,
        Verdict::NoBuffer => 3,
        Verdict::Trim => 4,
        Verdict::TrimLastHop => 5,
    }
}

// A line of a number and values.
fn told(number: u8, values: &[u64]) -> Shown
    requires { length values.now ≤ most }
    ensures { result ≡ filled number values.now }
{
    let mut all = [0; VALUES];
    all[..values.len()].copy_from_slice(values);
    Shown {
        number,
        many: values.len(),
        values: all,
    }
}

// What the line of a refusal shows, by the refusal's number: there are 1 to 17, and the promise is for any.
pub fn refused(number: u8) -> Shown
    ensures { result ≡ filled number [] }
{
    told(number, &[])
}

// What a reply's line shows.
#[tactic(auto, unfolding(rules::specs::Paper::paper, promise::specs::Promise::told))]
pub fn line_of(reply: Result<Answer, Refusal>) -> Shown
    ensures { result ≡ shown reply }
{
    match reply {
        Err(refusal) => refused(refusal.number()),
        Ok(Answer::Started | Answer::Closed) => told(0, &[]),
        Ok(Answer::Sent(p) | Answer::Resent(p)) => told(0, &[p.0 as u64]),
        Ok(Answer::Acked(v, k)) => told(
            0,
            &[
                code(v),
                k.cack.0 as u64,
                k.block.base.0 as u64,
                k.block.bitmap,
                k.count as u64,
                k.entropy as u64,
                k.rtx as u64,
                k.mark as u64,
            ],
        ),
        Ok(Answer::Nacked(v, k)) => told(
            0,
            &[code(v), k.psn.0 as u64, k.entropy as u64, k.rtx as u64],
        ),
        Ok(Answer::Retired(k)) => told(
            0,
            &[
                k.newly as u64,
                k.place.0 as u64,
                k.held as u64,
                k.alarms as u64,
            ],
        ),
        Ok(Answer::Marked(n) | Answer::Expired(n)) => told(0, &[n as u64]),
    }
}
