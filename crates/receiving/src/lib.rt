// The receiving side over lent words. They hold the packet numbers from E's own block of 64 on: bit b of word j is number 64 j + b of that block and
// those after it. All before E are accepted, so their bits are set; no bit past the window is.
#![tactic(auto)]

ghost use Rattle.std.specs.Prelude.{◌≡◌};
ghost use Rattle.rules.specs.Receiver.{nack_of, reason_of, sack_of, verdict};
ghost use Rattle.rules.specs.declared.Verdict.TheVariants.{Fresh};
ghost use Rattle.receiving.specs.Lent.{lent, meaning, Started, Sound, Accepts, Acks, Arrives};

use psn::{HALF, Psn, TURN};
use rules::{
    Answer, Arrival, Block, ECN, NO_BUFFER, Nack, RTX, Refusal, Sack, Stepped, TRIMMED,
    TRIMMED_LAST_HOP, Verdict,
};

// A receiver but for its words.
#[derive(Clone, Copy)]
pub struct Head {
    pub room: u32,
    pub expected: Psn,
    pub count: u32,
}

// A NACK's reason, as a sender takes it: 0 where a SACK is sent.
#[tactic(auto, unfolding(rules::specs::Receiver::reason_of))]
fn reason(v: Verdict) -> u8
    ensures { result ≡ reason_of v }
{
    match v {
        Verdict::Fresh | Verdict::Known => 0,
        Verdict::Beyond => 3,
        Verdict::NoBuffer => 4,
        Verdict::Trim => 1,
        Verdict::TrimLastHop => 2,
    }
}

#[tactic(auto, unfolding(rules::specs::Receiver::nack_of))]
fn nack(v: Verdict, a: Arrival) -> Nack
    ensures { result ≡ nack_of v a }
{
    Nack {
        psn: a.psn,
        reason: reason(v),
        entropy: a.entropy,
        rtx: allowed::flag(a.flags, RTX),
    }
}

impl Head {
    // How an arrival is judged.
    #[tactic(auto, using(crate::proofs::Entries::judging))]
    fn judge(&self, words: &[u64], a: Arrival) -> Verdict
        requires { Started (lent self.now words.now) }
        ensures { result ≡ verdict (meaning (lent self.now words.now)) a }
    {
        let flags = a.flags;
        if allowed::flag(flags, TRIMMED) {
            return Verdict::Trim;
        }
        if allowed::flag(flags, TRIMMED_LAST_HOP) {
            return Verdict::TrimLastHop;
        }
        let d = self.expected.distance(a.psn);
        if HALF <= d {
            return Verdict::Known;
        }
        if self.room <= d {
            return Verdict::Beyond;
        }
        if row::test(words, self.expected.0 % 64 + d) {
            return Verdict::Known;
        }
        if allowed::flag(flags, NO_BUFFER) {
            return Verdict::NoBuffer;
        }
        Verdict::Fresh
    }

    // A fresh packet is accepted, and E moves to the first that is not. By value, as `acked` is: in place an arrival takes a tenth longer.
    fn accept(self, words: &mut [u64], a: Arrival) -> Head
        requires { Started (lent self words.old) × (verdict (meaning (lent self words.old)) a ≡ Fresh) }
        ensures { Accepts (lent self words.old) a (lent result words.new) }
    {
        let room = self.room;
        let expected = self.expected;
        let s = expected.0 % 64;
        let d = expected.distance(a.psn);
        row::set(words, s + d);
        let t = row::run_from(words, s, d == 0, s + room);
        row::shed(words, (t / 64) as usize);
        Head {
            room,
            expected: expected.after(t - s),
            count: self.count,
        }
    }

    // The reply to a packet that is fresh or known, from the record after it.
    fn sack(&self, words: &[u64], a: Arrival) -> Sack
        requires { Started (lent self.now words.now) }
        ensures { result ≡ sack_of (meaning (lent self.now words.now)) a }
    {
        let expected = self.expected;
        let d = expected.distance(a.psn);
        let o = if d < self.room { 64 * (d / 64) } else { 0 };
        Sack {
            cack: expected.after(TURN - 1),
            block: Block {
                base: expected.after(o),
                bitmap: row::block(words, expected.0 % 64 + o),
            },
            count: self.count / 256,
            mpr: 0,
            entropy: a.entropy,
            rtx: allowed::flag(a.flags, RTX),
            mark: allowed::flag(a.flags, ECN),
        }
    }

    // A packet that was just accepted, or is known: its size is counted, and a SACK answers it.
    fn acked(self, words: &[u64], v: Verdict, a: Arrival) -> Stepped<Head>
        requires { Started (lent self words.now) }
        ensures { Acks (lent self words.now) v a result.answer result.next }
    {
        let next = Head {
            room: self.room,
            expected: self.expected,
            count: self.count.wrapping_add(a.size as u32),
        };
        Stepped {
            answer: Ok(Answer::Acked(v, next.sack(words, a))),
            next,
        }
    }

    // An arrival, over lent words.
    pub fn arrive(&mut self, words: &mut [u64], a: Arrival) -> Result<Answer, Refusal>
        requires { Sound (lent self.old words.old) }
        ensures { Arrives (lent self.old words.old) a result self.new words.new }
    {
        let head = *self;
        Refusal::NotInUse.unless(head.room != 0)?;
        Refusal::BadPsn.unless(allowed::psn_ok(a.psn))?;
        Refusal::BadSize.unless(allowed::size_ok(a.size))?;
        Refusal::BadFlags.unless(allowed::flags_ok(a.flags))?;
        let v = head.judge(words, a);
        match v {
            Verdict::Fresh => {
                let out = head.accept(words, a).acked(words, v, a);
                *self = out.next;
                out.answer
            }
            Verdict::Known => {
                let out = head.acked(words, v, a);
                *self = out.next;
                out.answer
            }
            _ => Ok(Answer::Nacked(v, nack(v, a))),
        }
    }
}
