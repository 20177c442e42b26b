// The sending side over lent rows. Words hold the packet numbers from place + 1's own block of 64 on: bit b of word j is number 64 j + b of that
// block and those after it. All up to the place are retired, so their bits are set in that row. The sizes stand by packet number modulo the largest
// room. The rows go singly: in a struct that holds them all they go through memory, and a late SACK takes a fifth longer.
#![tactic(auto)]

ghost use Rattle.std.specs.Prelude.{◌≡◌, false};
ghost use Rattle.rules.specs.Retire.{names_unsent};
ghost use Rattle.sending.specs.Lent.{lent, meaning, Started, Sound, Steps, Acknowledges};

use psn::Psn;
use rules::{Answer, Block, LARGEST_ROOM, Refusal, Report, Sending};

// A sender but for its rows.
#[derive(Clone, Copy)]
pub struct Head {
    pub room: u32,
    pub place: Psn,
    pub outstanding: u32,
    pub held: u32,
}

impl Head {
    // A packet of this size is sent.
    pub fn send(
        &mut self,
        sizes: &mut [u16],
        retired: &[u64],
        marked: &[u64],
        size: u16,
    ) -> Result<Answer, Refusal>
        requires { Sound (lent self.old sizes.old retired.now marked.now) }
        ensures { Steps (lent self.old sizes.old retired.now marked.now) (Sending.Send size)
            result self.new sizes.new retired.now marked.now }
    {
        let n = self.outstanding;
        Refusal::NotInUse.unless(self.room != 0)?;
        Refusal::BadSize.unless(allowed::size_ok(size))?;
        Refusal::RoomFull.unless(n < self.room)?;
        let at = ((self.place.0 + 1 + n) % LARGEST_ROOM) as usize;
        sizes[at] = size;
        self.outstanding = n + 1;
        self.held += size as u32;
        Ok(Answer::Sent(self.place.after(1 + n)))
    }

    // A timer ran out for a packet number: it is marked if it is outstanding, not retired and not yet marked.
    pub fn timer(
        &mut self,
        sizes: &[u16],
        retired: &[u64],
        marked: &mut [u64],
        psn: Psn,
    ) -> Result<Answer, Refusal>
        requires { Sound (lent self.old sizes.now retired.now marked.old) }
        ensures { Steps (lent self.old sizes.now retired.now marked.old) (Sending.Timer psn)
            result self.new sizes.now retired.now marked.new }
    {
        Refusal::NotInUse.unless(self.room != 0)?;
        Refusal::BadPsn.unless(allowed::psn_ok(psn))?;
        Refusal::NeverSent.unless(!retire::unsent(self.place, self.outstanding, psn))?;
        let newly = marks::mark_psn(retired, marked, self.place, self.outstanding, psn);
        Ok(Answer::Expired(newly))
    }

    // A NACK for a packet number, with its reason: it is marked likewise, unless the reason is the host's.
    pub fn nack(
        &mut self,
        sizes: &[u16],
        retired: &[u64],
        marked: &mut [u64],
        psn: Psn,
        reason: u8,
    ) -> Result<Answer, Refusal>
        requires { Sound (lent self.old sizes.now retired.now marked.old) }
        ensures { Steps (lent self.old sizes.now retired.now marked.old) (Sending.Nack psn reason)
            result self.new sizes.now retired.now marked.new }
    {
        Refusal::NotInUse.unless(self.room != 0)?;
        Refusal::BadPsn.unless(allowed::psn_ok(psn))?;
        Refusal::BadReason.unless(allowed::reason_ok(reason))?;
        Refusal::NeverSent.unless(!retire::unsent(self.place, self.outstanding, psn))?;
        if 4 < reason {
            return Ok(Answer::Marked(0));
        }
        let newly = marks::mark_psn(retired, marked, self.place, self.outstanding, psn);
        Ok(Answer::Marked(newly))
    }

    // The marked packet number nearest after the place is handed out, and its mark cleared.
    pub fn resend(
        &mut self,
        sizes: &[u16],
        retired: &[u64],
        marked: &mut [u64],
    ) -> Result<Answer, Refusal>
        requires { Sound (lent self.old sizes.now retired.now marked.old) }
        ensures { Steps (lent self.old sizes.now retired.now marked.old) Sending.Resend
            result self.new sizes.now retired.now marked.new }
    {
        Refusal::NotInUse.unless(self.room != 0)?;
        let Some(psn) = marks::take(marked, self.place, self.outstanding) else {
            return Err(Refusal::NothingMarked);
        };
        Ok(Answer::Resent(psn))
    }

    // A SACK: judged whole before anything is retired.
    pub fn sack(
        &mut self,
        sizes: &[u16],
        retired: &mut [u64],
        marked: &mut [u64],
        cack: Psn,
        block: Block,
    ) -> Result<Answer, Refusal>
        requires { Sound (lent self.old sizes.now retired.old marked.old) }
        ensures { Steps (lent self.old sizes.now retired.old marked.old) (Sending.Sack cack block)
            result self.new sizes.now retired.new marked.new }
    {
        Refusal::NotInUse.unless(self.room != 0)?;
        Refusal::BadPsn.unless(allowed::psn_ok(cack))?;
        Refusal::BadPsn.unless(allowed::psn_ok(block.base))?;
        let unsent = retire::names_unsent(self.place, self.outstanding, cack, block);
        Refusal::Contradiction.unless(!retire::contradicts(cack, block))?;
        Refusal::NeverSent.unless(!unsent)?;
        Ok(self.acknowledge(sizes, retired, marked, cack, block))
    }

    // All that a SACK names is retired, and the place moves over the retired at the front.
    fn acknowledge(
        &mut self,
        sizes: &[u16],
        retired: &mut [u64],
        marked: &mut [u64],
        cack: Psn,
        block: Block,
    ) -> Answer
        requires { Started (lent self.old sizes.now retired.old marked.old)
            × (names_unsent (meaning (lent self.old sizes.now retired.old marked.old)) cack.0 block ≡ false) }
        ensures { Acknowledges (lent self.old sizes.now retired.old marked.old) cack.0 block
            result self.new retired.new marked.new }
    {
        let out = retire::acknowledge(
            retired,
            marked,
            sizes,
            self.place,
            self.outstanding,
            cack,
            block,
        );
        self.place = self.place.after(out.by);
        self.outstanding -= out.by;
        self.held -= out.sum.bytes;
        Answer::Retired(Report {
            newly: out.sum.newly,
            place: self.place,
            held: self.held,
            alarms: out.sum.alarms,
        })
    }

    // An event.
    pub fn step(
        &mut self,
        sizes: &mut [u16],
        retired: &mut [u64],
        marked: &mut [u64],
        event: Sending,
    ) -> Result<Answer, Refusal>
        requires { Sound (lent self.old sizes.old retired.old marked.old) }
        ensures { Steps (lent self.old sizes.old retired.old marked.old) event
            result self.new sizes.new retired.new marked.new }
    {
        match event {
            Sending::Send { size } => self.send(sizes, retired, marked, size),
            Sending::Sack { cack, block } => self.sack(sizes, retired, marked, cack, block),
            Sending::Nack { psn, reason } => self.nack(sizes, retired, marked, psn, reason),
            Sending::Timer { psn } => self.timer(sizes, retired, marked, psn),
            Sending::Resend => self.resend(sizes, retired, marked),
        }
    }
}
