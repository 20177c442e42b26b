// The lent table of connections. An event copies one slot, has it answered by value and stores it back.
#![tactic(auto)]

ghost use Rattle.std.specs.Prelude.{◌≡◌, length, replicate};
ghost use Rattle.rules.specs.Table.{in_slot as in_slot_of};
ghost use Rattle.connection.specs.Record.{empty as empty_of, meaning as meaning_of, Sound, Steps};
ghost use Rattle.table.specs.Slots.{AllSound, On};

use connection::Connection;
use rules::{Answer, Event, Refusal, SLOTS, Stepped};

// An event on the record of a slot, by value: a start only where it is not in use.
pub fn in_slot(c: Connection, event: Event) -> Stepped<Connection>
    requires { Sound c }
    ensures { Steps c (in_slot_of (meaning_of c) event) result.answer result.next }
{
    match event {
        Event::Start(opening) => {
            if c.in_use() {
                return Stepped {
                    answer: Err(Refusal::InUse),
                    next: c,
                };
            }
            Connection::start(opening)
        }
        Event::Use(u) => c.step(u),
    }
}

// An event on a slot of a lent table: the slot is copied, answered by value and stored back.
pub fn event(table: &mut [Connection], slot: usize, event: Event) -> Result<Answer, Refusal>
    requires { AllSound table.old }
    ensures { On table.old slot event result table.new }
{
    Refusal::NoSuchSlot.unless(slot < SLOTS)?;
    Refusal::NoSuchSlot.unless(slot < table.len())?;
    let Stepped { answer, next } = in_slot(table[slot], event);
    table[slot] = next;
    answer
}

// Every slot lent is emptied.
pub fn empty_all(table: &mut [Connection])
    ensures { table.new ≡ replicate (length table.old) empty_of }
{
    table.fill(Connection::empty());
}
