// What goes by kind in the event log: an event's kind and fields, how wide they are, and the event that they make. Nothing else does.
#![tactic(auto)]

ghost use Rattle.std.specs.Prelude.{◌≡◌};
ghost use Rattle.rules.specs.Kinds.{kind_of, fields_of, event_of, layout as layout_of, width as width_of, widths as widths_of};
ghost use Rattle.rules.specs.Log.{high_cell, high_psn};
ghost use Rattle.rules.specs.Numbered.{kind_number};
ghost use Rattle.kinds.specs.Padded.{padded, padded_cells, FitsAll};

use psn::{Psn, TURN};
use rules::{Arrival, Block, Cell, Event, Kind, Opening, Options, Sending, Start, Use};

// The most fields that a kind has: arrays have that many, since nothing is allocated. A field that a kind does not have is of no bits, and 0.
pub const FIELDS: usize = 4;

// A kind's fields.
#[tactic(auto, unfolding(crate::specs::Padded::padded_cells, lists::specs::Index::table, rules::specs::Numbered::kind_number, rules::specs::Kinds::layouts, rules::specs::Kinds::layout))]
fn layout(kind: Kind) -> [Cell; FIELDS]
    ensures { result ≡ padded_cells (layout_of (kind_number kind)) }
{
    match kind {
        Kind::Start => [Cell::Bits(16), Cell::Psn, Cell::Bits(16), Cell::Psn],
        Kind::Send => [Cell::Bits(16), Cell::Bits(0), Cell::Bits(0), Cell::Bits(0)],
        Kind::Arrive => [Cell::Psn, Cell::Bits(16), Cell::Bits(8), Cell::Bits(32)],
        Kind::Sack => [Cell::Psn, Cell::Psn, Cell::Bits(64), Cell::Bits(0)],
        Kind::Nack => [Cell::Psn, Cell::Bits(8), Cell::Bits(0), Cell::Bits(0)],
        Kind::Timer => [Cell::Psn, Cell::Bits(0), Cell::Bits(0), Cell::Bits(0)],
        Kind::Close | Kind::Resend => [Cell::Bits(0); FIELDS],
    }
}

// How many bits a field has in a record.
#[tactic(auto, unfolding(rules::specs::Kinds::width))]
fn width(cell: Cell) -> u8
    ensures { result ≡ width_of cell }
{
    match cell {
        Cell::Psn => 24,
        Cell::Bits(n) => n,
    }
}

// The widths of the fields of the kind with this number. There is none but 1 to 8; by number, since the promise is for any.
#[tactic(auto, unfolding(crate::specs::Padded::padded, lists::specs::Index::table, rules::specs::Kinds::layouts, rules::specs::Kinds::layout, rules::specs::Kinds::widths))]
pub fn widths(kind: u8) -> [u8; FIELDS]
    ensures { result ≡ padded (widths_of kind) }
{
    match Kind::try_from(kind) {
        Ok(kind) => layout(kind).map(width),
        Err(_) => [0; FIELDS],
    }
}

// An event's kind. No `From`, since both types are those of `rules`.
#[tactic(auto, unfolding(rules::specs::Numbered::kind_number, rules::specs::Kinds::kind_of))]
pub fn kind(event: Event) -> Kind
    ensures { kind_number result ≡ kind_of event }
{
    match event {
        Event::Start(_) => Kind::Start,
        Event::Use(Use::Close) => Kind::Close,
        Event::Use(Use::Receives(_)) => Kind::Arrive,
        Event::Use(Use::Sends(Sending::Send { .. })) => Kind::Send,
        Event::Use(Use::Sends(Sending::Sack { .. })) => Kind::Sack,
        Event::Use(Use::Sends(Sending::Nack { .. })) => Kind::Nack,
        Event::Use(Use::Sends(Sending::Timer { .. })) => Kind::Timer,
        Event::Use(Use::Sends(Sending::Resend)) => Kind::Resend,
    }
}

// An event's fields in their order.
#[tactic(auto, unfolding(crate::specs::Padded::padded, lists::specs::Index::table, rules::specs::Kinds::fields_of))]
pub fn values(event: Event) -> [u64; FIELDS]
    ensures { result ≡ padded (fields_of event) }
{
    match event {
        Event::Start(s) => [
            s.sending.room as u64,
            s.sending.first.0 as u64,
            s.receiving.room as u64,
            s.receiving.first.0 as u64,
        ],
        Event::Use(Use::Receives(a)) => [
            a.psn.0 as u64,
            a.size as u64,
            a.flags as u64,
            a.entropy as u64,
        ],
        Event::Use(Use::Sends(Sending::Send { size })) => [size as u64, 0, 0, 0],
        Event::Use(Use::Sends(Sending::Sack { cack, block })) => [
            cack.0 as u64,
            block.base.0 as u64,
            block.bitmap,
            0,
        ],
        Event::Use(Use::Sends(Sending::Nack { psn, reason })) => [
            psn.0 as u64,
            reason as u64,
            0,
            0,
        ],
        Event::Use(Use::Sends(Sending::Timer { psn })) => [psn.0 as u64, 0, 0, 0],
        Event::Use(Use::Close | Use::Sends(Sending::Resend)) => [0; FIELDS],
    }
}

// The event of a kind with these fields.
#[tactic(auto, unfolding(rules::specs::Numbered::kind_number, rules::specs::Kinds::event_of, rules::specs::Kinds::layouts, rules::specs::Kinds::layout, rules::specs::Kinds::width, rules::specs::Kinds::widths))]
pub fn event(kind: Kind, v: [u64; FIELDS]) -> Event
    requires { FitsAll (widths_of (kind_number kind)) v }
    ensures { result ≡ event_of (kind_number kind) v }
{
    match kind {
        Kind::Start => Event::Start(Start {
            sending: Opening {
                room: v[0] as u16,
                first: Psn(v[1] as u32),
            },
            receiving: Opening {
                room: v[2] as u16,
                first: Psn(v[3] as u32),
            },
            options: Options {},
        }),
        Kind::Close => Event::Use(Use::Close),
        Kind::Send => Event::Use(Use::Sends(Sending::Send { size: v[0] as u16 })),
        Kind::Arrive => Event::Use(Use::Receives(Arrival {
            psn: Psn(v[0] as u32),
            size: v[1] as u16,
            flags: v[2] as u8,
            entropy: v[3] as u32,
        })),
        Kind::Sack => Event::Use(Use::Sends(Sending::Sack {
            cack: Psn(v[0] as u32),
            block: Block {
                base: Psn(v[1] as u32),
                bitmap: v[2],
            },
        })),
        Kind::Nack => Event::Use(Use::Sends(Sending::Nack {
            psn: Psn(v[0] as u32),
            reason: v[1] as u8,
        })),
        Kind::Timer => Event::Use(Use::Sends(Sending::Timer {
            psn: Psn(v[0] as u32),
        })),
        Kind::Resend => Event::Use(Use::Sends(Sending::Resend)),
    }
}

// Whether a field is a packet number above 16,777,215.
#[tactic(auto, unfolding(rules::specs::Log::high_cell))]
fn is_high(cell: Cell, v: u64) -> bool
    ensures { result ≡ high_cell cell v }
{
    match cell {
        Cell::Psn => TURN as u64 <= v,
        Cell::Bits(_) => false,
    }
}

// Whether one of an event's packet numbers is above 16,777,215.
pub fn high(event: Event) -> bool
    ensures { result ≡ high_psn (layout_of (kind_of event)) (fields_of event) }
{
    let cells = layout(kind(event));
    let values = values(event);
    cells
        .iter()
        .zip(&values)
        .any(|(cell, v)| is_high(*cell, *v))
}
