// What a SACK says, and what it does to lent rows of words: bit p of a row is the packet number p after the row's first.
#![tactic(auto)]

ghost use Rattle.std.specs.Prelude.{◌≡◌, ◌+◌, ◌*◌, ◌%◌, ◌≤◌, ◌<◌, length};
ghost use Rattle.psn.specs.Psn.{turn};
ghost use Rattle.lists.specs.Index.{weigh};
ghost use Rattle.word.specs.Word.{bit_at, Bits};
ghost use Rattle.row.specs.Row.{longest};
ghost use Rattle.rules.specs.Numbers.{largest_room};
ghost use Rattle.rules.specs.Sender.{Sender, unsent as unsent_of};
ghost use Rattle.rules.specs.Retire.{contradicts as contradicts_of, names_unsent};
ghost use Rattle.retire.specs.Rows.{added, ahead, in_word, named_by_block, names, size_by, Alike, Fits, OneRetired, Retires};
ghost use Rattle.retire.specs.Front.{named_by, Stands, Ready, Moves};

use psn::{HALF, Psn, TURN};
use rules::{Block, LARGEST_ROOM};
use std::ops::AddAssign;

// The bits of a block whose packet numbers lie n or more ahead of a number, and not behind it: the block begins o after that number.
fn bits_ahead(o: u32, n: u32) -> u64
    ensures { Bits result (λ j. ahead n ((o + j) % turn)) }
{
    if HALF <= n {
        return 0;
    }
    let at = o % TURN;
    if at < HALF {
        word::range(n.saturating_sub(at), HALF - at)
    } else {
        word::range(TURN - at + n, 64)
    }
}

// Whether a SACK has a set bit for its cack + 1, for its cack or for a packet number behind it.
pub fn contradicts(cack: Psn, block: Block) -> bool
    ensures { result ≡ contradicts_of cack.0 block }
{
    if block.bitmap == 0 {
        return false;
    }
    let o = cack.distance(block.base);
    word::without(block.bitmap, bits_ahead(o, 2)) != 0
}

// Whether a packet number is neither one of the n that are outstanding after the place nor behind place + 1.
pub fn unsent(place: Psn, n: u32, psn: Psn) -> bool
    ensures { (x : Sender) → Stands x place.0 n → result ≡ unsent_of x psn.0 }
{
    let i = place.after(1).distance(psn);
    n <= i && i < HALF
}

// Whether a SACK names an unsent packet number.
pub fn names_unsent(place: Psn, n: u32, cack: Psn, block: Block) -> bool
    ensures { (x : Sender) → Stands x place.0 n → result ≡ names_unsent x cack.0 block }
{
    let d = place.distance(cack);
    if n < d && d < HALF {
        return true;
    }
    if block.bitmap == 0 {
        return false;
    }
    let o = place.after(1).distance(block.base);
    (block.bitmap & bits_ahead(o, n)) != 0
}

// The sizes of a word's set bits added up, each looked at once; first is the packet number of its lowest bit. A `while`, since `word` has no iterator
// over set bits.
fn bytes(sizes: &[u16], first: Psn, word: u64) -> u32
    requires { length sizes.now ≡ largest_room }
    ensures { result ≡ weigh 64 (bit_at word) (size_by sizes.now first.0) }
{
    let start = first.0 % LARGEST_ROOM;
    let mut left = word;
    let mut sum: u32 = 0;
    while left != 0 {
        let k = ((start + word::lowest(left)) % LARGEST_ROOM) as usize;
        sum += sizes[k] as u32;
        left = word::without_lowest(left);
    }
    sum
}

// One word after a SACK: its retired bits, its marked bits, what is newly retired, how many, and how many of them were marked.
#[derive(Drop)]
pub struct Retired {
    pub retired: u64,
    pub marked: u64,
    pub fresh: u64,
    pub newly: u32,
    pub alarms: u32,
}

// One word is retired: named has the bits that the SACK names.
fn one(retired: u64, marked: u64, named: u64) -> Retired
    ensures { OneRetired retired marked named result }
{
    let fresh = word::without(named, retired);
    Retired {
        retired: retired | named,
        marked: word::without(marked, named),
        fresh,
        newly: word::ones(fresh),
        alarms: word::ones(fresh & marked),
    }
}

// How many packets are newly retired, how many of them were marked, and their bytes.
#[derive(Default, Drop)]
pub struct Sum {
    pub newly: u32,
    pub alarms: u32,
    pub bytes: u32,
}

// Two counts together.
impl AddAssign for Sum {
    ghost can_add_assign = { λ a b. Fits (added a b) };

    ghost add_assign_gives = { λ a b r. r ≡ added a b };

    fn add_assign(&mut self, other: Sum) {
        self.newly += other.newly;
        self.alarms += other.alarms;
        self.bytes += other.bytes;
    }
}

// What a SACK names in word j is retired. Past the rows' end there is nothing. The slices go singly, here and below: in a struct that holds them all
// they go through memory, and a late SACK takes a fifth longer.
fn in_word(
    retired: &mut [u64],
    marked: &mut [u64],
    sizes: &[u16],
    first: Psn,
    j: usize,
    named: u64,
) -> Sum
    requires { Alike retired.old marked.old sizes.now }
    ensures { Retires retired.old marked.old sizes.now first.0 (in_word j named)
        retired.new marked.new result }
{
    if retired.len() <= j {
        return Sum::default();
    }
    let out = one(retired[j], marked[j], named);
    retired[j] = out.retired;
    marked[j] = out.marked;
    Sum {
        newly: out.newly,
        alarms: out.alarms,
        bytes: bytes(sizes, first.after(64 * (j as u32)), out.fresh),
    }
}

// What a block names is retired. It lies in two words, and past the circle's end the second is the row's first.
fn by_block(retired: &mut [u64], marked: &mut [u64], sizes: &[u16], first: Psn, block: Block) -> Sum
    requires { Alike retired.old marked.old sizes.now }
    ensures { Retires retired.old marked.old sizes.now first.0 (named_by_block first.0 block)
        retired.new marked.new result }
{
    let bitmap = block.bitmap;
    if bitmap == 0 {
        return Sum::default();
    }
    let o = first.distance(block.base);
    let mut sum = in_word(
        retired,
        marked,
        sizes,
        first,
        (o / 64) as usize,
        bitmap << (o % 64),
    );
    let rest = (bitmap >> 1) >> (63 - o % 64);
    if rest != 0 {
        sum += in_word(
            retired,
            marked,
            sizes,
            first,
            ((o / 64 + 1) % (TURN / 64)) as usize,
            rest,
        );
    }
    sum
}

// All that a SACK names is retired: in the words from the rows' first to cack's, and in those of its block.
fn retire(
    retired: &mut [u64],
    marked: &mut [u64],
    sizes: &[u16],
    first: Psn,
    upto: u32,
    block: Block,
) -> Sum
    requires { Alike retired.old marked.old sizes.now × (upto ≤ 64 * longest) }
    ensures { Retires retired.old marked.old sizes.now first.0 (names first.0 upto block)
        retired.new marked.new result }
{
    let mut sum = Sum::default();
    for j in 0..upto.div_ceil(64) {
        sum += in_word(
            retired,
            marked,
            sizes,
            first,
            j as usize,
            row::range(j, 0, upto),
        );
    }
    sum += by_block(retired, marked, sizes, first, block);
    sum
}

// What is counted of the newly retired, and how far the place moves.
#[derive(Default, Drop)]
pub struct Moved {
    pub sum: Sum,
    pub by: u32,
}

// The rows begin at place + 1's own block of 64, and n are outstanding. All that a SACK names is retired, and where the place moves into
// another block of 64, the words before that go. A SACK without a bit whose cack is none of the n names nothing that is not retired.
pub fn acknowledge(
    retired: &mut [u64],
    marked: &mut [u64],
    sizes: &[u16],
    place: Psn,
    n: u32,
    cack: Psn,
    block: Block,
) -> Moved
    requires { Ready retired.old marked.old sizes.now place.0 n }
    ensures { Moves retired.old marked.old sizes.now place.0 n (named_by place.0 n cack.0 block)
        retired.new marked.new result }
{
    let s = (place.0 + 1) % 64;
    let ahead = place.after(1).distance(cack);
    let upto = if ahead < n { s + 1 + ahead } else { 0 };
    if upto == 0 && block.bitmap == 0 {
        return Moved::default();
    }
    let sum = retire(
        retired,
        marked,
        sizes,
        place.after(TURN + 1 - s),
        upto,
        block,
    );
    let t = row::run_from(retired, s, row::test(retired, s), s + n);
    row::shed(retired, (t / 64) as usize);
    row::shed(marked, (t / 64) as usize);
    Moved { sum, by: t - s }
}
