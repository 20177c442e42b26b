// A row of 64-bit words, any number of them, by its bits. A bit past the end reads clear and is not written.
#![tactic(auto)]

ghost use Rattle.std.specs.Prelude.{◌≡◌, true, ℕ, ◌+◌, ◌-◌, ◌*◌, ◌/◌, ◌≤◌, ◌<◌, length, get_or, slice_set};
ghost use Rattle.lists.specs.Index.{First};
ghost use Rattle.word.specs.Word.{Bits, in_range};
ghost use Rattle.row.specs.Row.{at as bit_of, Becomes, with_bit, without_bit, is_clear};

// Word j, 0 past the end.
pub fn word_at(ws: &[u64], j: usize) -> u64
    ensures { result ≡ get_or ws.now j 0 }
{
    ws.get(j).copied().unwrap_or(0)
}

// Whether bit p is set.
#[tactic(auto, unfolding(crate::specs::Row::at))]
pub fn test(ws: &[u64], p: u32) -> bool
    ensures { result ≡ bit_of ws.now p }
{
    let j = (p / 64) as usize;
    word::test(word_at(ws, j), p)
}

// Bit p is set.
pub fn set(ws: &mut [u64], p: u32)
    ensures { Becomes ws.old ws.new (with_bit ws.old p) }
{
    change(ws, p, |w| word::set(w, p));
}

// Bit p is cleared.
pub fn clear(ws: &mut [u64], p: u32)
    ensures { Becomes ws.old ws.new (without_bit ws.old p) }
{
    change(ws, p, |w| word::clear(w, p));
}

// The word of bit p, if the row has one, becomes what f makes of it. By index: through `get_mut` of a slice no element would be known afterwards.
fn change<F: FnOnce(u64) -> u64>(ws: &mut [u64], p: u32, f: F)
    requires { F.IsAlwaysCallable f }
    ensures within { p / 64 < length ws.old → (v : ℕ) × F.post f (get_or ws.old (p / 64) 0) v × (ws.new ≡ slice_set ws.old (p / 64) v) }
    ensures past { length ws.old ≤ p / 64 → ws.new ≡ ws.old }
{
    let j = (p / 64) as usize;
    if j < ws.len() {
        ws[j] = f(ws[j]);
    }
}

// Word j of the row whose bits from a up to, and not with, b are set, and no others.
pub fn range(j: u32, a: u32, b: u32) -> u64
    ensures { Bits result (λ i. in_range a b (64 * j + i)) }
{
    word::range(from_word(j, a), from_word(j, b))
}

// How far a lies past the first bit of word j: 0 where it does not. As `a.saturating_sub(j.saturating_mul(64))` a late SACK is a fifth slower.
fn from_word(j: u32, a: u32) -> u32
    ensures { result ≡ a - 64 * j }
{
    if a / 64 < j {
        return 0;
    }
    a - 64 * j
}

// The 64 bits from bit p on.
#[tactic(auto, using(crate::proofs::Rows::at_two))]
pub fn block(ws: &[u64], p: u32) -> u64
    ensures { Bits result (λ i. bit_of ws.now (p + i)) }
{
    let j = (p / 64) as usize;
    word::across(word_at(ws, j), word_at(ws, j + 1), p)
}

// How many set bits stand below the lowest clear one, n at the most. Whole words of them are stepped over. As a `for` over the words an arrival is
// up to a tenth slower.
pub fn run(ws: &[u64], n: u32) -> u32
    ensures { First (is_clear ws.now) n result }
{
    let mut p: u32 = 0;
    loop {
        let t = word::lowest(!word_at(ws, (p / 64) as usize));
        if n - p <= t {
            return n;
        }
        if t < 64 {
            return p + t;
        }
        p += 64;
    }
}

// The same, n at the most, of a row whose bits below s are all set, and s itself just where own says. Mostly s or the next one is clear, and a test
// that is foreseen costs less than a count that must be waited for.
pub fn run_from(ws: &[u64], s: u32, own: bool, n: u32) -> u32
    requires { (s ≤ n) × ((p : ℕ) → p < s → bit_of ws.now p ≡ true) × (bit_of ws.now s ≡ own) }
    ensures { First (is_clear ws.now) n result }
{
    if !own {
        return s;
    }
    if n <= s {
        return n;
    }
    if !test(ws, s + 1) {
        return s + 1;
    }
    run(ws, n)
}

// The q lowest words go, and the others move down. Where none goes, nothing is touched. By `copy_within` and `fill` a SACK by value takes twice as
// long.
pub fn shed(ws: &mut [u64], q: usize)
    ensures { Becomes ws.old ws.new (λ p. bit_of ws.old (64 * q + p)) }
{
    if q == 0 {
        return;
    }
    let n = ws.len();
    for i in 0..n {
        if q < n - i {
            ws[i] = ws[q + i];
        } else {
            ws[i] = 0;
        }
    }
}
