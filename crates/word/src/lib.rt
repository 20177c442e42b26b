// One 64-bit word, by its bits. Every function takes any word and any number; a bit's index counts modulo 64.
#![tactic(auto)]

ghost use Rattle.std.specs.Prelude.{◌≡◌, not, ◌&&◌, ◌||◌, ℕ, ◌+◌, ◌%◌, ◌<◌, eqb, ltb};
ghost use Rattle.lists.specs.Index.{First, tally};
ghost use Rattle.word.specs.Word.{bit_at, Bits, in_range, bit_of_two, only_in};

// Whether bit i is set.
#[tactic(auto, unfolding(crate::specs::Word::bit_at))]
pub fn test(w: u64, i: u32) -> bool
    ensures { result ≡ bit_at w (i % 64) }
{
    (w >> (i % 64)) % 2 == 1
}

// The word with bit i set.
pub fn set(w: u64, i: u32) -> u64
    ensures { Bits result (λ k. bit_at w k || eqb k (i % 64)) }
{
    w | (1u64 << (i % 64))
}

// The word with bit i clear. One expression, as `set` is: there is nothing for the two to share.
pub fn clear(w: u64, i: u32) -> u64
    ensures { Bits result (λ k. bit_at w k && not (eqb k (i % 64))) }
{
    w & !(1u64 << (i % 64))
}

// The word whose bits below k are set, and no others.
pub fn low(k: u32) -> u64
    ensures { Bits result (λ i. ltb i k) }
{
    if 64 <= k {
        return u64::MAX;
    }
    (1u64 << k) - 1
}

// The word whose bits from a up to, and not with, b are set, and no others.
pub fn range(a: u32, b: u32) -> u64
    ensures { Bits result (in_range a b) }
{
    without(low(b), low(a))
}

// The bits of v that w has not.
pub fn without(v: u64, w: u64) -> u64
    ensures { Bits result (only_in v w) }
{
    v & !w
}

// The 64 bits of two words from bit s of the first on.
pub fn across(low: u64, high: u64, s: u32) -> u64
    ensures { Bits result (λ i. bit_of_two low high (s % 64 + i)) }
{
    let by = s % 64;
    if by == 0 {
        return low;
    }
    (low >> by) | (high << (64 - by))
}

// The index of the lowest set bit: 64 where none is set.
pub fn lowest(w: u64) -> u32
    ensures { First (bit_at w) 64 result }
{
    w.trailing_zeros()
}

// The word without its lowest set bit: 0 where none is set.
pub fn without_lowest(w: u64) -> u64
    ensures { (t : ℕ) → First (bit_at w) 64 t → Bits result (λ i. bit_at w i && not (eqb i t)) }
{
    w & w.wrapping_sub(1)
}

// How many bits are set.
pub fn ones(w: u64) -> u32
    ensures { result ≡ tally 64 (bit_at w) }
{
    w.count_ones()
}
