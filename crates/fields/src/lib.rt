// Big-endian fields, each so many bits wide, over lent bytes: how many bytes they take, reading them and writing them. The widths are
// lent too, so that a record of a log and a message of the wire are lists of widths and nothing more.
#![tactic(auto)]

ghost use Rattle.std.specs.Prelude.{◌≡◌, ◌+◌, ◌-◌, ◌*◌, ◌%◌, ◌^◌, ◌≤◌, ◌<◌, min, length};
ghost use Rattle.fields.specs.Fields.{Laid, Layout, decode, number, size as size_of, written};
ghost use Rattle.fields.specs.Parts.{cut, placed, InBytes, Puts};

// How many bytes fields of these widths take.
pub fn size(widths: &[u8]) -> usize
    requires { Layout widths.now }
    ensures { result ≡ size_of widths.now }
{
    let bits: usize = widths.iter().map(|width| usize::from(*width)).sum();
    bits / 8
}

// The lowest bits of v, so many.
fn low(v: u64, many: usize) -> u64
    requires { many ≤ 8 }
    ensures { result ≡ v % 2 ^ many }
{
    v & ((1u64 << many) - 1)
}

// The number that width bits make, from bit from on. Bit 0 is the highest of the first byte.
fn field(bytes: &[u8], from: usize, width: usize) -> u64
    requires { InBytes from width (length bytes.now) }
    ensures { result ≡ cut (8 * length bytes.now - (from + width)) width (number bytes.now) }
{
    // most kinds of a record have fewer fields than there are places for
    if width == 0 {
        return 0;
    }
    let end = from + width;
    // The bytes that the field lies in are nine at most, and make one number.
    let last = end.div_ceil(8);
    let number = bytes[from / 8..last]
        .iter()
        .fold(0u128, |number, byte| (number << 8) | u128::from(*byte));
    let below = 8 * last - end;
    ((number >> below) & ((1u128 << width) - 1)) as u64
}

// The values of the fields that the bytes begin with.
pub fn read(bytes: &[u8], widths: &[u8], values: &mut [u64])
    requires { Laid widths.now (length bytes.now) (length values.old) }
    ensures { values.new ≡ decode widths.now bytes.now }
{
    // By index: of values written through a zip of their iter_mut a proof knows the length alone.
    let mut at = 0;
    for (i, width) in widths.iter().enumerate() {
        let width = usize::from(*width);
        values[i] = field(bytes, at, width);
        at += width;
    }
}

// The byte with so many of its bits, those above its below lowest, made the lowest of v.
fn over(byte: u8, below: usize, many: usize, v: u64) -> u8
    requires { below + many ≤ 8 }
    ensures { result ≡ placed below many v byte }
{
    let old = u64::from(byte);
    let above = old >> (below + many);
    ((((above << many) + low(v, many)) << below) + low(old, below)) as u8
}

// The width lowest bits of v, put into the bytes from bit from on. All other bits stay.
fn put(bytes: &mut [u8], from: usize, width: usize, v: u64)
    requires { InBytes from width (length bytes.old) }
    ensures { Puts from width v bytes.old bytes.new }
{
    // A loop: each step puts the bits that lie in one byte, 1 to 8, and no iterator has such steps.
    let end = from + width;
    let mut at = from;
    while at < end {
        let many = (8 - at % 8).min(end - at);
        let below = 8 - at % 8 - many;
        let i = at / 8;
        bytes[i] = over(bytes[i], below, many, v >> (end - at - many));
        at += many;
    }
}

// The fields with these values, from the first byte on. Later bytes stay.
pub fn write(bytes: &mut [u8], widths: &[u8], values: &[u64])
    requires { Laid widths.now (length bytes.old) (length values.now) }
    ensures { bytes.new ≡ written widths.now values.now bytes.old }
{
    let mut at = 0;
    for (width, value) in widths.iter().zip(values) {
        let width = usize::from(*width);
        put(bytes, at, width, *value);
        at += width;
    }
}
