// Text that is put together in a buffer that the caller lends. What no longer fits is left out.
#![tactic(auto)]

ghost use Rattle.std.specs.Prelude.{◌≡◌, [], ◌∷◌};
ghost use Rattle.lines.specs.Text.{decimal as decimal_of, PutsOn};

// The buffer, and the index of its next byte, which may be past its end.
#[derive(Drop)]
pub struct Page<'a> {
    pub bytes: &'a mut [u8],
    pub at: usize,
}

impl Page<'_> {
    // Puts a byte.
    pub fn push(&mut self, b: u8)
        ensures same_reference { self.new.bytes.ghost_name ≡ self.old.bytes.ghost_name }
        ensures puts { PutsOn self.old (b ∷ []) self.new }
    {
        if self.at < self.bytes.len() {
            self.bytes[self.at] = b;
            self.at += 1;
        }
    }

    // Puts the bytes of a text.
    pub fn push_bytes(&mut self, text: &[u8])
        ensures same_reference { self.new.bytes.ghost_name ≡ self.old.bytes.ghost_name }
        ensures puts { PutsOn self.old text.now self.new }
    {
        for b in text {
            self.push(*b);
        }
    }

    // Puts a number in decimal.
    pub fn push_number(&mut self, n: u64)
        ensures same_reference { self.new.bytes.ghost_name ≡ self.old.bytes.ghost_name }
        ensures puts { PutsOn self.old (decimal_of n) self.new }
    {
        let mut text = [0u8; 20];
        let k = io::decimal(n, &mut text);
        self.push_bytes(&text[..k]);
    }

    // Puts a space and a number.
    pub fn push_next(&mut self, n: u64)
        ensures same_reference { self.new.bytes.ghost_name ≡ self.old.bytes.ghost_name }
        ensures puts { PutsOn self.old (32 ∷ decimal_of n) self.new }
    {
        self.push(b' ');
        self.push_number(n);
    }
}
