// Little-endian words, read one after the other.

ghost use Rattle.std.specs.Prelude.{◌≡◌, ◌-◌, ◌++◌, length, min, drop};
ghost use Rattle.whole_input.specs.Words.{front_word};

// What is left to be read. Past the end there are zeros.
#[derive(Clone, Copy)]
pub struct Words<'a> {
    pub left: &'a [u8],
}

impl<'a> Words<'a> {
    // So many bytes, as far as there are any.
    pub fn bytes(&mut self, count: u32) -> &'a [u8]
        ensures parts { self.old.left.now ≡ result.now ++ self.new.left.now }
        ensures counted { length result.now ≡ min count (length self.old.left.now) }
    {
        let (next, left) = self.left.split_at(self.left.len().min(count as usize));
        self.left = left;
        next
    }

    pub fn word(&mut self) -> u32
        ensures value { result ≡ front_word self.old.left.now }
        ensures rest { self.new.left.now ≡ drop 4 self.old.left.now }
        ensures shorter { length self.new.left.now ≡ length self.old.left.now - 4 }
    {
        let Some((word, rest)) = self.left.split_first_chunk() else {
            self.left = &[];
            return 0;
        };
        self.left = rest;
        u32::from_le_bytes(*word)
    }
}
