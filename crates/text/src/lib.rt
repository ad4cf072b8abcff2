// Texts and numbers, written into a slice of bytes one after the other.

#![tactic(auto)]

ghost use Rattle.std.specs.Prelude.{◌≡◌, ◌+◌, ◌≤◌, length};
ghost use Rattle.text.specs.Ascii.{decimal as Ascii·decimal, hexadecimal};
ghost use Rattle.text.specs.Inner.Puts.{Prints};

use io::{decimal, hex};

// How many hexadecimal digits a u32 is written with.
const HEXADECIMAL_DIGITS: usize = 8;

// A slice of bytes, of which the first ones, so many, are written.
#[derive(Drop)]
pub struct Page<'a> {
    pub bytes: &'a mut [u8],
    pub len: usize,
}

impl<'a> Page<'a> {
    pub fn put(&mut self, text: &[u8])
        requires { self.old.len + length text.now ≤ length self.old.bytes.now }
        ensures { Prints (length text.now) self.old text.now self.new }
    {
        let end = self.len + text.len();
        self.bytes[self.len..end].copy_from_slice(text);
        self.len = end;
    }

    // This and `put_hexadecimal` share `put`. One function over both would take `decimal` or `hex` as a closure over a buffer of N bytes,
    // and its clauses, on what the closure leaves behind a reference, would be longer than both bodies.
    pub fn put_decimal(&mut self, n: u32)
        requires { self.old.len + 10 ≤ length self.old.bytes.now }
        ensures { Prints 10 self.old (Ascii·decimal n) self.new }
    {
        let mut digits = [0u8; 20];
        let count = decimal(n as u64, &mut digits);
        self.put(&digits[..count]);
    }

    // With zeros in front.
    pub fn put_hexadecimal(&mut self, n: u32)
        requires { self.old.len + 8 ≤ length self.old.bytes.now }
        ensures { Prints 8 self.old (hexadecimal n) self.new }
    {
        let mut digits = [0u8; 16];
        let width = hex(n as u64, HEXADECIMAL_DIGITS, &mut digits);
        self.put(&digits[..width]);
    }
}
