// A text in fixed memory, to which more is put at its end.
ghost use Rattle.std.specs.Prelude.{◌≡◌, ℕ, ◌+◌, ◌<◌, ◌≤◌, List, [], ◌∷◌, ◌++◌, length, take};

use super::listing::LONGEST_TEXT;
use std::marker::Model;

// The length stands first: a copy out of the bytes, whose count the compiler doesn't know, then can't reach it, and the compiler keeps it in a register while lines
// are put.
// Contracts see the bytes that the text has come to, as a list. Memory and length stand here and nowhere else: a `Vec` would want memory from the heap, which the
// library takes none of.
#[derive(Drop)]
pub(crate) struct Text {
    length: usize,
    bytes: [u8; LONGEST_TEXT],
}

impl Model for Text {
    ghost Value = { List ℕ };

    ghost view = { λ t. take t.length t.bytes };

    ghost invariant = { λ t. t.length ≤ 1802 };
}

impl Text {
    pub(crate) fn new() -> Self
        ensures { result ≡ [] }
    {
        Text {
            length: 0,
            bytes: [0; LONGEST_TEXT],
        }
    }

    // Puts a byte at the end.
    pub(crate) fn push(&mut self, byte: u8)
        requires { length self.old < 1802 }
        ensures { self.new ≡ self.old ++ byte ∷ [] }
    {
        self.bytes[self.length] = byte;
        self.length += 1;
    }

    // Puts more at the end.
    pub(crate) fn put(&mut self, more: &[u8])
        requires { length self.old + length more.now ≤ 1802 }
        ensures { self.new ≡ self.old ++ more.now }
    {
        let end = self.length + more.len();
        self.bytes[self.length..end].copy_from_slice(more);
        self.length = end;
    }

    pub(crate) fn as_bytes(&self) -> &[u8]
        ensures { result.now ≡ self.now }
    {
        &self.bytes[..self.length]
    }
}
