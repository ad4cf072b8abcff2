// Numbers in text. All other text is skipped.

ghost use Rattle.std.specs.Prelude.{◌≤◌};

// The text that is left.
#[derive(Drop)]
pub(crate) struct Numbers<'a> {
    left: &'a [u8],
}

// The digits' number; the highest of a word for any above it.
fn number_of(digits: &[u8]) -> u32 {
    digits.iter().fold(
        0u32,
        |number, digit| number
            .saturating_mul(10)
            .saturating_add(u32::from(*digit & 15)),
    )
}

impl<'a> Numbers<'a> {
    pub(crate) fn of(text: &'a [u8]) -> Numbers<'a> {
        Numbers { left: text }
    }

    pub(crate) fn next(&mut self) -> Option<u32> {
        // a text without a digit is not gone through again
        let Some(start) = self.left.iter().position(|byte| byte.is_ascii_digit()) else {
            self.left = &[];
            return None;
        };
        let text = &self.left[start..];
        let end = text
            .iter()
            .position(|byte| !byte.is_ascii_digit())
            .unwrap_or(text.len());
        self.left = &text[end..];
        Some(number_of(&text[..end]))
    }

    // A figure of a case; 0 where the text has ended.
    pub(crate) fn figure(&mut self) -> u32 {
        self.next().unwrap_or(0)
    }

    // How many of some cells: no more than there are.
    pub(crate) fn count(&mut self, most: usize) -> usize
        ensures { result ≤ most }
    {
        (self.figure() as usize).min(most)
    }

    // A list: how many numbers it has, and then those.
    pub(crate) fn list<'c>(&mut self, cells: &'c mut [u32]) -> &'c [u32] {
        let len = self.count(cells.len());
        for i in 0..len {
            cells[i] = self.figure();
        }
        &cells[..len]
    }

    // A mask: how many runs it has, and for each its length and its byte.
    pub(crate) fn mask<'c>(&mut self, cells: &'c mut [u8]) -> &'c [u8] {
        let mut len = 0;
        for _ in 0..self.figure() {
            let end = len + self.count(cells.len() - len);
            let byte = self.figure().min(255) as u8;
            cells[len..end].fill(byte);
            len = end;
        }
        &cells[..len]
    }
}
