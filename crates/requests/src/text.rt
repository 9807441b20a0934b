// Text of the report and of a broken rule: lines of a name and a number, which stands in decimal.
ghost use Rattle.std.specs.Prelude.{◌≡◌, ◌+◌, ◌≤◌, [], ◌++◌, length};
ghost use Rattle.tables.specs.Refusals.{number};
ghost use Rattle.requests.specs.Text.{decimal, line_of};
ghost use Rattle.requests.specs.Report.{refused_line};

use std::marker::Model;
use tables::refusal::Refusal;

// A text of at most 192 bytes, by value.
#[derive(Clone, Copy)]
pub struct Text {
    bytes: [u8; 192],
    end: usize,
}

// Clauses see the list of its bytes. The invariant has nulls behind them, so that the list tells all 192 (`as_text`).
impl Model for Text {
    ghost use Rattle.std.specs.Prelude.{ℕ, List, take};

    ghost Value = { List ℕ };

    ghost use Rattle.requests.specs.Text.{as_text, Filled, text_inverse};

    ghost view = { λ t. take t.end t.bytes };

    ghost invariant = { Filled };

    ghost inverse = { as_text };

    ghost inverse_ok = { text_inverse };
}

impl Text {
    pub(crate) fn new() -> Text
        ensures { result ≡ [] }
    {
        Text {
            bytes: [0; 192],
            end: 0,
        }
    }

    pub fn as_bytes(&self) -> &[u8]
        ensures { (result.now ≡ self.now) × (length result.now ≤ 192) }
    {
        &self.bytes[..self.end]
    }

    pub(crate) fn push_text(&mut self, more: &[u8])
        requires { length self.old + length more.now ≤ 192 }
        ensures { self.new ≡ self.old ++ more.now }
    {
        let end = self.end + more.len();
        self.bytes[self.end..end].copy_from_slice(more);
        self.end = end;
    }

    // Digits by hand. Tried `write!`: std promises what it writes where it answers Ok, and nowhere that it does. Tried the kit's
    // itoa: it proves, but the library then needs `memmove` too, and crates beside std.
    fn push_number(&mut self, n: u32)
        requires { length self.old + length (decimal n) ≤ 192 }
        ensures { self.new ≡ self.old ++ decimal n }
    {
        let mut digits = [0u8; 10];
        let mut at = 9;
        let mut rest = n;
        // The digits are counted by this loop alone: there is no range to go over.
        while rest >= 10 {
            digits[at] = b'0' + (rest % 10) as u8;
            rest /= 10;
            at -= 1;
        }
        digits[at] = b'0' + rest as u8;
        self.push_text(&digits[at..]);
    }

    // A line: the name, the number, a line feed.
    pub(crate) fn push_line(&mut self, name: &[u8], n: u32)
        requires { length self.old + length (line_of name.now n) ≤ 192 }
        ensures { self.new ≡ self.old ++ line_of name.now n }
    {
        self.push_text(name);
        self.push_number(n);
        self.push_text(b"\n");
    }
}

// The one line of a refusal.
pub fn refused_text(why: Refusal) -> Text
    ensures { result ≡ refused_line (number why) }
{
    let mut text = Text::new();
    text.push_line(b"refused=", why.number());
    text
}
