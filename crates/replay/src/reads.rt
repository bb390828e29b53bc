// Reading a line of the list, word by word. A read moves on behind what it reads;
// it gives `None` where that is missing, ill-formed or past its width, and the line is then no case.
ghost use Rattle.std.specs.Prelude.{◌≤◌, IfSome};

use crate::questions::Question;

// What is left of a line.
#[derive(Drop)]
pub struct Line<'a> {
    rest: &'a [u8],
}

// The value of a digit of this base, at most 16. No capital is one.
fn digit(c: u8, base: u64) -> Option<u64> {
    if c.is_ascii_uppercase() {
        return None;
    }
    char::from(c)
        .to_digit(16)
        .map(u64::from)
        .filter(|value| *value < base)
}

impl<'a> Line<'a> {
    // The line that this text is.
    pub fn new(text: &'a [u8]) -> Self {
        Line { rest: text }
    }

    // These bytes.
    pub fn text(&mut self, text: &[u8]) -> Option<()> {
        self.rest = self.rest.strip_prefix(text)?;
        Some(())
    }

    // A number by its digits, at least one, the first of several not 0.
    fn digits(&mut self, base: u64) -> Option<u64> {
        let end = self.rest.iter().position(|c| digit(*c, base).is_none());
        let (digits, rest) = self.rest.split_at(end.unwrap_or(self.rest.len()));
        self.rest = rest;
        match digits {
            [] | [b'0', _, ..] => None,
            _ => digits.iter().try_fold(0u64, |size, c| {
                size.checked_mul(base)?.checked_add(digit(*c, base)?)
            }),
        }
    }

    // A number by its decimal digits, at most this.
    fn decimal(&mut self, most: usize) -> Option<usize>
        ensures { IfSome result (λ size. size ≤ most) }
    {
        let size = self.digits(10)? as usize;
        if size <= most { Some(size) } else { None }
    }

    // The question, which begins a line.
    pub fn question(&mut self) -> Option<Question> {
        Question::from_number(self.decimal(9)?)
    }

    // A word that is a number from 0 to this.
    pub fn whole(&mut self, most: usize) -> Option<usize>
        ensures { IfSome result (λ size. size ≤ most) }
    {
        self.text(b" ")?;
        self.decimal(most)
    }

    // A word that is 0 or 1.
    pub fn flag(&mut self) -> Option<bool> {
        Some(self.whole(1)? == 1)
    }

    // An index or a count of hops: below the number that is none.
    pub fn index(&mut self) -> Option<usize>
        ensures { IfSome result (λ size. size ≤ 4294967294) }
    {
        self.whole(4294967294)
    }

    // An end of a link.
    pub fn end(&mut self) -> Option<u16> {
        Some(self.whole(65535)? as u16)
    }

    // Bits, in hexadecimal.
    pub fn bits(&mut self) -> Option<u64> {
        self.text(b" ")?;
        self.digits(16)
    }

    // A number of 64 bits with a sign, but not the least, which is none.
    pub fn signed(&mut self) -> Option<i64> {
        if self.text(b" -").is_none() {
            return Some(self.whole(9223372036854775807)? as i64);
        }
        match self.decimal(9223372036854775807)? {
            0 => None,
            size => Some(-(size as i64)),
        }
    }

    // Does none stand here?
    fn is_none(&mut self) -> bool {
        self.text(b" x").is_some()
    }

    // The number of an answer.
    pub fn number(&mut self) -> Option<usize> {
        self.whole(8)
    }

    // Are the first n of these what the line says, one word for each?
    pub fn same<T: Entry>(&mut self, got: &[T], n: usize) -> Option<bool> {
        let mut same = true;
        for x in got.iter().take(n) {
            same &= T::read(self)? == *x;
        }
        Some(same)
    }
}

// What answers have many of: a number, or none.
pub trait Entry: Copy + PartialEq {
    fn read(line: &mut Line<'_>) -> Option<Self>;
}

// A distance, a cost, or an entry of a matrix.
impl Entry for i64 {
    fn read(line: &mut Line<'_>) -> Option<i64> {
        if line.is_none() {
            Some(clean::NONE_I64)
        } else {
            line.signed()
        }
    }
}

// A predecessor, a node, hops, or an index of a path.
impl Entry for u32 {
    fn read(line: &mut Line<'_>) -> Option<u32> {
        if line.is_none() {
            Some(clean::NONE_U32)
        } else {
            Some(line.index()? as u32)
        }
    }
}

// The bits of a distance; none is written in no other way.
impl Entry for u64 {
    fn read(line: &mut Line<'_>) -> Option<u64> {
        if line.is_none() {
            Some(clean::NONE_F64)
        } else {
            line.bits().filter(|bits| *bits != clean::NONE_F64)
        }
    }
}
