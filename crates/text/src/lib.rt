// Text written into a row of bytes: words and decimal numbers, each after the one before it.
// Numbers are cast to fewer bits, which loses nothing, as the check proves: `TryFrom` would need an answer for what can't come.
#![tactic(auto)]

ghost use Rattle.std.specs.Prelude.{◌+◌, ◌≤◌, ◌++◌, ◌≡◌, length};
ghost use Rattle.std.proofs.Math.IntN.{sub_ℕ};
ghost use Rattle.text.specs.Words.{decimal, signed};
ghost use Rattle.text.specs.Output.{Written};
ghost use Rattle.text.specs.Put.{Put};

// A row that text is written into. What is written so far ends at `at`; the rest of the row stays.
// Contracts say what stands in the row that it refers to, and that it refers to the same row after a call: who makes it of a lent row owes what
// stands there.
#[derive(Drop)]
pub struct Output<'a> {
    pub row: &'a mut [u8],
    pub at: usize,
}

impl<'a> Output<'a> {
    pub fn word(&mut self, word: &[u8])
        requires { self.old.at + length word.now ≤ length self.old.row.now }
        ensures { Written self.old word.now self.new }
    {
        let end = self.at + word.len();
        self.row[self.at..end].copy_from_slice(word);
        self.at = end;
    }

    // A number without sign, the highest digit first.
    #[tactic(auto, using(crate::proofs::Digits::last_digit, crate::proofs::Digits::room))]
    pub fn number(&mut self, n: u32)
        requires { self.old.at + length (decimal n) ≤ length self.old.row.now }
        ensures { Written self.old (decimal n) self.new }
    {
        if n >= 10 {
            self.number(n / 10);
        }
        self.word(&[b'0' + (n % 10) as u8]);
    }

    // A word and the number after it.
    #[tactic(auto, using(crate::proofs::Digits::ten_digits))]
    pub fn field(&mut self, word: &[u8], n: u32)
        requires { self.old.at + length word.now + 10 ≤ length self.old.row.now }
        ensures written { Written self.old (word.now ++ decimal n) self.new }
        ensures room { self.new.at ≤ self.old.at + length word.now + 10 }
    {
        self.word(word);
        self.number(n);
    }

    // What is gained less what is lost, with its sign where it is below 0.
    #[tactic(auto, using(crate::proofs::Digits::ten_digits))]
    pub fn signed(&mut self, gained: u32, lost: u32)
        requires { self.old.at + 11 ≤ length self.old.row.now }
        ensures written { Written self.old (signed (sub_ℕ gained lost)) self.new }
        ensures room { self.new.at ≤ self.old.at + 11 }
    {
        if gained < lost {
            return self.field(b"-", lost - gained);
        }
        self.number(gained - lost);
    }
}

// Puts a word at a position of a row, and tells where it ends.
// Byte by byte: of two lent rows that makes a `memcpy`, where `copy_from_slice` asks the C library for `memmove` too.
pub fn put_word(row: &mut [u8], at: usize, word: &[u8]) -> usize
    requires { at + length word.now ≤ length row.old }
    ensures { Put row.old row.new at word.now result }
{
    for i in 0..word.len() {
        row[at + i] = word[i];
    }
    at + word.len()
}
