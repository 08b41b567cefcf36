//! The line on standard error that tells a refusal.
ghost use Rattle.std.specs.Prelude.{◌≡◌, ◌+◌, ◌≤◌, ◌++◌, length, codes, decimal};
ghost use Rattle.command_runs.specs.FaultLine.{fault_line, place_text};

use byte_streams::MergeFault;
use itoa::Buffer;
use std::fmt::{InlineText, Write};
use std::marker::Model;

/// More bytes than any fault line has.
const MAX_LEN: usize = 128;

/// The line that tells a refusal on standard error, kept with no memory from the heap.
#[derive(Drop)]
pub struct FaultLine {
    text: InlineText<{ MAX_LEN }>,
}

impl Model for FaultLine {
    ghost use Rattle.std.specs.Prelude.{ℕ, List};
    ghost use Rattle.std.specs.Fmt.InlineText.{inline_text, IsIntact, IsOpen};

    ghost Value = { List ℕ };

    ghost view = { λ line. inline_text line.text };

    ghost invariant = { λ line. IsIntact line.text × IsOpen line.text };
}

impl FaultLine {
    /// The line of a refusal: the program, the tile and the line where they are not 0, and the fault's text.
    pub fn of(refusal: &MergeFault) -> FaultLine
        ensures { result ≡ fault_line refusal.now }
    {
        let mut line = FaultLine::new();
        line.push("citymerge: ");
        line.push_place(refusal.tile, refusal.line);
        line.push(refusal.fault.text());
        line.push("\n");
        line
    }

    /// Its bytes, the newline among them.
    pub fn as_bytes(&self) -> &[u8]
        ensures { result.now ≡ self.now }
    {
        self.text.as_str().as_bytes()
    }

    fn new() -> FaultLine
        ensures { result ≡ codes "" }
    {
        FaultLine {
            text: InlineText::new(),
        }
    }

    fn push(&mut self, part: &str)
        requires { length self.old + length part.now ≤ 128 }
        ensures { self.new ≡ self.old ++ part.now }
    {
        if self.text.write_str(part).is_err() {
            unreachable!();
        }
    }

    fn push_number(&mut self, word: &str, number: u64)
        requires { length self.old + length word.now ≤ 108 }
        ensures text { self.new ≡ self.old ++ word.now ++ decimal number }
        ensures short { length self.new ≤ length self.old + length word.now + 20 }
    {
        let mut digits = Buffer::new();
        self.push(word);
        self.push(digits.format(number));
    }

    fn push_place(&mut self, tile: u32, line: u64)
        requires { length self.old ≤ 11 }
        ensures text { self.new ≡ self.old ++ place_text tile line }
        ensures short { length self.new ≤ 64 }
    {
        if tile == 0 {
            return;
        }
        self.push_number("tile ", tile as u64);
        if line == 0 {
            self.push(": ");
            return;
        }
        self.push_number(" line ", line);
        self.push(": ");
    }
}
