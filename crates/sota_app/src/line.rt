// Lines of words and numbers.
ghost use Rattle.std.specs.Prelude.{◌≡◌, ◌++◌, IfOk, OnOk, decimal, codes};
ghost use Rattle.sota_units.specs.GrainText.{grain_spelling};
ghost use Rattle.sota_app.specs.Replies.{number_text, count_text};

use sota_text::TextOut;
use sota_units::{Grain, NoMemory, grain_text};
use std::alloc::Global;
use std::marker::Model;

/// A line that is not ended yet: a word, and fields after it, each after one space.
#[derive(Drop)]
pub struct LineOut {
    text: TextOut,
}

impl Model for LineOut {
    ghost use Rattle.std.specs.Prelude.{List, ℕ};

    ghost Value = { List ℕ };

    ghost view = { λ line. line.text };
}

impl LineOut {
    /// A line that begins with a word.
    pub fn new(alloc: Global, word: &[u8]) -> Result<LineOut, NoMemory>
        ensures { IfOk result (λ line. line ≡ word.now) }
    {
        let mut text = TextOut::new(alloc);
        text.bytes(word)?;
        Ok(LineOut { text })
    }

    /// Appends a word.
    pub fn word(&mut self, word: &[u8]) -> Result<(), NoMemory>
        ensures { OnOk result (self.new ≡ self.old ++ codes " " ++ word.now) }
    {
        self.text.bytes(b" ")?;
        self.text.bytes(word)
    }

    /// Appends a number.
    pub fn number(&mut self, number: u64) -> Result<(), NoMemory>
        ensures { OnOk result (self.new ≡ self.old ++ codes " " ++ decimal number) }
    {
        self.text.bytes(b" ")?;
        self.text.number(u128::from(number))
    }

    /// Appends a number, or a dash.
    pub fn number_or_dash(&mut self, number: Option<u32>) -> Result<(), NoMemory>
        ensures { OnOk result (self.new ≡ self.old ++ codes " " ++ number_text number) }
    {
        match number {
            Some(number) => self.number(u64::from(number)),
            None => self.word(b"-"),
        }
    }

    /// Appends a number, where there is one.
    pub fn count(&mut self, count: Option<u64>) -> Result<(), NoMemory>
        ensures { OnOk result (self.new ≡ self.old ++ count_text count) }
    {
        match count {
            Some(count) => self.number(count),
            None => Ok(()),
        }
    }

    /// Appends a probability.
    pub fn grain(&mut self, grain: Grain) -> Result<(), NoMemory>
        ensures { OnOk result (self.new ≡ self.old ++ codes " " ++ grain_spelling grain) }
    {
        self.text.bytes(b" ")?;
        self.text.bytes(&grain_text(grain))
    }

    /// Ends the line.
    pub fn end(mut self) -> Result<TextOut, NoMemory>
        ensures { IfOk result (λ text. text ≡ self ++ codes "\n") }
    {
        self.text.bytes(b"\n")?;
        Ok(self.text)
    }
}
