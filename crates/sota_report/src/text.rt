// Texts as fields of replies.
ghost use Rattle.std.specs.Prelude.{◌≡◌, true, string_bytes, IfOk};
ghost use Rattle.std.specs.Str.{is_utf8};

use sota_units::NoMemory;
use std::alloc::Global;
use std::marker::Model;

/// A text that is a field of a reply. Contracts see its bytes, which are UTF-8.
#[derive(Drop)]
pub struct Text {
    text: String,
}

impl Model for Text {
    ghost use Rattle.std.specs.Prelude.{ℕ, List, string_bytes};

    ghost Value = { List ℕ };

    ghost view = { λ text. string_bytes text.text };
}

impl Text {
    /// This text. It takes no memory.
    pub fn new(text: String) -> Text
        ensures { result ≡ string_bytes text }
    {
        Text { text }
    }

    /// A copy of this text.
    pub fn copied(alloc: Global, text: &str) -> Result<Text, NoMemory>
        ensures { IfOk result (λ copy. copy ≡ text.now) }
    {
        Ok(Text::new(String::from_str(alloc, text)?))
    }

    /// A copy of a word, whose bytes are UTF-8.
    pub fn of_word(alloc: Global, word: &[u8]) -> Result<Text, NoMemory>
        requires { is_utf8 word.now ≡ true }
        ensures { IfOk result (λ copy. copy ≡ word.now) }
    {
        match str::from_utf8(word) {
            Ok(text) => Text::copied(alloc, text),
            Err(_) => unreachable!(),
        }
    }

    /// Lends the text.
    pub fn as_str(&self) -> &str
        ensures { result.now ≡ self.now }
    {
        self.text.as_str()
    }
}
