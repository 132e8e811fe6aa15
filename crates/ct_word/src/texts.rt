// A text that contracts see as its bytes.

ghost use Rattle.std.specs.Prelude.{◌≡◌, IfOk, MatchResult, string_bytes};

use crate::memory::Memory;
use std::alloc::{AllocError, Global};
use std::marker::Model;
use std::sync::Arc;

/// Who holds the bytes of a text: it alone, or its copies too.
#[derive(Drop)]
pub enum Held {
    Own(String),
    Shared(Arc<String, Global>),
}

/// A text, which contracts see as its bytes in UTF-8. A copy of a copy shares its bytes, and takes no memory.
pub struct Text {
    held: Held,
}

// By hand, so that a proof about a value that has texts need not go by who holds them.
impl Drop for Text {
    fn drop(self) {
        let Text { held } = self;
        drop(held);
    }
}

impl Model for Text {
    ghost use Rattle.std.specs.Prelude.{List, ℕ};
    ghost use Rattle.ct_word.specs.Held.{bytes_in};

    ghost Value = { List ℕ };

    ghost view = { λ a. bytes_in a.held };
}

impl Text {
    /// A copy of this text.
    ///
    /// # Errors
    /// `Memory` where there is none for the copy.
    pub fn from_str(alloc: Global, text: &str) -> Result<Text, Memory>
        ensures { IfOk result (λ t. t ≡ text.now) }
    {
        let text = String::from_str(alloc, text)?;
        Ok(Text::from_string(text))
    }

    /// The text of this string. It takes no memory.
    pub fn from_string(text: String) -> Text
        ensures { result ≡ string_bytes text }
    {
        Text {
            held: Held::Own(text),
        }
    }

    /// The string. It takes no memory.
    ///
    /// # Errors
    /// The text, where copies of it share its bytes.
    pub fn into_string(self) -> Result<String, Text>
        ensures { MatchResult result (λ text. string_bytes text ≡ self) (λ same. same ≡ self) }
    {
        let Text { held } = self;
        match held {
            Held::Own(text) => Ok(text),
            Held::Shared(text) => match Arc::try_unwrap(text) {
                Ok(text) => Ok(text),
                Err(text) => Err(Text {
                    held: Held::Shared(text),
                }),
            },
        }
    }

    pub fn as_str(&self) -> &str
        ensures { result.now ≡ self.now }
    {
        match &self.held {
            Held::Own(text) => text.as_str(),
            Held::Shared(text) => text.as_str(),
        }
    }
}

impl Clone for Text {
    ghost is_clone = { λ a b. b ≡ a };

    fn clone(&self) -> Result<Text, AllocError> {
        let text = match &self.held {
            Held::Own(text) => Arc::new(text.allocator().clone()?, text.clone()?)?,
            Held::Shared(text) => Arc::try_clone(text)?,
        };
        Ok(Text {
            held: Held::Shared(text),
        })
    }
}
