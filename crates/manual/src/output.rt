//! A text that is put together, and whether it is whole.
use std::alloc::Global;

/// A text that grows, and whether all was added to it.
#[derive(Drop)]
pub(crate) struct Output {
    pub(crate) alloc: Global,
    text: String,
    is_whole: bool,
}

impl Output {
    pub(crate) fn new(alloc: Global) -> Output {
        Output {
            alloc,
            text: String::new(alloc),
            is_whole: true,
        }
    }

    pub(crate) fn add(&mut self, text: &str) {
        self.is_whole &= self.text.push_str(text).is_ok();
    }

    /// Adds a text in which other texts stand for some characters.
    pub(crate) fn add_escaped(&mut self, text: &str, escapes: &[(char, &str)]) {
        for c in text.chars() {
            let escape = escapes.iter().find(|escape| escape.0 == c);
            self.is_whole &= match escape {
                Some(escape) => self.text.push_str(escape.1).is_ok(),
                None => self.text.push(c).is_ok(),
            };
        }
    }

    /// Adds a text with a small letter at its beginning.
    pub(crate) fn add_uncapitalized(&mut self, text: &str) {
        let mut rest = text.chars();
        if let Some(first) = rest.next() {
            self.is_whole &= self.text.push(first.to_ascii_lowercase()).is_ok();
            self.add(rest.as_str());
        }
    }

    /// Says that something could not be added.
    pub(crate) fn fail(&mut self) {
        self.is_whole = false;
    }

    /// The text, if it is whole.
    pub(crate) fn into_text(self) -> Option<String> {
        self.is_whole.then_some(self.text)
    }
}
