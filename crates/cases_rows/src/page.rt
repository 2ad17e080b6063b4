//! Bytes that are gathered piece by piece.
use cbi_base::push_decimal;
use std::alloc::Global;
use std::fmt::Debug;

/// Bytes to which pieces are added. Where memory is wanting for one, it is left out, and from then on the page says so: so none who adds a piece has to ask.
#[derive(Drop)]
pub struct Page {
    bytes: Vec<u8>,
    wants: bool,
    alloc: Global,
}

impl Page {
    /// A page with nothing on it.
    pub fn new(alloc: Global) -> Page {
        Page {
            bytes: Vec::new(alloc),
            wants: false,
            alloc,
        }
    }

    /// Where its memory comes from.
    pub fn alloc(&self) -> Global {
        self.alloc
    }

    /// What is on it.
    pub fn bytes(&self) -> &[u8] {
        self.bytes.as_slice()
    }

    /// Whether nothing is on it.
    pub fn is_empty(&self) -> bool {
        self.bytes.is_empty()
    }

    /// Its text; nothing where memory was wanting, or where it is none.
    pub fn text(&self) -> Option<&str> {
        if self.wants {
            return None;
        }
        str::from_utf8(self.bytes.as_slice()).ok()
    }

    /// Notes that memory was wanting.
    pub fn want(&mut self) {
        self.wants = true;
    }

    /// Notes that memory was wanting where it was for another page.
    pub fn heed(&mut self, other: &Page) {
        if other.wants {
            self.wants = true;
        }
    }

    /// Notes that memory was wanting where it was for this.
    pub fn done<T: Drop, E: Drop>(&mut self, tried: Result<T, E>) -> Option<T> {
        match tried {
            Ok(value) => Some(value),
            Err(_) => {
                self.wants = true;
                None
            }
        }
    }

    /// Adds bytes.
    pub fn put(&mut self, bytes: &[u8]) {
        if self.bytes.extend_from_slice(bytes).is_err() {
            self.wants = true;
        }
    }

    /// Adds a byte.
    pub fn byte(&mut self, byte: u8) {
        if self.bytes.push(byte).is_err() {
            self.wants = true;
        }
    }

    /// Adds words.
    pub fn say(&mut self, words: &str) {
        self.put(words.as_bytes());
    }

    /// Adds a number.
    pub fn number<N: Into<u128> + Drop>(&mut self, number: N) {
        if push_decimal(&mut self.bytes, number.into()).is_err() {
            self.wants = true;
        }
    }

    /// Adds a value as derived code shows it.
    pub fn debug<T: Debug>(&mut self, value: T)
    where
        T: Drop,
    {
        match format!(in self.alloc; "{value:?}") {
            Ok(words) => self.put(words.as_str().as_bytes()),
            Err(_) => self.wants = true,
        }
    }
}
