//! Texts of bytes, and lists of them.
ghost use Rattle.std.specs.Prelude.{◌≡◌, ℕ, List, [], ◌∷◌, ◌++◌, OnOk, OnErr, IfErr};

use std::alloc::{AllocFailed, Global};
use std::marker::Model;

/// A text: bytes in any encoding, of any length. Contracts see the list of its bytes.
#[derive(Debug, Drop)]
pub struct Text {
    bytes: Vec<u8>,
}

impl Model for Text {
    ghost Value = { List ℕ };

    ghost view = { λ t. t.bytes.items };
}

impl Text {
    /// The empty text. It takes no memory before the first `push`.
    pub fn new(alloc: Global) -> Text
        ensures { result ≡ [] }
    {
        Text {
            bytes: Vec::new(alloc),
        }
    }

    /// The text of these bytes.
    pub fn from_vec(bytes: Vec<u8>) -> Text
        ensures { result ≡ bytes.items }
    {
        Text { bytes }
    }

    /// Puts a byte at the end. The error gives the byte back, and the text is then as it was.
    pub fn push(&mut self, byte: u8) -> Result<(), AllocFailed<u8>>
        ensures ok { OnOk result (self.new ≡ self.old ++ byte ∷ []) }
        ensures err { OnErr result (self.new ≡ self.old) }
        ensures value_returned { IfErr result (λ failed. failed.value ≡ byte) }
    {
        self.bytes.push(byte)
    }

    /// The bytes of the text.
    pub fn as_slice(&self) -> &[u8]
        ensures { result.now ≡ self.now }
    {
        self.bytes.as_slice()
    }

    /// The `Vec` that holds the bytes.
    pub fn into_vec(self) -> Vec<u8>
        ensures { result.items ≡ self }
    {
        self.bytes
    }
}

/// A list of texts, as the words of a command line. Contracts see the list of their lists of bytes.
#[derive(Debug, Drop)]
pub struct WordList {
    words: Vec<Text>,
}

impl Model for WordList {
    ghost Value = { List (List ℕ) };

    ghost view = { λ w. w.words.items };
}

impl WordList {
    /// The empty list. It takes no memory before the first `push`.
    pub fn new(alloc: Global) -> WordList
        ensures { result ≡ [] }
    {
        WordList {
            words: Vec::new(alloc),
        }
    }

    /// The list of these words.
    pub fn from_vec(words: Vec<Text>) -> WordList
        ensures { result ≡ words.items }
    {
        WordList { words }
    }

    /// Puts a word at the end. The error gives the word back, and the list is then as it was.
    pub fn push(&mut self, word: Text) -> Result<(), AllocFailed<Text>>
        ensures ok { OnOk result (self.new ≡ self.old ++ word ∷ []) }
        ensures err { OnErr result (self.new ≡ self.old) }
        ensures value_returned { IfErr result (λ failed. failed.value ≡ word) }
    {
        self.words.push(word)
    }

    /// The words in their order.
    pub fn as_slice(&self) -> &[Text]
        ensures { result.now ≡ self.now }
    {
        self.words.as_slice()
    }

    /// The `Vec` that holds the words.
    pub fn into_vec(self) -> Vec<Text>
        ensures { result.items ≡ self }
    {
        self.words
    }
}
