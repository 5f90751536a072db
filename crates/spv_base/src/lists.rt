ghost use Rattle.std.specs.Prelude.{◌≡◌, ℕ, ◌<◌, ◌++◌, ◌∷◌, [], List, length, slice_index, OnOk, OnErr};

use crate::fault::NoMemory;
use std::alloc::Global;
use std::marker::Model;

/// A list of 32-bit words.
#[derive(Debug, Drop)]
pub struct Words {
    items: Vec<u32>,
}

impl Model for Words {
    ghost Value = { List ℕ };

    ghost view = { λ list. list.items.items };
}

impl Words {
    /// The list with no word.
    pub fn new(alloc: Global) -> Words
        ensures { result ≡ [] }
    {
        Words {
            items: Vec::new(alloc),
        }
    }

    /// The words of a vector. It takes no memory.
    pub fn from_vec(items: Vec<u32>) -> Words
        ensures { result ≡ items.items }
    {
        Words { items }
    }

    /// The words as a vector. It takes no memory.
    pub fn into_vec(self) -> Vec<u32>
        ensures { result.items ≡ self }
    {
        self.items
    }

    /// Adds a word at the end. Where memory is wanting the list stays as it was.
    pub fn push(&mut self, word: u32) -> Result<(), NoMemory>
        ensures ok { OnOk result (self.new ≡ self.old ++ word ∷ []) }
        ensures err { OnErr result (self.new ≡ self.old) }
    {
        self.items.push(word)?;
        Ok(())
    }

    /// Adds words at the end, in their order. Where memory is wanting the list stays as it was.
    pub fn extend(&mut self, words: &[u32]) -> Result<(), NoMemory>
        ensures ok { OnOk result (self.new ≡ self.old ++ words.now) }
        ensures err { OnErr result (self.new ≡ self.old) }
    {
        self.items.extend_from_slice(words)?;
        Ok(())
    }

    /// The number of words.
    pub fn count(&self) -> usize
        ensures { result ≡ length self.now }
    {
        self.items.len()
    }

    /// The word at a place, counted from 0.
    pub fn at(&self, k: usize) -> &u32
        requires { k < length self.now }
        ensures { result.now ≡ slice_index self.now k }
    {
        &self.items[k]
    }

    /// All words.
    pub fn as_slice(&self) -> &[u32]
        ensures { result.now ≡ self.now }
    {
        &self.items
    }
}

/// A list of octets.
#[derive(Debug, Drop)]
pub struct ByteList {
    items: Vec<u8>,
}

impl Model for ByteList {
    ghost Value = { List ℕ };

    ghost view = { λ list. list.items.items };
}

impl ByteList {
    /// The list with no octet.
    pub fn new(alloc: Global) -> ByteList
        ensures { result ≡ [] }
    {
        ByteList {
            items: Vec::new(alloc),
        }
    }

    /// The octets of a vector. It takes no memory.
    pub fn from_vec(items: Vec<u8>) -> ByteList
        ensures { result ≡ items.items }
    {
        ByteList { items }
    }

    /// The octets as a vector. It takes no memory.
    pub fn into_vec(self) -> Vec<u8>
        ensures { result.items ≡ self }
    {
        self.items
    }

    /// Adds an octet at the end. Where memory is wanting the list stays as it was.
    pub fn push(&mut self, octet: u8) -> Result<(), NoMemory>
        ensures ok { OnOk result (self.new ≡ self.old ++ octet ∷ []) }
        ensures err { OnErr result (self.new ≡ self.old) }
    {
        self.items.push(octet)?;
        Ok(())
    }

    /// Adds octets at the end, in their order. Where memory is wanting the list stays as it was.
    pub fn extend(&mut self, octets: &[u8]) -> Result<(), NoMemory>
        ensures ok { OnOk result (self.new ≡ self.old ++ octets.now) }
        ensures err { OnErr result (self.new ≡ self.old) }
    {
        self.items.extend_from_slice(octets)?;
        Ok(())
    }

    /// The number of octets.
    pub fn count(&self) -> usize
        ensures { result ≡ length self.now }
    {
        self.items.len()
    }

    /// The octet at a place, counted from 0.
    pub fn at(&self, k: usize) -> &u8
        requires { k < length self.now }
        ensures { result.now ≡ slice_index self.now k }
    {
        &self.items[k]
    }

    /// All octets.
    pub fn as_slice(&self) -> &[u8]
        ensures { result.now ≡ self.now }
    {
        &self.items
    }
}
