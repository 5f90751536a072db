ghost use Rattle.std.specs.Prelude.{◌≡◌, ◌<◌, ◌++◌, ◌∷◌, [], Some, None, IfSome, MatchOption, OnOk, OnErr, length, map};
ghost use Rattle.opt_outside.specs.Files.{entry_of, held, bytes_at};

use std::alloc::{AllocError, Global};
use std::marker::Model;

/// A name and what it holds.
#[derive(Drop)]
pub(crate) struct File {
    name: String,
    bytes: Vec<u8>,
}

/// Named files, in the order in which they were added. Of two files of one name, the later one counts;
/// the earlier one stays at its place, so that a place always means the same bytes.
#[derive(Drop)]
pub(crate) struct Files {
    alloc: Global,
    list: Vec<File>,
}

impl Model for Files {
    ghost use Rattle.std.specs.Prelude.{List, ℕ, map};
    ghost use Rattle.opt_outside.specs.Files.{entry_of};

    ghost Value = { List (List ℕ × List ℕ) };

    ghost view = { λ a. map entry_of a.list.items };
}

impl Files {
    /// No file.
    pub(crate) fn new(alloc: Global) -> Files
        ensures { result ≡ [] }
    {
        Files {
            alloc,
            list: Vec::new(alloc),
        }
    }

    /// Adds a file, after the others.
    pub(crate) fn add(&mut self, name: &str, bytes: &[u8]) -> Result<(), AllocError>
        ensures ok { OnOk result (self.new ≡ self.old ++ (name.now, bytes.now) ∷ []) }
        ensures err { OnErr result (self.new ≡ self.old) }
    {
        let name = String::from_str(self.alloc, name)?;
        let bytes = Vec::from_slice(self.alloc, bytes)?;
        self.list.push(File { name, bytes })?;
        Ok(())
    }

    /// The place of the file of this name that was added last.
    pub(crate) fn place_of(&self, name: &str) -> Option<usize>
        ensures within { IfSome result (λ k. k < length self.now) }
        ensures held { MatchOption result (held self.now name.now ≡ None)
            (λ k. held self.now name.now ≡ Some (bytes_at self.now (Some k))) }
    {
        last_named(self.list.as_slice(), name)
    }

    /// The bytes of the file at this place, none where there is no file.
    pub(crate) fn bytes_at(&self, place: Option<usize>) -> &[u8]
        ensures { result.now ≡ bytes_at self.now place }
    {
        match place {
            Some(k) => match self.list.get(k) {
                Some(file) => file.bytes.as_slice(),
                None => &[],
            },
            None => &[],
        }
    }
}

/// The place of the file of this name that was added last.
fn last_named(files: &[File], name: &str) -> Option<usize>
    ensures within { IfSome result (λ k. k < length files.now) }
    ensures held { MatchOption result (held (map entry_of files.now) name.now ≡ None)
        (λ k. held (map entry_of files.now) name.now ≡ Some (bytes_at (map entry_of files.now) (Some k))) }
{
    let mut found = None;
    'files: for (place, file) in files.iter().enumerate() {
        if file.name.as_str() == name {
            found = Some(place);
        }
    }
    found
}
