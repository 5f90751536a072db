//! Numbers and cases of tests, written as text. A text is one literal to the prover, while it looks at each number of a
//! table.
#![tactic(auto)]

use std::alloc::{AllocFailed, Global};

/// Why a text is not read.
#[derive(Clone, Copy, Debug, PartialEq, Eq)]
pub enum Unread {
    /// A word of it is no number.
    NoNumber,
    /// A line of it has no case.
    NoCase,
    NoMemory,
}

impl From<AllocFailed<u32>> for Unread {
    fn from(_error: AllocFailed<u32>) -> Unread {
        Unread::NoMemory
    }
}

/// A number of a test: decimal, or hexadecimal behind `0x`.
pub fn number(word: &str) -> Result<u32, Unread> {
    let read = match word.strip_prefix("0x") {
        Some(digits) => u32::from_str_radix(digits, 16),
        None => u32::from_str_radix(word, 10),
    };
    read.map_err(|_| Unread::NoNumber)
}

/// The number that a word stands for: the word itself, or where it is a name that of the name in a list, which has one
/// name a line, as `name = number`.
pub fn meaning(names: &str, word: &str) -> Result<u32, Unread> {
    if word.starts_with(|c: char| c.is_ascii_digit()) {
        return number(word);
    }
    for line in names.lines() {
        if let Some((name, meant)) = case(line)? {
            if name == word {
                return number(meant);
            }
        }
    }
    Err(Unread::NoNumber)
}

/// Adds the numbers of a line, which are split by blanks, up to a `;`, behind which the line is a remark.
fn add_line(numbers: &mut Vec<u32>, names: &str, line: &str) -> Result<(), Unread> {
    for word in line.split_ascii_whitespace() {
        if word.starts_with(';') {
            return Ok(());
        }
        numbers.push(meaning(names, word)?)?;
    }
    Ok(())
}

/// Adds the numbers of a text.
fn add_text(numbers: &mut Vec<u32>, names: &str, text: &str) -> Result<(), Unread> {
    for line in text.lines() {
        add_line(numbers, names, line)?;
    }
    Ok(())
}

/// The numbers of a text, split by blanks and ends of lines, some of which have names. What stands behind a `;` in a line is
/// a remark.
pub fn words(alloc: Global, names: &str, text: &str) -> Result<Vec<u32>, Unread> {
    let mut numbers = Vec::new(alloc);
    add_text(&mut numbers, names, text)?;
    Ok(numbers)
}

/// The numbers of a text without names.
pub fn numbers(alloc: Global, text: &str) -> Result<Vec<u32>, Unread> {
    words(alloc, "", text)
}

/// The two sides of a case, which a line writes as `given = wanted`, with a remark behind a `;` where there is one. A line
/// that holds a remark alone has no case, and any other line has to have one.
pub fn case(line: &str) -> Result<Option<(&str, &str)>, Unread> {
    let written = match line.split_once(';') {
        Some((written, _)) => written.trim(),
        None => line.trim(),
    };
    if written.is_empty() {
        return Ok(None);
    }
    match written.split_once('=') {
        Some((given, wanted)) => Ok(Some((given.trim(), wanted.trim()))),
        None => Err(Unread::NoCase),
    }
}

/// The numbers of a frame with those of a case's parts between them. Pieces of the frame and parts are split by `|`, and
/// take turns, a piece of the frame first; a part that the case lacks is empty.
pub fn framed(alloc: Global, names: &str, frame: &str, given: &str) -> Result<Vec<u32>, Unread> {
    let mut numbers = Vec::new(alloc);
    let mut parts = given.split('|');
    for piece in frame.split('|') {
        add_text(&mut numbers, names, piece)?;
        if let Some(part) = parts.next() {
            add_text(&mut numbers, names, part)?;
        }
    }
    match parts.next() {
        Some(_) => Err(Unread::NoCase),
        None => Ok(numbers),
    }
}

/// What is told of words, and tried by tables of cases.
pub trait Tells {
    /// What is told of these words, as numbers.
    fn tell(&self, alloc: Global, words: &[u32]) -> Result<Vec<u32>, Unread>;
}

/// A broken rule as a table writes it: 0 where none is broken.
pub fn rule(alloc: Global, broken: Option<u16>) -> Result<Vec<u32>, Unread> {
    let mut told = Vec::new(alloc);
    told.push(u32::from(broken.unwrap_or(0)))?;
    Ok(told)
}

/// A broken rule and its place as a table writes them: 0 alone where none is broken.
pub fn rule_at(alloc: Global, broken: Option<(u16, u32)>) -> Result<Vec<u32>, Unread> {
    let mut told = Vec::new(alloc);
    match broken {
        Some((rule, at)) => {
            told.push(u32::from(rule))?;
            told.push(at)?;
        }
        None => told.push(0)?,
    }
    Ok(told)
}

/// What the cases of a table have in common.
#[derive(Clone, Copy)]
pub struct Table<'a> {
    /// The names of numbers.
    pub names: &'a str,
    /// What stands round the parts of a case.
    pub frame: &'a str,
    /// A line for each case.
    pub cases: &'a str,
}

/// Whether what is told of a case is what it wants.
fn is_told<T: Tells>(
    alloc: Global,
    tells: &T,
    table: &Table,
    given: &str,
    wanted: &str,
) -> Result<bool, Unread> {
    let words = framed(alloc, table.names, table.frame, given)?;
    let told = tells.tell(alloc, words.as_slice())?;
    let wanted = crate::words(alloc, table.names, wanted)?;
    Ok(told.as_slice() == wanted.as_slice())
}

/// The first line of a table of whose case is not told what it wants.
pub fn first_wrong<'a, T: Tells>(
    alloc: Global,
    tells: &T,
    table: &Table<'a>,
) -> Result<Option<&'a str>, Unread> {
    for line in table.cases.lines() {
        if let Some((given, wanted)) = case(line)? {
            if !is_told(alloc, tells, table, given, wanted)? {
                return Ok(Some(line));
            }
        }
    }
    Ok(None)
}
