// Reading a line into a command.
ghost use Rattle.std.specs.Prelude.{◌≡◌, false, not, is_some, Ok, Err};
ghost use Rattle.words.specs.Cuts.{passed_over};

use crate::command::{Command, Declaration};
use crate::fault::Fault;
use layout::Pair;
use std::alloc::Global;
use std::str::from_utf8;
use words::{Words, number, split_once};

// A word as text; one that is no UTF-8 is none of the words that a call file has.
fn as_text(word: &[u8]) -> &str {
    from_utf8(word).unwrap_or("")
}

fn narrow(word: &[u8]) -> Result<u32, Fault> {
    let value = number(word).ok_or(Fault::NoNumber)?;
    Ok(u32::try_from(value)?)
}

fn next_word<'a>(words: &mut Words<'a>) -> Result<&'a [u8], Fault> {
    words.next().ok_or(Fault::WordMissing)
}

// Numbers with commas between them, or "-" for none.
fn columns(heap: Global, word: &[u8]) -> Result<Vec<u32>, Fault> {
    let mut all = Vec::new(heap);
    if matches!(word, [b'-']) {
        return Ok(all);
    }
    for part in word.split(|byte| *byte == b',') {
        all.push(narrow(part)?)?;
    }
    Ok(all)
}

fn pair(word: &[u8]) -> Result<Pair, Fault> {
    let (offset, length) = split_once(word, b':').ok_or(Fault::NoPair)?;
    Ok(Pair {
        offset: narrow(offset)?,
        length: narrow(length)?,
    })
}

fn declaration(heap: Global, words: &mut Words) -> Result<Declaration, Fault> {
    let row = narrow(next_word(words)?)?;
    let columns = columns(heap, next_word(words)?)?;
    let mut pairs = Vec::new(heap);
    for word in words {
        pairs.push(pair(word)?)?;
    }
    Ok(Declaration {
        row,
        columns,
        pairs,
    })
}

fn command(heap: Global, word: &[u8], words: &mut Words) -> Result<Command, Fault> {
    match as_text(word) {
        "lattice" => Ok(Command::Lattice(as_text(next_word(words)?).parse()?)),
        "vendors" => Ok(Command::Vendors(narrow(next_word(words)?)?)),
        "table" => Ok(Command::Table(declaration(heap, words)?)),
        "open" => Ok(Command::Open),
        _ => Err(Fault::UnknownWord),
    }
}

// The command of a line; nothing where it is blank or begins with '#'.
pub fn read_line(heap: Global, line: &[u8]) -> Result<Option<Command>, Fault>
    ensures skips { elim result [ Ok o ↦ is_some o ≡ not (passed_over line.now) | Err _ ↦ passed_over line.now ≡ false ] }
{
    if matches!(line, [b'#', ..]) {
        return Ok(None);
    }
    let mut words = Words::new(line);
    let Some(word) = words.next() else {
        return Ok(None);
    };
    let command = command(heap, word, &mut words)?;
    match words.next() {
        Some(_) => Err(Fault::WordLeft),
        None => Ok(Some(command)),
    }
}
