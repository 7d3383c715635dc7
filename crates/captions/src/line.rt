//! The lines of a script: what call each one makes, with what it is given.
use crate::answer::NoAnswer;
use crate::choices::StageChoice;
use crate::words::Words;
use card::{Attribute, Length, Marks, NodeData, NodeKind, Run, TableCounts};
use names::{AId, EId, Spelled};
use std::alloc::Global;
use units::Settings;

/// A line that could be read.
#[derive(Drop)]
pub(crate) enum Line {
    Tables(TableCounts),
    Begin,
    Open(EId),
    Give(AId, Vec<u8>, Marks, Vec<Length>),
    Write(Vec<u8>),
    Close,
    Seal,
    Reopen,
    Admit(TableCounts),
    Poke(Poke),
    Settings(Settings),
    Stage(StageChoice),
    Rotations(u32, usize),
    Texts(usize),
}

/// An entry that is written raw into one of the tables, by its index.
#[derive(Clone, Copy)]
pub(crate) enum Poke {
    Node(usize, NodeData),
    Attribute(usize, Attribute),
    Byte(usize, u8),
    Length(usize, Length),
}

// Four numbers, one for each table.
fn counts(words: &mut Words<'_>) -> Option<TableCounts> {
    Some(TableCounts {
        nodes: words.number()? as usize,
        attributes: words.number()? as usize,
        bytes: words.number()? as usize,
        lengths: words.number()? as usize,
    })
}

fn run(words: &mut Words<'_>) -> Option<Run> {
    Some(Run {
        start: words.number()?,
        end: words.number()?,
    })
}

fn marks(words: &mut Words<'_>) -> Option<Marks> {
    let (single, plain) = match words.word()? {
        "neither" => (false, false),
        "single" => (true, false),
        "plain" => (false, true),
        "both" => (true, true),
        _ => return None,
    };
    Some(Marks { single, plain })
}

fn tag(words: &mut Words<'_>) -> Option<EId> {
    EId::from_str(words.word()?)
}

fn name(words: &mut Words<'_>) -> Option<AId> {
    AId::from_str(words.word()?)
}

// The kind of a node: `root`, `element TAG START END` or `text START END`.
fn kind(words: &mut Words<'_>) -> Option<NodeKind> {
    match words.word()? {
        "root" => Some(NodeKind::Root),
        "element" => Some(NodeKind::Element {
            tag: tag(words)?,
            attributes: run(words)?,
        }),
        "text" => Some(NodeKind::Text(run(words)?)),
        _ => None,
    }
}

fn node(words: &mut Words<'_>) -> Option<NodeData> {
    let kind = kind(words)?;
    Some(NodeData {
        parent: words.link()?,
        next: words.link()?,
        first: words.link()?,
        last: words.link()?,
        kind,
    })
}

fn attribute(words: &mut Words<'_>) -> Option<Attribute> {
    let name = name(words)?;
    let value = run(words)?;
    let marks = marks(words)?;
    let lengths = run(words)?;
    Some(Attribute {
        name,
        value,
        lengths,
        marks,
    })
}

// What is written raw into one of the tables.
fn read_poke(words: &mut Words<'_>) -> Option<Poke> {
    let table = words.word()?;
    let k = words.number()? as usize;
    match table {
        "node" => Some(Poke::Node(k, node(words)?)),
        "attribute" => Some(Poke::Attribute(k, attribute(words)?)),
        "byte" => Some(Poke::Byte(k, u8::try_from(words.number()?).ok()?)),
        "length" => Some(Poke::Length(k, words.length()?)),
        _ => None,
    }
}

// The lengths up to the end of the line, which has so many bytes.
fn lengths(words: &mut Words<'_>, heap: Global, most: usize) -> Result<Vec<Length>, NoAnswer> {
    let mut read = Vec::new(heap);
    // Each length takes a byte or more, so the count ends the loop: `while !words.ended()` would want a measure of
    // words, which only this loop asks for.
    for _ in 0..most {
        if words.ended() {
            break;
        }
        read.push(words.length().ok_or(NoAnswer::Unreadable)?)?;
    }
    Ok(read)
}

// An attribute's name, value, marks and reading.
fn give(words: &mut Words<'_>, heap: Global, most: usize) -> Result<Line, NoAnswer> {
    let name = name(words).ok_or(NoAnswer::Unreadable)?;
    let value = words.text(heap)?;
    let marks = marks(words).ok_or(NoAnswer::Unreadable)?;
    Ok(Line::Give(name, value, marks, lengths(words, heap, most)?))
}

// Five numbers as settings.
fn settings(words: &mut Words<'_>) -> Option<Settings> {
    Some(Settings {
        dpi: words.float()?,
        size: words.float()?,
        width: words.float()?,
        height: words.float()?,
        diagonal: words.float()?,
    })
}

// A stage: all is drawn, or what a table or a language says.
fn stage(words: &mut Words<'_>, heap: Global) -> Result<Line, NoAnswer> {
    let choice = match words.word().ok_or(NoAnswer::Unreadable)? {
        "all" => StageChoice::Every,
        "table" => StageChoice::Table(words.text(heap)?),
        "language" => StageChoice::Language(words.text(heap)?),
        _ => return Err(NoAnswer::Unreadable),
    };
    Ok(Line::Stage(choice))
}

// A line of a word and plain words after it.
fn plain(word: &str, words: &mut Words<'_>) -> Option<Line> {
    match word {
        "tables" => Some(Line::Tables(counts(words)?)),
        "begin" => Some(Line::Begin),
        "open" => Some(Line::Open(tag(words)?)),
        "close" => Some(Line::Close),
        "seal" => Some(Line::Seal),
        "reopen" => Some(Line::Reopen),
        "admit" => Some(Line::Admit(counts(words)?)),
        "poke" => Some(Line::Poke(read_poke(words)?)),
        "settings" => Some(Line::Settings(settings(words)?)),
        "rotations" => Some(Line::Rotations(words.number()?, words.number()? as usize)),
        "texts" => Some(Line::Texts(words.number()? as usize)),
        _ => None,
    }
}

/// Reads a line, to its end.
pub(crate) fn read_line(bytes: &[u8], heap: Global) -> Result<Line, NoAnswer> {
    let mut words = Words::new(bytes);
    let line = match words.word().ok_or(NoAnswer::Unreadable)? {
        "give" => give(&mut words, heap, bytes.len())?,
        "write" => Line::Write(words.text(heap)?),
        "stage" => stage(&mut words, heap)?,
        word => plain(word, &mut words).ok_or(NoAnswer::Unreadable)?,
    };
    if words.ended() {
        Ok(line)
    } else {
        Err(NoAnswer::Unreadable)
    }
}
