//! A card of nested elements, made of the words of a line: each is the font size of one element.
use card::{Attribute, Fault, Length, Marks, NodeData, Run, TableCounts, Tables, Value};
use names::{AId, EId, LengthUnit, Spelled};
use svgtree::Draft;

/// How many elements, attributes, bytes and lengths a line may make: the tables are fixed, as a handset's are.
const NODES: usize = 80;

const ATTRIBUTES: usize = 256;

const BYTES: usize = 2048;

const LENGTHS: usize = 256;

/// A length of each unit.
const NUMBERS: [(f32, LengthUnit); 10] = [
    (1.5, LengthUnit::None),
    (-2.25, LengthUnit::Px),
    (0.1, LengthUnit::Em),
    (0.3, LengthUnit::Ex),
    (0.7, LengthUnit::In),
    (1.1, LengthUnit::Cm),
    (3.3, LengthUnit::Mm),
    (10.0, LengthUnit::Pt),
    (0.9, LengthUnit::Pc),
    (33.3, LengthUnit::Percent),
];

/// The names under which they are given to the innermost element, as one list.
pub(crate) const NAMES: [AId; 5] = [AId::X, AId::Y, AId::Dx, AId::Dy, AId::LetterSpacing];

/// The tables of a card.
#[derive(Drop)]
pub(crate) struct Room {
    nodes: [NodeData; NODES],
    attributes: [Attribute; ATTRIBUTES],
    bytes: [u8; BYTES],
    lengths: [Length; LENGTHS],
}

// A word as a length, where it is one.
// Each program has a reader of its own: the library parses nothing, and a crate for these lines alone would be longer.
fn length_of(word: &str) -> Option<Length> {
    // The longest unit first, since every word ends in the empty one.
    [2usize, 1, 0]
        .into_iter()
        .find_map(|width| length_in_unit(word, width))
}

// A word that ends in a unit of this width as a length.
fn length_in_unit(word: &str, width: usize) -> Option<Length> {
    let split = word.len().checked_sub(width)?;
    let (number, unit) = word.split_at_checked(split)?;
    Some(Length {
        number: number.parse().ok()?,
        unit: LengthUnit::from_str(unit)?,
    })
}

impl Room {
    pub(crate) fn new() -> Room {
        // Written out: no name is the blank one, so an attribute has no default.
        let attribute = Attribute {
            name: AId::X,
            value: Run::default(),
            lengths: Run::default(),
            marks: Marks::default(),
        };
        Room {
            nodes: [NodeData::default(); NODES],
            attributes: [attribute; ATTRIBUTES],
            bytes: [0; BYTES],
            lengths: [Length::default(); LENGTHS],
        }
    }

    pub(crate) fn tables(&self) -> Tables<'_> {
        Tables {
            nodes: &self.nodes,
            attributes: &self.attributes,
            bytes: &self.bytes,
            lengths: &self.lengths,
        }
    }

    fn give(&mut self, draft: &mut Draft, name: AId, value: Value<'_>) -> Result<(), Fault> {
        draft.give(
            &mut self.nodes,
            &mut self.attributes,
            &mut self.bytes,
            &mut self.lengths,
            name,
            value,
        )?;
        Ok(())
    }

    // Opens an element with this font size inside the open one.
    fn nest(&mut self, draft: &mut Draft, word: &str) -> Result<(), Fault> {
        draft.open(
            &mut self.nodes,
            &self.attributes,
            &self.bytes,
            &self.lengths,
            EId::Tspan,
        )?;
        let length = length_of(word);
        let value = Value {
            bytes: word.as_bytes(),
            lengths: length.as_slice(),
            marks: Marks {
                single: length.is_some(),
                ..Marks::default()
            },
        };
        self.give(draft, AId::FontSize, value)
    }

    /// Builds the card of a line, and answers how much of the tables it uses.
    pub(crate) fn build(&mut self, line: &str) -> Result<TableCounts, Fault> {
        let mut draft = Draft::begin(&mut self.nodes)?;
        for word in line.split(' ') {
            self.nest(&mut draft, word)?;
        }
        let lengths = NUMBERS.map(|(number, unit)| Length { number, unit });
        for name in NAMES {
            let value = Value {
                bytes: b"a length in each unit",
                lengths: &lengths,
                marks: Marks::default(),
            };
            self.give(&mut draft, name, value)?;
        }
        for _ in line.split(' ') {
            draft.close(self.tables())?;
        }
        match draft.seal(self.tables()) {
            Ok(card) => Ok(card.counts()),
            Err((_, fault)) => Err(fault),
        }
    }
}
