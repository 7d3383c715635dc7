//! A session: one card in four lent tables, and what each call on it answers.
use crate::answer::{Answer, NoAnswer};
use crate::choices::Choices;
use crate::lent::Lent;
use crate::line::{Line, read_line};
use card::{Fault, MAX_ATTRIBUTES, MAX_BYTES, MAX_LENGTHS, MAX_NODES, TableCounts, Tables, Value};
use names::{AId, EId};
use std::alloc::{AllocError, Global};
use std::mem::take;
use svgtree::{Draft, Sealed};
use text::rotations;

// Largest tables, for a script that lends none of its own.
const LARGEST: TableCounts = TableCounts {
    nodes: MAX_NODES,
    attributes: MAX_ATTRIBUTES,
    bytes: MAX_BYTES,
    lengths: MAX_LENGTHS,
};

// The card of a session, if there is one.
#[derive(Default, Drop)]
enum Card {
    #[default]
    Missing,
    Drafting(Draft),
    Ready(Sealed),
}

/// A session: the card that the calls are made on, the tables that it is lent, and what was chosen for its calls.
#[derive(Drop)]
pub(crate) struct Session {
    heap: Global,
    lent: Lent,
    card: Card,
    choices: Choices,
}

impl Card {
    // The draft that the building calls are made on.
    fn draft(&mut self) -> Result<&mut Draft, NoAnswer> {
        match self {
            Card::Drafting(draft) => Ok(draft),
            _ => Err(NoAnswer::NotNow),
        }
    }

    // Where the draft is refused it stays.
    fn seal(&mut self, tables: Tables<'_>) -> Result<Answer, NoAnswer> {
        let (card, answer) = match take(self) {
            Card::Drafting(draft) => match draft.seal(tables) {
                Ok(sealed) => (Card::Ready(sealed), Ok(Answer::Sealed)),
                Err((draft, fault)) => (Card::Drafting(draft), Err(fault.into())),
            },
            other => (other, Err(NoAnswer::NotNow)),
        };
        *self = card;
        answer
    }

    // As `seal`, the other way round: one function for both would be given the variants, the call and the answers.
    // Where the sealed card is refused it stays.
    fn reopen(&mut self, tables: Tables<'_>) -> Result<Answer, NoAnswer> {
        let (card, answer) = match take(self) {
            Card::Ready(sealed) => match sealed.reopen(tables) {
                Ok(draft) => (Card::Drafting(draft), Ok(Answer::Reopened)),
                Err((sealed, fault)) => (Card::Ready(sealed), Err(fault.into())),
            },
            other => (other, Err(NoAnswer::NotNow)),
        };
        *self = card;
        answer
    }
}

impl Session {
    pub(crate) fn new(heap: Global) -> Result<Session, AllocError> {
        Ok(Session {
            heap,
            lent: Lent::new(heap, LARGEST)?,
            card: Card::Missing,
            choices: Choices::new(),
        })
    }

    /// Makes the call of a line.
    pub(crate) fn run(&mut self, line: &[u8]) -> Result<Answer, NoAnswer> {
        match read_line(line, self.heap)? {
            Line::Tables(sizes) => self.lend(sizes),
            Line::Begin => self.begin(),
            Line::Open(tag) => self.open(tag),
            Line::Give(name, bytes, marks, lengths) => {
                let value = Value {
                    bytes: bytes.as_slice(),
                    lengths: lengths.as_slice(),
                    marks,
                };
                self.give(name, value)
            }
            Line::Write(text) => self.write(text.as_slice()),
            Line::Close => self.close(),
            Line::Seal => self.card.seal(self.lent.tables()),
            Line::Reopen => self.card.reopen(self.lent.tables()),
            Line::Admit(counts) => self.admit(counts),
            Line::Poke(poke) => self.lent.poke(poke),
            Line::Settings(settings) => {
                self.choices.choose_settings(settings);
                Ok(Answer::Settings)
            }
            Line::Stage(stage) => {
                self.choices.choose_stage(stage)?;
                Ok(Answer::Stage)
            }
            Line::Rotations(element, room) => self.rotations(element, room),
            Line::Texts(room) => self.texts(room),
        }
    }

    fn lend(&mut self, sizes: TableCounts) -> Result<Answer, NoAnswer> {
        self.lent = Lent::new(self.heap, sizes)?;
        self.card = Card::Missing;
        Ok(Answer::Tables)
    }

    // A new card takes the place of the old one once it is accepted.
    fn begin(&mut self) -> Result<Answer, NoAnswer> {
        let draft = Draft::begin(self.lent.nodes.as_mut_slice())?;
        self.card = Card::Drafting(draft);
        Ok(Answer::Begun)
    }

    fn admit(&mut self, counts: TableCounts) -> Result<Answer, NoAnswer> {
        let sealed = Sealed::admit(self.lent.tables(), counts)?;
        self.card = Card::Ready(sealed);
        Ok(Answer::Admitted)
    }

    fn open(&mut self, tag: EId) -> Result<Answer, NoAnswer> {
        let node = self.card.draft()?.open(
            self.lent.nodes.as_mut_slice(),
            self.lent.attributes.as_slice(),
            self.lent.bytes.as_slice(),
            self.lent.lengths.as_slice(),
            tag,
        )?;
        Ok(Answer::Opened(node))
    }

    fn give(&mut self, name: AId, value: Value<'_>) -> Result<Answer, NoAnswer> {
        let attribute = self.card.draft()?.give(
            self.lent.nodes.as_mut_slice(),
            self.lent.attributes.as_mut_slice(),
            self.lent.bytes.as_mut_slice(),
            self.lent.lengths.as_mut_slice(),
            name,
            value,
        )?;
        Ok(Answer::Given(attribute))
    }

    fn write(&mut self, text: &[u8]) -> Result<Answer, NoAnswer> {
        let node = self.card.draft()?.write(
            self.lent.nodes.as_mut_slice(),
            self.lent.attributes.as_slice(),
            self.lent.bytes.as_mut_slice(),
            self.lent.lengths.as_slice(),
            text,
        )?;
        Ok(Answer::Wrote(node))
    }

    fn close(&mut self) -> Result<Answer, NoAnswer> {
        let node = self.card.draft()?.close(self.lent.tables())?;
        Ok(Answer::Closed(node))
    }

    // The angles of an element's characters, into a table of so many entries. A script may ask for more than a card can
    // have: the refusal of a smaller table says how many there are.
    fn rotations(&self, element: u32, room: usize) -> Result<Answer, NoAnswer> {
        let Card::Ready(sealed) = &self.card else {
            return Err(NoAnswer::NotNow);
        };
        let tables = self.lent.tables();
        let mut angles = vec![in self.heap; 0.0f32; room.min(MAX_BYTES)]?;
        let mut answer = rotations(sealed, tables, element, angles.as_mut_slice());
        if let Err(Fault::AnglesShort(count)) = answer
            && count <= room
        {
            angles = vec![in self.heap; 0.0f32; count]?;
            answer = rotations(sealed, tables, element, angles.as_mut_slice());
        }
        angles.truncate(answer?);
        Ok(Answer::Rotations(angles))
    }

    fn texts(&self, room: usize) -> Result<Answer, NoAnswer> {
        let Card::Ready(sealed) = &self.card else {
            return Err(NoAnswer::NotNow);
        };
        let mut list = vec![in self.heap; 0u32; room.min(MAX_NODES)]?;
        let count = sealed.texts(self.lent.tables(), list.as_mut_slice())?;
        list.truncate(count);
        list.sort_unstable();
        Ok(Answer::Texts(list))
    }
}
