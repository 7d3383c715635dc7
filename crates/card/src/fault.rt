//! Why a call is refused.
ghost use Rattle.std.specs.Prelude.{◌≡◌};
ghost use Rattle.card.specs.Faults.{number_of, place_of};

use std::fmt;

/// A table of a card.
#[derive(Clone, Copy, PartialEq, Eq)]
pub enum Table {
    Nodes,
    Attributes,
    Bytes,
    Lengths,
}

/// A setting that lengths and sizes are computed from.
#[derive(Clone, Copy, PartialEq, Eq)]
pub enum Setting {
    Dpi,
    Size,
    Width,
    Height,
    Diagonal,
}

/// Why a call is refused, with the place that it names.
#[derive(Clone, Copy)]
pub enum Fault {
    /// A count asks for more than its table has, or than the limit allows: the table.
    TableShort(Table),
    /// There are fewer than two node entries to begin in.
    NoRoomToBegin,
    /// As many elements are open as may be: the open element.
    TooDeep(u32),
    /// There is no node entry left: the open element.
    NoNodeEntry(u32),
    /// The open element is not the newest node: the open element.
    NotNewest(u32),
    /// The bytes are not UTF-8: the length of their longest valid start.
    NotUtf8(usize),
    /// A reading breaks its rules: the open element.
    ReadingBroken(u32),
    /// The attributes lack space: the count that is needed.
    AttributesFull(usize),
    /// The bytes lack space: the count that is needed.
    BytesFull(usize),
    /// The lengths lack space: the count that is needed.
    LengthsFull(usize),
    /// Node 1 is open, and cannot be closed: the open element.
    SvgOpen(u32),
    /// Another element than node 1 is open: the open element.
    StillOpen(u32),
    /// A node is out of order: the lowest.
    OutOfOrder(u32),
    /// A setting is not finite and above 0: the setting.
    SettingOutOfRange(Setting),
    /// The number is no node, or not a `text` element: the number.
    NotTextElement(u32),
    /// The table of angles is too short: the count that is needed.
    AnglesShort(usize),
    /// A list is too short: the count that is needed.
    ListShort(usize),
    /// The bytes of a stage's table have a wrong length, count or drawn byte.
    WrongTable,
}

impl Fault {
    /// The number of the refusal.
    pub fn number(self) -> u8
        ensures { result ≡ number_of self }
    {
        match self {
            Fault::TableShort(_) => 1,
            Fault::NoRoomToBegin => 2,
            Fault::TooDeep(_) => 3,
            Fault::NoNodeEntry(_) => 4,
            Fault::NotNewest(_) => 5,
            Fault::NotUtf8(_) => 6,
            Fault::ReadingBroken(_) => 7,
            Fault::AttributesFull(_) => 8,
            Fault::BytesFull(_) => 9,
            Fault::LengthsFull(_) => 10,
            Fault::SvgOpen(_) => 11,
            Fault::StillOpen(_) => 12,
            Fault::OutOfOrder(_) => 13,
            Fault::SettingOutOfRange(_) => 14,
            Fault::NotTextElement(_) => 15,
            Fault::AnglesShort(_) => 21,
            Fault::ListShort(_) => 23,
            Fault::WrongTable => 24,
        }
    }

    /// The place that the refusal names.
    pub fn place(self) -> usize
        ensures { result ≡ place_of self }
    {
        match self {
            Fault::TableShort(table) => table as usize,
            Fault::SettingOutOfRange(setting) => setting as usize,
            Fault::NoRoomToBegin | Fault::WrongTable => 0,
            Fault::TooDeep(node)
            | Fault::NoNodeEntry(node)
            | Fault::NotNewest(node)
            | Fault::ReadingBroken(node)
            | Fault::SvgOpen(node)
            | Fault::StillOpen(node)
            | Fault::OutOfOrder(node)
            | Fault::NotTextElement(node) => node as usize,
            Fault::NotUtf8(count)
            | Fault::AttributesFull(count)
            | Fault::BytesFull(count)
            | Fault::LengthsFull(count)
            | Fault::AnglesShort(count)
            | Fault::ListShort(count) => count,
        }
    }
}

impl fmt::Display for Fault {
    fn fmt<W: fmt::Write>(&self, f: &mut fmt::Formatter<W>) -> fmt::Result {
        let number = self.number();
        let place = self.place();
        write!(f, "refused {number} {place}")
    }
}
