//! What the attributes of a card mean: kinds of value, and one search for all of them.
#![tactic(auto)]

mod attributes;
mod from_value;
mod keyword;
mod kinds;
mod search;
mod upward;
mod words;

pub use attributes::{convert_writing_mode, is_undisplayed, rotate_list, text_anchor};
pub use from_value::FromValue;
pub use keyword::{
    AlignmentBaseline, DominantBaseline, FontStyle, LengthAdjust, NamedSize, TextAnchor,
    Visibility, WritingMode,
};
pub use kinds::{LengthList, NumberList, Text};
pub use search::{attribute, closest_with, find_attribute, try_attribute};
pub use upward::{closest_among, closest_that, step_down};
pub use words::Keyword;
