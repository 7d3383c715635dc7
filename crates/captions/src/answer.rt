//! What a line comes to, how that is printed, and the tally of the calls.
use card::Fault;
use std::alloc::{AllocError, AllocFailed};
use std::fmt;

/// What a line did.
#[derive(Drop)]
pub(crate) enum Answer {
    Poked,
    Tables,
    Begun,
    Opened(u32),
    Given(u32),
    Wrote(u32),
    Closed(u32),
    Sealed,
    Reopened,
    Admitted,
    Settings,
    Stage,
    Rotations(Vec<f32>),
    Texts(Vec<u32>),
}

/// Why a line did nothing.
#[derive(Drop)]
pub(crate) enum NoAnswer {
    Unreadable,
    NotNow,
    Refused(Fault),
    NoMemory(AllocError),
}

impl From<Fault> for NoAnswer {
    fn from(fault: Fault) -> NoAnswer {
        NoAnswer::Refused(fault)
    }
}

impl From<AllocError> for NoAnswer {
    fn from(error: AllocError) -> NoAnswer {
        NoAnswer::NoMemory(error)
    }
}

impl<T: Drop> From<AllocFailed<T>> for NoAnswer {
    fn from(error: AllocFailed<T>) -> NoAnswer {
        NoAnswer::NoMemory(error.into())
    }
}

/// How many calls were made, and how many of them were accepted.
#[derive(Clone, Copy, Default)]
pub(crate) struct Tally {
    accepted: u32,
    refused: u32,
}

impl Tally {
    /// Counts what a line came to: a raw write and a line that made no call count for nothing.
    pub(crate) fn count(&mut self, outcome: &Result<Answer, NoAnswer>) {
        match outcome {
            Ok(Answer::Poked) => {}
            Ok(_) => self.accepted = self.accepted.saturating_add(1),
            Err(NoAnswer::Refused(_)) => self.refused = self.refused.saturating_add(1),
            Err(_) => {}
        }
    }
}

impl fmt::Display for Tally {
    fn fmt<W: fmt::Write>(&self, f: &mut fmt::Formatter<W>) -> fmt::Result {
        let Tally { accepted, refused } = *self;
        let calls = accepted.saturating_add(refused);
        write!(f, "{calls} calls, {accepted} accepted, {refused} refused")
    }
}

impl fmt::Display for Answer {
    fn fmt<W: fmt::Write>(&self, f: &mut fmt::Formatter<W>) -> fmt::Result {
        match self {
            Answer::Poked => write!(f, "poked"),
            Answer::Tables => write!(f, "tables"),
            Answer::Begun => write!(f, "begun"),
            Answer::Opened(node) => write!(f, "opened {node}"),
            Answer::Given(attribute) => write!(f, "given {attribute}"),
            Answer::Wrote(node) => write!(f, "wrote {node}"),
            Answer::Closed(node) => write!(f, "closed, open {node}"),
            Answer::Sealed => write!(f, "sealed"),
            Answer::Reopened => write!(f, "reopened"),
            Answer::Admitted => write!(f, "admitted"),
            Answer::Settings => write!(f, "settings"),
            Answer::Stage => write!(f, "stage"),
            Answer::Rotations(angles) => {
                write!(f, "rotations")?;
                for angle in angles.as_slice() {
                    write!(f, " {angle}")?;
                }
                Ok(())
            }
            Answer::Texts(list) => {
                write!(f, "texts")?;
                for text in list.as_slice() {
                    write!(f, " {text}")?;
                }
                Ok(())
            }
        }
    }
}

impl fmt::Display for NoAnswer {
    fn fmt<W: fmt::Write>(&self, f: &mut fmt::Formatter<W>) -> fmt::Result {
        match self {
            NoAnswer::Unreadable => write!(f, "unreadable"),
            NoAnswer::NotNow => write!(f, "not now"),
            NoAnswer::Refused(fault) => write!(f, "{fault}"),
            NoAnswer::NoMemory(error) => write!(f, "{error}"),
        }
    }
}
