// The kinds of questions and their marks.
use std::fmt;

// The two bytes that name a question's kind.
#[derive(Clone, Copy, PartialEq, Eq)]
pub struct Mark(pub [u8; 2]);

// What is asked: a call of the port, and what its body holds (oracle/FORMAT.md).
#[derive(Clone, Copy, PartialEq, Eq)]
pub enum Question {
    Utf8,
    Name,
    SnapshotId,
    StrictName,
    Control,
    Whitespace,
    Slot,
    Incarnation,
    Next,
    Epoch,
    NodeId,
    Identity,
    TableBytes,
    AttestationBytes,
    Validity,
    Writing,
    Successor,
    Retired,
    Command,
    Observation,
}

impl Mark {
    // The question that the mark names.
    pub fn question(self) -> Option<Question> {
        Some(match &self.0 {
            b"U8" => Question::Utf8,
            b"NM" => Question::Name,
            b"SI" => Question::SnapshotId,
            b"SN" => Question::StrictName,
            b"CC" => Question::Control,
            b"WS" => Question::Whitespace,
            b"SL" => Question::Slot,
            b"IN" => Question::Incarnation,
            b"NX" => Question::Next,
            b"EP" => Question::Epoch,
            b"ND" => Question::NodeId,
            b"ID" => Question::Identity,
            b"TR" => Question::TableBytes,
            b"AR" => Question::AttestationBytes,
            b"VT" => Question::Validity,
            b"WR" => Question::Writing,
            b"SC" => Question::Successor,
            b"RT" => Question::Retired,
            b"CM" => Question::Command,
            b"OV" => Question::Observation,
            _ => return None,
        })
    }
}

// `??` where the mark names no question.
impl fmt::Display for Mark {
    fn fmt<W: fmt::Write>(&self, f: &mut fmt::Formatter<W>) -> fmt::Result {
        if self.question().is_none() {
            return write!(f, "??");
        }
        let [first, second] = self.0;
        write!(f, "{}{}", char::from(first), char::from(second))
    }
}
