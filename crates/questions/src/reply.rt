// The replies to questions, and how they are printed.
use identity::answer::{Answer, Refusal};
use identity::identity::VoterSlotIdentity;
use std::fmt;

// What the line for a question says after its number and its mark.
#[derive(Clone, Copy)]
pub enum Reply {
    // The answer to a question that asks whether something is so.
    YesNo(bool),
    // An answer's number alone, with one number, and with two.
    Number(u64),
    Pair(u64, u64),
    Triple(u64, u64, u64),
    // A table that was read: its revision, the count of its bytes, their checksum, and the checksum
    // of its raw form.
    Table(u64, u64, u64, u64),
    // The body is not of the question's form: a reply too, since it is printed.
    Malformed,
}

// The answer's number, as wide as those that are printed beside it. No `From`, since neither type is
// of this crate.
pub fn number(answer: Answer) -> u64 {
    u64::from(identity::answer::number(answer))
}

impl From<bool> for Reply {
    fn from(yes: bool) -> Reply {
        Reply::YesNo(yes)
    }
}

impl From<Answer> for Reply {
    fn from(answer: Answer) -> Reply {
        Reply::Number(number(answer))
    }
}

// A yes or no, or the number of the refusal.
impl From<Result<bool, Refusal>> for Reply {
    fn from(res: Result<bool, Refusal>) -> Reply {
        match res {
            Ok(yes) => Reply::YesNo(yes),
            Err(refusal) => Reply::Number(refusal as u64),
        }
    }
}

// The answer's number and the value, 0 where the call refuses.
impl From<Result<u64, Refusal>> for Reply {
    fn from(res: Result<u64, Refusal>) -> Reply {
        match res {
            Ok(value) => Reply::Pair(0, value),
            Err(refusal) => Reply::Pair(refusal as u64, 0),
        }
    }
}

// The answer's number, the slot and the incarnation, both 0 where the call refuses.
impl From<Result<VoterSlotIdentity, Refusal>> for Reply {
    fn from(res: Result<VoterSlotIdentity, Refusal>) -> Reply {
        match res {
            Ok(identity) => Reply::Triple(0, u64::from(identity.slot), identity.incarnation),
            Err(refusal) => Reply::Triple(refusal as u64, 0, 0),
        }
    }
}

impl fmt::Display for Reply {
    fn fmt<W: fmt::Write>(&self, f: &mut fmt::Formatter<W>) -> fmt::Result {
        match *self {
            Reply::YesNo(true) => write!(f, "yes"),
            Reply::YesNo(false) => write!(f, "no"),
            Reply::Number(a) => write!(f, "{a}"),
            Reply::Pair(a, b) => write!(f, "{a} {b}"),
            Reply::Triple(a, b, c) => write!(f, "{a} {b} {c}"),
            Reply::Table(a, b, c, d) => write!(f, "0 {a} {b} {c} {d}"),
            Reply::Malformed => write!(f, "{}", Refusal::BadRecord as u8),
        }
    }
}
