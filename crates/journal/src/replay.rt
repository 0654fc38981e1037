// The marks of records.
//
// Document 01, section "Replay program". No part of the original has them.
ghost use Rattle.std.specs.Prelude.{◌≡◌};
ghost use Rattle.journal.specs.Records.{is_known_mark, mark_of, mark_text};

// The mark of a record, as its two bytes say; any other two are `Unknown`, and so is a mark that is
// cut short. `Unknown` is a mark and no `None`: it is printed, as ??.
#[derive(Clone, Copy, PartialEq, Eq)]
pub enum Mark {
    Tb,
    Mk,
    Ad,
    Bg,
    Ob,
    Unknown,
}

// The mark that two bytes are.
impl From<[u8; 2]> for Mark {
    ghost use Rattle.std.specs.Prelude.{◌≡◌};
    ghost use Rattle.journal.specs.Records.{mark_of};

    ghost from_gives = { λ text mark. mark ≡ mark_of text };

    #[tactic(auto, unfolding(crate::specs::Records::mark_of))]
    fn from(text: [u8; 2]) -> Mark {
        if text == *b"TB" {
            Mark::Tb
        } else if text == *b"MK" {
            Mark::Mk
        } else if text == *b"AD" {
            Mark::Ad
        } else if text == *b"BG" {
            Mark::Bg
        } else if text == *b"OB" {
            Mark::Ob
        } else {
            Mark::Unknown
        }
    }
}

impl Mark {
    // Whether the mark is one of the five.
    pub fn is_known(self) -> bool
        ensures { result ≡ is_known_mark self }
    {
        !matches!(self, Mark::Unknown)
    }

    // What is printed of a mark. It is no `From`, since a mark is not turned into its two bytes: of an
    // unknown one others are printed than were read.
    pub fn text(self) -> [u8; 2]
        ensures { result ≡ mark_text self }
    {
        match self {
            Mark::Tb => *b"TB",
            Mark::Mk => *b"MK",
            Mark::Ad => *b"AD",
            Mark::Bg => *b"BG",
            Mark::Ob => *b"OB",
            Mark::Unknown => *b"??",
        }
    }
}
