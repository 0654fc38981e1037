// The record at the front of some bytes: a mark of two bytes, a size of two, the body.
//
// Document 01, section "Replay program". No part of the original has it.
ghost use Rattle.std.specs.Prelude.{◌≤◌, ◌≡◌, length};
ghost use Rattle.journal.specs.Play.{cut_short, record_at};

use crate::bodies::sized_bytes;
use crate::replay::Mark;
use reader::reader::Reader;

// Bytes before the body: the mark and the size.
pub const HEAD: usize = 2 + 2;

// Most bytes of a body: its size has 16 bits.
pub const MOST_BODY: usize = 65535;

// What stands at a place of the bytes: a whole record, one that ends the reading, or none, which
// takes no bytes. It is a `Record` too and no `Option`, as the definition `record_at` has it, so that one
// loop plays what is found without asking first.
#[derive(Clone, Copy)]
pub struct Record {
    // The mark that is printed.
    pub mark: Mark,
    // The mark by which it is played. A record that is broken has `Unknown`, by whose arm it is a bad
    // record.
    pub asks: Mark,
    // Where its body begins, and where it ends: the next record is looked for at the end.
    pub body: usize,
    pub end: usize,
    // The record ends the reading.
    pub ends: bool,
}

// The record at a place. `last`: no bytes come after these.
#[tactic(auto, using(crate::specs::RecordLaws::record_short, crate::specs::RecordLaws::record_unknown, crate::specs::RecordLaws::record_cut, crate::specs::RecordLaws::record_whole))]
pub fn record_at(input: &[u8], at: usize, last: bool) -> Record
    requires { at ≤ length input.now }
    ensures { result ≡ record_at input.now at last }
{
    let bytes = &input[at..];
    let mut reader = Reader::new(bytes);
    let Ok(text) = reader.array::<2>() else {
        return cut_short(Mark::Unknown, last & !bytes.is_empty(), at, input.len());
    };
    let mark = Mark::from(text);
    if !mark.is_known() {
        return cut_short(mark, true, at, input.len());
    }
    let Ok(body) = sized_bytes(&mut reader) else {
        return cut_short(mark, last, at, input.len());
    };
    Record {
        mark,
        asks: mark,
        body: at + HEAD,
        end: at + HEAD + body.len(),
        ends: false,
    }
}

// A record that is cut short, or of no known mark: it takes all the bytes that are left, where it
// ends the reading, and else none, since more may come.
fn cut_short(mark: Mark, ends: bool, at: usize, len: usize) -> Record
    ensures { result ≡ cut_short mark ends at len }
{
    let end = if ends { len } else { at };
    Record {
        mark,
        asks: Mark::Unknown,
        body: end,
        end,
        ends,
    }
}
