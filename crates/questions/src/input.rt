// One question after another from the input.
ghost use Rattle.std.specs.Prelude.{◌≤◌, length};

use crate::question::Mark;
use raw::fields::Fields;
use std::io::{ErrorKind, Read};

// The longest body of a question.
pub const LONGEST_BODY: usize = 70000;

// The bytes of a mark and a size.
const HEAD: usize = 2 + 4;

// What is asked next.
#[derive(Clone, Copy)]
pub struct Asked<'a> {
    pub mark: Mark,
    // The body; none where it is cut short or has no room, and then nothing more is read.
    pub body: Option<&'a [u8]>,
}

// The next question, its body laid to the start of `buffer`; none where the input ends.
pub fn next_question<'a>(buffer: &'a mut [u8], input: &mut impl Read) -> Option<Asked<'a>> {
    let mut head = [0; HEAD];
    let got = read_full(input, &mut head);
    if got == 0 {
        return None;
    }
    let mut fields = Fields::of(&head[..got]);
    // One byte is no mark: two zeros name no question.
    let mark = Mark(fields.array().unwrap_or([0; 2]));
    let body = match fields.u32() {
        Some(size) => read_part(input, buffer, size as usize),
        None => None,
    };
    Some(Asked { mark, body })
}

// Reads so many bytes to the start of the buffer.
fn read_part<'a>(input: &mut impl Read, buffer: &'a mut [u8], size: usize) -> Option<&'a [u8]> {
    let part = buffer.get_mut(..size)?;
    if read_full(input, part) < size {
        return None;
    }
    Some(part)
}

// Reads until the buffer is full, the input ends or a read fails: how many bytes came. A read that
// is interrupted is tried again; the turns are counted, since nothing says that one is not.
fn read_full(input: &mut impl Read, buffer: &mut [u8]) -> usize
    ensures { result ≤ length buffer.new }
{
    let mut done = 0;
    for _ in 0..u64::MAX {
        if buffer.len() <= done {
            break;
        }
        match input.read(&mut buffer[done..]) {
            Ok(0) => break,
            Ok(more) => done += more,
            Err(error) => {
                if error.kind() != ErrorKind::Interrupted {
                    break;
                }
            }
        }
    }
    done
}
