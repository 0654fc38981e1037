// The text of a line.
//
// Document 01, section "Replay program": record number, mark, answer, revision afterwards. No part
// of the original has it.
ghost use Rattle.std.specs.Prelude.{◌+◌, ◌≤◌, length};
ghost use Rattle.format.specs.Put.{Put};
ghost use Rattle.identity.specs.Answer.{number_of};
ghost use Rattle.journal.specs.Replay.{decimal, line_of};

use crate::replay::Mark;
use identity::answer::{Answer, number};
use layout::put::put_bytes;

// Most digits of a number.
const MOST_DIGITS: usize = 20;

// Most bytes of a line: three numbers, a mark of 2, three spaces and the newline.
pub const LONGEST_LINE: usize = 3 * MOST_DIGITS + 2 + 3 + 1;

// Puts a line at a place of the buffer, which has room for the longest, and gives the place after
// it. It is not printed by `Display`: the contract says which bytes stand where in the buffer that is
// lent. The buffer and the place are two parameters, as of `put_bytes`, to which they are passed on.
pub fn put_line(
    out: &mut [u8],
    at: usize,
    count: u64,
    mark: Mark,
    answer: Answer,
    revision: u64,
) -> usize
    requires { at + 66 ≤ length out.old }
    ensures { Put (line_of count mark (number_of answer) revision) at out.old out.new result }
{
    let text = mark.text();
    let answer = number(answer) as u64;
    let at = put_decimal(out, at, count);
    let at = put_bytes(out, at, b" ");
    let at = put_bytes(out, at, &text);
    let at = put_bytes(out, at, b" ");
    let at = put_decimal(out, at, answer);
    let at = put_bytes(out, at, b" ");
    let at = put_decimal(out, at, revision);
    put_bytes(out, at, b"\n")
}

// Puts the decimal digits of a number.
fn put_decimal(out: &mut [u8], at: usize, number: u64) -> usize
    requires { at + length (decimal number) ≤ length out.old }
    ensures { Put (decimal number) at out.old out.new result }
{
    let mut digits = [0u8; MOST_DIGITS];
    let count = io::decimal(number, &mut digits);
    put_bytes(out, at, &digits[..count])
}
