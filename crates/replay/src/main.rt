// The replay program: a log of records from standard input, a line for each to standard output.
//
// Document 01, section "Replay program". What a record means and what is printed of it is decided
// by the crate `journal`, which is proved; this program moves the bytes. It reads what there is,
// plays the whole records in it, and writes what is due before it reads again, so that it works
// through a pipe by hand. Memory is constant: the buffers below hold the longest record.

#![tactic(auto)]

ghost use Rattle.std.specs.Prelude.{◌+◌, ◌-◌, ◌≤◌, ◌≡◌, length, take, drop, IfSome};
ghost use Rattle.journal.specs.Play.{play_of};

use journal::play::*;
use std::io::{ErrorKind, Read};

// The bytes that are read and not played yet lie from `start` to `held`; `last`: no more will come. They
// are two places and no slice: a slice that is lent would keep the buffer from being read into.
//
// The buffer and this are passed on as two parameters. In one struct the buffer of 128 KB would be moved
// with it, or a struct that lends the buffer be made anew for each turn.
#[derive(Clone, Copy)]
struct Input {
    start: usize,
    held: usize,
    last: bool,
}

// Room for the longest record, of 65,539 bytes, and for as much again to be read at once.
const INPUT_SIZE: usize = 131072;

// Room for 992 lines.
const OUTPUT_SIZE: usize = 65536;

fn main(rt: HostRuntime) {
    let mut input = [0u8; INPUT_SIZE];
    let mut output = [0u8; OUTPUT_SIZE];
    let mut from = rt.stdin();
    if put(b"replay 1\n", &rt) {
        run(&mut input, &mut output, &mut from, &rt);
    }
}

// Plays to the end of the input. The turns are counted, since nothing says that the input ends.
fn run(
    input: &mut [u8; INPUT_SIZE],
    output: &mut [u8; OUTPUT_SIZE],
    from: &mut impl Read,
    rt: &(impl Print + Eprint),
) {
    let mut journal = new_journal();
    let mut at = Input {
        start: 0,
        held: 0,
        last: false,
    };
    for _ in 0..u64::MAX {
        let played = play_part(journal, input, at, output);
        if !write_part(output, played.written, rt) {
            break;
        }
        journal = played.journal;
        at.start += played.read;
        if journal.ended | (at.last & (played.read == 0)) {
            break;
        }
        if played.read == 0 {
            let Some(next) = refill(input, at, from, rt) else {
                break;
            };
            at = next;
        }
    }
}

// Plays what is held, and no more.
fn play_part(journal: Journal, input: &[u8], at: Input, output: &mut [u8]) -> Played
    requires { (at.start ≤ at.held) × (at.held ≤ length input.now) }
    ensures { (((result.answer, (result.read, (result.written, result.journal))), output.new) ≡ play_of journal (take (at.held - at.start) (drop at.start input.now)) at.last output.old) × ((at.start + result.read ≤ at.held) × (result.written ≤ length output.new)) }
{
    play(journal, &input[at.start..at.held], at.last, output)
}

fn write_part(output: &[u8], written: usize, rt: &(impl Print + Eprint)) -> bool
    requires { written ≤ length output.now }
{
    put(&output[..written], rt)
}

// An output that takes no more ends the program. Where nobody reads it, that is no fault, and
// nothing is said of it.
fn put(bytes: &[u8], rt: &(impl Print + Eprint)) -> bool {
    match rt.write_all(bytes) {
        Ok(()) => true,
        Err(error) => {
            if error.kind() != ErrorKind::BrokenPipe {
                let _ = eprintln!(rt; "replay: standard output: {error}");
            }
            false
        }
    }
}

// Moves what is left to the front, and reads once; none where the read failed, so that what is cut
// short by it is not played. A read that is interrupted brings nothing, and is tried again after a turn
// in which nothing is ready.
fn refill(
    input: &mut [u8; INPUT_SIZE],
    at: Input,
    from: &mut impl Read,
    rt: &impl Eprint,
) -> Option<Input>
    requires { (at.start ≤ at.held) × (at.held ≤ 131072) }
    ensures { IfSome result (λ to. (to.start ≡ 0) × ((to.held ≤ 131072) × (at.held - at.start ≤ to.held))) × (take (at.held - at.start) input.new ≡ take (at.held - at.start) (drop at.start input.old)) }
{
    let held = shift(input, at.start, at.held);
    let more = read_more(input, held, from, rt)?;
    Some(Input {
        start: 0,
        held: held + more.unwrap_or(0),
        last: more == Some(0),
    })
}

// How many bytes a read brought: the inner `Option` is none where the read was interrupted. The outer one
// is none where the read failed, and then that is written to standard error.
fn read_more(
    input: &mut [u8],
    held: usize,
    from: &mut impl Read,
    rt: &impl Eprint,
) -> Option<Option<usize>>
    requires { held ≤ length input.old }
    ensures { IfSome result (λ read. IfSome read (λ more. held + more ≤ length input.new)) × (take held input.new ≡ take held input.old) }
{
    match from.read(&mut input[held..]) {
        Ok(more) => Some(Some(more)),
        Err(error) => {
            if error.kind() == ErrorKind::Interrupted {
                return Some(None);
            }
            let _ = eprintln!(rt; "replay: standard input: {error}");
            None
        }
    }
}

// The bytes from start to end, at the front: how many.
fn shift(input: &mut [u8], start: usize, end: usize) -> usize
    requires { (start ≤ end) × (end ≤ length input.old) }
    ensures { (result ≡ end - start) × (take result input.new ≡ take result (drop start input.old)) }
{
    input.copy_within(start..end, 0);
    end - start
}
