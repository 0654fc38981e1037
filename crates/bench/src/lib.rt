// What the benchmark times: calls of the layers below, exported to Rust with nothing around them.
// `bench_reading` has reading.

#![tactic(auto)]

ghost use Rattle.std.specs.Prelude.{◌≡◌};
ghost use Rattle.identity.specs.Text.{is_utf8, is_name, is_snapshot_id};

use codec::codec::encode_voter_slot_table;
use identity::answer::{Answer, Refusal, number};
use raw::table::{TABLE_SIZE, table_of};
use records::blank::are_blank;
use records::records::VoterSlotTable;
use records::successor::validate_successor_of;
use records::validation::validate_table;

#[unsafe(no_mangle)]
pub extern "C" fn bench_is_utf8(bytes: &[u8]) -> bool
    ensures { result ≡ is_utf8 bytes.now }
{
    identity::text::is_utf8(bytes)
}

#[unsafe(no_mangle)]
pub extern "C" fn bench_is_name(bytes: &[u8]) -> bool
    ensures { result ≡ is_name bytes.now }
{
    identity::text::is_name(bytes)
}

#[unsafe(no_mangle)]
pub extern "C" fn bench_is_snapshot_id(bytes: &[u8]) -> bool
    ensures { result ≡ is_snapshot_id bytes.now }
{
    identity::text::is_snapshot_id(bytes)
}

// So many bytes are looked at, so many times, as the representability check does with most of a
// table. One of them is left out in every second turn, so that no turn's result is kept for the
// next.
#[unsafe(no_mangle)]
pub extern "C" fn bench_zeros(bytes: &[u8], turns: u64) -> u64 {
    let mut refused = 0;
    for i in 0..turns {
        let from = (i % 2) as usize;
        if let Some(seen) = bytes.get(from..)
            && !are_blank(seen)
        {
            refused = 1;
        }
    }
    refused
}

// Validity of a table, given in its raw form, so many times: the answers' numbers, joined.
#[unsafe(no_mangle)]
pub extern "C" fn bench_validity(raw: &[u8], turns: u64) -> u64 {
    in_turns(raw, turns, |table| validate_table(table))
}

// The representability check of a table, given in its raw form, so many times: 0 where it passes.
#[unsafe(no_mangle)]
pub extern "C" fn bench_representable(raw: &[u8], turns: u64) -> u64 {
    in_turns(raw, turns, |table| representable(table))
}

// The successor check of two tables, given in their raw form, so many times. The newer one's
// revision is set where it lies: of two tables that take turns each call would get a copy of 8.4
// KB.
#[unsafe(no_mangle)]
pub extern "C" fn bench_successor(new: &[u8], old: &[u8], turns: u64) -> u64 {
    let mut table = table_of_bytes(new);
    let revision = table.revision;
    let older = table_of_bytes(old);
    let mut answers = 0;
    for i in 0..turns {
        // The revision and the next, in turn.
        table.revision = revision.saturating_add(i % 2);
        answers |= number_of(validate_successor_of(table, older));
    }
    answers
}

// Writing a table, given in its raw form, to the same buffer so many times.
#[unsafe(no_mangle)]
pub extern "C" fn bench_encode(raw: &[u8], buffer: &mut [u8], turns: u64) -> u64 {
    in_turns(raw, turns, |table| {
        encode_voter_slot_table(buffer, table).and(Ok(()))
    })
}

// A call on the table that the raw form stands for, so many times: the answers' numbers, joined.
// Two tables take turns, so that no call's result is kept for the next.
fn in_turns<F: FnMut(VoterSlotTable) -> Answer>(raw: &[u8], turns: u64, mut call: F) -> u64
    requires { F.IsAlwaysCallable call }
{
    let even = table_of_bytes(raw);
    let odd = later(even);
    let mut answers = 0;
    for i in 0..turns {
        answers |= number_of(call(if i % 2 == 0 { even } else { odd }));
    }
    answers
}

// The answer's number, as wide as the results that it is joined with.
fn number_of(answer: Answer) -> u64 {
    u64::from(number(answer))
}

// The table with the next revision.
fn later(table: VoterSlotTable) -> VoterSlotTable {
    let mut next = table;
    next.revision = table.revision.saturating_add(1);
    next
}

// 30 where the table does not pass.
fn representable(table: VoterSlotTable) -> Answer {
    table
        .is_representable()
        .then_some(())
        .ok_or(Refusal::Unrepresentable)
}

// The table that the bytes stand for, whatever they are: bytes of the raw form that are missing at the
// end are zeros.
fn table_of_bytes(bytes: &[u8]) -> VoterSlotTable {
    let mut raw = [0; TABLE_SIZE];
    let held = bytes.len().min(TABLE_SIZE);
    raw[..held].copy_from_slice(&bytes[..held]);
    table_of(&raw)
}
