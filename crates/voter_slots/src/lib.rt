// The service's boundary: functions over numbers and bytes, for Rust and C.
//
// A table crosses as its bytes; a command or an observation as the body of document 01's replay
// record; an answer as its number. No part of the original has these functions: its callers hand over
// values. Each reads the table, so that what follows works on a valid one, and writes at the end.

#![tactic(auto)]

ghost use Rattle.std.specs.Prelude.{◌≡◌};
ghost use Rattle.voter_slots.specs.Calls.{apply_of, observe_of};
ghost use Rattle.voter_slots.specs.Export.{read_of, retired_of, write_of};

use crate::call::*;
use crate::result::*;
use identity::answer::Refusal;
use journal::observation::MOST_IDS;
use journal::record::MOST_BODY;

pub mod call;
pub mod lent;
pub mod result;
pub mod table;

// The retired test's no and yes.
pub const NOT_RETIRED: u32 = 100;

pub const RETIRED: u32 = 101;

// Reads a table and says what a service asks of it.
#[unsafe(no_mangle)]
pub extern "C" fn voter_slots_read(table: &[u8]) -> VoterSlotsResult
    ensures { result ≡ read_of table.now }
{
    said(read_bytes(table))
}

// Reads a table and writes it again.
#[unsafe(no_mangle)]
pub extern "C" fn voter_slots_write(table: &[u8], out: &mut [u8]) -> VoterSlotsResult
    ensures { (result, out.new) ≡ write_of table.now out.old }
{
    said(write_bytes(table, out))
}

// Applies a command to a table, and writes the table afterwards.
#[unsafe(no_mangle)]
pub extern "C" fn voter_slots_apply(
    table: &[u8],
    mark: u32,
    body: &[u8],
    out: &mut [u8],
) -> VoterSlotsResult
    ensures { (result, out.new) ≡ apply_of table.now mark body.now out.old }
{
    said(apply_bytes(table, mark, body, out))
}

// Applies an observation to a table, and writes the table afterwards.
#[unsafe(no_mangle)]
pub extern "C" fn voter_slots_observe(table: &[u8], body: &[u8], out: &mut [u8]) -> VoterSlotsResult
    ensures { (result, out.new) ≡ observe_of table.now body.now out.old }
{
    if MOST_BODY < body.len() {
        return refused(Err(Refusal::BadRecord));
    }
    if body.len() <= USUAL_BODY {
        return said(observe_bytes::<USUAL_IDS>(table, body, out));
    }
    said(observe_bytes::<MOST_IDS>(table, body, out))
}

// Whether a table says that a node must not count any more: `NOT_RETIRED`, `RETIRED`, or the number of
// a refusal.
#[unsafe(no_mangle)]
pub extern "C" fn voter_slots_retired(table: &[u8], node: u64) -> u32
    ensures { result ≡ retired_of table.now node }
{
    retired_number(retired_bytes(table, node))
}
