// What the exported functions give, and the writing of a table that is known to be valid.
ghost use Rattle.std.specs.Prelude.{◌≤◌, ◌≡◌, IfOk};
ghost use Rattle.identity.specs.Answer.{number_of};
ghost use Rattle.identity.specs.Answer.{Accepted};
ghost use Rattle.records.specs.Blank.{blank_voter_slot_table};
ghost use Rattle.records.specs.Validation.{validate};
ghost use Rattle.codec.specs.Codec.{decoded, decode_voter_slot_table};
ghost use Rattle.control.specs.Retired.{retired_number};
ghost use Rattle.voter_slots.specs.Export.{refused_result, numbers_of, said, written};

use crate::{NOT_RETIRED, RETIRED};
use identity::answer::{Answer, Refusal, number};
use layout::put::put_bytes;
use records::records::VoterSlotTable;
use writer::encode::{put_table, table_size};

// What stands in place of a phase where no request is open.
pub const NO_PHASE: u32 = 255;

// What a call gives. Refused: the answer's number, `NO_PHASE`, and every other number is 0. The answer
// stands beside the numbers, since C has no `Result`.
#[repr(C)]
#[derive(Clone, Copy)]
pub struct VoterSlotsResult {
    pub answer: u32,
    // How many slots the table has.
    pub slots: u32,
    // How many bytes the table takes: those that were read or written.
    pub count: u64,
    pub revision: u64,
    pub epoch: u64,
    // The slot that the open request replaces, 0 where none is open, and its phase.
    pub open_slot: u32,
    pub open_phase: u32,
}

// What a call gives that is refused, by its answer. It is public and takes an `Answer`, though each is a
// refusal: a `From<Refusal>` beside it would only say again what `said` says.
pub fn refused(answer: Answer) -> VoterSlotsResult
    ensures { result ≡ refused_result (number_of answer) }
{
    VoterSlotsResult {
        answer: number(answer) as u32,
        slots: 0,
        count: 0,
        revision: 0,
        epoch: 0,
        open_slot: 0,
        open_phase: NO_PHASE,
    }
}

// What a call says, or why it refuses.
pub fn said(called: Result<VoterSlotsResult, Refusal>) -> VoterSlotsResult
    ensures { result ≡ said called }
{
    match called {
        Ok(said) => said,
        Err(refusal) => refused(Err(refusal)),
    }
}

// The retired test's no or yes, or the number of a refusal.
pub fn retired_number(retired: Result<bool, Refusal>) -> u32
    ensures { result ≡ retired_number retired }
{
    match retired {
        Ok(false) => NOT_RETIRED,
        Ok(true) => RETIRED,
        Err(refusal) => refusal as u32,
    }
}

// What a service asks of a table, and how many bytes it takes. The count of slots is held to nine by a
// clause, for the number in the result: no type does that, since a table may hold any count.
pub fn numbers_of(table: VoterSlotTable, count: usize) -> VoterSlotsResult
    requires { table.count ≤ 9 }
    ensures { result ≡ numbers_of table count }
{
    let mut open_slot: u32 = 0;
    let mut open_phase = NO_PHASE;
    if table.has_replacement {
        open_slot = table.replacement.attestation.slot as u32;
        open_phase = table.replacement.phase as u32;
    }
    VoterSlotsResult {
        answer: 0,
        slots: table.count as u32,
        count: count as u64,
        revision: table.revision,
        epoch: table.configuration_epoch,
        open_slot,
        open_phase,
    }
}

// Writes a valid table, without asking again whether it is one. That it is valid is a clause, as of
// `judge_body`.
pub fn write_table(table: VoterSlotTable, out: &mut [u8]) -> Result<VoterSlotsResult, Refusal>
    requires { validate table ≡ Accepted }
    ensures gives { (said result, out.new) ≡ written table out.old }
    ensures good { IfOk result (λ r. r.answer ≡ 0) }
{
    if out.len() < table_size(table) {
        return Err(Refusal::BufferTooShort);
    }
    let count = put_table(out, 0, table);
    Ok(numbers_of(table, count))
}

// Writes the table that these bytes were read as: they are its bytes.
pub fn write_again(
    bytes: &[u8],
    table: VoterSlotTable,
    out: &mut [u8],
) -> Result<VoterSlotsResult, Refusal>
    requires { decoded blank_voter_slot_table (decode_voter_slot_table bytes.now) ≡ (0, table) }
    ensures gives { (said result, out.new) ≡ written table out.old }
    ensures good { IfOk result (λ r. r.answer ≡ 0) }
{
    if out.len() < bytes.len() {
        return Err(Refusal::BufferTooShort);
    }
    let count = put_bytes(out, 0, bytes);
    Ok(numbers_of(table, count))
}
