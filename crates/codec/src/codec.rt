// The entry points of the bytes.
//
// Ported from crates/opc-consensus/src/voter_slots/codec.rs of openpacketcore-sdk, commit
// 717de332e7, Apache-2.0 (see NOTICE). Changed: each reading has a second form, whose answer comes
// with a table, the blank one with a refusal; the writer fills a buffer that is lent, and makes the
// representability check first.
ghost use Rattle.std.specs.Prelude.{◌≤◌, ◌≡◌, length};
ghost use Rattle.identity.specs.Answer.{number_of, number_of_refusal};
ghost use Rattle.identity.specs.Answer.{Accepted};
ghost use Rattle.format.specs.Res.Res.{no};
ghost use Rattle.records.specs.Blank.{blank_voter_slot_table, blank_lost_voter_attestation_v1};
ghost use Rattle.records.specs.Validation.{validate};
ghost use Rattle.layout.specs.Reading.{report, outcome};
ghost use Rattle.layout.specs.Told.{told_whole, told_whole_at};
ghost use Rattle.codec.specs.Codec.{table_bytes, decoded, decode_voter_slot_table, decode_lost_voter_attestation, encode_voter_slot_table, restart_outcome};

use identity::answer::{Answer, Refusal};
use layout::parts::MAX_LOST_VOTER_ATTESTATION_BYTES;
use reader::decode::fill_whole_attestation;
use reader::reader::Reader;
use records::records::{LostVoterAttestationV1, VoterSlotTable};
use records::validation::validate_table;
use writer::encode::{put_table, table_size};

// Hard ceiling for one complete durable slot table, independent of application size.
pub const MAX_VOTER_SLOT_TABLE_BYTES: usize = 65536;

// An answer, and the table that was read. The answer stands beside the table and is no `Result` with
// it, since document 01 has a refused reading give the blank table, all zero.
//
// What was read of an attestation is a struct of its own, and each of the two has a reader of each
// form (`read_..`, `decode_..`, `fill_..`): the field's name says what was read, and document 01 has
// an entry point for each of the two.
#[derive(Clone, Copy)]
pub struct DecodedTable {
    pub answer: Answer,
    pub table: VoterSlotTable,
}

// An answer, and the attestation that was read. They stand beside each other as a table and its
// answer do: a refused reading gives the blank attestation, all zero.
#[derive(Clone, Copy)]
pub struct DecodedAttestation {
    pub answer: Answer,
    pub attestation: LostVoterAttestationV1,
}

// `decode_voter_slot_table`: the bound, the fields, nothing left over, and then validity. What the
// fields hold passes the representability check, so that is not made again.
pub fn read_voter_slot_table(bytes: &[u8]) -> Result<VoterSlotTable, Refusal>
    ensures { told_whole result (length bytes.now) ≡ decode_voter_slot_table bytes.now }
{
    let mut table = VoterSlotTable::default();
    fill_voter_slot_table(bytes, &mut table)?;
    Ok(table)
}

// The reading that answers with a table in every case. The table is read where it stands, and not
// taken out of the answer of `read_voter_slot_table`: that copies its 8 KB once more, and an idle table
// takes 8 percent longer.
pub fn decode_voter_slot_table(bytes: &[u8]) -> DecodedTable
    ensures { (number_of result.answer, result.table) ≡ decoded blank_voter_slot_table (decode_voter_slot_table bytes.now) }
{
    let mut table = VoterSlotTable::default();
    let answer = fill_voter_slot_table(bytes, &mut table);
    DecodedTable { answer, table }
}

// What `read_voter_slot_table` and `decode_voter_slot_table` share, and what the exports read by: the
// table is read into a place whose content does not matter. Refused, the place is blank: it is blanked
// in that case alone, so that a table that is accepted takes no longer.
#[tactic(auto, unfolding(crate::specs::Codec::decoded))]
pub fn fill_voter_slot_table(bytes: &[u8], table: &mut VoterSlotTable) -> Result<(), Refusal>
    ensures read { told_whole_at result table.new (length bytes.now) ≡ decode_voter_slot_table bytes.now }
    ensures blank { (number_of result, table.new) ≡ decoded blank_voter_slot_table (decode_voter_slot_table bytes.now) }
{
    let answer = read_in_place(bytes, table);
    if answer.is_err() {
        *table = Default::default();
    }
    answer
}

// The same, but for what stands in the place after a refusal: what was read up to there.
#[tactic(auto, using(format::specs::ReadsMore::reads_whole, crate::specs::EntryLaws::gate_accepts, crate::specs::EntryLaws::gate_refuses), unfolding(crate::specs::Codec::decode_voter_slot_table, crate::specs::Codec::bounded, format::specs::Num::pick, format::specs::Res::and_then))]
fn read_in_place(bytes: &[u8], table: &mut VoterSlotTable) -> Result<(), Refusal>
    ensures { told_whole_at result table.new (length bytes.now) ≡ decode_voter_slot_table bytes.now }
{
    if MAX_VOTER_SLOT_TABLE_BYTES < bytes.len() {
        return Err(Refusal::TooLarge);
    }
    let mut input = Reader::new(bytes);
    input.table(table)?;
    input.finish()?;
    table.validate()
}

// What a refused reading answers: the refusal, with the blank table.
#[tactic(auto, unfolding(crate::specs::Codec::decoded))]
fn no_table(refusal: Refusal) -> DecodedTable
    ensures { (number_of result.answer, result.table) ≡ decoded blank_voter_slot_table (no (number_of_refusal refusal)) }
{
    DecodedTable {
        answer: Err(refusal),
        table: VoterSlotTable::default(),
    }
}

// `decode_lost_voter_attestation`: the bound, the fields, nothing left over, and the attestation's
// own rule.
pub fn read_lost_voter_attestation(bytes: &[u8]) -> Result<LostVoterAttestationV1, Refusal>
    ensures { told_whole result (length bytes.now) ≡ decode_lost_voter_attestation bytes.now }
{
    let mut attestation = LostVoterAttestationV1::default();
    fill_lost_voter_attestation(bytes, &mut attestation)?;
    Ok(attestation)
}

// The reading that answers with an attestation in every case, the blank one with a refusal.
pub fn decode_lost_voter_attestation(bytes: &[u8]) -> DecodedAttestation
    ensures { (number_of result.answer, result.attestation) ≡ decoded blank_lost_voter_attestation_v1 (decode_lost_voter_attestation bytes.now) }
{
    let mut attestation = LostVoterAttestationV1::default();
    let answer = fill_lost_voter_attestation(bytes, &mut attestation);
    DecodedAttestation {
        answer,
        attestation,
    }
}

// What `read_lost_voter_attestation` and `decode_lost_voter_attestation` share: the attestation is read
// into a place whose content does not matter. Refused, the place is blank, as that of a table is.
#[tactic(auto, unfolding(crate::specs::Codec::decoded))]
pub fn fill_lost_voter_attestation(
    bytes: &[u8],
    attestation: &mut LostVoterAttestationV1,
) -> Result<(), Refusal>
    ensures read { told_whole_at result attestation.new (length bytes.now) ≡ decode_lost_voter_attestation bytes.now }
    ensures blank { (number_of result, attestation.new) ≡ decoded blank_lost_voter_attestation_v1 (decode_lost_voter_attestation bytes.now) }
{
    let answer = read_attestation_in_place(bytes, attestation);
    if answer.is_err() {
        *attestation = Default::default();
    }
    answer
}

// The same, but for what stands in the place after a refusal. It is blanked before the bound is
// tested: so it is not blanked twice where the caller has just made it.
#[tactic(auto, unfolding(crate::specs::Codec::decode_lost_voter_attestation, crate::specs::Codec::bounded, format::specs::Num::pick))]
fn read_attestation_in_place(
    bytes: &[u8],
    attestation: &mut LostVoterAttestationV1,
) -> Result<(), Refusal>
    ensures { told_whole_at result attestation.new (length bytes.now) ≡ decode_lost_voter_attestation bytes.now }
{
    *attestation = LostVoterAttestationV1::default();
    if MAX_LOST_VOTER_ATTESTATION_BYTES < bytes.len() {
        return Err(Refusal::TooLarge);
    }
    fill_whole_attestation(bytes, attestation)
}

// The table's bytes at the start of the buffer, and their count; refused, nothing is written: the
// size is computed before the first byte is put.
pub fn encode_voter_slot_table(buffer: &mut [u8], table: VoterSlotTable) -> Result<usize, Refusal>
    ensures { (report result, buffer.new) ≡ outcome buffer.old (encode_voter_slot_table table buffer.old) }
{
    validate_table(table)?;
    if buffer.len() < table_size(table) {
        return Err(Refusal::BufferTooShort);
    }
    Ok(put_table(buffer, 0, table))
}

// The table is written, and the bytes counted are read again. The second clause follows from the
// first: where the buffer has room, a valid table is returned as it was.
pub fn restart(buffer: &mut [u8], table: VoterSlotTable) -> DecodedTable
    ensures outcome { ((number_of result.answer, result.table), buffer.new) ≡ restart_outcome table buffer.old }
    ensures same { validate table ≡ Accepted → length (table_bytes table) ≤ length buffer.old → (number_of result.answer ≡ 0) × (result.table ≡ table) }
{
    match encode_voter_slot_table(buffer, table) {
        Ok(n) => decode_voter_slot_table(&buffer[..n]),
        Err(refusal) => no_table(refusal),
    }
}
