// The replies about bytes: reading a table or an attestation, and writing a table.
use codec::codec::*;
use questions::reply::Reply;
use raw::crc::crc32;
use raw::fields::Fields;
use raw::table::{TABLE_SIZE, fill_last_table, raw_place_checksum};
use records::records::VoterSlotTable;

// The bytes of the largest table (`ends`).
const LARGEST_TABLE: usize = 8072;

// The longest buffer that a question may ask for.
const LONGEST_BUFFER: usize = 70000;

// The bytes of the raw form of an attestation.
const ATTESTATION_SIZE: usize = 4423;

// The table's bytes are read, written again and read again by a restart, whose table is the one
// that is checked. The reading is `decode_voter_slot_table`, and no `?` on a `Result`: document 01's
// entry point is what is compared with the original.
pub fn read_table(body: &[u8]) -> Option<Reply> {
    let decoded = decode_voter_slot_table(body);
    if decoded.answer.is_err() {
        return Some(decoded.answer.into());
    }
    let table = decoded.table;
    let mut buffer = [0; LARGEST_TABLE];
    let count = encode_voter_slot_table(&mut buffer, table).ok()?;
    let checksum = crc32(buffer.get(..count)?);
    let again = restart(&mut [0; LARGEST_TABLE], table);
    Some(Reply::Table(
        table.revision,
        count as u64,
        u64::from(checksum),
        raw_place_checksum(&again.table, &mut [0; TABLE_SIZE]),
    ))
}

// The attestation's bytes are read, by document 01's entry point as those of a table are.
pub fn read_attestation(body: &[u8]) -> Reply {
    let decoded = decode_lost_voter_attestation(body);
    if decoded.answer.is_err() {
        return decoded.answer.into();
    }
    let checksum = raw_place_checksum(&decoded.attestation, &mut [0; ATTESTATION_SIZE]);
    Reply::Pair(0, checksum)
}

// The body is a buffer's length and one raw table.
pub fn write_table(body: &[u8]) -> Option<Reply> {
    let mut fields = Fields::of(body);
    let length = fields.u32()? as usize;
    let mut table = VoterSlotTable::default();
    fill_last_table(&mut table, fields)?;
    let mut buffer = [0; LONGEST_BUFFER];
    let buffer = buffer.get_mut(..length)?;
    let count = match encode_voter_slot_table(buffer, table) {
        Ok(count) => count,
        Err(refusal) => return Some(Reply::Triple(refusal as u64, 0, 0)),
    };
    let checksum = crc32(buffer.get(..count)?);
    Some(Reply::Triple(0, count as u64, u64::from(checksum)))
}
