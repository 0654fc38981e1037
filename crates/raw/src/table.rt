// Table values in the bodies of questions: the raw form of oracle/FORMAT.md, 8,062 bytes that are
// carried as pieces, and the table that they stand for. Every field has its place, so that a table
// may be invalid in every way.
use crate::crc::crc32;
use crate::fields::Fields;
use crate::form::Raw;
use crate::place::RawPlace;
use crate::room::Room;
use records::records::VoterSlotTable;

// The bytes of the raw form.
pub const TABLE_SIZE: usize = 8062;

// The table that the next pieces of a body make.
pub fn sparse_table(fields: &mut Fields) -> Option<VoterSlotTable> {
    let mut table = VoterSlotTable::default();
    fill_table(&mut table, fields)?;
    Some(table)
}

// The table that the pieces of a body make, where nothing comes after them.
pub fn last_table(mut fields: Fields) -> Option<VoterSlotTable> {
    let table = sparse_table(&mut fields)?;
    fields.end()?;
    Some(table)
}

// The same two in a place that is lent, of which every field is filled: a function pays for the size of
// each table that it returns.
pub fn fill_table(table: &mut VoterSlotTable, fields: &mut Fields) -> Option<()> {
    let mut raw = [0; TABLE_SIZE];
    lay_pieces(&mut raw, fields)?;
    table.fill(&mut Fields::of(&raw))
}

pub fn fill_last_table(table: &mut VoterSlotTable, mut fields: Fields) -> Option<()> {
    fill_table(table, &mut fields)?;
    fields.end()
}

// Lays the next pieces of a body over what is lent.
fn lay_pieces(raw: &mut [u8; TABLE_SIZE], fields: &mut Fields) -> Option<()> {
    let mut free = 0;
    for _ in 0..fields.u16()? {
        free = lay_piece(raw, free, fields)?;
    }
    Some(())
}

// Lays one piece, an offset, a size and the bytes, and gives its end. It begins where the one
// before it ended, or later.
fn lay_piece(raw: &mut [u8; TABLE_SIZE], free: usize, fields: &mut Fields) -> Option<usize> {
    let offset = usize::from(fields.u16()?);
    let size = usize::from(fields.u16()?);
    if offset < free {
        return None;
    }
    let end = offset + size;
    let piece = fields.part(size)?;
    raw.get_mut(offset..end)?.copy_from_slice(piece);
    Some(end)
}

// The table that the bytes stand for: none where a flag is neither 0 nor 1, also in absent parts.
pub fn table_in(raw: &[u8; TABLE_SIZE]) -> Option<VoterSlotTable> {
    RawPlace::read(&mut Fields::of(raw))
}

// The table that the bytes stand for, whatever they are: a flag that is not 1 is a no. All fields are
// there, since the bytes are as many as those of the raw form.
pub fn table_of(raw: &[u8; TABLE_SIZE]) -> VoterSlotTable {
    RawPlace::read(&mut Fields::of_any(raw)).unwrap_or_default()
}

// The checksum of a value's raw form, which is laid to the start of `raw`: it stands for the value in
// a reply. Only the tests call it: it stays for callers in Rust, who have types of their own.
pub fn raw_checksum<T: Raw>(value: &T, raw: &mut [u8]) -> u64 {
    Raw::write(value, &mut Room::of(raw));
    u64::from(crc32(raw))
}

// The same of a value that is filled where it lies, for the programs.
pub fn raw_place_checksum<T: RawPlace>(value: &T, raw: &mut [u8]) -> u64 {
    value.write(&mut Room::of(raw));
    u64::from(crc32(raw))
}
