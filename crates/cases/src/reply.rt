// The reply to each question: none where the body is not of the question's form.
use crate::bytes::{read_attestation, read_table, write_table};
use identity::answer::Refusal;
use identity::identity::*;
use identity::text::*;
use questions::question::Question;
use questions::reply::Reply;
use raw::fields::Fields;
use raw::table::{fill_last_table, fill_table};
use records::records::VoterSlotTable;
use records::successor::validate_successor_of;
use records::validation::validate_table;

// Where a question has its own form of body, the function that answers it reads the body.
pub fn reply_to(question: Question, body: &[u8]) -> Option<Reply> {
    match question {
        Question::Utf8 => Some(is_utf8(body).into()),
        Question::Name => Some(is_name(body).into()),
        Question::SnapshotId => Some(is_snapshot_id(body).into()),
        Question::StrictName => Some(is_strict_name(body).into()),
        Question::TableBytes => read_table(body),
        Question::AttestationBytes => Some(read_attestation(body)),
        Question::Validity => validity(body),
        Question::Writing => write_table(body),
        Question::Successor => successor(body),
        _ => {
            let mut fields = Fields::of(body);
            let reply = reply_to_numbers(question, &mut fields)?;
            fields.end()?;
            Some(reply)
        }
    }
}

// The answer of the test for validity. The body is one raw table.
fn validity(body: &[u8]) -> Option<Reply> {
    let mut table = VoterSlotTable::default();
    fill_last_table(&mut table, Fields::of(body))?;
    Some(validate_table(table).into())
}

// The answer of the successor check. The body is the new raw table and the old one.
fn successor(body: &[u8]) -> Option<Reply> {
    let mut fields = Fields::of(body);
    let mut new = VoterSlotTable::default();
    let mut old = VoterSlotTable::default();
    fill_table(&mut new, &mut fields)?;
    fill_last_table(&mut old, fields)?;
    Some(validate_successor_of(new, old).into())
}

// The reply to a question whose body is one number, or two.
fn reply_to_numbers(question: Question, fields: &mut Fields) -> Option<Reply> {
    Some(match question {
        Question::Control => is_control(fields.u32()?).into(),
        Question::Whitespace => is_whitespace(fields.u32()?).into(),
        Question::Slot => validate_slot_id(fields.u16()?).into(),
        Question::Incarnation => validate_voter_incarnation(fields.u64()?).into(),
        Question::Next => next_voter_incarnation(fields.u64()?).into(),
        Question::Epoch => is_configuration_epoch(fields.u64()?).into(),
        Question::NodeId => node_id(fields.u16()?, fields.u64()?).into(),
        Question::Identity => VoterSlotIdentity::from_node_id(fields.u64()?).into(),
        _ => return None,
    })
}

// The node id of a slot's incarnation, or the refusal of the first call that refuses.
fn node_id(slot: u16, incarnation: u64) -> Result<u64, Refusal> {
    VoterSlotIdentity::new(slot, incarnation)?.node_id()
}
