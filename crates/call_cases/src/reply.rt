// The replies about calls on raw tables: the retired test, commands and observations.
use codec::codec::decode_lost_voter_attestation;
use control::apply::apply_control;
use control::control::VoterCommand;
use control::observe::observe_membership;
use control::retired::is_retired;
use identity::answer::Answer;
use questions::question::Question;
use questions::reply::{Reply, number};
use raw::fields::Fields;
use raw::table::{TABLE_SIZE, fill_last_table, last_table, raw_place_checksum};
use raw_calls::record::*;
use records::records::VoterSlotTable;

// Room for the ids of any record: one of 65,535 bytes has fewer.
const MOST_IDS: usize = 8192;

// Room for the counts of its sets: their number has 8 bits.
const MOST_SETS: usize = 256;

// The reply to each question: none where the body is not of the question's form.
pub fn reply_to(question: Question, body: &[u8]) -> Option<Reply> {
    let fields = Fields::of(body);
    match question {
        Question::Retired => retired(fields),
        Question::Command => {
            let (mark, body, table) = called(fields)?;
            command(&mark, body, table)
        }
        Question::Observation => match called(fields)? {
            ([b'O', b'B'], body, table) => observe(body, table),
            _ => None,
        },
        _ => None,
    }
}

// The body is a node id and one raw table.
fn retired(mut fields: Fields) -> Option<Reply> {
    let node = fields.u64()?;
    let mut table = VoterSlotTable::default();
    fill_last_table(&mut table, fields)?;
    Some(is_retired(table, node).into())
}

// A record's mark and its body, and the raw table that comes after it.
fn called<'a>(mut fields: Fields<'a>) -> Option<([u8; 2], &'a [u8], VoterSlotTable)> {
    let mark = fields.array()?;
    let size = usize::from(fields.u16()?);
    let body = fields.part(size)?;
    Some((mark, body, last_table(fields)?))
}

// The reply about a command of any kind: none where the mark is no command's.
fn command(mark: &[u8; 2], body: &[u8], table: VoterSlotTable) -> Option<Reply> {
    match mark {
        b"BG" => begin(body, table),
        b"AD" => Some(apply(table, advance_in(body)?)),
        b"MK" => Some(apply(table, marker_in(body)?)),
        _ => None,
    }
}

// The reply about a Begin. Its attestation is read by `decode_lost_voter_attestation`, and no `?` on a
// `Result`: document 01's entry point is what is compared with the original.
fn begin(body: &[u8], table: VoterSlotTable) -> Option<Reply> {
    let begin = begin_in(body)?;
    let decoded = decode_lost_voter_attestation(begin.attestation);
    Some(match decoded.answer {
        Err(_) => given_back(decoded.answer, table),
        Ok(()) => apply(table, begin.command(decoded.attestation)),
    })
}

// The reply about a command whose values were read.
fn apply(table: VoterSlotTable, command: VoterCommand) -> Reply {
    let controlled = apply_control(table, command.control, command.cut);
    given_back(controlled.answer, controlled.table)
}

// The reply about an observation.
fn observe(body: &[u8], table: VoterSlotTable) -> Option<Reply> {
    let mut ids = [0; MOST_IDS];
    let mut counts = [0; MOST_SETS];
    let mut nodes = [0; MOST_IDS];
    let observation = observation_in(&mut ids, &mut counts, &mut nodes, body)?;
    let controlled = observe_membership(table, observation);
    Some(given_back(controlled.answer, controlled.table))
}

// The answer, and of the table its revision and the checksum of its raw form.
fn given_back(answer: Answer, table: VoterSlotTable) -> Reply {
    let checksum = raw_place_checksum(&table, &mut [0; TABLE_SIZE]);
    Reply::Triple(number(answer), table.revision, checksum)
}
