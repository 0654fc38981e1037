// The calls on a table's bytes. A command by its mark, or an observation, is judged at the table that was
// read; what was judged is made, and written.
ghost use Rattle.std.specs.Prelude.{◌*◌, ◌≤◌, ◌≡◌, length, IfOk};
ghost use Rattle.identity.specs.Answer.{Accepted};
ghost use Rattle.records.specs.Validation.{validate};
ghost use Rattle.journal.specs.declared.replay.Mark.TheVariants.{Ob};
ghost use Rattle.journal.specs.Replay.{asking};
ghost use Rattle.journal.specs.Step.{Judges, Makes, answer_of_called, made_by};
ghost use Rattle.control.specs.Retired.{retired_number};
ghost use Rattle.voter_slots.specs.Calls.{apply_of, asked_of, command_of, is_formed, mark_of, settled};
ghost use Rattle.voter_slots.specs.Export.{ReadAs, read_of, retired_of, said, write_of};

use crate::result::*;
use codec::codec::fill_voter_slot_table;
use control::observe::weigh;
use control::retired::is_retired_in;
use identity::answer::Refusal;
use journal::bodies::*;
use journal::observation::IdRoom;
use journal::record::MOST_BODY;
use journal::step::*;
use records::records::VoterSlotTable;

// The marks of commands, each as the 16-bit number that its two bytes are. They are numbers, since C
// hands in a mark as one, and any other number is refused with 33.
pub const MARKER_MARK: u32 = 19787;

pub const ADVANCE_MARK: u32 = 16708;

pub const BEGIN_MARK: u32 = 16967;

// Room for the ids of a usual observation: with nine slots two sets of nine and ten nodes, 28 in all.
// Room for any takes 64 KB, which are cleared in each call that uses it.
pub const USUAL_IDS: usize = 128;

// A body of so many bytes has no more ids: each takes eight.
pub const USUAL_BODY: usize = 8 * USUAL_IDS;

// A command that a service may ask for. It is a type beside `Mark` of `journal`, which has three marks
// more: those have no arm here.
#[derive(Clone, Copy)]
pub enum CommandKind {
    Marker,
    Advance,
    Begin,
}

// The command that a mark asks for; none where the body is too long for a record.
#[tactic(auto, unfolding(crate::specs::Calls::command_of, crate::specs::Calls::marked_command))]
pub fn command_of(mark: u32, len: usize) -> Option<CommandKind>
    ensures { mark_of result ≡ command_of mark len }
{
    if MOST_BODY < len {
        return None;
    }
    match mark {
        MARKER_MARK => Some(CommandKind::Marker),
        ADVANCE_MARK => Some(CommandKind::Advance),
        BEGIN_MARK => Some(CommandKind::Begin),
        _ => None,
    }
}

// Whether the body is of its form; one whose attestation is refused is.
//
// What is asked and the body are two parameters, here and where either is passed on. They are two
// values of the C call, and each function that is given both takes a `match` on the one alone.
#[tactic(auto, unfolding(journal::specs::Replay::asking))]
pub fn is_formed(asks: Option<CommandKind>, body: &[u8]) -> bool
    ensures { result ≡ is_formed (asking (mark_of asks) body.now) }
{
    match asks {
        Some(CommandKind::Marker) => read_marker(body).is_some(),
        Some(CommandKind::Advance) => read_advance(body).is_some(),
        Some(CommandKind::Begin) => read_begin(body).is_some(),
        None => false,
    }
}

// That the table is valid stays a clause, as of the judges (`judge_marker_body`).
#[tactic(auto, unfolding(journal::specs::Replay::asking, journal::specs::Step::command_verdict))]
pub fn judge_body(table: VoterSlotTable, asks: Option<CommandKind>, body: &[u8]) -> Called
    requires { validate table ≡ Accepted }
    ensures { Judges table (mark_of asks) body.now result }
{
    match asks {
        Some(CommandKind::Marker) => Called::Command(judge_marker_body(table, body)),
        Some(CommandKind::Advance) => Called::Command(judge_advance_body(table, body)),
        Some(CommandKind::Begin) => Called::Command(judge_begin_body(table, body)),
        None => Called::Command(Err(Refusal::BadRecord)),
    }
}

// ---- the calls on a table's bytes: what they say, or why they refuse
//
// Each fills a place with the table. Taken out of a `Result`, its 8 KB would be copied once more.

// What a service asks of the table.
#[tactic(auto, unfolding(crate::specs::Export::read_by))]
pub fn read_bytes(table: &[u8]) -> Result<VoterSlotsResult, Refusal>
    ensures gives { said result ≡ read_of table.now }
    ensures good { IfOk result (λ r. r.answer ≡ 0) }
{
    let mut read = VoterSlotTable::default();
    fill_voter_slot_table(table, &mut read)?;
    Ok(numbers_of(read, table.len()))
}

// The table is written again: the bytes of a table that was read are those that were read.
#[tactic(auto, using(crate::specs::ExportLaws::filled_as), unfolding(crate::specs::Export::with_table))]
pub fn write_bytes(table: &[u8], out: &mut [u8]) -> Result<VoterSlotsResult, Refusal>
    ensures gives { (said result, out.new) ≡ write_of table.now out.old }
    ensures good { IfOk result (λ r. r.answer ≡ 0) }
{
    let mut read = VoterSlotTable::default();
    fill_voter_slot_table(table, &mut read)?;
    write_again(table, read, out)
}

// A command. Where the table is refused, it is asked whether the body is of its form, since 33 comes
// before any other refusal. Where the table is read, `judge_body` finds that out.
pub fn apply_bytes(
    table: &[u8],
    mark: u32,
    body: &[u8],
    out: &mut [u8],
) -> Result<VoterSlotsResult, Refusal>
    ensures gives { (said result, out.new) ≡ apply_of table.now mark body.now out.old }
    ensures good { IfOk result (λ r. r.answer ≡ 0) }
{
    let asks = command_of(mark, body.len());
    let mut before = VoterSlotTable::default();
    if let Err(refusal) = fill_voter_slot_table(table, &mut before) {
        if !is_formed(asks, body) {
            return Err(Refusal::BadRecord);
        }
        return Err(refusal);
    }
    finish(table, before, body, judge_body(before, asks, body), out)
}

// An observation, with room for so many ids: any number below 2^59, of which a type can have an array.
pub fn observe_bytes<const N: usize>(
    table: &[u8],
    body: &[u8],
    out: &mut [u8],
) -> Result<VoterSlotsResult, Refusal>
    requires { (N ≤ 576460752303423487) × (length body.now ≤ 8 * N) }
    ensures gives { (said result, out.new) ≡ asked_of (asking Ob body.now) table.now out.old }
    ensures good { IfOk result (λ r. r.answer ≡ 0) }
{
    let mut room = IdRoom::<N>::new();
    let observation = room.read(body).ok_or(Refusal::BadRecord)?;
    let mut before = VoterSlotTable::default();
    fill_voter_slot_table(table, &mut before)?;
    let observed = weigh(before, observation);
    finish(table, before, body, Called::Observation(observed), out)
}

// Whether a node must not count any more. What was read passes the representability check, so that is
// not asked again.
#[tactic(auto, unfolding(crate::specs::Export::retired_by))]
pub fn retired_bytes(table: &[u8], node: u64) -> Result<bool, Refusal>
    ensures { retired_number result ≡ retired_of table.now node }
{
    let mut read = VoterSlotTable::default();
    fill_voter_slot_table(table, &mut read)?;
    Ok(is_retired_in(read, node))
}

// What was judged is made, and the table afterwards is written.
pub fn finish(
    bytes: &[u8],
    table: VoterSlotTable,
    body: &[u8],
    called: Called,
    out: &mut [u8],
) -> Result<VoterSlotsResult, Refusal>
    requires { (ReadAs bytes.now table) × ((Makes table body.now called) × (validate (made_by table body.now called) ≡ Accepted)) }
    ensures gives { (said result, out.new) ≡ settled (answer_of_called called, made_by table body.now called) out.old }
    ensures good { IfOk result (λ r. r.answer ≡ 0) }
{
    answer_of_called(called)?;
    if is_change(called) {
        return write_table(make_record(table, body, called), out);
    }
    write_again(bytes, table, out)
}
