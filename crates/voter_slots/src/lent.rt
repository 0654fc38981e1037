// Calls on a table value that the caller lends: what each says, or why it refuses, and the table
// afterwards. A call that is refused leaves the table as it was.
//
// Nobody has read a table that is lent, so it may be any value. A command asks first whether it is
// valid: a valid one goes the way of the calls over bytes, and of any other only the refusal is left to
// find. An observation and the retired test are document 01's entry points.
ghost use Rattle.std.specs.Prelude.{◌*◌, ◌≤◌, cond, ◌≡◌, length, IfOk};
ghost use Rattle.identity.specs.Answer.{Accepted, InvalidTransition, Unrepresentable};
ghost use Rattle.identity.specs.Answer.{number_of, number_of_refusal};
ghost use Rattle.records.specs.Validation.{validate};
ghost use Rattle.journal.specs.declared.replay.Mark.TheVariants.{Ad, Bg, Mk, Ob};
ghost use Rattle.journal.specs.Replay.{asking};
ghost use Rattle.journal.specs.Step.{Makes, answer_of_called, made_by};
ghost use Rattle.voter_slots.specs.Calls.{mark_of};
ghost use Rattle.voter_slots.specs.Export.{said};
ghost use Rattle.voter_slots.specs.Lent.{asked_at, refusal_at, table_apply_of, table_observe_of, table_read_of, table_retired_of, table_write_of, told};

use crate::call::*;
use crate::result::*;
use codec::codec::fill_voter_slot_table;
use control::observe::observe_membership_in_place;
use control::representable::{is_representable_request, is_representable_step};
use control::retired::is_retired;
use identity::answer::Refusal;
use journal::bodies::*;
use journal::observation::{IdRoom, MOST_IDS};
use journal::record::MOST_BODY;
use journal::step::*;
use records::records::VoterSlotTable;
use records::validation::validate_table;

// ---- reading and writing

// Reads a table into the one that is lent.
#[tactic(auto, unfolding(crate::specs::Lent::read_over))]
pub fn read_over(table: &mut VoterSlotTable, bytes: &[u8]) -> Result<VoterSlotsResult, Refusal>
    ensures gives { (said result, table.new) ≡ table_read_of table.old bytes.now }
    ensures good { IfOk result (λ r. r.answer ≡ 0) }
{
    let mut read = VoterSlotTable::default();
    fill_voter_slot_table(bytes, &mut read)?;
    *table = read;
    Ok(numbers_of(read, bytes.len()))
}

// Writes the table that is lent: its validity is asked first.
#[tactic(auto, using(codec::specs::EntryLaws::encode_refuses), unfolding(crate::specs::Export::written_by))]
pub fn write_lent(table: VoterSlotTable, out: &mut [u8]) -> Result<VoterSlotsResult, Refusal>
    ensures gives { (said result, out.new) ≡ table_write_of table out.old }
    ensures good { IfOk result (λ r. r.answer ≡ 0) }
{
    validate_table(table)?;
    write_table(table, out)
}

// ---- commands

// Applies a command to the table that is lent.
pub fn apply_to(
    table: &mut VoterSlotTable,
    mark: u32,
    body: &[u8],
) -> Result<VoterSlotsResult, Refusal>
    ensures gives { (said result, table.new) ≡ table_apply_of table.old mark body.now }
    ensures good { IfOk result (λ r. r.answer ≡ 0) }
{
    let asks = command_of(mark, body.len());
    if validate_table(*table).is_err() {
        return Err(refuse_command(table.is_representable(), asks, body));
    }
    let called = judge_body(*table, asks, body);
    carry_out_at(table, body, called)
}

// What was judged of a valid table is made. That it is valid is a clause, as of `judge_body`.
fn carry_out_at(
    valid: &mut VoterSlotTable,
    body: &[u8],
    called: Called,
) -> Result<VoterSlotsResult, Refusal>
    requires { (Makes valid.old body.now called) × ((validate valid.old ≡ Accepted) × (validate (made_by valid.old body.now called) ≡ Accepted)) }
    ensures gives { (said result, valid.new) ≡ told (answer_of_called called, made_by valid.old body.now called) }
    ensures good { IfOk result (λ r. r.answer ≡ 0) }
{
    answer_of_called(called)?;
    if is_change(called) {
        *valid = make_record(*valid, body, called);
    }
    Ok(numbers_of(*valid, 0))
}

// The refusal of a command at a table that is not valid. `fits`: it passes the representability check.
#[tactic(auto, unfolding(crate::specs::Lent::refusal_at))]
fn refuse_command(fits: bool, asks: Option<CommandKind>, body: &[u8]) -> Refusal
    ensures { number_of_refusal result ≡ refusal_at fits (asking (mark_of asks) body.now) }
{
    match asks {
        Some(CommandKind::Marker) => refuse_marker(fits, body),
        Some(CommandKind::Advance) => refuse_advance(fits, body),
        Some(CommandKind::Begin) => refuse_begin(fits, body),
        None => Refusal::BadRecord,
    }
}

// The refusal of a marker at a table that is not valid.
#[tactic(auto, using(crate::specs::LentLaws::marker_fits), unfolding(crate::specs::Lent::refusal_at, journal::specs::Replay::marker_asked))]
fn refuse_marker(fits: bool, body: &[u8]) -> Refusal
    ensures { number_of_refusal result ≡ refusal_at fits (asking Mk body.now) }
{
    if read_marker(body).is_none() {
        return Refusal::BadRecord;
    }
    invalid(fits)
}

// The refusal of an Advance at a table that is not valid.
#[tactic(auto, using(journal::proofs::StepLaws::fits_advance), unfolding(crate::specs::Lent::refusal_at))]
fn refuse_advance(fits: bool, body: &[u8]) -> Refusal
    ensures { number_of_refusal result ≡ refusal_at fits (asking Ad body.now) }
{
    let Some(advance) = read_advance(body) else {
        return Refusal::BadRecord;
    };
    invalid(fits & is_representable_step(advance.step))
}

// The refusal of a Begin at a table that is not valid: that of its attestation's reader comes first.
#[tactic(auto, using(journal::proofs::StepLaws::fits_begin), unfolding(crate::specs::Lent::refusal_at))]
fn refuse_begin(fits: bool, body: &[u8]) -> Refusal
    ensures { number_of_refusal result ≡ refusal_at fits (asking Bg body.now) }
{
    match read_begin(body) {
        None => Refusal::BadRecord,
        Some(Err(refusal)) => refusal,
        Some(Ok(begin)) => invalid(fits & is_representable_request(begin.request)),
    }
}

// A table that is not valid: 25, unless something is not representable.
fn invalid(fits: bool) -> Refusal
    ensures { number_of_refusal result ≡ number_of (cond fits InvalidTransition Unrepresentable) }
{
    if fits {
        return Refusal::InvalidTransition;
    }
    Refusal::Unrepresentable
}

// ---- observations

// Applies an observation to the table that is lent: a usual body has a small room, which is cleared in
// less time.
pub fn observe_at(table: &mut VoterSlotTable, body: &[u8]) -> Result<VoterSlotsResult, Refusal>
    ensures gives { (said result, table.new) ≡ table_observe_of table.old body.now }
    ensures good { IfOk result (λ r. r.answer ≡ 0) }
{
    if MOST_BODY < body.len() {
        return Err(Refusal::BadRecord);
    }
    if body.len() <= USUAL_BODY {
        return observe_body::<USUAL_IDS>(table, body);
    }
    observe_body::<MOST_IDS>(table, body)
}

// With room for so many ids.
#[tactic(auto, unfolding(crate::specs::Lent::asked_at, journal::specs::Replay::answered))]
fn observe_body<const N: usize>(
    table: &mut VoterSlotTable,
    body: &[u8],
) -> Result<VoterSlotsResult, Refusal>
    requires { (N ≤ 576460752303423487) × (length body.now ≤ 8 * N) }
    ensures gives { (said result, table.new) ≡ asked_at (asking Ob body.now) table.old }
    ensures good { IfOk result (λ r. r.answer ≡ 0) }
{
    let mut room = IdRoom::<N>::new();
    let observation = room.read(body).ok_or(Refusal::BadRecord)?;
    observe_membership_in_place(table, observation)?;
    Ok(numbers_of(*table, 0))
}

// ---- the retired test

// Whether the table says that a node must not count any more, as a number.
pub fn retired_in(table: VoterSlotTable, node: u64) -> u32
    ensures { result ≡ table_retired_of table node }
{
    retired_number(is_retired(table, node))
}
