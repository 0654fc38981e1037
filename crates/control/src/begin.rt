// A Begin on a table that is known to be valid: judged, and then made.
//
// Ported from crates/opc-consensus/src/voter_slots/control.rs (`begin`) of openpacketcore-sdk,
// commit 717de332e7, Apache-2.0 (see NOTICE). Changed: everything is judged before anything is
// made, and the successor check of the table that is made stands here as a test of the cut. All
// parts are judged before the first refusal is picked, as in judge.rt: so the answers are joined by
// `and` in place of `?`.
ghost use Rattle.std.specs.Prelude.{◌<◌, ◌≤◌, ◌≡◌, cond, map};
ghost use Rattle.identity.specs.Answer.{Accepted, IdempotencyConflict};
ghost use Rattle.records.specs.Equality.{eq_bytes};
ghost use Rattle.records.specs.Successor.{first_refusal};
ghost use Rattle.records.specs.Validation.{validate};
ghost use Rattle.control.specs.BeginJudge.{begin_outcome, prepared_at, receipt_left, slot_from};
ghost use Rattle.control.specs.Control.{begun, begun_slots, candidate_check, current_configuration, full, full_check, is_known, known_digest, named_index, open_check, stale_check};
ghost use Rattle.control.specs.Judgement.Verdict.{refused};
ghost use Rattle.control.specs.Judgement.{begin_test, judge_begin};
ghost use Rattle.control.specs.Verdicts.{verdict_of};

use crate::apply::Controlled;
use crate::control::{VoterCommand, VoterReplacementRequest};
use crate::judge::*;
use crate::request::*;
use identity::answer::{Answer, Refusal};
use records::evidence::log_id_follows;
use records::records::*;
use records::successor::place_of;

// A Begin with the cut at which it is committed: what its judge, its maker and its thin call take.
#[derive(Clone, Copy, Default)]
pub struct VoterBegin {
    // The request.
    pub request: VoterReplacementRequest,
    // Engine cut of the command.
    pub cut: VoterSlotLogId,
}

// The Begin that a command holds.
impl From<VoterCommand> for VoterBegin {
    ghost use Rattle.std.specs.Prelude.{◌≡◌};
    ghost use Rattle.control.specs.Verdicts.{begin_in};

    ghost from_gives = { λ command begin. begin ≡ begin_in command.control command.cut };

    fn from(command: VoterCommand) -> VoterBegin {
        let request = command.control.request;
        let cut = command.cut;
        VoterBegin { request, cut }
    }
}

// `begin`, up to the first change of the table.
pub fn judge_begin(table: VoterSlotTable, begin: VoterBegin) -> Result<Judged, Refusal>
    ensures { verdict_of result ≡ judge_begin table begin.request begin.cut }
{
    let request = begin.request;
    let cut = begin.cut;
    let valid = validate_request(&begin.request);
    let check = begin_check(table, request, cut, valid);
    let later = is_later(table, cut);
    let change = later
        .then_some(Judged::Begin)
        .ok_or(Refusal::InvalidTransition);
    let fresh = check.and(change);
    let again = valid.and(Ok(Judged::Keep));
    judge_known_request(table, request, again, fresh)
}

// A request that the open one or a receipt has: again, or 14 with another digest. Else a fresh one.
fn judge_known_request(
    table: VoterSlotTable,
    request: VoterReplacementRequest,
    again: Result<Judged, Refusal>,
    fresh: Result<Judged, Refusal>,
) -> Result<Judged, Refusal>
    ensures { verdict_of result ≡ cond (is_known table request.attestation.request_id) (cond (eq_bytes (known_digest table request.attestation.request_id) request.attestation.request_digest) (verdict_of again) (refused IdempotencyConflict)) (verdict_of fresh) }
{
    let id = request.attestation.request_id;
    let digest = request.attestation.request_digest;
    let open_id = table.replacement.attestation.request_id;
    let same_id = open_id == id;
    let open_digest = table.replacement.attestation.request_digest;
    let own = open_digest == digest;
    let receipt = find_receipt(table, id, digest);
    let open = table.has_replacement & same_id;
    match open.then_some(own).or(receipt) {
        None => fresh,
        Some(true) => again,
        Some(false) => Err(Refusal::IdempotencyConflict),
    }
}

// The tests of a fresh request, in the order of the original, with the request check as it was
// answered.
fn begin_check(
    table: VoterSlotTable,
    request: VoterReplacementRequest,
    cut: VoterSlotLogId,
    valid: Answer,
) -> Answer
    ensures { result ≡ first_refusal (open_check table request cut) (first_refusal valid (first_refusal (stale_check table request) (first_refusal (candidate_check table request) (full_check table)))) }
{
    let open = open_check(table, request, cut);
    let slot = slot_check(table, request);
    let full = full_check(table);
    open.and(valid).and(slot).and(full)
}

// The open request against the one that is to supersede it: 15, 19, 25.
#[tactic(auto, unfolding(crate::specs::Control::open_check))]
fn open_check(
    table: VoterSlotTable,
    request: VoterReplacementRequest,
    cut: VoterSlotLogId,
) -> Answer
    ensures { result ≡ open_check table request cut }
{
    let prepare = table.replacement.evidence.prepare;
    if !table.has_replacement {
        Ok(())
    } else if table.replacement.attestation.slot != request.attestation.slot {
        Err(Refusal::ReplacementInProgress)
    } else if FENCED <= table.replacement.phase {
        Err(Refusal::ReplacementPastFence)
    } else if cut.index <= prepare.index {
        Err(Refusal::InvalidTransition)
    } else {
        Ok(())
    }
}

// A full epoch or revision: 23, 24.
#[tactic(auto, unfolding(crate::specs::Control::full_check))]
fn full_check(table: VoterSlotTable) -> Answer
    ensures { result ≡ full_check table }
{
    let epoch = current_epoch(table);
    if epoch == u64::MAX {
        Err(Refusal::ConfigurationEpochExhausted)
    } else if table.revision == u64::MAX {
        Err(Refusal::RevisionExhausted)
    } else {
        Ok(())
    }
}

// A request that is superseded has all its evidence before this cut.
fn is_later(table: VoterSlotTable, cut: VoterSlotLogId) -> bool
    ensures { result ≡ begin_test table cut }
{
    let evidence = table.replacement.evidence;
    let latest = evidence.latest();
    let later = log_id_follows(cut, latest, false);
    !table.has_replacement | later
}

// The table with the request opened. No test is made again. The request is put together here: made
// by a call of its own, the whole table would be copied once more. What it asks of the table, the count
// too, stands in a clause here and in `begun_slots`, for the reason that make.rt gives.
#[tactic(auto, unfolding(crate::specs::Control::begun_operation, crate::specs::BeginJudge::prepared_at))]
pub fn begin_table(table: VoterSlotTable, begin: VoterBegin) -> VoterSlotTable
    requires { (table.revision ≡ full → ⊥) × (((current_configuration table).epoch ≡ full → ⊥) × ((table.count ≤ 9) × (named_index table begin.request < table.count))) }
    ensures { result ≡ begun table begin.request begin.cut }
{
    let mut next = table;
    let slots = begun_slots(table, begin);
    let attestation = begin.request.attestation;
    let cut = begin.cut;
    let predecessor = current_configuration(table);
    let members = members_of(slots);
    let epoch = predecessor.epoch + 1;
    let successor = VoterConfiguration {
        epoch,
        members,
        count: table.count,
    };
    let evidence = prepared_at(cut);
    let operation = VoterReplacementRecord {
        expected_revision: begin.request.expected_revision,
        attestation,
        predecessor,
        successor,
        phase: PREPARED,
        evidence,
    };
    let revision = table.revision + 1;
    next.slots = slots;
    next.replacement = operation;
    next.has_replacement = true;
    next.revision = revision;
    next
}

// The first slot of that number gets the candidate. (Found here and not by `slot_index`, so that
// the slots are copied once.)
fn begun_slots(table: VoterSlotTable, begin: VoterBegin) -> [VoterSlotRecord; MAX_FIXED_VOTER_SLOTS]
    requires { (table.revision ≡ full → ⊥) × ((table.count ≤ 9) × (named_index table begin.request < table.count)) }
    ensures { result ≡ begun_slots table begin.request begin.cut }
{
    let number = begin.request.attestation.slot;
    let mut slots = table.slots;
    if let Some(at) = place_of(&slots[..table.count], number) {
        let old = slots[at];
        slots[at] = begun_slot(table, begin, old);
    }
    slots
}

// The slot with the candidate: the incarnation before it is retired.
fn begun_slot(table: VoterSlotTable, begin: VoterBegin, old: VoterSlotRecord) -> VoterSlotRecord
    requires { table.revision ≡ full → ⊥ }
    ensures { result ≡ slot_from table begin.request begin.cut old }
{
    let member = begin.request.candidate;
    let cut = begin.cut;
    let last_result = left_receipt(table, cut, old);
    VoterSlotRecord {
        member,
        retired_through: begin.request.attestation.expected_incarnation,
        phase: PENDING,
        has_last_result: table.has_replacement | old.has_last_result,
        last_result,
    }
}

// A request that is superseded leaves its receipt; else the slot keeps the one that it has.
fn left_receipt(
    table: VoterSlotTable,
    cut: VoterSlotLogId,
    old: VoterSlotRecord,
) -> VoterReplacementResult
    requires { table.revision ≡ full → ⊥ }
    ensures { result ≡ receipt_left table cut old }
{
    if table.has_replacement {
        let request_id = table.replacement.attestation.request_id;
        let request_digest = table.replacement.attestation.request_digest;
        let revision = table.revision + 1;
        return VoterReplacementResult {
            request_id,
            request_digest,
            incarnation: old.member.identity.incarnation,
            revision,
            configuration_epoch: table.configuration_epoch,
            kind: SUPERSEDED,
            terminal: cut,
        };
    }
    old.last_result
}

// `current_configuration`.
#[tactic(auto, unfolding(crate::specs::Control::current_configuration))]
fn current_configuration(table: VoterSlotTable) -> VoterConfiguration
    ensures { result ≡ current_configuration table }
{
    if table.has_replacement & (table.replacement.phase < UNIFORM) {
        let predecessor = table.replacement.predecessor;
        return predecessor;
    }
    let slots = table.slots;
    let members = members_of(slots);
    VoterConfiguration {
        epoch: table.configuration_epoch,
        members,
        count: table.count,
    }
}

// The members of the slots, place by place. A loop and no `map`: that takes each slot, of 200 bytes, out
// of an iterator by value.
fn members_of(
    slots: [VoterSlotRecord; MAX_FIXED_VOTER_SLOTS],
) -> [VoterSlotMember; MAX_FIXED_VOTER_SLOTS]
    ensures { result ≡ map (λ s. s.member) slots }
{
    let mut members = [VoterSlotMember::default(); MAX_FIXED_VOTER_SLOTS];
    for i in 0..MAX_FIXED_VOTER_SLOTS {
        let slot = slots[i];
        members[i] = slot.member;
    }
    members
}

// The evidence of a request that has just begun.
#[tactic(auto, unfolding(crate::specs::BeginJudge::prepared_at))]
fn prepared_at(cut: VoterSlotLogId) -> VoterReplacementEvidence
    ensures { result ≡ prepared_at cut }
{
    let snapshot = VoterSnapshotEvidence::default();
    let none = OptionalLogId::default();
    VoterReplacementEvidence {
        prepare: cut,
        has_snapshot: false,
        snapshot,
        learner: none,
        caught_up: none,
        continuation: none,
        fence: none,
        joint: none,
        uniform: none,
    }
}

// A Begin, by value, for a Rust caller that holds its table so. The caller has tested that the cut has
// no zero and that the command is representable (`checked_of` accepted); then the answer is
// `apply_control`'s (`valid-begin`).
pub fn begin(mut table: VoterSlotTable, begin: VoterBegin) -> Controlled
    requires { validate table ≡ Accepted }
    ensures { (result.answer, result.table) ≡ begin_outcome table begin }
{
    let answer = begin_in_place(&mut table, begin);
    Controlled { answer, table }
}

// `begin` on a table that is lent: the caller has made the same tests.
#[tactic(auto, unfolding(crate::specs::Judgement::carried, crate::specs::BeginJudge::begin_made))]
pub fn begin_in_place(table: &mut VoterSlotTable, begin: VoterBegin) -> Answer
    requires { validate table.old ≡ Accepted }
    ensures { (result, table.new) ≡ begin_outcome table.old begin }
{
    if let Judged::Begin = judge_begin(*table, begin)? {
        *table = begin_table(*table, begin);
    }
    Ok(())
}
