// What a command does to a table that is known to be valid: refused, nothing, or which change is to
// be made.
//
// Ported from crates/opc-consensus/src/voter_slots/control.rs of openpacketcore-sdk, commit
// 717de332e7, Apache-2.0 (see NOTICE). Changed: a step is judged before anything is made, and what
// the successor check would find in the changed table stands here as tests of the evidence
// (specs/Judgement.antt). But for `judge_advance` and `judge_snapshot`, which have an arm for
// another question each, a judge makes all its tests before it picks the first refusal: a call
// after many early returns counts as cold to the compiler, which then copies the table for it.
//
// A judge is given the table by value, and takes an array or a record out by a `let` before it
// compares it, as in begin.rt and request.rt: one that is compared where it lies must lie in memory,
// so that the table is copied, and the thin call of an Advance takes two to five times as long.
ghost use Rattle.std.specs.Prelude.{◌≡◌, cond, false, not, ◌||◌};
ghost use Rattle.records.specs.Evidence.{follows, in_order};
ghost use Rattle.records.specs.With.{present};
ghost use Rattle.control.specs.Control.{is_completed, is_receipt_of};
ghost use Rattle.control.specs.Judgement.{judge_advance, judge_caught_up, judge_continuation, judge_fence, judge_finalize, judge_marker, judge_open, judge_snapshot, judge_step};
ghost use Rattle.control.specs.Verdicts.{answer_of, verdict_of};

use crate::control::*;
use identity::answer::{Answer, Refusal};
use identity::identity::ConsensusRequestId;
use records::evidence::{is_in_order, log_id_follows};
use records::records::*;

// What a command that is not refused does to the table: nothing, or which change.
#[derive(Clone, Copy)]
pub enum Judged {
    Keep,
    Begin,
    RecordSnapshot,
    RecordCaughtUp,
    Continue,
    Fence,
    Finalize,
}

// The answer of a call that was so judged. It is not one function with `answer_of_observed` of
// observe.rt: both are public, each with the clause of its own definition.
pub fn answer_of(judged: Result<Judged, Refusal>) -> Answer
    ensures { result ≡ answer_of (verdict_of judged) }
{
    judged.and(Ok(()))
}

// The arm `Marker` of `apply_control`. A full revision is not tested: nothing is changed.
//
// The id and the digest by which a command names its request are two parameters, here and in
// request.rt. Document 01's records have them as two fields, so that a struct of the two would be put
// together for each call.
#[tactic(auto, unfolding(crate::specs::Judgement::judge_marker, crate::specs::Control::is_open_request))]
pub fn judge_marker(
    table: VoterSlotTable,
    request_id: ConsensusRequestId,
    request_digest: [u8; 32],
) -> Result<Judged, Refusal>
    ensures { verdict_of result ≡ judge_marker table request_id request_digest }
{
    let open_id = table.replacement.attestation.request_id;
    let open_digest = table.replacement.attestation.request_digest;
    let id = open_id == request_id;
    let digest = open_digest == request_digest;
    let phase = table.replacement.phase;
    let named = (table.has_replacement & id) & digest;
    let catching_up = (phase == LEARNER_ADDED) | (phase == CAUGHT_UP);
    if named & catching_up {
        Ok(Judged::Keep)
    } else {
        Err(Refusal::InvalidTransition)
    }
}

// `advance`. The revision is tested before all else, also where nothing would change. The slots are
// searched for a receipt only where no request is open: the search takes longer than most steps.
#[tactic(auto, unfolding(crate::specs::Judgement::judge_advance))]
pub fn judge_advance(table: VoterSlotTable, advance: VoterAdvance) -> Result<Judged, Refusal>
    ensures { verdict_of result ≡ judge_advance table advance.request_id advance.request_digest advance.step advance.cut }
{
    let request_id = advance.request_id;
    let request_digest = advance.request_digest;
    let step = advance.step;
    let cut = advance.cut;
    if table.revision == u64::MAX {
        return Err(Refusal::RevisionExhausted);
    }
    if table.has_replacement {
        return judge_open(table, request_id, request_digest, step, cut);
    }
    let completed = is_completed(table, request_id, request_digest);
    if (step.kind == FINALIZE) & completed {
        Ok(Judged::Keep)
    } else {
        Err(Refusal::StaleIncarnation)
    }
}

// Whether a slot has the completed receipt of that request. All nine places are passed by their
// index, and a slot is taken out by value: with an iterator over the slots, of which the table must
// lie in memory, the thin call of an Advance takes four times as long.
fn is_completed(table: VoterSlotTable, id: ConsensusRequestId, digest: [u8; 32]) -> bool
    ensures { result ≡ is_completed table id digest }
{
    let mut none = true;
    for i in 0..MAX_FIXED_VOTER_SLOTS {
        let slot = table.slots[i];
        let receipt = is_receipt_of(slot, id, digest);
        none = none & ((table.count <= i) | !receipt);
    }
    !none
}

// The slot has the completed receipt of that request.
fn is_receipt_of(slot: VoterSlotRecord, id: ConsensusRequestId, digest: [u8; 32]) -> bool
    ensures { result ≡ is_receipt_of id digest slot }
{
    let held_id = slot.last_result.request_id;
    let held_digest = slot.last_result.request_digest;
    let same_id = held_id == id;
    let same_digest = held_digest == digest;
    ((slot.has_last_result & same_id) & same_digest) & (slot.last_result.kind == COMPLETED)
}

// The open request is the one that the command names, and the cut lies after its beginning. It is given
// the four parts of an Advance, and not the Advance, whose parts are then copied once more.
#[tactic(auto, unfolding(crate::specs::Judgement::judge_open))]
fn judge_open(
    table: VoterSlotTable,
    request_id: ConsensusRequestId,
    request_digest: [u8; 32],
    step: VoterReplacementStep,
    cut: VoterSlotLogId,
) -> Result<Judged, Refusal>
    ensures { verdict_of result ≡ judge_open table request_id request_digest step cut }
{
    let open_id = table.replacement.attestation.request_id;
    let open_digest = table.replacement.attestation.request_digest;
    let id = open_id == request_id;
    let digest = open_digest == request_digest;
    let prepare = table.replacement.evidence.prepare;
    let judged = judge_step(table, step, cut);
    let early = (cut.index <= prepare.index) | (cut.term < prepare.term);
    if !id {
        Err(Refusal::StaleIncarnation)
    } else if !digest {
        Err(Refusal::IdempotencyConflict)
    } else if early {
        Err(Refusal::InvalidTransition)
    } else {
        judged
    }
}

// The arms of `advance`, by the kind of the step.
#[tactic(auto, unfolding(crate::specs::Judgement::judge_step))]
fn judge_step(
    table: VoterSlotTable,
    step: VoterReplacementStep,
    cut: VoterSlotLogId,
) -> Result<Judged, Refusal>
    ensures { verdict_of result ≡ judge_step table step cut }
{
    let snapshot = step.snapshot;
    let mark = step.caught_up;
    let kind = step.kind;
    match kind {
        RECORD_SNAPSHOT => judge_snapshot(table, snapshot, cut),
        RECORD_CAUGHT_UP => judge_caught_up(table, mark, cut),
        RECORD_CONTINUATION => judge_continuation(table, cut),
        FENCE => judge_fence(table, cut),
        _ => judge_finalize(table, cut),
    }
}

// The arm `RecordSnapshot` of `advance`.
#[tactic(auto, unfolding(records::specs::Equality::all_true, records::specs::Equality::same_voter_snapshot_evidence, records::specs::Equality::same_voter_slot_log_id, records::specs::Equality::same_snapshot_id, crate::specs::Judgement::judge_snapshot))]
fn judge_snapshot(
    table: VoterSlotTable,
    snapshot: VoterSnapshotEvidence,
    cut: VoterSlotLogId,
) -> Result<Judged, Refusal>
    ensures { verdict_of result ≡ judge_snapshot table snapshot cut }
{
    if table.replacement.evidence.has_snapshot {
        let held = table.replacement.evidence.snapshot;
        return if held == snapshot {
            Ok(Judged::Keep)
        } else {
            Err(Refusal::IdempotencyConflict)
        };
    }
    let id = snapshot.snapshot_id;
    let at = snapshot.cut;
    let prepare = table.replacement.evidence.prepare;
    let continuation = table.replacement.evidence.continuation;
    let valid = id.is_valid();
    let later = log_id_follows(at, prepare, true);
    let fits = fits_continuation(continuation, at, true);
    let due = (table.replacement.phase == PREPARED)
        & ((at.index < cut.index) & (at.term <= cut.term));
    if due & (valid & (later & fits)) {
        Ok(Judged::RecordSnapshot)
    } else {
        Err(Refusal::InvalidTransition)
    }
}

// A cut that is added to the evidence is in order with the continuation, if there is one.
pub fn fits_continuation(
    continuation: OptionalLogId,
    cut: VoterSlotLogId,
    is_snapshot: bool,
) -> bool
    ensures { result ≡ (not continuation.is_some || in_order continuation.cut (present cut) is_snapshot) }
{
    let continued = continuation.cut;
    let added = OptionalLogId { is_some: true, cut };
    let fits = is_in_order(continued, added, is_snapshot);
    !continuation.is_some | fits
}

// The arm `RecordCaughtUp` of `advance`.
#[tactic(auto, unfolding(records::specs::Equality::all_true, records::specs::Equality::same_voter_slot_log_id, crate::specs::Judgement::judge_caught_up))]
fn judge_caught_up(
    table: VoterSlotTable,
    mark: VoterSlotLogId,
    cut: VoterSlotLogId,
) -> Result<Judged, Refusal>
    ensures { verdict_of result ≡ judge_caught_up table mark cut }
{
    let phase = table.replacement.phase;
    let caught_up = table.replacement.evidence.caught_up;
    let held = caught_up.cut;
    let learner = table.replacement.evidence.learner.cut;
    let continuation = table.replacement.evidence.continuation;
    let same = held == mark;
    let later = follows_mark(caught_up, mark, learner);
    let fits = fits_continuation(continuation, mark, false);
    let catching_up = (phase == LEARNER_ADDED) | (phase == CAUGHT_UP);
    let due = catching_up & ((mark.term == cut.term) & (mark.index < cut.index));
    if caught_up.is_some & same {
        Ok(Judged::Keep)
    } else if due & (later & fits) {
        Ok(Judged::RecordCaughtUp)
    } else {
        Err(Refusal::InvalidTransition)
    }
}

// A mark after the one that is there, or else after the learner's cut.
fn follows_mark(caught_up: OptionalLogId, mark: VoterSlotLogId, learner: VoterSlotLogId) -> bool
    ensures { result ≡ follows mark (cond caught_up.is_some caught_up.cut learner) false }
{
    if caught_up.is_some {
        let held = caught_up.cut;
        return log_id_follows(mark, held, false);
    }
    log_id_follows(mark, learner, false)
}

// The arm `RecordContinuation` of `advance`.
#[tactic(auto, unfolding(crate::specs::Judgement::judge_continuation))]
fn judge_continuation(table: VoterSlotTable, cut: VoterSlotLogId) -> Result<Judged, Refusal>
    ensures { verdict_of result ≡ judge_continuation table cut }
{
    let phase = table.replacement.phase;
    let snapshot_cut = table.replacement.evidence.snapshot.cut;
    let snapshot = OptionalLogId {
        is_some: table.replacement.evidence.has_snapshot,
        cut: snapshot_cut,
    };
    let learner = table.replacement.evidence.learner;
    let caught_up = table.replacement.evidence.caught_up;
    let fits_snapshot = is_in_order(cut, snapshot, true);
    let fits_learner = is_in_order(cut, learner, false);
    let fits_caught_up = is_in_order(cut, caught_up, false);
    if table.replacement.evidence.continuation.is_some {
        Ok(Judged::Keep)
    } else if (phase < FENCED) & (fits_snapshot & (fits_learner & fits_caught_up)) {
        Ok(Judged::Continue)
    } else {
        Err(Refusal::InvalidTransition)
    }
}

// The arm `Fence` of `advance`.
#[tactic(auto, unfolding(crate::specs::Judgement::judge_fence))]
fn judge_fence(table: VoterSlotTable, cut: VoterSlotLogId) -> Result<Judged, Refusal>
    ensures { verdict_of result ≡ judge_fence table cut }
{
    let phase = table.replacement.phase;
    let caught_up = table.replacement.evidence.caught_up;
    let mark = caught_up.cut;
    let continuation = table.replacement.evidence.continuation;
    let continued = continuation.cut;
    let after_mark = log_id_follows(cut, mark, false);
    let after_continuation = log_id_follows(cut, continued, false);
    let due = (phase == CAUGHT_UP) & (caught_up.is_some & (mark.term == cut.term));
    let later = after_mark & (!continuation.is_some | after_continuation);
    if FENCED <= phase {
        Ok(Judged::Keep)
    } else if due & later {
        Ok(Judged::Fence)
    } else {
        Err(Refusal::InvalidTransition)
    }
}

// The arm `Finalize` of `advance`.
#[tactic(auto, unfolding(crate::specs::Judgement::judge_finalize))]
fn judge_finalize(table: VoterSlotTable, cut: VoterSlotLogId) -> Result<Judged, Refusal>
    ensures { verdict_of result ≡ judge_finalize table cut }
{
    let uniform = table.replacement.evidence.uniform.cut;
    let later = log_id_follows(cut, uniform, false);
    if (table.replacement.phase == UNIFORM) & later {
        Ok(Judged::Finalize)
    } else {
        Err(Refusal::InvalidTransition)
    }
}
