// The next table of each step of an Advance. Each is made of a table that is known to be valid and
// of an Advance that was judged to change it, so nothing is tested again; the revision has room
// (specs/VerdictLaws.antt says where that comes from).
//
// Ported from crates/opc-consensus/src/voter_slots/control.rs (the arms of `advance`) of
// openpacketcore-sdk, commit 717de332e7, Apache-2.0 (see NOTICE). Changed: apart from the tests, as
// functions of their own. Numbers are stored where they lie; a record is stored whole, made of
// parts that were taken out first, which the compiler does not copy. So a record names each of its
// parts and has no `..base`, which would be taken out where the record is made.
//
// What a maker asks of its table stands in a clause of each, also in begin.rt and observe.rt: that
// the revision is not full, or `Room`, by which the slot being replaced is there too. As the ghost
// field of a struct of a table it would be no plainer: makers are called in some two dozen places,
// each with a table that was judged there, so each would put the struct together for one call. And a
// table that the struct lends must lie in memory, for which a thin call copies it (as in judge.rt).
ghost use Rattle.std.specs.Prelude.{◌≡◌};
ghost use Rattle.records.specs.With.{with_snapshot};
ghost use Rattle.control.specs.Control.{caught_up_recorded, continued, fenced_at, finalized, full, snapshot_recorded};
ghost use Rattle.control.specs.ObserveSight.{Room};

use crate::control::VoterAdvance;
use records::records::*;
use records::successor::slot_index;

// The arm `RecordContinuation` of `advance`.
pub fn continue_table(table: VoterSlotTable, advance: VoterAdvance) -> VoterSlotTable
    requires { table.revision ≡ full → ⊥ }
    ensures { result ≡ continued table advance.cut }
{
    let mut next = table;
    next.replacement.evidence.continuation.is_some = true;
    next.replacement.evidence.continuation.cut.term = advance.cut.term;
    next.replacement.evidence.continuation.cut.index = advance.cut.index;
    next.has_replacement = true;
    next.revision = table.revision + 1;
    next
}

// The arm `Fence` of `advance`.
pub fn fence_table(table: VoterSlotTable, advance: VoterAdvance) -> VoterSlotTable
    requires { table.revision ≡ full → ⊥ }
    ensures { result ≡ fenced_at table advance.cut }
{
    let mut next = table;
    next.replacement.evidence.fence.is_some = true;
    next.replacement.evidence.fence.cut.term = advance.cut.term;
    next.replacement.evidence.fence.cut.index = advance.cut.index;
    next.replacement.phase = FENCED;
    next.has_replacement = true;
    next.revision = table.revision + 1;
    next
}

// The arm `RecordCaughtUp` of `advance`.
pub fn catch_up_table(table: VoterSlotTable, advance: VoterAdvance) -> VoterSlotTable
    requires { table.revision ≡ full → ⊥ }
    ensures { result ≡ caught_up_recorded table advance.step.caught_up }
{
    let mut next = table;
    next.replacement.evidence.caught_up.is_some = true;
    next.replacement.evidence.caught_up.cut.term = advance.step.caught_up.term;
    next.replacement.evidence.caught_up.cut.index = advance.step.caught_up.index;
    next.replacement.phase = CAUGHT_UP;
    next.has_replacement = true;
    next.revision = table.revision + 1;
    next
}

// The arm `RecordSnapshot` of `advance`.
pub fn snapshot_table(table: VoterSlotTable, advance: VoterAdvance) -> VoterSlotTable
    requires { table.revision ≡ full → ⊥ }
    ensures { result ≡ snapshot_recorded table advance.step.snapshot }
{
    let mut next = table;
    let attestation = table.replacement.attestation;
    let predecessor = table.replacement.predecessor;
    let successor = table.replacement.successor;
    let snapshot = advance.step.snapshot;
    let old = table.replacement.evidence;
    let evidence = with_snapshot(old, snapshot);
    let operation = VoterReplacementRecord {
        expected_revision: table.replacement.expected_revision,
        attestation,
        predecessor,
        successor,
        phase: SNAPSHOT_INSTALLED,
        evidence,
    };
    next.replacement = operation;
    next.has_replacement = true;
    next.revision = table.revision + 1;
    next
}

// The evidence with the snapshot in it.
fn with_snapshot(
    old: VoterReplacementEvidence,
    snapshot: VoterSnapshotEvidence,
) -> VoterReplacementEvidence
    ensures { result ≡ with_snapshot old snapshot }
{
    let prepare = old.prepare;
    let learner = old.learner;
    let caught_up = old.caught_up;
    let continuation = old.continuation;
    let fence = old.fence;
    let joint = old.joint;
    let uniform = old.uniform;
    VoterReplacementEvidence {
        prepare,
        has_snapshot: true,
        snapshot,
        learner,
        caught_up,
        continuation,
        fence,
        joint,
        uniform,
    }
}

// The arm `Finalize` of `advance`: the slot being replaced gets the completed receipt, and no
// request is open any more.
#[tactic(auto, unfolding(crate::specs::Control::finalized_slot))]
pub fn finalize_table(table: VoterSlotTable, advance: VoterAdvance) -> VoterSlotTable
    requires { Room table }
    ensures { result ≡ finalized table advance.cut }
{
    let mut next = table;
    let at = slot_index(table, table.replacement.attestation.slot);
    let mut slots = table.slots;
    let mut slot = slots[at];
    let request_id = table.replacement.attestation.request_id;
    let request_digest = table.replacement.attestation.request_digest;
    let cut = advance.cut;
    let revision = table.revision + 1;
    let receipt = VoterReplacementResult {
        request_id,
        request_digest,
        incarnation: slot.member.identity.incarnation,
        revision,
        configuration_epoch: table.configuration_epoch,
        kind: COMPLETED,
        terminal: cut,
    };
    slot.has_last_result = true;
    slot.last_result = receipt;
    slots[at] = slot;
    let blank = VoterReplacementRecord::default();
    next.replacement = blank;
    next.has_replacement = false;
    next.revision = revision;
    next.slots = slots;
    next
}
