// The request of a Begin: whether it is valid, whether the table knows it, and whether it was made
// for this table.
//
// Ported from crates/opc-consensus/src/voter_slots/control.rs (`VoterReplacementRequest::validate`,
// `begin`) of openpacketcore-sdk, commit 717de332e7, Apache-2.0 (see NOTICE). Changed: the caller
// supplies the digest as recomputed and the id of the current configuration. Loops pass all nine
// places, from the last to the first, and a place found later takes the place of one found before;
// it is picked by `then_some` and `or`, since after an `if` in the loop the compiler copies the
// request once more. So it does where the slots in use are searched by `find`: a repeated Begin takes
// twice as long, and a fresh one half as long again.
ghost use Rattle.std.specs.Prelude.{◌≡◌};
ghost use Rattle.records.specs.Successor.{first_refusal};
ghost use Rattle.control.specs.Control.{candidate_check, current_configuration, is_expected, request_check, stale_check, valid_request};
ghost use Rattle.control.specs.BeginJudge.{attested_member, has_digest, has_receipt, named_of, newer_than, receipt_state};

use crate::control::VoterReplacementRequest;
use identity::answer::{Answer, Refusal};
use identity::identity::{ConsensusConfigurationEpoch, ConsensusRequestId, SlotId};
use records::number::is_next;
use records::records::*;

// `VoterReplacementRequest::validate`: 12.
#[tactic(auto, unfolding(crate::specs::Control::request_check))]
pub fn validate_request(request: &VoterReplacementRequest) -> Answer
    ensures { result ≡ request_check request.now }
{
    let valid = is_valid_request(request);
    let supplied = request.supplied_request_digest;
    let attested = request.attestation.request_digest;
    let same = supplied == attested;
    if valid & same {
        Ok(())
    } else {
        Err(Refusal::InvalidLossEvidence)
    }
}

// The claims are valid, and the request says the same as they do.
#[tactic(auto, unfolding(crate::specs::Control::valid_request))]
fn is_valid_request(request: &VoterReplacementRequest) -> bool
    ensures { result ≡ valid_request request.now }
{
    let claims = request.attestation.is_valid();
    let cluster = request.expected_configuration.cluster_id;
    let attested_cluster = request.attestation.cluster_instance;
    let same_cluster = cluster == attested_cluster;
    let next = is_next(
        request.attestation.expected_incarnation,
        request.candidate.identity.incarnation,
    );
    let key = request.candidate.key_digest;
    let attested_key = request.attestation.candidate_key_digest;
    let same_key = key == attested_key;
    claims
        & ((0 < request.expected_revision)
            & (same_cluster
                & ((request.candidate.identity.slot == request.attestation.slot)
                    & (next
                        & (same_key
                            & (request.candidate.admission_generation
                                == request.attestation.admission_generation))))))
}

// Whether the first receipt of the request of that id, among those of the slots in use, has that
// digest; nothing where there is none.
pub fn find_receipt(table: VoterSlotTable, id: ConsensusRequestId, digest: [u8; 32]) -> Option<bool>
    ensures { result ≡ receipt_state table id digest }
{
    let mut found = None;
    for i in (0..MAX_FIXED_VOTER_SLOTS).rev() {
        let slot = table.slots[i];
        let held = has_receipt(slot, id);
        let own = has_digest(slot, digest);
        let one = (i < table.count) & held;
        found = one.then_some(own).or(found);
    }
    found
}

// The slot has a receipt of the request of that id.
fn has_receipt(slot: VoterSlotRecord, id: ConsensusRequestId) -> bool
    ensures { result ≡ has_receipt id slot }
{
    let held = slot.last_result.request_id;
    let same = held == id;
    slot.has_last_result & same
}

// The receipt of the slot, whether it is there or not, has that digest.
fn has_digest(slot: VoterSlotRecord, digest: [u8; 32]) -> bool
    ensures { result ≡ has_digest digest slot }
{
    let held = slot.last_result.request_digest;
    held == digest
}

// The request was made for this table, 13; there are three slots, 16; and its candidate is newer
// than the slot's member, 12. Where there is no such slot a blank is looked at, so that here too all
// tests are made before the first refusal is picked.
pub fn slot_check(table: VoterSlotTable, request: VoterReplacementRequest) -> Answer
    ensures { result ≡ first_refusal (stale_check table request) (candidate_check table request) }
{
    let named = named_member(table, request.attestation.slot);
    let member = named.unwrap_or(VoterSlotMember::default());
    let expected = is_expected(table, request);
    let cluster = table.cluster_instance;
    let attested_cluster = request.attestation.cluster_instance;
    let same_cluster = attested_cluster == cluster;
    let attested = is_attested(member, request);
    let newer = is_newer(member, request);
    let current = named.is_some()
        & ((table.revision == request.expected_revision) & (expected & (same_cluster & attested)));
    let enough = MIN_REPLACEMENT_SLOTS <= table.count;
    if !current {
        Err(Refusal::StaleIncarnation)
    } else if !enough {
        Err(Refusal::NoSurvivingQuorum)
    } else if !newer {
        Err(Refusal::InvalidLossEvidence)
    } else {
        Ok(())
    }
}

// The member of the first slot in use of that number, or none. The original has its place from
// `position(..)`.
fn named_member(table: VoterSlotTable, number: SlotId) -> Option<VoterSlotMember>
    ensures { result ≡ named_of table number }
{
    let mut member = None;
    for i in (0..MAX_FIXED_VOTER_SLOTS).rev() {
        let slot = table.slots[i];
        let one = (i < table.count) & (slot.member.identity.slot == number);
        member = one.then_some(slot.member).or(member);
    }
    member
}

// The current configuration is the one that the request names.
#[tactic(auto, unfolding(crate::specs::Control::is_expected))]
fn is_expected(table: VoterSlotTable, request: VoterReplacementRequest) -> bool
    ensures { result ≡ is_expected table request }
{
    let cluster = table.cluster_instance;
    let expected_cluster = request.expected_configuration.cluster_id;
    let same_cluster = cluster == expected_cluster;
    let id = request.supplied_configuration_id;
    let expected_id = request.expected_configuration.configuration_id;
    let same_id = id == expected_id;
    let epoch = current_epoch(table);
    (same_cluster & same_id) & (epoch == request.expected_configuration.configuration_epoch)
}

// The epoch of the current configuration.
#[tactic(auto, unfolding(crate::specs::Control::current_configuration))]
pub fn current_epoch(table: VoterSlotTable) -> ConsensusConfigurationEpoch
    ensures { result ≡ (current_configuration table).epoch }
{
    if table.has_replacement & (table.replacement.phase < UNIFORM) {
        return table.replacement.predecessor.epoch;
    }
    table.configuration_epoch
}

// The member is the attested one.
fn is_attested(member: VoterSlotMember, request: VoterReplacementRequest) -> bool
    ensures { result ≡ attested_member request member }
{
    let attested = request.attestation.old_descriptor_digest;
    let descriptor = member.descriptor_digest;
    let same = attested == descriptor;
    (request.attestation.expected_incarnation == member.identity.incarnation) & same
}

// The candidate is newer than the member, with another key.
fn is_newer(member: VoterSlotMember, request: VoterReplacementRequest) -> bool
    ensures { result ≡ newer_than request member }
{
    let candidate = request.candidate.key_digest;
    let key = member.key_digest;
    let same = candidate == key;
    (member.admission_generation < request.candidate.admission_generation) & !same
}
