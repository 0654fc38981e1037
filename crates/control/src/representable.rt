// The representability check of a command: whether the Rust types can hold it, and whether the
// parts that its kind does not use are zero.
//
// There is no such test in the original, whose types rule these values out. It is made after the
// types of crates/opc-consensus/src/voter_slots/control.rs of openpacketcore-sdk, commit
// 717de332e7, Apache-2.0 (see NOTICE). Document 01, number 30.
ghost use Rattle.std.specs.Prelude.{◌≡◌, cond, ◌&&◌};
ghost use Rattle.records.specs.Blank.{blank_voter_snapshot_evidence};
ghost use Rattle.records.specs.Equality.{same_voter_snapshot_evidence};
ghost use Rattle.records.specs.Representable.{representable_snapshot};
ghost use Rattle.control.specs.Blank.{blank_voter_replacement_request, blank_voter_replacement_step, same_voter_replacement_request, same_voter_replacement_step};
ghost use Rattle.control.specs.Control.{is_blank_name, is_blank_request, is_blank_step, representable_control, representable_request, representable_step};

use crate::control::*;
use identity::identity::is_configuration_epoch;
use records::blank::Blank;
use records::records::VoterSnapshotEvidence;

// A kind of the three; the request is a Begin's, the step an Advance's.
#[tactic(auto, unfolding(crate::specs::Control::representable_control))]
pub fn is_representable_control(control: VoterSlotControl) -> bool
    ensures { result ≡ representable_control control }
{
    let step = control.step;
    let request_part = is_request_part(control.kind == BEGIN, control);
    let step_part = is_step_part(control.kind == ADVANCE, step);
    (control.kind <= MARKER) & (request_part & step_part)
}

// A Begin has a request and no name; any other command names a request and has none.
//
// The flag, here and in `is_step_part` and `is_snapshot_part`, is the test of the definition's `cond`.
// Each of the three has one caller, so that a closure in place of the flag would serve no second use.
fn is_request_part(is_begin: bool, control: VoterSlotControl) -> bool
    ensures { result ≡ cond is_begin (representable_request control.request && is_blank_name control) (is_blank_request control.request) }
{
    let request = control.request;
    if is_begin {
        return is_representable_request(request) & is_blank_name(control);
    }
    request.is_blank()
}

// The id and the digest by which an Advance or a Marker names its request are absent.
fn is_blank_name(control: VoterSlotControl) -> bool
    ensures { result ≡ is_blank_name control }
{
    control.request_id.is_blank() & control.request_digest.is_blank()
}

// The representability check of a request. Public for the replay program, as that of a step is.
pub fn is_representable_request(request: VoterReplacementRequest) -> bool
    ensures { result ≡ representable_request request }
{
    let request_candidate = request.candidate;
    let candidate = request_candidate.is_representable();
    let request_attestation = request.attestation;
    let attestation = request_attestation.is_representable();
    let epoch = is_configuration_epoch(request.expected_configuration.configuration_epoch);
    epoch & (candidate & attestation)
}

// No request. The expected configuration is looked at here: its type is of `identity`, which cannot
// be given the trait in this crate. `records`, which could, has no record that holds one.
impl Blank for VoterReplacementRequest {
    ghost blank = { blank_voter_replacement_request };

    ghost same = { same_voter_replacement_request };

    #[tactic(auto, unfolding(records::specs::Equality::all_true, crate::specs::Blank::same_consensus_identity, crate::specs::Blank::blank_consensus_identity, crate::specs::Blank::same_voter_replacement_request, crate::specs::Blank::blank_voter_replacement_request))]
    fn is_blank(&self) -> bool {
        let configuration = &self.expected_configuration;
        let expected_configuration = configuration.cluster_id.is_blank()
            & (configuration.configuration_id.is_blank()
                & configuration.configuration_epoch.is_blank());
        self.expected_revision.is_blank()
            & (expected_configuration
                & (self.candidate.is_blank()
                    & (self.attestation.is_blank()
                        & (self.supplied_request_digest.is_blank()
                            & self.supplied_configuration_id.is_blank()))))
    }
}

// Only an Advance has a step.
fn is_step_part(is_advance: bool, step: VoterReplacementStep) -> bool
    ensures { result ≡ cond is_advance (representable_step step) (is_blank_step step) }
{
    if is_advance {
        return is_representable_step(step);
    }
    step.is_blank()
}

// A kind of the five; the snapshot is RecordSnapshot's, the mark RecordCaughtUp's. Any numbers are
// a mark.
#[tactic(auto, unfolding(crate::specs::Control::representable_step))]
pub fn is_representable_step(step: VoterReplacementStep) -> bool
    ensures { result ≡ representable_step step }
{
    let step_snapshot = step.snapshot;
    let snapshot = is_snapshot_part(step.kind == RECORD_SNAPSHOT, step_snapshot);
    let step_caught_up = step.caught_up;
    let no_mark = step_caught_up.is_blank();
    (step.kind <= FINALIZE) & (snapshot & ((step.kind == RECORD_CAUGHT_UP) | no_mark))
}

// Only a RecordSnapshot has a snapshot.
fn is_snapshot_part(is_used: bool, snapshot: VoterSnapshotEvidence) -> bool
    ensures { result ≡ cond is_used (representable_snapshot snapshot) (same_voter_snapshot_evidence snapshot blank_voter_snapshot_evidence) }
{
    if is_used {
        return snapshot.is_representable();
    }
    snapshot.is_blank()
}

// No step. Its kind is zero too.
impl Blank for VoterReplacementStep {
    ghost blank = { blank_voter_replacement_step };

    ghost same = { same_voter_replacement_step };

    #[tactic(auto, unfolding(records::specs::Equality::all_true, crate::specs::Blank::same_voter_replacement_step, crate::specs::Blank::blank_voter_replacement_step))]
    fn is_blank(&self) -> bool {
        self.kind.is_blank() & (self.snapshot.is_blank() & self.caught_up.is_blank())
    }
}
