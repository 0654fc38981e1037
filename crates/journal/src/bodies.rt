// The bodies of commands: MK, AD, BG. Each part has a reader, which moves the cursor past it.
//
// Document 01, section "Replay program". No part of the original has them.
ghost use Rattle.std.specs.Prelude.{◌≡◌};
ghost use Rattle.format.specs.Reads.{reads, made_read};
ghost use Rattle.layout.specs.Told.{told, told_bytes};
ghost use Rattle.journal.specs.declared.replay.Mark.TheVariants.{Ad, Bg, Mk};
ghost use Rattle.journal.specs.Bodies.{advance_asking, advance_by, begin_asking, begin_by, blank_marker_body, marker_asking, partless};
ghost use Rattle.journal.specs.Records.{any_identity, begin_head, candidate, expected, marker_body, sized_bytes, snapshot_part, step_body};
ghost use Rattle.journal.specs.Replay.{asking, snapshot_id_of, snapshot_of, step_of};

use codec::codec::read_lost_voter_attestation;
use control::begin::VoterBegin;
use control::control::*;
use identity::answer::Refusal;
use identity::identity::*;
use identity::text::MAX_VOTER_SNAPSHOT_ID_BYTES;
use layout::parts::member_of;
use layout::put::copy_bytes;
use reader::reader::Reader;
use records::records::*;

// Bytes with their size before them. The size has 16 bits, and none is too large here, where
// `sized_bytes` of `Reader` has a bound and the laws of a form that is refused above it.
#[tactic(auto, using(format::specs::Reads::reads_two), unfolding(crate::specs::Records::sized_bytes))]
pub fn sized_bytes<'a>(input: &mut Reader<'a>) -> Result<&'a [u8], Refusal>
    ensures { told_bytes result input.new.bytes.now ≡ reads sized_bytes input.old.bytes.now }
{
    let count = input.u16()? as usize;
    input.take(count)
}

// ---- MK

// A cut, and the request that is named at it.
#[derive(Clone, Copy)]
pub struct MarkerBody {
    // Engine cut of the command.
    pub cut: VoterSlotLogId,
    // Exact retained operation.
    pub request_id: ConsensusRequestId,
    // Canonical operation digest.
    pub request_digest: [u8; 32],
}

// The front of an AD and the whole of an MK.
#[tactic(auto, using(format::specs::Reads::reads_three), unfolding(crate::specs::Records::marker_body))]
pub fn marker_body(input: &mut Reader) -> Result<MarkerBody, Refusal>
    ensures { told result input.new.bytes.now ≡ reads marker_body input.old.bytes.now }
{
    Ok(MarkerBody {
        cut: input.log_id()?,
        request_id: input.array()?,
        request_digest: input.array()?,
    })
}

// The body of an MK, or none: it is not of that form, to its last byte.
#[tactic(auto, using(crate::specs::BodiesLaws::marker_read), unfolding(format::specs::Num::pick))]
pub fn read_marker(body: &[u8]) -> Option<MarkerBody>
    ensures { marker_asking result ≡ asking Mk body.now }
{
    let mut input = Reader::new(body);
    let marker = marker_body(&mut input).ok()?;
    input.finish().ok()?;
    Some(marker)
}

// ---- AD

// An id of any size: its length is kept, and of its bytes as many as have a place, so that the call
// refuses it with 30.
#[tactic(auto, using(crate::specs::BodiesLaws::id_placed), unfolding(crate::specs::Replay::snapshot_id_of))]
fn any_snapshot_id(input: &mut Reader) -> Result<SnapshotId, Refusal>
    ensures { told result input.new.bytes.now ≡ made_read snapshot_id_of (reads sized_bytes input.old.bytes.now) }
{
    let id = sized_bytes(input)?;
    let len = id.len();
    let held = len.min(MAX_VOTER_SNAPSHOT_ID_BYTES);
    let mut bytes = [0; MAX_VOTER_SNAPSHOT_ID_BYTES];
    copy_bytes(&mut bytes[..held], &id[..held]);
    Ok(SnapshotId { len, bytes })
}

// The snapshot of a step, whose id may be of any size.
#[tactic(auto, using(crate::specs::BodiesLaws::snapshot_read))]
fn snapshot_part(input: &mut Reader) -> Result<VoterSnapshotEvidence, Refusal>
    ensures { told result input.new.bytes.now ≡ made_read snapshot_of (reads snapshot_part input.old.bytes.now) }
{
    Ok(VoterSnapshotEvidence {
        cut: input.log_id()?,
        snapshot_id: any_snapshot_id(input)?,
        digest: input.array()?,
    })
}

// The step byte, and the part that it has: a snapshot, a caught-up mark, or none.
#[tactic(auto, using(crate::specs::BodiesLaws::step_read))]
pub fn step_body(input: &mut Reader) -> Result<VoterReplacementStep, Refusal>
    ensures { told result input.new.bytes.now ≡ made_read step_of (reads step_body input.old.bytes.now) }
{
    let kind = input.choice(RECORD_SNAPSHOT, FINALIZE)?;
    let mut step = step_of(kind);
    match kind {
        RECORD_SNAPSHOT => step.snapshot = snapshot_part(input)?,
        RECORD_CAUGHT_UP => step.caught_up = input.log_id()?,
        _ => {}
    }
    Ok(step)
}

// A step with no part.
fn step_of(kind: u8) -> VoterReplacementStep
    ensures { result ≡ partless kind }
{
    VoterReplacementStep {
        kind,
        snapshot: VoterSnapshotEvidence::default(),
        caught_up: VoterSlotLogId::default(),
    }
}

// The body of an AD, or none: it is not of that form, to its last byte.
#[tactic(auto, using(crate::specs::BodiesLaws::advance_read), unfolding(format::specs::Num::pick))]
pub fn read_advance(body: &[u8]) -> Option<VoterAdvance>
    ensures { advance_asking result ≡ asking Ad body.now }
{
    let mut input = Reader::new(body);
    let named = marker_body(&mut input).ok()?;
    let step = step_body(&mut input).ok()?;
    input.finish().ok()?;
    Some(advance_by(named, step))
}

// The Advance of its parts.
fn advance_by(named: MarkerBody, step: VoterReplacementStep) -> VoterAdvance
    ensures { result ≡ advance_by named step }
{
    let request_id = named.request_id;
    let request_digest = named.request_digest;
    VoterAdvance {
        request_id,
        request_digest,
        step,
        cut: named.cut,
    }
}

// ---- BG

// Any numbers: one that is no slot or incarnation is of the form, and the call refuses it with 30.
#[tactic(auto, using(format::specs::Reads::reads_two), unfolding(crate::specs::Records::any_identity))]
fn any_identity(input: &mut Reader) -> Result<VoterSlotIdentity, Refusal>
    ensures { told result input.new.bytes.now ≡ reads any_identity input.old.bytes.now }
{
    Ok(VoterSlotIdentity {
        slot: input.u16()?,
        incarnation: input.u64()?,
    })
}

// A member whose identity may be any numbers.
#[tactic(auto, using(format::specs::Reads::reads_two), unfolding(crate::specs::Records::candidate))]
fn candidate(input: &mut Reader) -> Result<VoterSlotMember, Refusal>
    ensures { told result input.new.bytes.now ≡ reads candidate input.old.bytes.now }
{
    let identity = any_identity(input)?;
    let binding = input.binding()?;
    Ok(member_of(identity, binding))
}

// The configuration that a Begin expects, of any epoch.
#[tactic(auto, using(format::specs::Reads::reads_three), unfolding(crate::specs::Records::expected))]
fn expected(input: &mut Reader) -> Result<ConsensusIdentity, Refusal>
    ensures { told result input.new.bytes.now ≡ reads expected input.old.bytes.now }
{
    Ok(ConsensusIdentity {
        cluster_id: input.array()?,
        configuration_id: input.array()?,
        configuration_epoch: input.u64()?,
    })
}

// What stands before the attestation.
#[derive(Clone, Copy)]
pub struct BeginHead {
    // Engine cut of the command.
    pub cut: VoterSlotLogId,
    // Exact compare-and-set table revision.
    pub expected_revision: u64,
    // Exact current uniform configuration, including every incarnation and key.
    pub expected_configuration: ConsensusIdentity,
    // Selected successor's public binding.
    pub candidate: VoterSlotMember,
}

// Reads what stands before the attestation.
#[tactic(auto, using(format::specs::Reads::reads_four), unfolding(crate::specs::Records::begin_head))]
fn begin_head(input: &mut Reader) -> Result<BeginHead, Refusal>
    ensures { told result input.new.bytes.now ≡ reads begin_head input.old.bytes.now }
{
    Ok(BeginHead {
        cut: input.log_id()?,
        expected_revision: input.u64()?,
        expected_configuration: expected(input)?,
        candidate: candidate(input)?,
    })
}

// The body of a BG, or none: it is not of that form, to its last byte. Of one that is, the
// attestation's own reader says whether it is refused. (A `match` on what it says and no `map`, whose
// closure would take a clause that says `begin_by` again.)
#[tactic(auto, using(crate::specs::BodiesLaws::begin_read), unfolding(crate::specs::Replay::attested, crate::specs::Replay::begin_asked, crate::specs::Replay::begin_of, format::specs::Num::pick))]
pub fn read_begin(body: &[u8]) -> Option<Result<VoterBegin, Refusal>>
    ensures { begin_asking result ≡ asking Bg body.now }
{
    let mut input = Reader::new(body);
    let head = begin_head(&mut input).ok()?;
    let attestation = sized_bytes(&mut input).ok()?;
    let request_digest = input.array().ok()?;
    let configuration_id = input.array().ok()?;
    input.finish().ok()?;
    Some(match read_lost_voter_attestation(attestation) {
        Ok(attestation) => Ok(begin_by(head, attestation, request_digest, configuration_id)),
        Err(refusal) => Err(refusal),
    })
}

// The Begin of its parts.
fn begin_by(
    head: BeginHead,
    attestation: LostVoterAttestationV1,
    supplied_request_digest: [u8; 32],
    supplied_configuration_id: ConsensusConfigurationId,
) -> VoterBegin
    ensures { result ≡ begin_by head attestation supplied_request_digest supplied_configuration_id }
{
    VoterBegin {
        request: VoterReplacementRequest {
            expected_revision: head.expected_revision,
            expected_configuration: head.expected_configuration,
            candidate: head.candidate,
            attestation,
            supplied_request_digest,
            supplied_configuration_id,
        },
        cut: head.cut,
    }
}
