// Commands and observations in the bodies of questions: the records that document 01 has in "Replay
// program". Each reader gives none where a record's body is not of its form: a value that it gives
// may still be one that the call refuses.
//
// The crate journal reads the same four bodies, by functions with a proof. These are the test
// programs' own, so that a fault of one of the two shows as a difference from the original.
//
// The line at a reader lists the fields of what it reads, in their order, each with its size in bytes.
ghost use Rattle.std.specs.Prelude.{◌≤◌, length, IfSome};

use control::control::*;
use control::sets::VoterObservation;
use identity::identity::ConsensusIdentity;
use identity::text::MAX_VOTER_SNAPSHOT_ID_BYTES;
use raw::fields::Fields;
use raw::place::RawPlace;
use records::records::*;

// A Marker: cut 16, request_id 16, request_digest 32.
pub fn marker_in(body: &[u8]) -> Option<VoterCommand> {
    let mut fields = Fields::of(body);
    let marker = named(MARKER, &mut fields)?;
    fields.end()?;
    Some(marker)
}

// The front of a command that names its request.
fn named(kind: u8, fields: &mut Fields) -> Option<VoterCommand> {
    Some(VoterCommand {
        cut: RawPlace::read(fields)?,
        control: VoterSlotControl {
            kind,
            request: VoterReplacementRequest::default(),
            request_id: fields.array()?,
            request_digest: fields.array()?,
            step: VoterReplacementStep::default(),
        },
    })
}

// An Advance: cut 16, request_id 16, request_digest 32, and the step.
pub fn advance_in(body: &[u8]) -> Option<VoterCommand> {
    let mut fields = Fields::of(body);
    let mut advance = named(ADVANCE, &mut fields)?;
    advance.control.step = step(&mut fields)?;
    fields.end()?;
    Some(advance)
}

// A step: kind 1; after that of a snapshot the snapshot, after that of a caught-up mark its cut 16.
fn step(fields: &mut Fields) -> Option<VoterReplacementStep> {
    let kind = fields.u8()?;
    let mut step = VoterReplacementStep::default();
    step.kind = kind;
    match kind {
        RECORD_SNAPSHOT => step.snapshot = snapshot(fields)?,
        RECORD_CAUGHT_UP => step.caught_up = RawPlace::read(fields)?,
        _ if kind <= FINALIZE => {}
        _ => return None,
    }
    Some(step)
}

// A snapshot: cut 16, the id with its size of 2 before it, digest 32.
fn snapshot(fields: &mut Fields) -> Option<VoterSnapshotEvidence> {
    Some(VoterSnapshotEvidence {
        cut: RawPlace::read(fields)?,
        snapshot_id: snapshot_id(fields)?,
        digest: fields.array()?,
    })
}

// The id may be longer than its field: then the value has its length, and gets 30.
fn snapshot_id(fields: &mut Fields) -> Option<SnapshotId> {
    let len = usize::from(fields.u16()?);
    let part = fields.part(len)?;
    let held = len.min(MAX_VOTER_SNAPSHOT_ID_BYTES);
    let mut bytes = [0; MAX_VOTER_SNAPSHOT_ID_BYTES];
    bytes[..held].copy_from_slice(&part[..held]);
    Some(SnapshotId { len, bytes })
}

// A Begin whose attestation is not read yet: it has its own reader.
#[derive(Clone, Copy)]
pub struct Begin<'a> {
    cut: VoterSlotLogId,
    expected_revision: u64,
    expected_configuration: ConsensusIdentity,
    candidate: VoterSlotMember,
    pub attestation: &'a [u8],
    supplied_request_digest: [u8; 32],
    supplied_configuration_id: [u8; 32],
}

// A Begin: cut 16, expected_revision 8, expected_configuration 72, candidate 82, the attestation with
// its size of 2 before it, supplied_request_digest 32, supplied_configuration_id 32.
pub fn begin_in(body: &[u8]) -> Option<Begin<'_>> {
    let mut fields = Fields::of(body);
    let begin = Begin {
        cut: RawPlace::read(&mut fields)?,
        expected_revision: fields.u64()?,
        expected_configuration: configuration(&mut fields)?,
        candidate: RawPlace::read(&mut fields)?,
        attestation: sized(&mut fields)?,
        supplied_request_digest: fields.array()?,
        supplied_configuration_id: fields.array()?,
    };
    fields.end()?;
    Some(begin)
}

// Bytes with their size of 2 before them.
fn sized<'a>(fields: &mut Fields<'a>) -> Option<&'a [u8]> {
    let size = usize::from(fields.u16()?);
    fields.part(size)
}

// The scope of a configuration: cluster_id 32, configuration_id 32, configuration_epoch 8.
fn configuration(fields: &mut Fields) -> Option<ConsensusIdentity> {
    Some(ConsensusIdentity {
        cluster_id: fields.array()?,
        configuration_id: fields.array()?,
        configuration_epoch: fields.u64()?,
    })
}

impl Begin<'_> {
    // The command, with the attestation that its bytes hold.
    pub fn command(self, attestation: LostVoterAttestationV1) -> VoterCommand {
        VoterCommand {
            control: VoterSlotControl {
                kind: BEGIN,
                request: VoterReplacementRequest {
                    expected_revision: self.expected_revision,
                    expected_configuration: self.expected_configuration,
                    candidate: self.candidate,
                    attestation,
                    supplied_request_digest: self.supplied_request_digest,
                    supplied_configuration_id: self.supplied_configuration_id,
                },
                request_id: [0; 16],
                request_digest: [0; 32],
                step: VoterReplacementStep::default(),
            },
            cut: self.cut,
        }
    }
}

// An observation: cut 16, the count of sets 1, the sets, and the nodes, which are a set too. It lays the
// sets one after another into `ids`, with the count of each in `counts`, and the nodes into `nodes`.
pub fn observation_in<'a>(
    ids: &'a mut [u64],
    counts: &'a mut [usize],
    nodes: &'a mut [u64],
    body: &[u8],
) -> Option<VoterObservation<'a>> {
    let mut fields = Fields::of(body);
    let cut = RawPlace::read(&mut fields)?;
    let sets = usize::from(fields.u8()?);
    let counts = counts.get_mut(..sets)?;
    let in_sets = lay_sets(ids, counts, &mut fields)?;
    let in_nodes = lay_set(nodes, &mut fields)?;
    fields.end()?;
    Some(VoterObservation {
        sets: ids.get(..in_sets)?,
        counts,
        nodes: nodes.get(..in_nodes)?,
        cut,
    })
}

// Lays a set for each count: how many ids they have together.
fn lay_sets(ids: &mut [u64], counts: &mut [usize], fields: &mut Fields) -> Option<usize>
    ensures { IfSome result (λ laid. laid ≤ length ids.new) }
{
    let mut laid = 0;
    for count in counts {
        *count = lay_set(ids.get_mut(laid..)?, fields)?;
        laid += *count;
    }
    Some(laid)
}

// Lays one set, its count of 2 and each id of 8, to the start of `ids`: how many it has.
fn lay_set(ids: &mut [u64], fields: &mut Fields) -> Option<usize>
    ensures { IfSome result (λ count. count ≤ length ids.new) }
{
    let count = usize::from(fields.u16()?);
    for id in ids.get_mut(..count)? {
        *id = fields.u64()?;
    }
    Some(count)
}
