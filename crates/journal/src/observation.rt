// The body of an observation: OB.
//
// Document 01, section "Replay program". No part of the original has it.
ghost use Rattle.std.specs.Prelude.{◌+◌, ◌*◌, ◌≤◌, ◌≡◌, length, IfSome};
ghost use Rattle.journal.specs.declared.replay.Mark.TheVariants.{Ob};
ghost use Rattle.journal.specs.Bodies.{observation_asking};
ghost use Rattle.journal.specs.Replay.{asking};
ghost use Rattle.journal.specs.SetBody.{LaidSet, LaidSets};

use control::sets::VoterObservation;
use identity::answer::Refusal;
use identity::identity::ConsensusNodeId;
use reader::reader::Reader;

// Room for the ids of any body: one of 65,535 bytes has at most 8,189 in its sets and nodes
// together.
pub const MOST_IDS: usize = 8192;

// Most sets: their count has 8 bits.
pub const MOST_SETS: usize = 255;

// Room for the ids of a body, and for the counts of its sets: with no heap there is no `Vec` of sets.
// Nobody reads what it holds at first.
#[derive(Drop)]
pub struct IdRoom<const N: usize> {
    // The ids of the sets, and after them the nodes.
    ids: [ConsensusNodeId; N],
    // How many ids each set has.
    counts: [usize; MOST_SETS],
}

impl<const N: usize> IdRoom<N> {
    pub fn new() -> IdRoom<N> {
        IdRoom {
            ids: [0; N],
            counts: [0; MOST_SETS],
        }
    }

    // Reads a body into the room; none: it is not of the form, to its last byte. That the room is large
    // enough is a clause, since it is made before a body is looked at.
    pub fn read<'a>(&'a mut self, body: &[u8]) -> Option<VoterObservation<'a>>
        requires { length body.now ≤ 8 * N }
        ensures gives { observation_asking result ≡ asking Ob body.now }
        ensures few { IfSome result (λ o. (8 * (length o.sets.now + length o.nodes.now) ≤ length body.now) × (length o.counts.now ≤ 255)) }
    {
        let ids = &mut self.ids;
        let counts = &mut self.counts;
        read_observation(body, ids, counts)
    }
}

// Reads a body into places that are lent: the ids of the sets and after them the nodes, and the count
// of each set. There is room for all that it can hold, so that no test for it is needed: an id takes
// eight bytes of the body.
#[tactic(auto, using(crate::specs::SetBodyLaws::observation_cutless, crate::specs::SetBodyLaws::observation_countless, crate::specs::SetBodyLaws::observation_setless, crate::specs::SetBodyLaws::observation_nodeless, crate::specs::SetBodyLaws::observation_end), unfolding(format::specs::Num::pick))]
pub fn read_observation<'a>(
    body: &[u8],
    ids: &'a mut [ConsensusNodeId],
    counts: &'a mut [usize],
) -> Option<VoterObservation<'a>>
    requires { (length body.now ≤ 8 * length ids.old) × (255 ≤ length counts.old) }
    ensures gives { observation_asking result ≡ asking Ob body.now }
    ensures few { IfSome result (λ o. (8 * (length o.sets.now + length o.nodes.now) ≤ length body.now) × (length o.counts.now ≤ 255)) }
{
    let mut input = Reader::new(body);
    let cut = input.log_id().ok()?;
    let sets = input.u8().ok()? as usize;
    let held = lay_sets(&mut input, sets, ids, counts).ok()?;
    let nodes = lay_set(&mut input, ids, held).ok()?;
    input.finish().ok()?;
    let (front, nodes_on) = ids.split_at(held);
    Some(VoterObservation {
        sets: front,
        counts: &counts[..sets],
        nodes: &nodes_on[..nodes],
        cut,
    })
}

// So many sets: their ids one after another, the count of each, and how many ids they have
// together. The loop is by index, here and in `lay_set`: what it keeps is said of the first so many
// counts or ids, and ids go on in the middle of their array.
#[tactic(auto, using(crate::specs::SetBodyLaws::sets_start, crate::specs::SetBodyLaws::sets_more, crate::specs::SetBodyLaws::sets_refused))]
fn lay_sets(
    input: &mut Reader,
    sets: usize,
    ids: &mut [u64],
    counts: &mut [usize],
) -> Result<usize, Refusal>
    requires { (sets ≤ length counts.old) × (length input.old.bytes.now ≤ 8 * length ids.old) }
    ensures { LaidSets result input.old.bytes.now input.new.bytes.now sets ids.new counts.new }
{
    let mut held = 0;
    for i in 0..sets {
        let count = lay_set(input, ids, held)?;
        counts[i] = count;
        held += count;
    }
    Ok(held)
}

// One set: its ids, which are laid from a place on, and their count. A set that has not all of its ids
// is refused before the first is laid, so that a longer body takes no longer.
#[tactic(auto, using(crate::specs::SetBodyLaws::ids_start, crate::specs::SetBodyLaws::ids_more, crate::specs::SetBodyLaws::set_refused, crate::specs::SetBodyLaws::set_laid))]
fn lay_set(input: &mut Reader, ids: &mut [u64], from: usize) -> Result<usize, Refusal>
    requires { 8 * from + length input.old.bytes.now ≤ 8 * length ids.old }
    ensures { LaidSet result input.old.bytes.now input.new.bytes.now from ids.old ids.new }
{
    let count = input.u16()? as usize;
    if input.rest().len() < 8 * count {
        return Err(Refusal::InvalidRecord);
    }
    for i in 0..count {
        let id = input.u64()?;
        ids[from + i] = id;
    }
    Ok(count)
}
