// The place in the buffer that is written, and what it writes that is made of numbers and text
// alone: `Writer` of codec.rs. encode.rt has the records.
//
// Ported from crates/opc-consensus/src/voter_slots/codec.rs of openpacketcore-sdk, commit
// 717de332e7, Apache-2.0 (see NOTICE). Changed: a buffer is lent, and has room for what is written;
// the size of what varies is computed first.
//
// Each method asks for room for the bytes of its form, and promises that it wrote them (`HasRoom`
// and `Wrote` of Writes.antt). A record with a form of its own is `Encode`, which has these two
// clauses once for all.
ghost use Rattle.std.specs.Prelude.{◌≡◌, ◌++◌, ◌≤◌, List, ℕ, flat_map, length};
ghost use Rattle.format.specs.List.{flag};
ghost use Rattle.format.specs.Num.{uint};
ghost use Rattle.layout.specs.Layout as layout;
ghost use Rattle.layout.specs.Parts.{times_of};
ghost use Rattle.writer.specs.Writes.{HasRoom, Wrote, optional_bytes};

use identity::identity::VoterSlotIdentity;
use layout::parts::{ThreeCuts, VERSION};
use layout::put::put_bytes;
use records::records::*;

// The buffer, and the place in it that is written next.
#[derive(Drop)]
pub struct Writer<'a> {
    pub buffer: &'a mut [u8],
    pub at: usize,
}

// What is written by one call.
pub trait Encode {
    // The bytes of its form.
    ghost bytes: { Self → List ℕ };

    // That its lengths are no more than it has places for. Most values have no length.
    ghost fits: { Self → Type 0 } = { λ _. Unit {0} };

    fn put(&self, output: &mut Writer)
        requires room { HasRoom (bytes self.now) output.old }
        requires small { fits self.now }
        ensures { Wrote (bytes self.now) output.old output.new };
}

impl<'a> Writer<'a> {
    // A writer at a place of a buffer.
    pub fn new(buffer: &'a mut [u8], at: usize) -> Writer<'a>
        ensures same { result.buffer.ghost_name ≡ buffer.entry.ghost_name }
        ensures bytes { result.buffer.now ≡ buffer.old }
        ensures place { result.at ≡ at }
    {
        Writer { buffer, at }
    }

    // `bytes`
    pub fn bytes(&mut self, bytes: &[u8])
        requires { HasRoom bytes.now self.old }
        ensures { Wrote bytes.now self.old self.new }
    {
        self.at = put_bytes(self.buffer, self.at, bytes);
    }

    // `u8`. There is a method for each width, since the library has no trait of all numbers; the bytes
    // of each are given by its own `to_be_bytes`, and have a lemma of their own.
    #[tactic(auto, using(format::specs::Put::bytes_of_1))]
    pub fn u8(&mut self, value: u8)
        requires { HasRoom ((uint 1).enc value) self.old }
        ensures { Wrote ((uint 1).enc value) self.old self.new }
    {
        self.bytes(&value.to_be_bytes());
    }

    // `u16`
    #[tactic(auto, using(format::specs::Put::bytes_of_2))]
    pub fn u16(&mut self, value: u16)
        requires { HasRoom ((uint 2).enc value) self.old }
        ensures { Wrote ((uint 2).enc value) self.old self.new }
    {
        self.bytes(&value.to_be_bytes());
    }

    // `u64`
    #[tactic(auto, using(format::specs::Put::bytes_of_8))]
    pub fn u64(&mut self, value: u64)
        requires { HasRoom ((uint 8).enc value) self.old }
        ensures { Wrote ((uint 8).enc value) self.old self.new }
    {
        self.bytes(&value.to_be_bytes());
    }

    // The byte in front of an optional part.
    #[tactic(auto, using(crate::specs::PutLaws::of_yes))]
    pub fn flag(&mut self, yes: bool)
        requires { HasRoom (flag.enc yes) self.old }
        ensures { Wrote (flag.enc yes) self.old self.new }
    {
        self.u8(u8::from(yes));
    }

    // The times of an attestation.
    #[tactic(auto, using(crate::specs::PutLaws::writing), unfolding(layout::specs::Layout::times))]
    pub fn times(&mut self, claims: &LostVoterAttestationV1)
        requires { HasRoom ((layout.times).enc (times_of claims.now)) self.old }
        ensures { Wrote ((layout.times).enc (times_of claims.now)) self.old self.new }
    {
        self.u64(claims.observation_start_ms);
        self.u64(claims.decision_ms);
        self.u64(claims.issued_ms);
        self.u64(claims.expires_ms);
    }

    // `sized_bytes`
    #[tactic(auto, using(crate::specs::PutLaws::writing))]
    pub fn sized_bytes(&mut self, bytes: &[u8])
        requires room { HasRoom ((uint 2).enc (length bytes.now) ++ bytes.now) self.old }
        requires small { length bytes.now ≤ 8192 }
        ensures { Wrote ((uint 2).enc (length bytes.now) ++ bytes.now) self.old self.new }
    {
        self.u16(bytes.len() as u16);
        self.bytes(bytes);
    }

    // The version of a table and of an attestation.
    #[tactic(auto, using(crate::specs::PutLaws::writing))]
    pub fn version(&mut self)
        requires { HasRoom ((layout.version).enc tt) self.old }
        ensures { Wrote ((layout.version).enc tt) self.old self.new }
    {
        self.u16(VERSION as u16);
    }

    // The magic and the version.
    #[tactic(auto, using(crate::specs::PutLaws::writing))]
    pub fn magic_and_version(&mut self)
        requires { HasRoom ((layout.magic_and_version).enc tt) self.old }
        ensures { Wrote ((layout.magic_and_version).enc tt) self.old self.new }
    {
        self.bytes(b"OPVI");
        self.version();
    }

    // All of these, one after another.
    #[tactic(auto, using(crate::specs::PutLaws::listed))]
    pub fn all<T: Encode>(&mut self, values: &[T])
        requires room { HasRoom (flat_map T.bytes values.now) self.old }
        requires small { (x : T) → T.fits x }
        ensures { Wrote (flat_map T.bytes values.now) self.old self.new }
    {
        for value in values {
            value.put(self);
        }
    }

    // A part that may be absent. It is no `Option`: the records have the flag beside the value
    // (document 01).
    #[tactic(auto, using(crate::specs::PutLaws::optional))]
    pub fn optional<T: Encode>(&mut self, is_some: bool, value: &T)
        requires room { HasRoom (optional_bytes T.bytes is_some value.now) self.old }
        requires small { T.fits value.now }
        ensures { Wrote (optional_bytes T.bytes is_some value.now) self.old self.new }
    {
        self.flag(is_some);
        if is_some {
            value.put(self);
        }
    }
}

// `identity`
impl Encode for VoterSlotIdentity {
    ghost bytes = { (layout.identity).enc };

    #[tactic(auto, using(crate::specs::PutLaws::writing), unfolding(layout::specs::Layout::identity))]
    fn put(&self, output: &mut Writer) {
        output.u16(self.slot);
        output.u64(self.incarnation);
    }
}

// `log_id`
impl Encode for VoterSlotLogId {
    ghost bytes = { (layout.log_id).enc };

    #[tactic(auto, using(crate::specs::PutLaws::writing), unfolding(layout::specs::Layout::log_id))]
    fn put(&self, output: &mut Writer) {
        output.u64(self.term);
        output.u64(self.index);
    }
}

// A cut, or none.
impl Encode for OptionalLogId {
    ghost bytes = { (layout.optional_log_id).enc };

    #[tactic(auto, using(crate::specs::PutLaws::optional))]
    fn put(&self, output: &mut Writer) {
        output.optional(self.is_some, &self.cut);
    }
}

// Three of the cuts that end the evidence.
impl Encode for ThreeCuts {
    ghost bytes = { (layout.three_cuts).enc };

    #[tactic(auto, using(crate::specs::PutLaws::writing), unfolding(layout::specs::Layout::three_cuts))]
    fn put(&self, output: &mut Writer) {
        self.first.put(output);
        self.second.put(output);
        self.third.put(output);
    }
}

// `sized_bytes`, of a name
impl Encode for SpiffeId {
    ghost bytes = { (layout.spiffe_id).enc };

    ghost fits = { λ id. id.len ≤ 2048 };

    #[tactic(auto, using(crate::specs::PutLaws::writing))]
    fn put(&self, output: &mut Writer) {
        output.sized_bytes(&self.bytes[..self.len]);
    }
}

// `sized_bytes`, of a snapshot id
impl Encode for SnapshotId {
    ghost bytes = { (layout.snapshot_id).enc };

    ghost fits = { λ id. id.len ≤ 256 };

    #[tactic(auto, using(crate::specs::PutLaws::writing))]
    fn put(&self, output: &mut Writer) {
        output.sized_bytes(&self.bytes[..self.len]);
    }
}
