// The cursor over the bytes, and what it reads that is made of numbers and text alone: `Reader` of
// codec.rs. decode.rt has the records.
//
// Ported from crates/opc-consensus/src/voter_slots/codec.rs of openpacketcore-sdk, commit
// 717de332e7, Apache-2.0 (see NOTICE). Changed: text is copied into a place of fixed size; an
// optional part comes as a yes or no beside its value, the blank where there is none.
//
// Each method promises that its answer, with the bytes that are left after it, is what reading its
// form leaves (`reads` of format's Reads.antt).
ghost use Rattle.std.specs.Prelude.{◌≡◌, ◌≤◌, length, eqb, replicate, IfOk};
ghost use Rattle.identity.specs.Answer.{Accepted, InvalidRecord};
ghost use Rattle.format.specs.Num.{uint, raw, pick};
ghost use Rattle.format.specs.Combinators.{Codec};
ghost use Rattle.format.specs.List.{flag, opt};
ghost use Rattle.format.specs.ReadsMore.{nine};
ghost use Rattle.format.specs.Reads.{reads, made_read};
ghost use Rattle.layout.specs.Told.{told, told_at, told_beside, told_bytes, told_sized};
ghost use Rattle.format.specs.Copy.{zeros};
ghost use Rattle.records.specs.Blank.{blank_spiffe_id};
ghost use Rattle.layout.specs.Layout.{slot_id, incarnation, epoch, slot_count, choice, log_id, optional_log_id, three_cuts, identity, times, version, magic_and_version, sized, string, placed, spiffe_id, snapshot_id};

use identity::answer::Refusal;
use identity::identity::*;
use identity::text::{MAX_VOTER_SNAPSHOT_ID_BYTES, is_utf8};
use layout::parts::{ThreeCuts, Times, VERSION};
use layout::put::copy_bytes;
use records::blank::Blank;
use records::records::*;
use records::validation::is_valid_count;

// What is left of the bytes that are read.
#[derive(Clone, Copy)]
pub struct Reader<'a> {
    bytes: &'a [u8],
}

// What is read by one call, from the front of what is left.
pub trait Decode {
    // Its form.
    ghost form: { Codec Self };

    fn decode(input: &mut Reader) -> Result<Self, Refusal>
        ensures { told result input.new.bytes.now ≡ reads form input.old.bytes.now };
}

impl<'a> Reader<'a> {
    // `new`, without its bound: the two decoders test that first (codec).
    pub fn new(bytes: &'a [u8]) -> Reader<'a>
        ensures { result.bytes.now ≡ bytes.now }
    {
        Reader { bytes }
    }

    // `take`
    #[tactic(auto, using(format::specs::Reads::reads_raw, format::specs::Reads::reads_raw_short))]
    pub fn take(&mut self, count: usize) -> Result<&'a [u8], Refusal>
        ensures form { told_bytes result self.new.bytes.now ≡ reads (raw count) self.old.bytes.now }
        ensures long { IfOk result (λ bytes. length bytes.now ≡ count) }
    {
        let Some((front, rest)) = self.bytes.split_at_checked(count) else {
            return Err(Refusal::InvalidRecord);
        };
        self.bytes = rest;
        Ok(front)
    }

    // `array`
    #[tactic(auto, using(format::specs::Reads::reads_raw, format::specs::Reads::reads_raw_short))]
    pub fn array<const N: usize>(&mut self) -> Result<[u8; N], Refusal>
        ensures { told result self.new.bytes.now ≡ reads (raw N) self.old.bytes.now }
    {
        let Some((front, rest)) = self.bytes.split_first_chunk::<N>() else {
            return Err(Refusal::InvalidRecord);
        };
        self.bytes = rest;
        Ok(*front)
    }

    // `u8`. There is a method for each width, since the library has no trait of all numbers: each is
    // made by its own `from_be_bytes`, and has a lemma of its own.
    #[tactic(auto, using(format::specs::Reads::reads_uint, format::specs::Reads::number_of_1))]
    pub fn u8(&mut self) -> Result<u8, Refusal>
        ensures { told result self.new.bytes.now ≡ reads (uint 1) self.old.bytes.now }
    {
        Ok(self.array::<1>()?[0])
    }

    // `u16`
    #[tactic(auto, using(format::specs::Reads::reads_uint, format::specs::Reads::number_of_2))]
    pub fn u16(&mut self) -> Result<u16, Refusal>
        ensures { told result self.new.bytes.now ≡ reads (uint 2) self.old.bytes.now }
    {
        Ok(u16::from_be_bytes(self.array()?))
    }

    // `u64`
    #[tactic(auto, using(format::specs::Reads::reads_uint, format::specs::Reads::number_of_8))]
    pub fn u64(&mut self) -> Result<u64, Refusal>
        ensures { told result self.new.bytes.now ≡ reads (uint 8) self.old.bytes.now }
    {
        Ok(u64::from_be_bytes(self.array()?))
    }

    // `epoch`
    #[tactic(auto, using(format::specs::Reads::reads_check), unfolding(layout::specs::Layout::epoch, format::specs::Num::pick))]
    pub fn epoch(&mut self) -> Result<ConsensusConfigurationEpoch, Refusal>
        ensures { told result self.new.bytes.now ≡ reads epoch self.old.bytes.now }
    {
        let value = self.u64()?;
        if !is_configuration_epoch(value) {
            return Err(Refusal::InvalidRecord);
        }
        Ok(value)
    }

    // `incarnation`
    #[tactic(auto, using(format::specs::Reads::reads_check), unfolding(layout::specs::Layout::incarnation))]
    pub fn incarnation(&mut self) -> Result<VoterIncarnation, Refusal>
        ensures { told result self.new.bytes.now ≡ reads incarnation self.old.bytes.now }
    {
        let value = self.u64()?;
        validate_voter_incarnation(value)?;
        Ok(value)
    }

    // `SlotId::new` of a number that was read
    #[tactic(auto, using(format::specs::Reads::reads_check), unfolding(layout::specs::Layout::slot_id))]
    fn slot_id(&mut self) -> Result<SlotId, Refusal>
        ensures { told result self.new.bytes.now ≡ reads slot_id self.old.bytes.now }
    {
        let value = self.u16()?;
        validate_slot_id(value)?;
        Ok(value)
    }

    // `identity`
    #[tactic(auto, using(format::specs::Reads::reads_two), unfolding(layout::specs::Layout::identity))]
    pub fn identity(&mut self) -> Result<VoterSlotIdentity, Refusal>
        ensures { told result self.new.bytes.now ≡ reads identity self.old.bytes.now }
    {
        Ok(VoterSlotIdentity {
            slot: self.slot_id()?,
            incarnation: self.incarnation()?,
        })
    }

    // `count`: odd, up to nine.
    #[tactic(auto, using(format::specs::Reads::reads_check, records::specs::ValidationLaws::count_small), unfolding(layout::specs::Layout::slot_count, format::specs::Num::pick))]
    pub fn count(&mut self) -> Result<usize, Refusal>
        ensures form { told result self.new.bytes.now ≡ reads slot_count self.old.bytes.now }
        ensures small { IfOk result (λ count. count ≤ 9) }
    {
        let count = self.u8()? as usize;
        if !is_valid_count(count) {
            return Err(Refusal::InvalidRecord);
        }
        Ok(count)
    }

    // One of the numbers from low to high: a phase, a kind, a reason.
    #[tactic(auto, using(format::specs::Reads::reads_check), unfolding(layout::specs::Layout::choice, format::specs::Num::pick))]
    pub fn choice(&mut self, low: u8, high: u8) -> Result<u8, Refusal>
        ensures { told result self.new.bytes.now ≡ reads (choice low high) self.old.bytes.now }
    {
        let value = self.u8()?;
        if !((low <= value) & (value <= high)) {
            return Err(Refusal::InvalidRecord);
        }
        Ok(value)
    }

    // The byte in front of an optional part.
    #[tactic(auto, using(format::specs::Reads::reads_flag), unfolding(format::specs::List::flag_test, format::specs::Num::pick))]
    pub fn flag(&mut self) -> Result<bool, Refusal>
        ensures { told result self.new.bytes.now ≡ reads flag self.old.bytes.now }
    {
        match self.u8()? {
            0 => Ok(false),
            1 => Ok(true),
            _ => Err(Refusal::InvalidRecord),
        }
    }

    // `log_id`
    #[tactic(auto, using(format::specs::Reads::reads_two), unfolding(layout::specs::Layout::log_id))]
    pub fn log_id(&mut self) -> Result<VoterSlotLogId, Refusal>
        ensures { told result self.new.bytes.now ≡ reads log_id self.old.bytes.now }
    {
        Ok(VoterSlotLogId {
            term: self.u64()?,
            index: self.u64()?,
        })
    }

    // `optional`: a part that may be absent, with the blank that stands for it then. It gives no
    // `Option`: the records have the flag beside the value (document 01).
    #[tactic(auto, using(format::specs::Reads::reads_opt))]
    pub fn optional<T: Decode + Copy>(&mut self, blank: T) -> Result<(bool, T), Refusal>
        ensures { told result self.new.bytes.now ≡ reads (opt T.form blank) self.old.bytes.now }
    {
        if !self.flag()? {
            return Ok((false, blank));
        }
        Ok((true, T::decode(self)?))
    }

    // The first so many of the nine places, which are blank; the others stay so. It takes the count
    // beside them: where the callers lent a part, `&mut places[..count]`, a proof had to be written by
    // hand for each `?` and each return in them, that the part and the blanks behind it are the form's
    // nine. The loop goes by the place, since its invariant (`Filled`) counts the places that are read.
    #[tactic(auto, using(format::specs::ReadsMore::filled_none, format::specs::ReadsMore::padded_refused))]
    pub fn fill<T: Decode + Blank + Copy>(
        &mut self,
        count: usize,
        places: &mut [T; MAX_FIXED_VOTER_SLOTS],
    ) -> Result<(), Refusal>
        requires few { count ≤ 9 }
        requires blank { places.old ≡ replicate 9 T.blank }
        ensures { told_at result places.new self.new.bytes.now ≡ reads (nine T.form T.blank count) self.old.bytes.now }
    {
        for i in 0..count {
            places[i] = T::decode(self)?;
        }
        Ok(())
    }

    // A cut, or none.
    #[tactic(auto, using(format::specs::Reads::reads_via), unfolding(layout::specs::Layout::optional_log_id, records::specs::Blank::blank_voter_slot_log_id))]
    fn optional_log_id(&mut self) -> Result<OptionalLogId, Refusal>
        ensures { told result self.new.bytes.now ≡ reads optional_log_id self.old.bytes.now }
    {
        let (is_some, cut) = self.optional(VoterSlotLogId::default())?;
        Ok(OptionalLogId { is_some, cut })
    }

    // Three of the cuts that end the evidence.
    #[tactic(auto, using(format::specs::Reads::reads_three), unfolding(layout::specs::Layout::three_cuts))]
    pub fn three_cuts(&mut self) -> Result<ThreeCuts, Refusal>
        ensures { told result self.new.bytes.now ≡ reads three_cuts self.old.bytes.now }
    {
        Ok(ThreeCuts {
            first: self.optional_log_id()?,
            second: self.optional_log_id()?,
            third: self.optional_log_id()?,
        })
    }

    // The times of an attestation.
    #[tactic(auto, using(format::specs::Reads::reads_four), unfolding(layout::specs::Layout::times))]
    pub fn times(&mut self) -> Result<Times, Refusal>
        ensures { told result self.new.bytes.now ≡ reads times self.old.bytes.now }
    {
        Ok(Times {
            observation_start_ms: self.u64()?,
            decision_ms: self.u64()?,
            issued_ms: self.u64()?,
            expires_ms: self.u64()?,
        })
    }

    // `sized_bytes`
    #[tactic(auto, using(format::specs::Reads::reads_dep, format::specs::Reads::reads_check), unfolding(layout::specs::Layout::sized, format::specs::Num::pick))]
    pub fn sized_bytes(&mut self, bound: usize) -> Result<&'a [u8], Refusal>
        ensures form { told_sized result self.new.bytes.now ≡ reads (sized bound) self.old.bytes.now }
        ensures small { IfOk result (λ bytes. length bytes.now ≤ bound) }
    {
        let count = self.u16()? as usize;
        if bound < count {
            return Err(Refusal::TooLarge);
        }
        self.take(count)
    }

    // `string`, into a place of zeros: how many bytes; zeros stay after them.
    #[tactic(auto, using(format::specs::Reads::reads_check, layout::specs::ReadingLaws::rest_of_zeros), unfolding(layout::specs::Layout::string, format::specs::Num::pick))]
    fn string<const N: usize>(&mut self, place: &mut [u8; N]) -> Result<usize, Refusal>
        requires { place.old ≡ zeros N }
        ensures { told_beside result place.new self.new.bytes.now ≡ made_read (λ p. (p.0, placed N p)) (reads (string N) self.old.bytes.now) }
    {
        let bytes = self.sized_bytes(N)?;
        if !is_utf8(bytes) {
            return Err(Refusal::InvalidRecord);
        }
        copy_bytes(&mut place[..bytes.len()], bytes);
        Ok(bytes.len())
    }

    // `identity_string`. The records are read by `fill_spiffe_id`, and no code here calls this: it
    // stays for callers in Rust, who have no place to lend and are asked nothing.
    pub fn spiffe_id(&mut self) -> Result<SpiffeId, Refusal>
        ensures { told result self.new.bytes.now ≡ reads spiffe_id self.old.bytes.now }
    {
        let mut name = SpiffeId::default();
        self.fill_spiffe_id(&mut name)?;
        Ok(name)
    }

    // The same, into a place that is blank: returned, its 2 KB would be copied at each step.
    #[tactic(auto, using(format::specs::Reads::reads_via, layout::specs::ReadingLaws::blank_bytes), unfolding(layout::specs::Layout::spiffe_id))]
    pub(crate) fn fill_spiffe_id(&mut self, place: &mut SpiffeId) -> Result<(), Refusal>
        requires { place.old ≡ blank_spiffe_id }
        ensures { told_at result place.new self.new.bytes.now ≡ reads spiffe_id self.old.bytes.now }
    {
        place.len = self.string(&mut place.bytes)?;
        Ok(())
    }

    // `string(MAX_VOTER_SNAPSHOT_ID_BYTES)`
    #[tactic(auto, using(format::specs::Reads::reads_via), unfolding(layout::specs::Layout::snapshot_id, format::specs::Copy::zeros))]
    pub fn snapshot_id(&mut self) -> Result<SnapshotId, Refusal>
        ensures { told result self.new.bytes.now ≡ reads snapshot_id self.old.bytes.now }
    {
        let mut bytes = [0; MAX_VOTER_SNAPSHOT_ID_BYTES];
        let len = self.string(&mut bytes)?;
        Ok(SnapshotId { len, bytes })
    }

    // The version of an attestation.
    #[tactic(auto, using(format::specs::Reads::reads_via, format::specs::Reads::reads_check), unfolding(layout::specs::Layout::version, format::specs::Num::pick))]
    pub fn version(&mut self) -> Result<(), Refusal>
        ensures { told result self.new.bytes.now ≡ reads version self.old.bytes.now }
    {
        if self.u16()? as u64 != VERSION {
            return Err(Refusal::InvalidRecord);
        }
        Ok(())
    }

    // The magic and the version of a table: both are read before either is judged.
    #[tactic(auto, using(layout::specs::ReadingLaws::reads_magic, layout::specs::ReadingLaws::same_bytes), unfolding(layout::specs::Layout::head_test, format::specs::Num::pick))]
    pub fn magic_and_version(&mut self) -> Result<(), Refusal>
        ensures { told result self.new.bytes.now ≡ reads magic_and_version self.old.bytes.now }
    {
        let magic = self.array::<4>()?;
        let version = self.u16()?;
        if magic != *b"OPVI" {
            return Err(Refusal::InvalidRecord);
        }
        if version as u64 != VERSION {
            return Err(Refusal::FreshInstallationRequired);
        }
        Ok(())
    }

    // What is left: what stands after the parts that were read. How many bytes these took is what its
    // length says. No code here calls it: it stays for callers in Rust, since the readers of this layer
    // have always told where they stopped.
    pub fn rest(self) -> &'a [u8]
        ensures { result.now ≡ self.entry.bytes.now }
    {
        self.bytes
    }

    // `finish`: nothing is left over.
    #[tactic(auto, unfolding(format::specs::Num::pick))]
    pub fn finish(self) -> Result<(), Refusal>
        ensures { result ≡ pick (eqb (length self.entry.bytes.now) 0) Accepted InvalidRecord }
    {
        if !self.bytes.is_empty() {
            return Err(Refusal::InvalidRecord);
        }
        Ok(())
    }
}

impl Decode for VoterSlotLogId {
    ghost form = { log_id };

    fn decode(input: &mut Reader) -> Result<VoterSlotLogId, Refusal> {
        input.log_id()
    }
}
