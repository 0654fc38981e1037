// The refusals of every call of this project, each with its number in document 01.
//
// Ported from crates/opc-consensus/src/voter_slots/mod.rs (`VoterSlotError`, 1 to 7) and
// crates/opc-consensus/src/voter_slots/control.rs (`VoterReplacementError`, which 11 to 28 number
// in its order; only those that document 01 lists are given) of openpacketcore-sdk, commit
// 717de332e7, Apache-2.0 (see NOTICE). Changed: one enum for both, with four of this project
// (30 to 33), and a number for each.
ghost use Rattle.std.specs.Prelude.{◌≡◌};
ghost use Rattle.identity.specs.Answer.{number_of, is_accepted};

// Why a call refuses.
#[derive(Clone, Copy, Debug, PartialEq, Eq)]
pub enum Refusal {
    // ---- `VoterSlotError`: identities and records
    // The slot ordinal is zero.
    InvalidSlot = 1,
    // The incarnation is outside the signed-63-bit engine identity domain.
    InvalidIncarnation = 2,
    // No further incarnation fits the engine identity domain.
    IncarnationExhausted = 3,
    // A durable table has another format; it requires a fresh installation.
    FreshInstallationRequired = 4,
    // Encoded input or a variable field exceeds its fixed admission bound.
    TooLarge = 5,
    // The record is malformed, noncanonical, or structurally inconsistent.
    InvalidRecord = 6,
    // A proposed snapshot would change the installation or regress retained state.
    Regression = 7,
    // ---- `VoterReplacementError`: commands and observations
    // Loss claims, signature, validity or canonical request binding is invalid.
    InvalidLossEvidence = 12,
    // The caller's revision, configuration or incarnation is obsolete.
    StaleIncarnation = 13,
    // The same request id names different canonical claims.
    IdempotencyConflict = 14,
    // Another slot or effective uncommitted intent owns the operation slot.
    ReplacementInProgress = 15,
    // An unchanged authenticated engine quorum could not be proved.
    NoSurvivingQuorum = 16,
    // Authority has switched; this exact transition must finish forward.
    ReplacementPastFence = 19,
    // No successor uniform configuration epoch is representable.
    ConfigurationEpochExhausted = 23,
    // No further table revision is representable.
    RevisionExhausted = 24,
    // A command or membership is not the next authorized transition.
    InvalidTransition = 25,
    // ---- document 01's own
    // A value that the Rust types cannot hold.
    Unrepresentable = 30,
    // A set that is not strictly rising.
    NotRising = 31,
    // A buffer shorter than the table's bytes.
    BufferTooShort = 32,
    // A record of a replay that is not of its form.
    BadRecord = 33,
}

// What a call answers that gives nothing but its success.
pub type Answer = Result<(), Refusal>;

// The number that document 01 gives the answer: "Accepted is 0."
pub fn number(answer: Answer) -> u8
    ensures { result ≡ number_of answer }
{
    match answer {
        Ok(()) => 0,
        Err(refusal) => refusal as u8,
    }
}

// Whether the answer is no refusal.
pub fn accepted(answer: Answer) -> bool
    ensures { result ≡ is_accepted answer }
{
    answer.is_ok()
}
