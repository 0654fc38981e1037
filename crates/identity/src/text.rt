// Names, snapshot ids and strict names.
//
// Ported from the rules on text in crates/opc-consensus/src/voter_slots/validation.rs
// (`LostVoterAttestationV1::validate`, `VoterReplacementEvidence::validate`) of openpacketcore-sdk,
// commit 717de332e7, Apache-2.0 (see NOTICE). Changed: each rule is a function of bytes, with the
// test for UTF-8 and the bound on the length in it; Rust's `char::is_control` and
// `char::is_whitespace` are written out; the strict name is new.
ghost use Rattle.std.specs.Prelude.{◌≡◌, ◌<◌};
ghost use Rattle.identity.specs.Utf8.{octets, within, all_chars};
ghost use Rattle.identity.specs.Text.{is_control, is_in, is_whitespace, allows, first_ascii, last_ascii, is_utf8, every, starts_with, is_name, is_snapshot_id, is_domain_byte, is_segment_byte, split, are_strict_parts, is_strict_name, next_part};

use crate::utf8::decode;

// Bytes of `spiffe://`, with which every name begins.
const SCHEME_BYTES: usize = 9;
// Shortest name, in bytes.
const MIN_VOTER_SPIFFE_ID_BYTES: usize = SCHEME_BYTES + 1;
// Longest name, in bytes.
pub const MAX_VOTER_SPIFFE_ID_BYTES: usize = 2048;
// Longest snapshot id, in bytes.
pub const MAX_VOTER_SNAPSHOT_ID_BYTES: usize = 256;
// Longest trust domain of a strict name, in bytes.
const MAX_TRUST_DOMAIN_BYTES: usize = 255;

// Unicode's 25 White_Space code points.
const WHITE_SPACE: [u32; 25] = [
    0x0009, 0x000A, 0x000B, 0x000C, 0x000D, 0x0020, 0x0085, 0x00A0, 0x1680, 0x2000, 0x2001, 0x2002,
    0x2003, 0x2004, 0x2005, 0x2006, 0x2007, 0x2008, 0x2009, 0x200A, 0x2028, 0x2029, 0x202F, 0x205F,
    0x3000,
];

// Which characters a text may hold.
#[derive(Clone, Copy)]
pub enum Allowed {
    Any,
    NoControl,
    NoControlNoWhitespace,
}

// The part of a strict name that is being read. By the library's `split` a part's bytes would be
// passed twice, once in search of the slash after it and once to be judged.
#[derive(Clone, Copy)]
struct Part {
    // Whether all was right so far: a test, with no value that it would stand beside.
    good: bool,
    // Whether the part is the trust domain.
    in_domain: bool,
    // How many of its bytes were read.
    run: usize,
}

// Whether the bytes are UTF-8.
pub fn is_utf8(bytes: &[u8]) -> bool
    ensures { result ≡ is_utf8 bytes.now }
{
    all_allowed(bytes, Allowed::Any)
}

// Whether the bytes are the name of a controller or a candidate.
pub fn is_name(bytes: &[u8]) -> bool
    ensures { result ≡ is_name bytes.now }
{
    if bytes.len() < MIN_VOTER_SPIFFE_ID_BYTES {
        return false;
    }
    if MAX_VOTER_SPIFFE_ID_BYTES < bytes.len() {
        return false;
    }
    if !bytes.starts_with(b"spiffe://") {
        return false;
    }
    all_allowed(bytes, Allowed::NoControlNoWhitespace)
}

// Whether the bytes are the id of a snapshot.
pub fn is_snapshot_id(bytes: &[u8]) -> bool
    ensures { result ≡ is_snapshot_id bytes.now }
{
    if bytes.len() < 1 {
        return false;
    }
    if MAX_VOTER_SNAPSHOT_ID_BYTES < bytes.len() {
        return false;
    }
    all_allowed(bytes, Allowed::NoControl)
}

// Whether the bytes are a strict name, after the SPIFFE-ID standard.
pub fn is_strict_name(bytes: &[u8]) -> bool
    ensures { result ≡ is_strict_name bytes.now }
{
    if MAX_VOTER_SPIFFE_ID_BYTES < bytes.len() {
        return false;
    }
    if !bytes.starts_with(b"spiffe://") {
        return false;
    }
    are_strict_parts(&bytes[SCHEME_BYTES..])
}

// Whether the code point is a control character.
pub fn is_control(code: u32) -> bool
    ensures { result ≡ is_control code }
{
    (code <= 0x1F) | ((0x7F <= code) & (code <= 0x9F))
}

// Whether the code point is one of Unicode's White_Space. Most scripts lie where the list has
// nothing, so that these ranges spare the walk through it.
pub fn is_whitespace(code: u32) -> bool
    ensures { result ≡ is_whitespace code }
{
    if (0x20 < code) & (code < 0x85) {
        return false;
    }
    if (0xA0 < code) & (code < 0x1680) {
        return false;
    }
    if 0x3000 < code {
        return false;
    }
    contains(&WHITE_SPACE, code)
}

// Whether the code point is in the list. No early exit, as the library's `contains` has one, so that
// several are compared at once.
#[tactic(auto, unfolding(crate::specs::Text::is_in))]
fn contains(list: &[u32], code: u32) -> bool
    ensures { result ≡ is_in list.now code }
{
    let mut found = false;
    for one in list {
        found = found | (*one == code);
    }
    found
}

// Whether the rule allows the code point.
fn is_allowed(rule: Allowed, code: u32) -> bool
    ensures { result ≡ allows rule code }
{
    match rule {
        Allowed::Any => true,
        Allowed::NoControl => !is_control(code),
        Allowed::NoControlNoWhitespace => !is_control(code) & !is_whitespace(code),
    }
}

// Whether the bytes are UTF-8 whose characters the rule allows. Text that is all ASCII, which
// nearly every name is, is judged many bytes at a time.
fn all_allowed(bytes: &[u8], rule: Allowed) -> bool
    ensures { result ≡ all_chars (allows rule) bytes.now }
{
    if all_within(bytes, first_ascii(rule), last_ascii(rule)) {
        return true;
    }
    all_chars(bytes, rule)
}

// The least ASCII character that the rule allows. It allows all of them from here to `last_ascii`.
fn first_ascii(rule: Allowed) -> u8
    ensures { result ≡ first_ascii rule }
{
    match rule {
        Allowed::Any => 0x00,
        Allowed::NoControl => 0x20,
        Allowed::NoControlNoWhitespace => 0x21,
    }
}

// The greatest ASCII character that the rule allows.
fn last_ascii(rule: Allowed) -> u8
    ensures { result ≡ last_ascii rule }
{
    match rule {
        Allowed::Any => 0x7F,
        Allowed::NoControl => 0x7E,
        Allowed::NoControlNoWhitespace => 0x7E,
    }
}

// Whether every byte lies from low to high. No early exit, as the library's `all` has one, so that
// sixteen are compared at once.
#[tactic(auto, using(crate::specs::TextLaws::all_more), unfolding(crate::specs::Text::every))]
fn all_within(bytes: &[u8], low: u8, high: u8) -> bool
    ensures { result ≡ every (within (octets low high)) bytes.now }
{
    let mut all = true;
    for byte in bytes {
        all = all & ((low <= *byte) & (*byte <= high));
    }
    all
}

// The same, character by character. Each takes from one to four bytes, so that no range of places
// and no iterator of the library goes from one to the next.
#[tactic(auto, using(crate::specs::TextLaws::refused_char, crate::specs::TextLaws::allowed_char, crate::specs::Utf8Laws::all_chars_end, crate::specs::Utf8Laws::char_within))]
fn all_chars(bytes: &[u8], rule: Allowed) -> bool
    ensures { result ≡ all_chars (allows rule) bytes.now }
{
    let mut rest = bytes;
    while let Some((code, width)) = decode(rest) {
        if !is_allowed(rule, code) {
            return false;
        }
        let (_, later) = rest.split_at(width);
        rest = later;
    }
    rest.is_empty()
}

// The trust domain and the segments after it, with slashes between them.
fn are_strict_parts(bytes: &[u8]) -> bool
    ensures { result ≡ are_strict_parts (split bytes.now) }
{
    let mut part = Part {
        good: true,
        in_domain: true,
        run: 0,
    };
    for byte in bytes {
        part = next_part(part, *byte);
    }
    part.good & (0 < part.run)
}

// One more byte: a slash ends a part, which must not be empty; any other byte must be one of those
// that the part may hold, and a trust domain holds 255 at most.
fn next_part(part: Part, b: u8) -> Part
    requires { part.run < 9223372036854775808 }
    ensures { result ≡ next_part part b }
{
    if b == b'/' {
        return Part {
            good: part.good & (0 < part.run),
            in_domain: false,
            run: 0,
        };
    }
    if part.in_domain {
        return Part {
            good: part.good & (is_domain_byte(b) & (part.run < MAX_TRUST_DOMAIN_BYTES)),
            in_domain: true,
            run: part.run + 1,
        };
    }
    Part {
        good: part.good & is_segment_byte(b),
        in_domain: false,
        run: part.run + 1,
    }
}

// What a trust domain may hold.
fn is_domain_byte(b: u8) -> bool
    ensures { result ≡ is_domain_byte b }
{
    ((b'a' <= b) & (b <= b'z'))
        | (((b'0' <= b) & (b <= b'9')) | ((b == b'.') | ((b == b'-') | (b == b'_'))))
}

// What a segment may hold: upper case letters too.
fn is_segment_byte(b: u8) -> bool
    ensures { result ≡ is_segment_byte b }
{
    ((b'A' <= b) & (b <= b'Z')) | is_domain_byte(b)
}
