// UTF-8 as RFC 3629 has it: the character at the front of some bytes. The original relies on
// Rust's `str` for this.
ghost use Rattle.std.specs.Prelude.{◌<◌, ◌≡◌, [], ◌∷◌, get_or};
ghost use Rattle.identity.specs.Utf8.{octets, within, utf8_tail, led_by, decoded_char};

// The character at the front of bytes: its code point, and how many bytes it takes. There is none
// for a wrong or a missing byte, an overlong form, a surrogate, or a code point above 10FFFF. The
// first byte is judged by its range, which decides how many bytes there are and the bounds of the
// second: an arm for each alternative of RFC 3629's grammar. The narrower bounds shut out overlong
// forms (after E0 and F0), surrogates (ED) and what is above 10FFFF (F4).
pub fn decode(bytes: &[u8]) -> Option<(u32, usize)>
    ensures { result ≡ decoded_char bytes.now }
{
    if bytes.len() == 0 {
        return None;
    }
    let lead = bytes[0];
    match lead {
        0x00..=0x7F => Some((lead as u32, 1)),
        0xC2..=0xDF => decode_two(bytes),
        0xE0 => decode_three(bytes, 0xA0, 0xBF),
        0xE1..=0xEC => decode_three(bytes, 0x80, 0xBF),
        0xED => decode_three(bytes, 0x80, 0x9F),
        0xEE..=0xEF => decode_three(bytes, 0x80, 0xBF),
        0xF0 => decode_four(bytes, 0x90, 0xBF),
        0xF1..=0xF3 => decode_four(bytes, 0x80, 0xBF),
        0xF4 => decode_four(bytes, 0x80, 0x8F),
        _ => None,
    }
}

// The byte at i, or 0, which continues no character, after the end.
fn byte_at(bytes: &[u8], i: usize) -> u8
    ensures { result ≡ get_or bytes.now i 0 }
{
    bytes.get(i).copied().unwrap_or(0)
}

// Every byte after the second is one of these.
fn is_tail(b: u8) -> bool
    ensures { result ≡ within utf8_tail b }
{
    (0x80 <= b) & (b <= 0xBF)
}

// The bits of a byte that belong to the code point are taken by a remainder: of the lead of two,
// three or four bytes the low five, four or three, and of each byte after it the low six.
//
// There is a function for each count of bytes, since each has its own bits of the lead, its own bounds
// and its own sum: one for all counts would be a loop with three cases in it, and read less like
// RFC 3629.

// The lead of two bytes was read.
fn decode_two(bytes: &[u8]) -> Option<(u32, usize)>
    ensures { result ≡ led_by (utf8_tail ∷ []) bytes.now }
{
    let lead = byte_at(bytes, 0);
    let second = byte_at(bytes, 1);
    if is_tail(second) {
        Some(((lead % 32) as u32 * 64 + (second % 64) as u32, 2))
    } else {
        None
    }
}

// The lead of three bytes was read; the second lies from low, which is above 0, to high.
fn decode_three(bytes: &[u8], low: u8, high: u8) -> Option<(u32, usize)>
    requires { 0 < low }
    ensures { result ≡ led_by (octets low high ∷ utf8_tail ∷ []) bytes.now }
{
    let lead = byte_at(bytes, 0);
    let second = byte_at(bytes, 1);
    let third = byte_at(bytes, 2);
    if ((low <= second) & (second <= high)) & is_tail(third) {
        Some((
            ((lead % 16) as u32 * 64 + (second % 64) as u32) * 64 + (third % 64) as u32,
            3,
        ))
    } else {
        None
    }
}

// The lead of four bytes was read; the second lies from low, which is above 0, to high.
fn decode_four(bytes: &[u8], low: u8, high: u8) -> Option<(u32, usize)>
    requires { 0 < low }
    ensures { result ≡ led_by (octets low high ∷ utf8_tail ∷ utf8_tail ∷ []) bytes.now }
{
    let lead = byte_at(bytes, 0);
    let second = byte_at(bytes, 1);
    let third = byte_at(bytes, 2);
    let fourth = byte_at(bytes, 3);
    if ((low <= second) & (second <= high)) & (is_tail(third) & is_tail(fourth)) {
        let upper = ((lead % 8) as u32 * 64 + (second % 64) as u32) * 64 + (third % 64) as u32;
        Some((upper * 64 + (fourth % 64) as u32, 4))
    } else {
        None
    }
}
