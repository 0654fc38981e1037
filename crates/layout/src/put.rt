// The leaves of the writers: numbers of any width, and `Writer::bytes` of codec.rs.
//
// Ported from crates/opc-consensus/src/voter_slots/codec.rs of openpacketcore-sdk, commit
// 717de332e7, Apache-2.0 (see NOTICE). Changed: a buffer is lent and has room; each function
// is given the place to write at and gives the place after it.
ghost use Rattle.std.specs.Prelude.{◌+◌, ◌≤◌, ◌≡◌, length};
ghost use Rattle.format.specs.Num.{uint};
ghost use Rattle.format.specs.Put.{Put};

// The width low bytes of the value, the highest first. No code here calls it, since the writers have
// numbers of one, two and eight bytes: it stays for callers in Rust, since what this layer has
// promised of every width stays promised.
pub fn put_be(buffer: &mut [u8], at: usize, width: usize, value: u64) -> usize
    requires { at + length ((uint width).enc value) ≤ length buffer.old }
    ensures { Put ((uint width).enc value) at buffer.old buffer.new result }
{
    let end = at + width;
    let mut rest = value;
    for k in (0..width).rev() {
        buffer[at + k] = (rest % 256) as u8;
        rest /= 256;
    }
    end
}

// The library's `copy_from_slice`, of bytes. That one calls `memmove`, which a program that links the
// library for C would have to bring; of this loop the compiler makes copies of its own.
pub fn copy_bytes(place: &mut [u8], bytes: &[u8])
    requires { length place.old ≡ length bytes.now }
    ensures { place.new ≡ bytes.now }
{
    for i in 0..bytes.len() {
        place[i] = bytes[i];
    }
}

// `bytes`. Buffer and place come one beside the other: `Writer`, which holds the two as one, is made of
// this function.
#[tactic(auto, using(format::specs::Put::copied_over))]
pub fn put_bytes(buffer: &mut [u8], at: usize, bytes: &[u8]) -> usize
    requires { at + length bytes.now ≤ length buffer.old }
    ensures { Put bytes.now at buffer.old buffer.new result }
{
    let end = at + bytes.len();
    copy_bytes(&mut buffer[at..end], bytes);
    end
}
