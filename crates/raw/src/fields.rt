// The fields of the bodies of questions, one after another.
ghost use Rattle.std.specs.Prelude.{◌≡◌, length, IfSome};

// What is left to read of a body. Each field is read if it is whole; numbers are big-endian.
//
// It is no `Reader` of the crate reader, since no proof says what it reads: it is for the test
// programs, and the port's own reader is what they test.
#[derive(Clone, Copy)]
pub struct Fields<'a> {
    pub left: &'a [u8],
    // A flag may be any number: what is not 1 is a no.
    pub any_flag: bool,
}

impl<'a> Fields<'a> {
    // The fields of a body, of which nothing is read yet.
    pub fn of(body: &'a [u8]) -> Fields<'a> {
        Fields {
            left: body,
            any_flag: false,
        }
    }

    // The same where a flag may be any number, so that bytes of any content are fields.
    pub fn of_any(body: &'a [u8]) -> Fields<'a> {
        Fields {
            left: body,
            any_flag: true,
        }
    }

    // So many bytes.
    pub fn part(&mut self, size: usize) -> Option<&'a [u8]>
        ensures { IfSome result (λ part. length part.now ≡ size) }
    {
        let (part, left) = self.left.split_at_checked(size)?;
        self.left = left;
        Some(part)
    }

    // Bytes into a place, as many as it has. The loop is `copy_from_slice` of the library, which would
    // have the benchmarks' library ask for `memmove`.
    pub fn bytes(&mut self, place: &mut [u8]) -> Option<()> {
        let part = self.part(place.len())?;
        for (to, from) in place.iter_mut().zip(part) {
            *to = *from;
        }
        Some(())
    }

    // So many bytes, where the type says how many.
    pub fn array<const N: usize>(&mut self) -> Option<[u8; N]> {
        let (array, left) = self.left.split_first_chunk()?;
        self.left = left;
        Some(*array)
    }

    // A number of one byte. There is a method for each width, since the library has no trait of all
    // numbers.
    pub fn u8(&mut self) -> Option<u8> {
        Some(u8::from_be_bytes(self.array()?))
    }

    // A number of two bytes.
    pub fn u16(&mut self) -> Option<u16> {
        Some(u16::from_be_bytes(self.array()?))
    }

    // A number of four bytes.
    pub fn u32(&mut self) -> Option<u32> {
        Some(u32::from_be_bytes(self.array()?))
    }

    // A number of eight bytes.
    pub fn u64(&mut self) -> Option<u64> {
        Some(u64::from_be_bytes(self.array()?))
    }

    // A flag is 0 or 1. Another number is not of the form, or a no where any is taken.
    pub fn flag(&mut self) -> Option<bool> {
        match self.u8()? {
            0 => Some(false),
            1 => Some(true),
            _ => self.any_flag.then_some(false),
        }
    }

    // Whether nothing is left: what comes after the last field is not of the form.
    pub fn end(self) -> Option<()> {
        if self.left.is_empty() { Some(()) } else { None }
    }
}
