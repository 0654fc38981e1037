// What is left of a lent place, where the raw form is written. A field that has no room is left out,
// so that no caller has to show that a record lies within.
#[derive(Drop)]
pub struct Room<'a> {
    left: &'a mut [u8],
}

impl<'a> Room<'a> {
    // The room that a lent place has, all of it.
    pub fn of(place: &'a mut [u8]) -> Room<'a> {
        Room { left: place }
    }

    // Writes the bytes to the front of what is left, where they have room.
    pub fn bytes(&mut self, bytes: &[u8]) {
        if let Some(place) = self.left.split_off_mut(..bytes.len()) {
            place.copy_from_slice(bytes);
        }
    }

    // A length in a table that was read has no more than 16 bits.
    pub fn length(&mut self, n: usize) {
        self.bytes(&((n % 65536) as u16).to_be_bytes());
    }

    // A count in a table that was read has no more than 8 bits.
    pub fn count(&mut self, n: usize) {
        self.bytes(&[(n % 256) as u8]);
    }
}
