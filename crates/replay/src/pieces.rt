// The record of a case, in pieces. A piece is a place, a length and so many bytes, laid over the record of the case before.

use whole_input::words::Words;

// Lays so many bytes over the record from a place on, as far as there is room: those of the case, and zeros where the case ends before.
fn lay_piece(bytes: &[u8], len: usize, record: &mut [u8], place: usize) {
    if let Some(under) = record.get_mut(place..) {
        let room = under.len().min(len);
        let (held, beyond) = under[..room].split_at_mut(room.min(bytes.len()));
        held.copy_from_slice(&bytes[..held.len()]);
        beyond.fill(0);
    }
}

// The pieces up to the end of the case. An iterator of them would need a law that it ends; here what is left gets shorter.
pub(crate) fn lay(mut pieces: Words, record: &mut [u8]) {
    while !pieces.left.is_empty() {
        let place = pieces.word() as usize;
        let len = pieces.word();
        lay_piece(pieces.bytes(len), len as usize, record, place);
    }
}
