// The trailer: the last 64 bytes, read as sixteen words.

ghost use Rattle.std.specs.Prelude.{◌≡◌, ◌≤◌, ◌<◌, ◌+◌, [], length, slice_index_or};
ghost use Rattle.std.specs.Int.{w32, from_le_bytes};
ghost use Rattle.record.specs.Format.{trailer_bytes};
ghost use Rattle.record.specs.Layout.{trailer_of};

use record::bytes::numbers_at;
use record::format::TRAILER_BYTES;
use record::trailer::{Mark, Trailer};

const TRAILER_WORDS: usize = 16;

fn word(words: &[[u8; 4]], k: usize) -> usize
    requires { k < length words.now }
    ensures { result ≡ from_le_bytes w32 (slice_index_or words.now k []) }
{
    u32::from_le_bytes(words[k]) as usize
}

// A count and the back pointer behind it.
fn mark_at(words: &[[u8; 4]], k: usize) -> Mark
    requires { k + 1 < length words.now }
    ensures { result ≡ record {
      count = from_le_bytes w32 (slice_index_or words.now k []);
      back = from_le_bytes w32 (slice_index_or words.now (k + 1) []);
    } }
{
    Mark {
        count: word(words, k),
        back: word(words, k + 1),
    }
}

#[tactic(auto, using(record::proofs::Numbers::u32_read), unfolding(record::specs::Layout::trailer_of))]
pub fn trailer_of(bytes: &[u8]) -> Trailer
    requires { trailer_bytes ≤ length bytes.now }
    ensures { result ≡ trailer_of bytes.now }
{
    let words = numbers_at(bytes, bytes.len() - TRAILER_BYTES, TRAILER_WORDS);
    Trailer {
        edition: word(words, 0),
        mask: mark_at(words, 1),
        nuclei: mark_at(words, 3),
        boundaries: mark_at(words, 5),
        added_anchors: mark_at(words, 7),
        added_boundaries: mark_at(words, 9),
        scores: mark_at(words, 11),
        candidates: mark_at(words, 13),
        costs: word(words, 15),
    }
}
