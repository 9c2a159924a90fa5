// Words of 32 bits in a payload, the lowest byte first.
ghost use Rattle.std.specs.Prelude.{◌≡◌, ◌+◌, ◌*◌, ◌^◌, ◌<◌, ◌≤◌, length};
ghost use Rattle.std.specs.List.{flat_map};
ghost use Rattle.field.specs.Bytes.{bytes_of, filled, word_at, words_at};
ghost use Rattle.field.specs.Payload.{sized};

use std::array;

fn word_at(bytes: &[u8], at: usize) -> u32
    requires { at + 4 ≤ length bytes.now }
    ensures { result ≡ word_at bytes.now at }
{
    u32::from_le_bytes([bytes[at], bytes[at + 1], bytes[at + 2], bytes[at + 3]])
}

// Tried: `as_chunks::<4>()` with `u32::from_le_bytes` of each. Left was that the words of the chunks are those by places.
// The N words of a payload, if it has their length.
pub fn read_words<const N: usize>(bytes: &[u8]) -> Option<[u32; N]>
    requires { 4 * N < 2 ^ 64 }
    ensures { result ≡ sized (4 * N) (words_at bytes.now 0 N) bytes.now }
{
    if bytes.len() != 4 * N {
        return None;
    }
    Some(array::from_fn(|i| word_at(bytes, 4 * i)))
}

// Fills a slice of the words' length, and leaves any other as it is.
pub fn write_words(words: &[u32], bytes: &mut [u8])
    requires { 4 * length words.now < 2 ^ 64 }
    ensures { bytes.new ≡ filled (flat_map bytes_of words.now) bytes.old }
{
    if bytes.len() != 4 * words.len() {
        return;
    }
    // The bytes are written by their places, since a proof knows nothing of what is written through chunks_exact_mut.
    for (i, word) in words.iter().enumerate() {
        bytes[4 * i..4 * i + 4].copy_from_slice(&word.to_le_bytes());
    }
}
