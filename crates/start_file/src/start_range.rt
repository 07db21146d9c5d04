//! Numbers are in the range of their types. Laws: nothing is computed here.

ghost use Rattle.std.specs.Prelude.{◌<◌, ◌^◌, ℕ, All, slice_index};

use wx_base::Segment;

/// Registers hold words.
pub(crate) fn words_fit(words: &[u32])
    ensures { (k : ℕ) → slice_index words.now k < 2 ^ 32 }
{}

/// Bytes are below 256.
fn bytes_fit(bytes: &[u8])
    ensures { (k : ℕ) → slice_index bytes.now k < 256 }
{}

/// So are those of an image.
pub(crate) fn segments_fit(segments: &[Segment])
    ensures { All (λ s. (k : ℕ) → slice_index s.bytes k < 256) segments.now }
{
    for segment in segments {
        bytes_fit(segment.bytes.as_bytes());
    }
}
