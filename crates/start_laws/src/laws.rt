ghost use Rattle.start_laws.specs.Laws.{NotBoth, OneRefusal, OneStart, ReadOrRefused};

use spelling_laws::spellings_are_one;

/// Whatever the bytes, they tell a start for the image, the machine and the entry, or some refusal has its cause.
pub fn starts_are_read_or_refused()
    ensures { ReadOrRefused }
{}

/// Bytes tell one start at most, or have one refusal at most, and not both.
pub fn start_or_refusal_is_one()
    ensures one_start { OneStart }
    ensures one_refusal { OneRefusal }
    ensures not_both { NotBoth }
{
    spellings_are_one();
}
