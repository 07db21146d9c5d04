ghost use Rattle.cert_laws.specs.Laws.{HasText, NotBoth, OneCertificate, OneRefusal, ReadOrRefused};

use cert_lines::no_lines_within;
use spelling_laws::spellings_are_one;

/// Whatever the bytes, they are the text of a certificate, or some refusal has its cause.
pub fn certificates_are_read_or_refused()
    ensures { ReadOrRefused }
{}

/// Each certificate has a text of version 2, whether its numbers are in their ranges or not, and a number of different
/// vectors.
pub fn certificates_have_texts()
    ensures { HasText }
{}

/// Bytes are the text of one certificate at most, or have one refusal at most, and not both.
pub fn certificate_or_refusal_is_one()
    ensures one_certificate { OneCertificate }
    ensures one_refusal { OneRefusal }
    ensures not_both { NotBoth }
{
    spellings_are_one();
    no_lines_within();
}
