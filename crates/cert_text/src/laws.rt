//! Laws of the definitions: nothing is computed here.
ghost use Rattle.cert_text.specs.Laws.{CountIsOne, TextIsOne, WrittenTells, TextIsWritten, ReadIsWritable, NoTextWithin};

use cert_lines::no_lines_within;

/// A certificate has one number of different vectors.
pub fn one_count()
    ensures { CountIsOne }
{}

/// A certificate has one text of version 2.
pub fn one_text()
    ensures { TextIsOne }
{}

/// The text of a certificate that can be written tells that certificate, so reading it gives the certificate again.
pub fn written_tells()
    ensures { WrittenTells }
{}

/// A text of version 2 that tells a certificate is the one that is written of it.
pub fn text_is_written()
    ensures { TextIsWritten }
{}

/// A certificate that some text tells can be written, if the text has fewer than 2^32 bytes.
pub fn what_is_read_is_writable()
    ensures { ReadIsWritable }
{}

/// No proper front of a certificate's text is one.
pub fn no_text_within()
    ensures { NoTextWithin }
{
    no_lines_within();
}
