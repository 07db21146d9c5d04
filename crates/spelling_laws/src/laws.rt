ghost use Rattle.spelling_laws.specs.Laws.{ByteIsOne, DecimalIsOne, WordIsOne};

/// No two numbers have one spelling: of those below 2^64 in decimal, of words as eight hexadecimal digits, and of bytes
/// as two.
pub fn spellings_are_one()
    ensures decimal { DecimalIsOne }
    ensures word { WordIsOne }
    ensures byte { ByteIsOne }
{}
