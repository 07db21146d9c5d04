ghost use Rattle.program_laws.specs.Laws.{OneFirst, SoundOrRefused};

/// Whatever the facts, the start and the machine, an image whose segments end within memory has a program against which
/// no cause stands, or some refusal is the first.
pub fn images_are_programs_or_refused()
    ensures { SoundOrRefused }
{}

/// An image with facts, from a start and on a machine, has at most one first refusal; none if it has a program against
/// which no cause stands.
pub fn first_refusal_is_one()
    ensures { OneFirst }
{}
