//! Laws of the definitions: nothing is computed here.

ghost use Rattle.elf_image.specs.Laws.{ImagesAreLoaded, NotBoth, OneFirstCause, PassesOrRefused};

/// Exactly one answer of [`crate::read_image`] is due, whatever the bytes, but for want of memory: they pass, and stand
/// for one image, or the cause of one refusal stands and none before it.
pub fn one_answer_is_due()
    ensures some { PassesOrRefused }
    ensures one_cause { OneFirstCause }
    ensures not_both { NotBoth }
{}

/// The image that bytes without a fault stand for can be loaded: its segments lie within the address space, hold their
/// bytes, and do not overlap.
pub fn images_are_loaded()
    ensures { ImagesAreLoaded }
{}
