//! Laws of the definitions: nothing is computed here.
ghost use Rattle.std.specs.Prelude.{◌≡◌, ℕ, true};
ghost use Rattle.wx_base.specs.Image.{Covers};
ghost use Rattle.wx_base.specs.Run.{IsStart};
ghost use Rattle.wx_base.specs.State.{pc};
ghost use Rattle.wx_mem.specs.Memory.{is_written};
ghost use Rattle.arm_step.specs.Cpu.{registers_of};
ghost use Rattle.start_file.specs.StartLaws.{StartTextIsItsLines, LinesAreAStartText, LinesBeginAsBytesDo};
ghost use Rattle.start_file.specs.StartState.{start_of};

use crate::start_range::{segments_fit, words_fit};
use crate::start_state::Start;
use wx_base::{Image, Machine};

/// A start text is its lines one after another, each its words with single spaces between them and a line feed.
pub fn start_text_is_its_lines()
    ensures { StartTextIsItsLines }
{}

/// What may be said in a start text is said by one: its lines one after another.
pub fn lines_are_a_start_text()
    ensures { LinesAreAStartText }
{}

/// Lines begin some start text exactly where their bytes, each line with its line feed, do.
pub fn lines_begin_as_bytes_do()
    ensures { LinesBeginAsBytesDo }
{}

/// What a processor with an image and a cache stand for is one of the starts of the image's runs from the processor's
/// pc, if nothing was written in the image's segments. So what holds of every run of the image holds of the one from
/// this start.
pub fn is_a_start(start: &Start, image: &Image, machine: &Machine)
    requires shape { start.now.cache.shape ≡ machine.now.shape }
    requires outside { (at : ℕ) → is_written start.now.cpu.memory at ≡ true → Covers image.now at → ⊥ }
    ensures { IsStart machine.now image.now (registers_of start.now.cpu.regs pc) (start_of image.now start.now) }
{
    words_fit(&start.cpu.regs);
    start.cpu.memory.bytes_fit();
    start.cache.is_cache();
    segments_fit(image.segments.as_slice());
}
