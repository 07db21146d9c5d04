ghost use Rattle.std.specs.Prelude.{◌≡◌, ◌≢◌, ℕ, true, List, All, IfOk, IfErr, OnOk};
ghost use Rattle.wx_base.specs.Machine.{IsMachine, IsShape};
ghost use Rattle.wx_base.specs.Cache.{IsCache};
ghost use Rattle.wx_base.specs.Image.{Covers};
ghost use Rattle.wx_base.specs.Run.{IsStart};
ghost use Rattle.wx_mem.specs.Memory.{is_written};
ghost use Rattle.start_file.specs.declared.start_item.Item.{Item as ItemValue};
ghost use Rattle.start_file.specs.StartText.{IsStartText};
ghost use Rattle.start_file.specs.StartSaid.{sets_said};
ghost use Rattle.start_file.specs.StartMade.{NamesRegister, NamesList, IsCacheRefusal};
ghost use Rattle.start_file.specs.StartState.{start_of, AreInRange};
ghost use Rattle.start_file.specs.StartRefusal.{IsStartOf, IsToldBy, IsRefusal, IsRefusedFor};

use crate::start_error::StartError;
use crate::start_item::Item;
use crate::start_made::{cache, flags, memory, registers};
use crate::start_range::{segments_fit, words_fit};
use crate::start_state::Start;
use crate::start_text::read_items;
use arm_step::Cpu;
use std::alloc::Global;
use wx_base::{Flags, Image, Machine, Shape};

/// The start that a text tells for the image and the machine; pc is the entry. Linear in the text, but for one look
/// through the image's segments for each byte that is written.
///
/// `Line` names the first line that is not as it must be or is missing, and comes before `NotACache`, which names the
/// first set whose lines are none of a cache of the machine's shape.
pub fn read_start(
    alloc: Global,
    bytes: &[u8],
    image: &Image,
    entry: u32,
    machine: &Machine,
) -> Result<Start, StartError>
    requires { IsMachine machine.now }
    ensures told { IfOk result (λ start. IsToldBy image.now machine.now.shape entry bytes.now start) }
    ensures once { IfOk result
        (λ start. (items : List ItemValue) → IsStartText image.now machine.now.shape bytes.now items
        → IsStartOf entry machine.now.shape items start) }
    ensures cache { IfOk result (λ start. IsCache machine.now.shape start.cache.lists) }
    // What the processor with the image and the cache stand for is one of the starts of the image's runs from the
    // entry.
    ensures starts { IfOk result (λ start. IsStart machine.now image.now entry (start_of image.now start)) }
    ensures outside { IfOk result
        (λ start. (at : ℕ) → is_written start.cpu.memory at ≡ true → Covers image.now at → ⊥) }
    ensures taken { (items : List ItemValue) → IsStartText image.now machine.now.shape bytes.now items
        → IsCache machine.now.shape (sets_said machine.now.shape items) → IfErr result (λ e. e ≡ StartError.NoMemory) }
    ensures refused { IfErr result (λ e. IsRefusal image.now machine.now.shape bytes.now e) }
    ensures due { (e : StartError) → IsRefusal image.now machine.now.shape bytes.now e → e ≢ StartError.NoMemory
        → IsRefusedFor result e }
{
    let segments = image.segments.as_slice();
    segments_fit(segments);
    let items = read_items(alloc, bytes, image, machine.shape)?;
    make_start(alloc, items.as_slice(), entry, machine.shape)
}

/// The start that lines tell.
fn make_start(alloc: Global, items: &[Item], entry: u32, shape: Shape) -> Result<Start, StartError>
    requires shape { IsShape shape }
    requires registers { All NamesRegister items.now }
    requires sets { All (NamesList shape.sets) items.now }
    ensures made { IfOk result (λ start. IsStartOf entry shape items.now start) }
    ensures range { IfOk result AreInRange }
    ensures cache { OnOk result (IsCache shape (sets_said shape items.now)) }
    ensures refused { IfErr result (λ e. IsCacheRefusal shape items.now e) }
{
    let Flags { n, z, c, v } = flags(items);
    let cache = cache(alloc, items, shape)?;
    let memory = memory(alloc, items)?;
    let regs = registers(items, entry);
    words_fit(&regs);
    memory.bytes_fit();
    let cpu = Cpu {
        regs,
        n,
        z,
        c,
        v,
        memory,
    };
    Ok(Start { cpu, cache })
}
