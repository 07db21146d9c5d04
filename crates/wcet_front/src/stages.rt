//! The stages of commands: from the contents of files to what a command needs, or to the reply that refuses one of them.

ghost use Rattle.std.specs.Prelude.{◌≡◌, ◌≢◌, ◌≤◌, IfOk, length, option_copied};
ghost use Rattle.arm_step.specs.Cpu.{registers_of};
ghost use Rattle.wx_base.specs.Facts.{FactsAscend};
ghost use Rattle.wx_base.specs.Machine.{IsMachine};
ghost use Rattle.wx_base.specs.State.{pc};
ghost use Rattle.ffx_facts.specs.Causes.{AreFactsOf};
ghost use Rattle.machine_desc.specs.Causes.{IsDescription};
ghost use Rattle.start_file.specs.StartState.{start_of};
ghost use Rattle.flow_ctx.specs.Laws.{IsBuilt};
ghost use Rattle.cert_text.specs.Text.{IsTextOf};
ghost use Rattle.cert_text.specs.Writable.{IsWritable};
ghost use Rattle.wcet_front.specs.Inputs.{AreTold, IsCertRefusal, IsEntryOf, IsEntryRefusal, IsFactsRefusal, IsFlowRefusal, IsImageOf, IsImageRefusal, IsInputsRefusal, IsMachineRefusal, IsSmallUnfolding, IsSoundProgram, IsStartRefusal, IsStartTold, IsUnfoldRefusal};
ghost use Rattle.wcet_front.specs.Stages.{Gives, GivesOnly, RefusesNothing, RefusesWith, StopsWith};

use crate::inputs::{InputTexts, Inputs};
use crate::reply::Reply;
use crate::stop::Stop;
use cert_text::{CertError, Certificate, read_cert};
use elf_image::{ElfError, read_image};
use ffx_facts::{FactsError, facts_are_one, read_facts};
use flow_ctx::{UnfoldError, Unfolded, unfold, unfoldings_are_one};
use flow_graph::{FlowError, Program, build, program_is_one};
use machine_desc::{MachineError, read_machine};
use start_file::{Start, StartError, read_start};
use std::alloc::Global;
use wx_base::{Facts, Image, Machine, Text, find_symbol};

/// What the texts of an image, of facts on it and of a machine tell. The first that is refused decides.
pub fn inputs_in(alloc: Global, texts: &InputTexts) -> Result<Inputs, Stop>
    ensures cause { Gives (AreTold texts.now) (IsInputsRefusal texts.now) result }
    ensures due { (inputs : _) → AreTold texts.now inputs → GivesOnly inputs result }
    ensures refusal_due { (said : _) → IsInputsRefusal texts.now said → RefusesWith said result }
    ensures ascend { IfOk result (λ inputs. FactsAscend inputs.facts) }
    ensures in_range { IfOk result (λ inputs. IsMachine inputs.machine) }
{
    facts_are_one();
    let image = image_in(alloc, &texts.image)?;
    let facts = facts_in(alloc, &texts.facts, &image)?;
    let machine = machine_in(alloc, &texts.machine)?;
    Ok(Inputs {
        image,
        facts,
        machine,
    })
}

/// The image that a file's bytes are.
fn image_in(alloc: Global, text: &Text) -> Result<Image, Stop>
    ensures cause { Gives (IsImageOf text.now) (IsImageRefusal text.now) result }
    ensures due { (image : _) → IsImageOf text.now image → GivesOnly image result }
    ensures refusal_due { (said : _) → IsImageRefusal text.now said → RefusesWith said result }
{
    match read_image(alloc, text.as_bytes()) {
        Ok(image) => Ok(image),
        Err(ElfError::NoMemory) => Err(Stop::NoMemory),
        Err(refusal) => Err(Stop::Replied {
            reply: Reply::BadImage { refusal },
        }),
    }
}

/// The facts that a file's bytes tell of an image.
fn facts_in(alloc: Global, text: &Text, image: &Image) -> Result<Facts, Stop>
    ensures cause { Gives (AreFactsOf text.now image.now.symbols) (IsFactsRefusal text.now image.now.symbols) result }
    ensures due { (facts : _) → AreFactsOf text.now image.now.symbols facts → RefusesNothing result }
    ensures refusal_due { (said : _) → IsFactsRefusal text.now image.now.symbols said → RefusesWith said result }
    ensures ascend { IfOk result FactsAscend }
{
    match read_facts(alloc, text.as_bytes(), image.symbols.as_slice()) {
        Ok(facts) => Ok(facts),
        Err(FactsError::NoMemory) => Err(Stop::NoMemory),
        Err(refusal) => Err(Stop::Replied {
            reply: bad_facts(refusal),
        }),
    }
}

/// The reply to a file that tells no facts.
fn bad_facts(refusal: FactsError) -> Reply
    requires { refusal ≢ FactsError.NoMemory }
    ensures is { result ≡ Reply.BadFacts refusal }
    ensures refused { refusal ≢ FactsError.NoMemory }
{
    Reply::BadFacts { refusal }
}

/// The machine that a file's bytes describe.
fn machine_in(alloc: Global, text: &Text) -> Result<Machine, Stop>
    ensures cause { Gives (IsDescription text.now) (IsMachineRefusal text.now) result }
    ensures due { (machine : _) → IsDescription text.now machine → GivesOnly machine result }
    ensures refusal_due { (said : _) → IsMachineRefusal text.now said → RefusesWith said result }
    ensures in_range { IfOk result IsMachine }
{
    match read_machine(alloc, text.as_bytes()) {
        Ok(machine) => Ok(machine),
        Err(MachineError::NoMemory) => Err(Stop::NoMemory),
        Err(refusal) => Err(Stop::Replied {
            reply: Reply::BadMachine { refusal },
        }),
    }
}

/// Where runs begin: at the image's entry, or at the value of the symbol that is named.
pub fn entry_in(alloc: Global, image: &Image, name: Option<&str>) -> Result<u32, Stop>
    ensures cause { let named = option_copied name.entry in
        Gives (IsEntryOf image.now named) (IsEntryRefusal image.now named) result }
    ensures due { (entry : _) → IsEntryOf image.now (option_copied name.entry) entry → GivesOnly entry result }
    ensures refusal_due { (said : _) → IsEntryRefusal image.now (option_copied name.entry) said
        → RefusesWith said result }
{
    let Some(name) = name else {
        return Ok(image.entry);
    };
    match find_symbol(image.symbols.as_slice(), name.as_bytes()) {
        Some(entry) => Ok(entry),
        None => Err(no_entry(alloc, name)),
    }
}

/// Why runs have no entry, if no symbol has the name.
fn no_entry(alloc: Global, name: &str) -> Stop
    ensures { StopsWith (λ said. said ≡ Reply.NoEntry name.now) result }
{
    match Vec::from_slice(alloc, name.as_bytes()) {
        Ok(bytes) => Stop::Replied {
            reply: Reply::NoEntry {
                name: Text::new(bytes),
            },
        },
        Err(_) => Stop::NoMemory,
    }
}

/// The start that a file's bytes tell for an image and a machine, at an entry.
pub fn start_in(alloc: Global, text: &Text, inputs: &Inputs, entry: u32) -> Result<Start, Stop>
    requires { IsMachine inputs.now.machine }
    ensures cause { let image = inputs.now.image in
        let machine = inputs.now.machine in
        Gives (λ start. IsStartTold image machine entry text.now (start_of image start))
        (IsStartRefusal image machine text.now) result }
    ensures entered { IfOk result (λ start. registers_of start.cpu.regs pc ≡ entry) }
    ensures shape { IfOk result (λ start. start.cache.shape ≡ inputs.now.machine.shape) }
    ensures due { (begin : _) → IsStartTold inputs.now.image inputs.now.machine entry text.now begin
        → Gives (λ start. start_of inputs.now.image start ≡ begin) (λ said. ⊥) result }
    ensures refusal_due { (said : _) → IsStartRefusal inputs.now.image inputs.now.machine text.now said
        → RefusesWith said result }
{
    let Inputs { image, machine, .. } = inputs;
    match read_start(alloc, text.as_bytes(), image, entry, machine) {
        Ok(start) => Ok(start),
        Err(StartError::NoMemory) => Err(Stop::NoMemory),
        Err(refusal) => Err(Stop::Replied {
            reply: bad_start(refusal),
        }),
    }
}

/// The reply to a file that tells no start.
fn bad_start(refusal: StartError) -> Reply
    requires { refusal ≢ StartError.NoMemory }
    ensures is { result ≡ Reply.BadStart refusal }
    ensures refused { refusal ≢ StartError.NoMemory }
{
    Reply::BadStart { refusal }
}

/// The program of an image with facts, from an entry.
pub fn program_of(alloc: Global, inputs: &Inputs, entry: u32) -> Result<Program, Stop>
    requires facts { FactsAscend inputs.now.facts }
    requires machine { IsMachine inputs.now.machine }
    ensures cause { Gives (IsSoundProgram inputs.now entry) (IsFlowRefusal inputs.now entry) result }
    ensures due { (program : _) → IsSoundProgram inputs.now entry program → GivesOnly program result }
    ensures refusal_due { (said : _) → IsFlowRefusal inputs.now entry said → RefusesWith said result }
{
    program_is_one();
    let Inputs {
        image,
        facts,
        machine,
    } = inputs;
    match build(alloc, image, facts, entry, machine) {
        Ok(program) => Ok(program),
        Err(FlowError::NoMemory) => Err(Stop::NoMemory),
        Err(refusal) => Err(Stop::Replied {
            reply: Reply::BadFlow { refusal },
        }),
    }
}

/// The unfolding of a program by its chains of calls.
pub fn unfolding_of(alloc: Global, program: Program) -> Result<Unfolded, Stop>
    requires { IsBuilt program }
    ensures cause { Gives (IsSmallUnfolding program) (IsUnfoldRefusal program) result }
    ensures due { (unfolded : _) → IsSmallUnfolding program unfolded → GivesOnly unfolded result }
    ensures refusal_due { (said : _) → IsUnfoldRefusal program said → RefusesWith said result }
{
    unfoldings_are_one();
    match unfold(alloc, program) {
        Ok(unfolded) => Ok(unfolded),
        Err(UnfoldError::NoMemory) => Err(Stop::NoMemory),
        Err(UnfoldError::TooManyNodes) => Err(Stop::Replied {
            reply: Reply::ManyNodes,
        }),
    }
}

/// The certificate that a file's bytes are the text of.
pub fn certificate_in(alloc: Global, text: &Text) -> Result<Certificate, Stop>
    requires { length text.now ≤ 16777216 }
    ensures cause { Gives (IsTextOf text.now) (IsCertRefusal text.now) result }
    ensures due { (certificate : _) → IsTextOf text.now certificate → GivesOnly certificate result }
    ensures refusal_due { (said : _) → IsCertRefusal text.now said → RefusesWith said result }
    ensures writable { IfOk result IsWritable }
{
    match read_cert(alloc, text.as_bytes()) {
        Ok(certificate) => Ok(certificate),
        Err(CertError::NoMemory) => Err(Stop::NoMemory),
        Err(refusal) => Err(Stop::Replied {
            reply: bad_certificate(refusal),
        }),
    }
}

/// The reply to a file that holds no certificate.
fn bad_certificate(refusal: CertError) -> Reply
    requires { refusal ≢ CertError.NoMemory }
    ensures is { result ≡ Reply.BadCertificate refusal }
    ensures refused { refusal ≢ CertError.NoMemory }
{
    Reply::BadCertificate { refusal }
}
