//! Why an input is refused, as words of a reply's line: which input, the refusal's name, and behind it its fields.

ghost use Rattle.std.specs.Prelude.{◌≡◌, ◌++◌, OnOk, codes};
ghost use Rattle.wx_text.specs.Decimal.{decimal};
ghost use Rattle.wcet_front.specs.RefusalText.{further, image_refusal, facts_refusal, machine_refusal, start_refusal, flow_refusal, certificate_refusal};

use super::pieces::{
    push, push_named, push_number_field, push_numbered, push_numbered_twice, push_placed,
    push_placed_word, push_signed_field,
};
use cert_text::CertError;
use elf_image::ElfError;
use ffx_facts::FactsError;
use flow_graph::FlowError;
use machine_desc::MachineError;
use start_file::StartError;
use wx_base::NoMemory;

/// What is said where memory is wanting. No reply tells a refusal of this name.
const MEMORY: &[u8] = b"memory";

/// Appends that a file is no image, and why.
pub(crate) fn push_bad_image(text: &mut Vec<u8>, refusal: &ElfError) -> Result<(), NoMemory>
    ensures { OnOk result (text.new.items ≡ text.old.items ++ (codes "image " ++ image_refusal refusal.now)) }
{
    push(text, b"image ".as_slice())?;
    push_image_refusal(text, refusal)
}

/// Appends why a file is no image.
fn push_image_refusal(text: &mut Vec<u8>, refusal: &ElfError) -> Result<(), NoMemory>
    ensures { OnOk result (text.new.items ≡ text.old.items ++ image_refusal refusal.now) }
{
    match refusal {
        ElfError::NoMemory => push(text, MEMORY),
        ElfError::Short { at } => push_numbered(text, b"Short".as_slice(), *at),
        ElfError::NotElf => push(text, b"NotElf".as_slice()),
        ElfError::Class { found } => { push_numbered(text, b"Class".as_slice(), u64::from(*found)) }
        ElfError::Order { found } => { push_numbered(text, b"Order".as_slice(), u64::from(*found)) }
        ElfError::Kind { found } => { push_numbered(text, b"Kind".as_slice(), u64::from(*found)) }
        ElfError::Machine { found } => {
            push_numbered(text, b"Machine".as_slice(), u64::from(*found))
        }
        ElfError::Header { index } => push_numbered(text, b"Header".as_slice(), *index),
        ElfError::Overlap { a, b } => { push_numbered_twice(text, b"Overlap".as_slice(), *a, *b) }
        ElfError::ThumbEntry => push(text, b"ThumbEntry".as_slice()),
        ElfError::Symbols { index } => push_numbered(text, b"Symbols".as_slice(), *index),
        ElfError::TooLarge { bytes } => push_numbered(text, b"TooLarge".as_slice(), *bytes),
    }
}

/// Appends that a file tells no facts, and why.
pub(crate) fn push_bad_facts(text: &mut Vec<u8>, refusal: &FactsError) -> Result<(), NoMemory>
    ensures { OnOk result (text.new.items ≡ text.old.items ++ (codes "facts " ++ facts_refusal refusal.now)) }
{
    push(text, b"facts ".as_slice())?;
    push_facts_refusal(text, refusal)
}

/// Appends why a file tells no facts.
fn push_facts_refusal(text: &mut Vec<u8>, refusal: &FactsError) -> Result<(), NoMemory>
    ensures { OnOk result (text.new.items ≡ text.old.items ++ facts_refusal refusal.now) }
{
    match refusal {
        FactsError::NoMemory => push(text, MEMORY),
        FactsError::Syntax { at } => push_numbered(text, b"Syntax".as_slice(), *at),
        FactsError::Number { at } => push_numbered(text, b"Number".as_slice(), *at),
        FactsError::NoAddress { at } => push_numbered(text, b"NoAddress".as_slice(), *at),
        FactsError::NoSymbol { at } => push_numbered(text, b"NoSymbol".as_slice(), *at),
        FactsError::Twice { address } => push_placed(text, b"Twice".as_slice(), *address),
    }
}

/// Appends that a file describes no machine, and why.
pub(crate) fn push_bad_machine(text: &mut Vec<u8>, refusal: &MachineError) -> Result<(), NoMemory>
    ensures { OnOk result (text.new.items ≡ text.old.items ++ (codes "machine " ++ machine_refusal refusal.now)) }
{
    push(text, b"machine ".as_slice())?;
    push_machine_refusal(text, refusal)
}

/// Appends why a file describes no machine.
fn push_machine_refusal(text: &mut Vec<u8>, refusal: &MachineError) -> Result<(), NoMemory>
    ensures { OnOk result (text.new.items ≡ text.old.items ++ machine_refusal refusal.now) }
{
    match refusal {
        MachineError::NoMemory => push(text, MEMORY),
        MachineError::Toml => push(text, b"Toml".as_slice()),
        MachineError::Unknown { key } => push_named(text, b"Unknown".as_slice(), key.as_bytes()),
        MachineError::Missing { key } => push_named(text, b"Missing".as_slice(), key.as_bytes()),
        MachineError::Kind { key } => push_named(text, b"Kind".as_slice(), key.as_bytes()),
        MachineError::Range { key, value } => {
            push_named(text, b"Range".as_slice(), key.as_bytes())?;
            push_signed_field(text, *value)
        }
        MachineError::Regions { a, b } => {
            push_numbered_twice(text, b"Regions".as_slice(), *a, *b)
        }
    }
}

/// Appends that a file tells no start, and why.
pub(crate) fn push_bad_start(text: &mut Vec<u8>, refusal: &StartError) -> Result<(), NoMemory>
    ensures { OnOk result (text.new.items ≡ text.old.items ++ (codes "start " ++ start_refusal refusal.now)) }
{
    push(text, b"start ".as_slice())?;
    push_start_refusal(text, refusal)
}

/// Appends why a file tells no start.
fn push_start_refusal(text: &mut Vec<u8>, refusal: &StartError) -> Result<(), NoMemory>
    ensures { OnOk result (text.new.items ≡ text.old.items ++ start_refusal refusal.now) }
{
    match refusal {
        StartError::NoMemory => push(text, MEMORY),
        StartError::Line { line } => push_numbered(text, b"line".as_slice(), *line),
        StartError::NotACache { set } => push_numbered(text, b"set".as_slice(), *set),
    }
}

/// Appends that an image with its facts has no program, and why.
pub(crate) fn push_bad_flow(text: &mut Vec<u8>, refusal: &FlowError) -> Result<(), NoMemory>
    ensures { OnOk result (text.new.items ≡ text.old.items ++ (codes "image " ++ flow_refusal refusal.now)) }
{
    push(text, b"image ".as_slice())?;
    push_flow_refusal(text, refusal)
}

/// Appends why an image with its facts has no program.
fn push_flow_refusal(text: &mut Vec<u8>, refusal: &FlowError) -> Result<(), NoMemory>
    ensures { OnOk result (text.new.items ≡ text.old.items ++ flow_refusal refusal.now) }
{
    match refusal {
        FlowError::NoMemory => push(text, MEMORY),
        FlowError::Unsupported { addr, word } => {
            push_placed_word(text, b"Unsupported".as_slice(), *addr, *word)
        }
        FlowError::LeavesCode { addr } => push_placed(text, b"LeavesCode".as_slice(), *addr),
        FlowError::IndirectNoTargets { addr } => {
            push_placed(text, b"IndirectNoTargets".as_slice(), *addr)
        }
        FlowError::BadTarget { addr, target } => {
            push_placed_word(text, b"BadTarget".as_slice(), *addr, *target)
        }
        FlowError::Recursion { addr } => push_placed(text, b"Recursion".as_slice(), *addr),
        FlowError::Irreducible { addr } => push_placed(text, b"Irreducible".as_slice(), *addr),
        FlowError::LoopNoBound { addr } => push_placed(text, b"LoopNoBound".as_slice(), *addr),
        FlowError::TooManyBlocks => push(text, b"TooManyBlocks".as_slice()),
    }
}

/// Appends that a file is no certificate, and why.
pub(crate) fn push_bad_certificate(text: &mut Vec<u8>, refusal: &CertError) -> Result<(), NoMemory>
    ensures { OnOk result (text.new.items ≡ text.old.items ++ (codes "certificate " ++ certificate_refusal refusal.now)) }
{
    push(text, b"certificate ".as_slice())?;
    push_certificate_refusal(text, refusal)
}

/// Appends why a file is no certificate.
fn push_certificate_refusal(text: &mut Vec<u8>, refusal: &CertError) -> Result<(), NoMemory>
    ensures { OnOk result (text.new.items ≡ text.old.items ++ certificate_refusal refusal.now) }
{
    match refusal {
        CertError::NoMemory => push(text, MEMORY),
        CertError::Syntax { at } => push_numbered(text, b"Syntax".as_slice(), *at),
        CertError::NoEnd => push(text, b"NoEnd".as_slice()),
        CertError::Number { line } => push_numbered(text, b"Number".as_slice(), *line),
        CertError::Order { line } => push_numbered(text, b"Order".as_slice(), *line),
    }
}

/// Appends that a certificate is not valid: the first rule that it breaks, the node and its vector.
pub(crate) fn push_rejected(
    text: &mut Vec<u8>,
    rule: u64,
    node: u64,
    vector: u64,
) -> Result<(), NoMemory>
    ensures { OnOk result (text.new.items ≡ text.old.items
        ++ (codes "rejected" ++ further (decimal rule) ++ further (decimal node) ++ further (decimal vector))) }
{
    push_numbered_twice(text, b"rejected".as_slice(), rule, node)?;
    push_number_field(text, vector)
}
