ghost use Rattle.std.specs.Prelude.{◌≡◌};
ghost use Rattle.wcet_front.specs.Reply.{run_status};

mod pieces;
mod refusal_lines;
mod report_line;

use self::pieces::{
    push, push_named, push_numbered, push_numbered_twice, push_placed, push_placed_word,
};
use self::refusal_lines::{
    push_bad_certificate, push_bad_facts, push_bad_flow, push_bad_image, push_bad_machine,
    push_bad_start, push_rejected,
};
use self::report_line::push_report;
use crate::status::{
    ANSWERED, BREAKS_FACT, MISUSED, REFUSED_CERTIFICATE, REFUSED_FACTS, REFUSED_IMAGE,
    REFUSED_MACHINE, REFUSED_START, REJECTED, TOO_LARGE, UNREAD, UNWRITTEN,
};
use cert_text::CertError;
use elf_image::ElfError;
use ffx_facts::FactsError;
use flow_graph::FlowError;
use machine_desc::MachineError;
use run_machine::{End, Report};
use start_file::StartError;
use std::alloc::Global;
use wx_base::{NoMemory, Text};

/// What the program answers to its words: a bound, the report of a run, what was written, or why there is none.
#[derive(Debug, Drop)]
pub enum Reply {
    /// No run takes more than these cycles.
    Bound { cycles: u64 },
    /// The words fit no form.
    Usage,
    /// The store failed to read this file.
    Unreadable { name: Text },
    /// The store does not hold this file.
    Missing { name: Text },
    /// No word of code stands at this address, to which the run comes.
    LeavesCode { addr: u32 },
    /// The word at this address is outside the subset.
    Unsupported { addr: u32, word: u32 },
    /// The file has more than 16,777,216 bytes.
    LongFile { name: Text },
    /// The file is no image.
    BadImage { refusal: ElfError },
    /// The file tells no facts.
    BadFacts { refusal: FactsError },
    /// The file describes no machine.
    BadMachine { refusal: MachineError },
    /// The image has no symbol of this name.
    NoEntry { name: Text },
    /// The file tells no start.
    BadStart { refusal: StartError },
    /// The image with the facts has no program.
    BadFlow { refusal: FlowError },
    /// What the run came to.
    Ran { report: Report },
    /// The file is no certificate.
    BadCertificate { refusal: CertError },
    /// A certificate with so many nodes and different vectors was written anew.
    Migrated { nodes: u64, vectors: u64 },
    /// The store failed to write this file.
    Unwritten { name: Text },
    /// The program has more than 4,096 blocks in their chains of calls.
    ManyNodes,
    /// The certificate breaks this rule first, at this vector of this node.
    Rejected { rule: u64, node: u64, vector: u64 },
}

impl Reply {
    ghost use Rattle.std.specs.Prelude.{◌≡◌, IfOk};
    ghost use Rattle.wcet_front.specs.Reply.{status_of, text_of};

    /// The status with which the program ends after this reply.
    pub fn status(&self) -> u8
        ensures { result ≡ status_of self.now }
    {
        match self {
            Reply::Bound { .. } => ANSWERED,
            Reply::Usage => MISUSED,
            Reply::Unreadable { .. } => UNREAD,
            Reply::Missing { .. } => UNREAD,
            Reply::LeavesCode { .. } => REFUSED_IMAGE,
            Reply::Unsupported { .. } => REFUSED_IMAGE,
            Reply::LongFile { .. } => TOO_LARGE,
            Reply::BadImage { .. } => REFUSED_IMAGE,
            Reply::BadFacts { .. } => REFUSED_FACTS,
            Reply::BadMachine { .. } => REFUSED_MACHINE,
            Reply::NoEntry { .. } => REFUSED_IMAGE,
            Reply::BadStart { .. } => REFUSED_START,
            Reply::BadFlow { .. } => REFUSED_IMAGE,
            Reply::Ran { report } => run_status(report.end),
            Reply::BadCertificate { .. } => REFUSED_CERTIFICATE,
            Reply::Migrated { .. } => ANSWERED,
            Reply::Unwritten { .. } => UNWRITTEN,
            Reply::ManyNodes => TOO_LARGE,
            Reply::Rejected { .. } => REJECTED,
        }
    }

    /// The reply as a line, its end included. A refusal is its name and its fields as they are declared. Addresses and
    /// words are eight hexadecimal digits, other numbers are decimal, and a name stands as it is.
    pub fn line(&self, alloc: Global) -> Result<Vec<u8>, NoMemory>
        ensures { IfOk result (λ text. text.items ≡ text_of self.now) }
    {
        let mut text = Vec::new(alloc);
        match self {
            Reply::Bound { cycles } => { push_numbered(&mut text, b"bound".as_slice(), *cycles)? }
            Reply::Usage => push(&mut text, b"usage".as_slice())?,
            Reply::Unreadable { name } => {
                push_named(&mut text, b"read".as_slice(), name.as_bytes())?
            }
            Reply::Missing { name } => {
                push_named(&mut text, b"missing".as_slice(), name.as_bytes())?
            }
            Reply::LeavesCode { addr } => {
                push_placed(&mut text, b"image LeavesCode".as_slice(), *addr)?
            }
            Reply::Unsupported { addr, word } => {
                push_placed_word(&mut text, b"image Unsupported".as_slice(), *addr, *word)?
            }
            Reply::LongFile { name } => {
                push_named(&mut text, b"large file".as_slice(), name.as_bytes())?
            }
            Reply::BadImage { refusal } => push_bad_image(&mut text, refusal)?,
            Reply::BadFacts { refusal } => push_bad_facts(&mut text, refusal)?,
            Reply::BadMachine { refusal } => push_bad_machine(&mut text, refusal)?,
            Reply::NoEntry { name } => {
                push_named(&mut text, b"image NoEntry".as_slice(), name.as_bytes())?
            }
            Reply::BadStart { refusal } => push_bad_start(&mut text, refusal)?,
            Reply::BadFlow { refusal } => push_bad_flow(&mut text, refusal)?,
            Reply::Ran { report } => push_report(&mut text, *report)?,
            Reply::BadCertificate { refusal } => push_bad_certificate(&mut text, refusal)?,
            Reply::Migrated { nodes, vectors } => {
                push_numbered_twice(&mut text, b"migrated".as_slice(), *nodes, *vectors)?
            }
            Reply::Unwritten { name } => {
                push_named(&mut text, b"write".as_slice(), name.as_bytes())?
            }
            Reply::ManyNodes => push(&mut text, b"large nodes".as_slice())?,
            Reply::Rejected { rule, node, vector } => {
                push_rejected(&mut text, *rule, *node, *vector)?
            }
        }
        text.push(b'\n')?;
        Ok(text)
    }
}

/// The status with which a run's report ends the program.
fn run_status(end: End) -> u8
    ensures { result ≡ run_status end }
{
    match end {
        End::Ended | End::Limit | End::Stopped { .. } => ANSWERED,
        End::Breaks { .. } => BREAKS_FACT,
    }
}
