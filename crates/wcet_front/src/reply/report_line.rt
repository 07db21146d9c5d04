//! What a run came to, as words of a reply's line.

ghost use Rattle.std.specs.Prelude.{◌≡◌, ◌++◌, OnOk, codes};
ghost use Rattle.wx_text.specs.Decimal.{decimal};
ghost use Rattle.wx_text.specs.Hexadecimal.{hex_word};
ghost use Rattle.wcet_front.specs.RefusalText.{further};
ghost use Rattle.wcet_front.specs.ReportText.{fact_name, report_text, stop_name, timed_text};

use super::pieces::{
    push_named, push_number_field, push_numbered, push_text_field, push_word_field,
};
use run_machine::{End, Report};
use wx_base::{FactKind, NoMemory, Why};

/// Appends what a run came to.
pub(crate) fn push_report(text: &mut Vec<u8>, report: Report) -> Result<(), NoMemory>
    ensures { OnOk result (text.new.items ≡ text.old.items ++ report_text report) }
{
    let Report { time, steps, end } = report;
    match end {
        End::Ended => push_timed(text, time, steps, b"ended".as_slice()),
        End::Limit => push_timed(text, time, steps, b"limit".as_slice()),
        End::Stopped { why, addr } => {
            push_timed(text, time, steps, b"stopped".as_slice())?;
            push_stop(text, why, addr)
        }
        End::Breaks { fact, addr } => push_break(text, fact, addr, steps),
    }
}

/// Appends how long a run took, how many instructions were executed, and how it ended.
fn push_timed(text: &mut Vec<u8>, time: u64, steps: u64, ending: &[u8]) -> Result<(), NoMemory>
    ensures { OnOk result (text.new.items ≡ text.old.items ++ timed_text time steps ending.now) }
{
    push_numbered(text, b"time".as_slice(), time)?;
    push_numbered(text, b" steps".as_slice(), steps)?;
    push_named(text, b" end".as_slice(), ending)
}

/// Appends why the machine stopped, and where.
fn push_stop(text: &mut Vec<u8>, why: Why, addr: u32) -> Result<(), NoMemory>
    ensures { OnOk result (text.new.items ≡ text.old.items ++ (further (stop_name why) ++ further (hex_word addr))) }
{
    push_text_field(text, stop_name(why))?;
    push_word_field(text, addr)
}

/// Appends which rule was broken, where, and after how many instructions.
fn push_break(text: &mut Vec<u8>, fact: FactKind, addr: u32, steps: u64) -> Result<(), NoMemory>
    ensures { OnOk result (text.new.items ≡ text.old.items
        ++ (codes "breaks" ++ further (fact_name fact) ++ further (hex_word addr) ++ further (decimal steps))) }
{
    push_named(text, b"breaks".as_slice(), fact_name(fact))?;
    push_word_field(text, addr)?;
    push_number_field(text, steps)
}

/// Why the machine stopped, as a word.
fn stop_name(why: Why) -> &'static [u8]
    ensures { result.now ≡ stop_name why }
{
    match why {
        Why::Fetch => b"fetch".as_slice(),
        Why::Word => b"word".as_slice(),
        Why::Align => b"align".as_slice(),
        Why::Store => b"store".as_slice(),
    }
}

/// The rule that was broken, as a word.
fn fact_name(fact: FactKind) -> &'static [u8]
    ensures { result.now ≡ fact_name fact }
{
    match fact {
        FactKind::Branch => b"branch".as_slice(),
        FactKind::Call => b"call".as_slice(),
        FactKind::Return => b"return".as_slice(),
        FactKind::Loop => b"loop".as_slice(),
        FactKind::Total => b"total".as_slice(),
    }
}
