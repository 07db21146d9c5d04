//! Prints the certificates that the texts in some files are read as, written again, or why a text is none.
#![tactic(auto)]

ghost use Rattle.cert_text.specs.Writable.{IsWritable};

use anyhow::Result;
use case_lines::{Cases, print_files};
use cert_text::{CertError, Certificate, count_vectors, read_cert, write_cert};
use std::alloc::Global;
use std::fmt::Write;
use std::rt::Files;

/// The longest text of a case, in bytes.
const MOST: usize = 65_536;

/// The cases of this program.
struct CertificateCases;

/// A case is a sign and a text, in which `;` ends a line and `_` is a space. Its outcome is the numbers of nodes and of
/// different vectors with the text of version 2, or the refusal.
impl Cases for CertificateCases {
    fn push_outcome<R: Files + AllocGlobal>(
        &self,
        rt: &R,
        out: &mut String,
        line: &str,
    ) -> Result<()> {
        let mut text = Vec::new(rt.alloc());
        for byte in line.bytes().skip(1) {
            text.push(match byte {
                b';' => b'\n',
                b'_' => b' ',
                other => other,
            })?;
        }
        push_read(rt.alloc(), out, text.as_slice())
    }
}

fn main(rt: HostRuntime) -> Result<()> {
    print_files(&rt, &CertificateCases)
}

/// Appends what the text is read as, written again, or why it is none.
fn push_read(alloc: Global, out: &mut String, text: &[u8]) -> Result<()> {
    if text.len() > MOST {
        return Ok(());
    }
    match read_cert(alloc, text) {
        Ok(c) => push_written(alloc, out, &c),
        Err(refusal) => push_refusal(out, refusal),
    }
}

/// Appends the numbers of nodes and of different vectors, and the text of version 2.
fn push_written(alloc: Global, out: &mut String, c: &Certificate) -> Result<()>
    requires { IsWritable c.now }
{
    let count = count_vectors(alloc, c)?;
    write!(out, " {} {count} :", c.families.len())?;
    let mut text = Vec::new(alloc);
    write_cert(&mut text, c)?;
    for byte in text.as_slice() {
        out.push(match *byte {
            b'\n' => ';',
            b' ' => '_',
            other => other as char,
        })?;
    }
    Ok(())
}

/// Appends why a text is no certificate.
fn push_refusal(out: &mut String, refusal: CertError) -> Result<()> {
    match refusal {
        CertError::Syntax { at } => write!(out, " Syntax {at}")?,
        CertError::NoEnd => write!(out, " NoEnd")?,
        CertError::Number { line } => write!(out, " Number {line}")?,
        CertError::Order { line } => write!(out, " Order {line}")?,
        CertError::NoMemory => write!(out, " NoMemory")?,
    }
    Ok(())
}
