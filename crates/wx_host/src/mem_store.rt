ghost use Rattle.std.specs.Prelude.{◌≡◌, ◌≢◌, ◌↔◌, ◌≤◌, ◌-◌, ◌+◌, ◌^◌, ◌<◌, ◌⊎◌, ℕ, List, [], ◌∷◌, ◌++◌, length, take, drop, Some, None, IfOk, OnOk, OnErr, IsTrue, MatchOption};
ghost use Rattle.std.specs.Option.{option_copied};
ghost use Rattle.wx_host.specs.Outside.{counted, NamesGive, ReadGives, WriteGives, ChangesOnly};
ghost use Rattle.wx_host.specs.Outages.{FailsAt};
ghost use Rattle.wx_host.specs.MemStore.{held, IsLastNamed};

use crate::file::File;
use crate::names::Names;
use crate::outages::Outages;
use crate::store::{LONGEST_FILE, Store, StoreFault};
use std::alloc::{AllocError, Global};
use std::marker::Model;

/// A store that keeps its files in memory, for tests and for callers that have the bytes at hand.
///
/// Its calls of `read` and `write` together are counted from 1, up to 2^64 - 1.
#[derive(Drop)]
pub struct MemStore {
    alloc: Global,
    files: Vec<File>,
    outages: Outages,
    asked: u64,
    read_names: Names,
    write_names: Names,
    read_faults: u64,
    write_faults: u64,
}

impl Model for MemStore {
    ghost use Rattle.wx_host.specs.MemStore.{MemStoreView};

    ghost Value = { MemStoreView };

    ghost view = { λ s. record {
      files = s.files.items;
      failing = s.outages.failing;
      calls = s.outages.calls;
      asked = s.asked;
      read_names = s.read_names;
      write_names = s.write_names;
      read_faults = s.read_faults;
      write_faults = s.write_faults;
    } };
}

impl MemStore {
    /// A store of these files, of which the last of a name counts. Exactly the calls whose number is listed
    /// fail. A call of number 2^64 - 1 or later does not fail. Takes no memory.
    pub fn new(alloc: Global, files: Vec<File>, failing: Vec<u64>) -> MemStore
        ensures files { result.files ≡ files.items }
        ensures failing { result.failing ≡ failing.items }
        ensures calls { result.calls ≡ 0 }
        ensures asked { result.asked ≡ 0 }
        ensures read_names { result.read_names ≡ [] }
        ensures write_names { result.write_names ≡ [] }
        ensures read_faults { result.read_faults ≡ 0 }
        ensures write_faults { result.write_faults ≡ 0 }
    {
        MemStore {
            alloc,
            files,
            outages: Outages::new(failing),
            asked: 0,
            read_names: Names::new(alloc),
            write_names: Names::new(alloc),
            read_faults: 0,
            write_faults: 0,
        }
    }

    /// The content under a name, if the store holds it. Takes time linear in the number of files.
    pub fn get(&self, name: &str) -> Option<&[u8]>
        ensures { option_copied result ≡ held self.now.files name.now }
    {
        let i = last_named(&self.files, name)?;
        let file = &self.files[i];
        Some(file.bytes())
    }
}

impl Store for MemStore {
    ghost holds = { λ s. Some (held s.files) };

    ghost asked = { λ s. s.asked };

    ghost read_names = { λ s. Some s.read_names };

    ghost write_names = { λ s. Some s.write_names };

    ghost read_faults = { λ s. s.read_faults };

    ghost write_faults = { λ s. s.write_faults };

    ghost reliable = { λ s. s.failing ≡ [] };

    /// Appends the content that [`MemStore::get`] shows. Takes time linear in the number of files.
    fn read(&mut self, name: &str, into: &mut Vec<u8>) -> Result<(), StoreFault>
        requires { into.old.items ≡ [] }
        ensures outcome { let holds = Some (held self.old.files) in
            ReadGives holds name.now self.old.read_faults self.new.read_faults into.new.items result }

        // A listed call fails, unless memory is wanting to keep its name; and no other call does.
        ensures fails { FailsAt self.old.failing (counted self.old.calls)
            → (result ≡ Err StoreFault.Failed)
            ⊎ ((result ≡ Err StoreFault.NoMemory) × (self.new.read_names ≡ self.old.read_names)) }
        ensures only_listed { result ≡ Err StoreFault.Failed → FailsAt self.old.failing (counted self.old.calls) }
        ensures counts { result ≡ Err StoreFault.Failed → self.new.read_faults ≡ counted self.old.read_faults }
        ensures quiet { result ≢ Err StoreFault.Failed → self.new.read_faults ≡ self.old.read_faults }
        ensures asked { self.new.asked ≡ counted self.old.asked }
        ensures read_names { NamesGive (Some self.old.read_names) (Some self.new.read_names) name.now result }
        ensures write_names { Some self.new.write_names ≡ Some self.old.write_names }
        ensures read_faults { self.old.read_faults ≤ self.new.read_faults }
        ensures write_faults { self.new.write_faults ≡ self.old.write_faults }
        ensures reliable { self.old.failing ≡ [] → self.new.failing ≡ [] }
        ensures sound { self.old.failing ≡ [] → result ≢ Err StoreFault.Failed }
        ensures unchanged { Some (held self.new.files) ≡ Some (held self.old.files) }
        ensures files { self.new.files ≡ self.old.files }
        ensures failing { self.new.failing ≡ self.old.failing }
        ensures calls { self.new.calls ≡ counted self.old.calls }
    {
        self.asked = self.asked.saturating_add(1);
        let fails = self.outages.next_fails();
        self.read_names
            .push(name)
            .map_err(|_| StoreFault::NoMemory)?;
        if fails {
            self.read_faults = self.read_faults.saturating_add(1);
            return Err(StoreFault::Failed);
        }
        match self.get(name) {
            Some(content) => hand_over(content, into),
            None => Err(StoreFault::Missing),
        }
    }

    /// Replaces the content of the last file of the name, or adds a file. A call that fails changes no file.
    /// Takes time linear in the number of files.
    fn write(&mut self, name: &str, bytes: &[u8]) -> Result<(), StoreFault>
        ensures outcome { let before = Some (held self.old.files) in
            let after = Some (held self.new.files) in
            WriteGives before after name.now bytes.now self.old.write_faults self.new.write_faults result }
        ensures others { ChangesOnly (Some (held self.old.files)) (Some (held self.new.files)) name.now }
        ensures kept { OnErr result (self.new.files ≡ self.old.files) }
        ensures fails { FailsAt self.old.failing (counted self.old.calls)
            → (result ≡ Err StoreFault.Failed)
            ⊎ ((result ≡ Err StoreFault.NoMemory) × (self.new.write_names ≡ self.old.write_names)) }
        ensures only_listed { result ≡ Err StoreFault.Failed → FailsAt self.old.failing (counted self.old.calls) }
        ensures counts { result ≡ Err StoreFault.Failed → self.new.write_faults ≡ counted self.old.write_faults }
        ensures quiet { result ≢ Err StoreFault.Failed → self.new.write_faults ≡ self.old.write_faults }
        ensures asked { self.new.asked ≡ self.old.asked }
        ensures read_names { Some self.new.read_names ≡ Some self.old.read_names }
        ensures write_names { NamesGive (Some self.old.write_names) (Some self.new.write_names) name.now result }
        ensures read_faults { self.new.read_faults ≡ self.old.read_faults }
        ensures write_faults { self.old.write_faults ≤ self.new.write_faults }
        ensures reliable { self.old.failing ≡ [] → self.new.failing ≡ [] }
        ensures sound { self.old.failing ≡ [] → result ≢ Err StoreFault.Failed }
        ensures failing { self.new.failing ≡ self.old.failing }
        ensures calls { self.new.calls ≡ counted self.old.calls }
    {
        let fails = self.outages.next_fails();
        self.write_names
            .push(name)
            .map_err(|_| StoreFault::NoMemory)?;
        if fails {
            self.write_faults = self.write_faults.saturating_add(1);
            return Err(StoreFault::Failed);
        }
        put_file(self.alloc, &mut self.files, name, bytes).map_err(|_| StoreFault::NoMemory)
    }
}

// Appends a content as far as a file may be long.
fn hand_over(content: &[u8], into: &mut Vec<u8>) -> Result<(), StoreFault>
    requires { into.old.items ≡ [] }
    ensures { ReadGives (Some (λ _. Some content.now)) [] 0 0 into.new.items result }
{
    let kept = &content[..content.len().min(LONGEST_FILE)];
    into.extend_from_slice(kept)
        .map_err(|_| StoreFault::NoMemory)?;
    if kept.len() < content.len() {
        Err(StoreFault::Long)
    } else {
        Ok(())
    }
}

// Makes the bytes the content of a name.
fn put_file(
    alloc: Global,
    files: &mut Vec<File>,
    name: &str,
    bytes: &[u8],
) -> Result<(), AllocError>
    ensures held { OnOk result (held files.new.items name.now ≡ Some bytes.now) }
    ensures others { (other : List ℕ) → other ≢ name.now → held files.new.items other ≡ held files.old.items other }
    ensures kept { OnErr result (files.new.items ≡ files.old.items) }
{
    let content = Vec::from_slice(alloc, bytes)?;
    match last_named(files, name) {
        Some(i) => {
            let file = &mut files[i];
            file.set_bytes(content);
        }
        None => files.push(File::new(String::from_str(alloc, name)?, content))?,
    }
    Ok(())
}

// The place of the last file of a name.
fn last_named(files: &[File], name: &str) -> Option<usize>
    ensures { MatchOption result (held files.now name.now ≡ None)
        (λ i. (i < length files.now) × IsLastNamed files.now name.now i) }
{
    let mut i = files.len();
    while i > 0 {
        i -= 1;
        let file = &files[i];
        if file.is_named(name) {
            return Some(i);
        }
    }
    None
}
