ghost use Rattle.std.specs.Prelude.{◌≡◌, ◌↔◌, IsTrue, string_bytes};

use std::marker::Model;

/// A file in memory: its name, and its content in bytes.
#[derive(Drop)]
pub struct File {
    name: String,
    bytes: Vec<u8>,
}

impl Model for File {
    ghost use Rattle.std.specs.Prelude.{string_bytes};
    ghost use Rattle.wx_host.specs.MemStore.{HeldFile};

    ghost Value = { HeldFile };

    ghost view = { λ s. record { name = string_bytes s.name; bytes = s.bytes.items } };
}

impl File {
    /// A file of that name and content. Takes no memory.
    pub fn new(name: String, bytes: Vec<u8>) -> File
        ensures name { result.name ≡ string_bytes name }
        ensures bytes { result.bytes ≡ bytes.items }
    {
        File { name, bytes }
    }

    /// The content.
    pub fn bytes(&self) -> &[u8]
        ensures { result.now ≡ self.now.bytes }
    {
        &self.bytes
    }

    // Whether the file has this name.
    pub(crate) fn is_named(&self, name: &str) -> bool
        ensures { IsTrue result ↔ (self.now.name ≡ name.now) }
    {
        self.name.as_str() == name
    }

    /// Gives the name and the content back. Takes no memory.
    pub fn into_parts(self) -> (String, Vec<u8>)
        ensures name { string_bytes result.0 ≡ self.name }
        ensures bytes { result.1.items ≡ self.bytes }
    {
        let File { name, bytes } = self;
        (name, bytes)
    }

    // Gives the file another content.
    pub(crate) fn set_bytes(&mut self, bytes: Vec<u8>)
        ensures name { self.new.name ≡ self.old.name }
        ensures bytes { self.new.bytes ≡ bytes.items }
    {
        self.bytes = bytes;
    }
}
