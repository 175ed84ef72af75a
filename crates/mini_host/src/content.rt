// The bytes of host files.
ghost use Rattle.std.specs.Prelude.{◌≡◌, ◌++◌, [], List, ℕ, IfOk, OnOk, OnErr};

use cms_world::ImageName;
use std::alloc::{AllocError, Global};
use std::marker::Model;

/// The bytes of a host file, seen as a list.
#[derive(Drop)]
pub struct Content {
    bytes: Vec<u8>,
}

impl Model for Content {
    ghost Value = { List ℕ };

    ghost view = { λ c. c.bytes.items };
}

impl Content {
    /// No bytes.
    pub fn new(alloc: Global) -> Self
        ensures { result ≡ [] }
    {
        Content {
            bytes: Vec::new(alloc),
        }
    }

    /// A copy of these bytes.
    pub fn of(alloc: Global, bytes: &[u8]) -> Result<Self, AllocError>
        ensures { IfOk result (λ content. content ≡ bytes.now) }
    {
        Ok(Content {
            bytes: bytes.to_vec(alloc)?,
        })
    }

    /// The bytes themselves.
    pub fn bytes(&self) -> &[u8]
        ensures { result.now ≡ self.now }
    {
        &self.bytes
    }

    /// Adds bytes behind these. Without memory nothing is added.
    pub fn append(&mut self, more: &[u8]) -> Result<(), AllocError>
        ensures ok { OnOk result (self.new ≡ self.old ++ more.now) }
        ensures err { OnErr result (self.new ≡ self.old) }
    {
        self.bytes.extend_from_slice(more)
    }
}

/// A host file: its name, and what it holds.
#[derive(Drop)]
pub struct HostFile {
    /// as the system knows it, with its folders
    pub name: ImageName,
    /// its bytes
    pub content: Content,
}

impl HostFile {
    /// A file of this name, with a copy of these bytes.
    pub fn of(alloc: Global, name: &str, bytes: &[u8]) -> Result<Self, AllocError>
        ensures { IfOk result (λ file. file
            ≡ record { name = name.now; content = bytes.now }) }
    {
        Ok(HostFile {
            name: ImageName::of(alloc, name)?,
            content: Content::of(alloc, bytes)?,
        })
    }
}

/// A host file that is written beside the one whose name it is to have.
#[derive(Drop)]
pub struct Draft {
    /// the name, and what was written
    pub file: HostFile,
    /// it may take the place of a file that is there
    pub over: bool,
}

impl Draft {
    /// A file of this name, with no bytes yet.
    pub fn new(alloc: Global, name: &str, over: bool) -> Result<Self, AllocError>
        ensures { IfOk result (λ draft. draft
            ≡ record { file = record { name = name.now; content = [] }; over = over }) }
    {
        let file = HostFile {
            name: ImageName::of(alloc, name)?,
            content: Content::new(alloc),
        };
        Ok(Draft { file, over })
    }
}
