// Rows: their kinds, and their fields by name.

use std::alloc::{AllocError, AllocFailed, Global};

/// What a row does with its fields.
#[derive(Clone, Copy, Debug, Drop)]
pub enum Kind {
    /// A command over a source in memory.
    Run,
    /// The tree of a source.
    Tree,
    /// Whether sources have trees.
    Verdicts,
    /// Which tokens may follow a front.
    Followers,
    /// Whether each front of a source has a tree.
    Fronts,
    /// The nameless program of a source.
    Program,
    /// An evaluation on the machine, over kernels that answer from a list.
    Machine,
    /// How the invocations of code end.
    Code,
    /// A canonical text's kernel, run and called.
    Kernel,
    /// The bytes of the module of a canonical text's kernel.
    Module,
    /// What a canonical text spells.
    Text,
    /// The digest of bytes, and where a table looks for their name.
    Digest,
    /// What the kernel items of a source come to, where their modules are, and main after them.
    Phases,
    /// A command over the cache file that it leaves, whole and damaged at each place.
    Cached,
    /// What an instance of a linked module gives.
    Linked,
    /// Texts of modules, read and written again.
    Wat,
    /// Certificates beside a program.
    Certificate,
}

/// All kinds, in the order in which they are counted.
pub const KINDS: &[Kind] = &[
    Kind::Run,
    Kind::Tree,
    Kind::Verdicts,
    Kind::Followers,
    Kind::Fronts,
    Kind::Program,
    Kind::Machine,
    Kind::Code,
    Kind::Kernel,
    Kind::Module,
    Kind::Text,
    Kind::Digest,
    Kind::Phases,
    Kind::Cached,
    Kind::Linked,
    Kind::Wat,
    Kind::Certificate,
];

impl Kind {
    /// The word that stands for it in a file of rows.
    pub fn word(self) -> &'static str {
        match self {
            Kind::Run => "run",
            Kind::Tree => "tree",
            Kind::Verdicts => "verdicts",
            Kind::Followers => "followers",
            Kind::Fronts => "fronts",
            Kind::Program => "program",
            Kind::Machine => "machine",
            Kind::Code => "code",
            Kind::Kernel => "kernel",
            Kind::Module => "module",
            Kind::Text => "text",
            Kind::Digest => "digest",
            Kind::Phases => "phases",
            Kind::Cached => "cached",
            Kind::Linked => "linked",
            Kind::Wat => "wat",
            Kind::Certificate => "certificate",
        }
    }

    /// The fields that its rows may have.
    pub fn fields(self) -> &'static [&'static str] {
        match self {
            Kind::Run => &[
                "source", "cert", "words", "reads", "piece", "writes", "keeps", "step", "held",
                "holds", "shows", "beside",
            ],
            Kind::Tree | Kind::Fronts | Kind::Program => &["source"],
            Kind::Verdicts => &["source", "next"],
            Kind::Followers => &["front", "tokens"],
            Kind::Machine => &["source", "item", "fuel", "reply"],
            Kind::Code => &["code", "type", "table", "element", "data", "invoke", "word"],
            Kind::Kernel => &["text", "fuel", "call"],
            Kind::Module | Kind::Text | Kind::Digest => &["text"],
            Kind::Phases => &["source", "workers", "slots", "mode", "fuel"],
            Kind::Cached => &["source", "words", "workers", "shows"],
            Kind::Linked => &["source", "invoke", "word"],
            Kind::Wat => &["text", "next"],
            Kind::Certificate => &["source", "cert"],
        }
    }
}

/// Why a row can't be carried out.
#[derive(Debug, Drop)]
pub enum Fault {
    Malformed(&'static str),
    Memory(AllocError),
}

impl Fault {
    /// The reason in words.
    pub fn why(&self) -> &'static str {
        match self {
            Fault::Malformed(why) => why,
            Fault::Memory(_) => "out of memory",
        }
    }
}

impl From<AllocError> for Fault {
    fn from(error: AllocError) -> Fault {
        Fault::Memory(error)
    }
}

impl<T: Drop> From<AllocFailed<T>> for Fault {
    fn from(error: AllocFailed<T>) -> Fault {
        Fault::Memory(AllocError::from(error))
    }
}

/// A field of a row: its name and its bytes.
#[derive(Drop)]
pub struct Field {
    pub name: String,
    pub bytes: Vec<u8>,
}

impl Field {
    /// Its text.
    pub fn text(&self) -> Result<&str, Fault> {
        text_in(self.bytes.as_slice())
    }
}

/// The text that bytes are.
fn text_in(bytes: &[u8]) -> Result<&str, Fault> {
    match std::str::from_utf8(bytes) {
        Ok(text) => Ok(text),
        Err(_) => Err(Fault::Malformed("a text isn't UTF-8")),
    }
}

/// The fields of this name as one.
fn joined(alloc: Global, fields: &[Field], name: &str) -> Result<Field, AllocError> {
    let mut bytes = Vec::new(alloc);
    for field in fields {
        if field.name.as_str() == name {
            bytes.extend_from_slice(field.bytes.as_slice())?;
        }
    }
    let name = String::from_str(alloc, name)?;
    Ok(Field { name, bytes })
}

/// A row, with the number of the line on which it begins, and the fields of each name as one.
#[derive(Drop)]
pub struct Row {
    pub kind: Kind,
    pub name: String,
    pub line: usize,
    pub fields: Vec<Field>,
    pub joined: Vec<Field>,
}

impl Row {
    /// Joins the fields of each name, once all are read.
    pub fn join(&mut self, alloc: Global) -> Result<(), AllocError> {
        for name in self.kind.fields() {
            let field = joined(alloc, self.fields.as_slice(), name)?;
            self.joined.push(field)?;
        }
        Ok(())
    }

    /// Whether it has a field of this name.
    pub fn has(&self, name: &str) -> bool {
        self.fields.iter().any(|field| field.name.as_str() == name)
    }

    /// The bytes of all fields of this name, one after the other.
    pub fn bytes(&self, name: &str) -> &[u8] {
        for field in self.joined.as_slice() {
            if field.name.as_str() == name {
                return field.bytes.as_slice();
            }
        }
        &[]
    }

    /// The same as a text.
    pub fn text(&self, name: &str) -> Result<&str, Fault> {
        text_in(self.bytes(name))
    }

    /// The number that stands in the field of this name, or this one where there is no such field.
    pub fn number(&self, name: &str, otherwise: u64) -> Result<u64, Fault> {
        if self.has(name) {
            number_in(self.text(name)?)
        } else {
            Ok(otherwise)
        }
    }
}

/// The number that a word spells.
pub fn number_in(word: &str) -> Result<u64, Fault> {
    match word.parse::<u64>() {
        Ok(number) => Ok(number),
        Err(_) => Err(Fault::Malformed("not a number")),
    }
}
