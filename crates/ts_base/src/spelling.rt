//! How names, prefixes and keys are spelled.
ghost use Rattle.std.specs.Prelude.{◌≡◌, ◌+◌, ◌≤◌, [], ◌++◌, length, decimal, IsAscii};
ghost use Rattle.ts_base.specs.Spelling.{id_text, span_text, stamp_text, frag_text, part_text, kind_text, mode_text, name_text, prefix_text};

use crate::keys::{FragKey, Key};
use crate::names::{CommitKind, LeaseMode, Name, Part, Prefix};
use arrayvec::ArrayString;
use std::marker::Model;
use uuid::Uuid;

/// The most bytes that a spelling has room for.
const ROOM: usize = 128;

/// The spelling of a name, a prefix or a key: ASCII text of at most 128 bytes in the value itself,
/// so that it takes no memory.
#[derive(Debug, Drop)]
pub struct NameText {
    text: ArrayString<ROOM>,
}

impl Model for NameText {
    ghost use Rattle.std.specs.Prelude.{List, ℕ, IsAscii};
    ghost use Rattle.std.specs.Coded.{coded_list, coded_ℕ};

    ghost Value = { List ℕ };

    ghost coded = { coded_list coded_ℕ };

    ghost view = { λ spelled. spelled.text.bytes };

    ghost invariant = { λ spelled. IsAscii spelled.text.bytes };
}

impl NameText {
    /// The spelling as text.
    pub fn text(&self) -> &str
        ensures text { result.now ≡ self.now }
        ensures ascii { IsAscii result.now }
    {
        self.text.as_str()
    }

    /// No text yet.
    fn new() -> NameText
        ensures { result ≡ [] }
    {
        NameText {
            text: ArrayString::new(),
        }
    }

    /// Adds a piece of ASCII text.
    fn add(&mut self, piece: &str)
        requires room { length self.old + length piece.now ≤ 128 }
        requires ascii { IsAscii piece.now }
        ensures { self.new ≡ self.old ++ piece.now }
    {
        self.text.push_str(piece);
    }

    /// Adds a number in decimal digits, at most 20.
    fn add_number(&mut self, number: u64)
        requires { length self.old ≤ 108 }
        ensures text { self.new ≡ self.old ++ decimal number }
        ensures room { length self.new ≤ length self.old + 20 }
    {
        let mut buffer = itoa::Buffer::new();
        self.add(buffer.format(number));
    }

    /// Adds a small number in decimal digits, at most 3.
    fn add_index(&mut self, number: u8)
        requires { length self.old ≤ 125 }
        ensures text { self.new ≡ self.old ++ decimal number }
        ensures room { length self.new ≤ length self.old + 3 }
    {
        let mut buffer = itoa::Buffer::new();
        self.add(buffer.format(number));
    }

    /// Adds an identifier in 32 digits.
    fn add_id(&mut self, id: u128)
        requires { length self.old ≤ 96 }
        ensures text { self.new ≡ self.old ++ id_text id }
        ensures room { length self.new ≡ length self.old + 32 }
    {
        let mut buffer = [0; 32];
        self.add(id_digits(id, &mut buffer));
    }

    /// Adds two timestamps and an identifier, at most 76 bytes.
    fn add_span(&mut self, t1: u64, t2: u64, id: u128)
        requires { length self.old ≤ 52 }
        ensures text { self.new ≡ self.old ++ span_text t1 t2 id }
        ensures room { length self.new ≤ length self.old + 76 }
    {
        self.add("__");
        self.add_number(t1);
        self.add("_");
        self.add_number(t2);
        self.add("_");
        self.add_id(id);
    }

    /// Adds the key of a schema or a lease, at most 76 bytes.
    fn add_stamp(&mut self, key: Key)
        requires { length self.old ≤ 52 }
        ensures text { self.new ≡ self.old ++ stamp_text key }
        ensures room { length self.new ≤ length self.old + 76 }
    {
        self.add_span(key.t, key.t, key.id);
    }

    /// Adds the key of a fragment, at most 80 bytes.
    fn add_frag(&mut self, frag: FragKey)
        requires { length self.old ≤ 48 }
        ensures text { self.new ≡ self.old ++ frag_text frag }
        ensures room { length self.new ≤ length self.old + 80 }
    {
        self.add_span(frag.t1, frag.t2, frag.id);
        self.add("_");
        self.add_index(frag.v);
    }

    /// Adds the file of a part, at most 23 bytes.
    fn add_part(&mut self, part: Part)
        requires { length self.old ≤ 105 }
        ensures { self.new ≡ self.old ++ part_text part }
    {
        match part {
            Part::Meta => self.add("__fragment_metadata.tdb"),
            Part::Attr(number) => self.add_numbered("a", number, ".tdb"),
            Part::Var(number) => self.add_numbered("a", number, "_var.tdb"),
            Part::Validity(number) => self.add_numbered("a", number, "_validity.tdb"),
            Part::Dim(number) => self.add_numbered("d", number, ".tdb"),
            Part::Origin => self.add("o.tdb"),
            Part::Plain => self.add("plain.tdb"),
        }
    }

    /// Adds the file of a numbered part: a letter, its number and an ending.
    fn add_numbered(&mut self, letter: &str, number: u8, ending: &str)
        requires room { length self.old + length letter.now + length ending.now ≤ 125 }
        requires letter { IsAscii letter.now }
        requires ending { IsAscii ending.now }
        ensures { self.new ≡ self.old ++ (letter.now ++ decimal number ++ ending.now) }
    {
        self.add(letter);
        self.add_index(number);
        self.add(ending);
    }

    /// The text with nothing but a folder in it.
    fn folder(folder: &str) -> NameText
        requires room { length folder.now ≤ 128 }
        requires ascii { IsAscii folder.now }
        ensures { result ≡ folder.now }
    {
        let mut spelled = NameText::new();
        spelled.add(folder);
        spelled
    }
}

impl Key {
    /// The spelling of the key of a schema, `__t_t_id`, as it is printed. It takes no memory.
    pub fn spell_stamp(&self) -> NameText
        ensures { result ≡ stamp_text self.now }
    {
        let mut spelled = NameText::new();
        spelled.add_stamp(*self);
        spelled
    }
}

impl FragKey {
    /// The spelling of the key of a fragment, `__t1_t2_id_v`, as it is printed. It takes no memory.
    pub fn spell(&self) -> NameText
        ensures { result ≡ frag_text self.now }
    {
        let mut spelled = NameText::new();
        spelled.add_frag(*self);
        spelled
    }
}

impl CommitKind {
    /// The ending of the names of this kind of commit, without the dot.
    fn ending(self) -> &'static str
        ensures text { result.now ≡ kind_text self }
        ensures len { length result.now ≡ 3 }
        ensures ascii { IsAscii result.now }
    {
        match self {
            CommitKind::Wrt => "wrt",
            CommitKind::Del => "del",
            CommitKind::Vac => "vac",
        }
    }
}

impl LeaseMode {
    /// The ending of the names of leases of this mode, without the dot.
    fn ending(self) -> &'static str
        ensures text { result.now ≡ mode_text self }
        ensures len { length result.now ≡ 3 }
        ensures ascii { IsAscii result.now }
    {
        match self {
            LeaseMode::Shr => "shr",
            LeaseMode::Exc => "exc",
        }
    }
}

impl Name {
    /// The spelling of the name. It takes no memory.
    pub fn spell(&self) -> NameText
        ensures { result ≡ name_text self.now }
    {
        match *self {
            Name::Domain => NameText::folder("__domain.tdb"),
            Name::Schema(key) => {
                let mut spelled = NameText::folder("__schema/");
                spelled.add_stamp(key);
                spelled
            }
            Name::Commit(frag, kind) => {
                let mut spelled = NameText::folder("__commits/");
                spelled.add_frag(frag);
                spelled.add(".");
                spelled.add(kind.ending());
                spelled
            }
            Name::Part(frag, part) => {
                let mut spelled = NameText::folder("__fragments/");
                spelled.add_frag(frag);
                spelled.add("/");
                spelled.add_part(part);
                spelled
            }
            Name::Lease(key, mode) => {
                let mut spelled = NameText::folder("__leases/");
                spelled.add_stamp(key);
                spelled.add(".");
                spelled.add(mode.ending());
                spelled
            }
        }
    }
}

impl Prefix {
    /// The spelling of the prefix. It takes no memory.
    pub fn spell(&self) -> NameText
        ensures { result ≡ prefix_text self.now }
    {
        match *self {
            Prefix::Schemas => NameText::folder("__schema/"),
            Prefix::Commits => NameText::folder("__commits/"),
            Prefix::Leases => NameText::folder("__leases/"),
            Prefix::Fragment(frag) => {
                let mut spelled = NameText::folder("__fragments/");
                spelled.add_frag(frag);
                spelled.add("/");
                spelled
            }
        }
    }
}

/// Writes an identifier in 32 digits.
fn id_digits(id: u128, buffer: &mut [u8; 32]) -> &str
    ensures text { result.now ≡ id_text id }
    ensures len { length result.now ≡ 32 }
    ensures ascii { IsAscii result.now }
{
    Uuid::from_u128(id).simple().encode_lower(buffer)
}
