//! Reading a name from its spelling.
//!
//! A text is read as the name that it spells if it spells one, without looking at what else stands
//! in it. Then the name that came out is spelled, and kept only where that gives the text back. So
//! the readers here say nothing of a text that is no spelling.
ghost use Rattle.std.specs.Prelude.{◌≡◌, ℕ, ◌<◌, ◌^◌, ◌==◌, ◌↔◌, IsTrue, IfSome, Some, codes, decimal, ◌++◌};
ghost use Rattle.std.specs.List.{before_first, after_first};
ghost use Rattle.ts_base.specs.Names.{IsSpelled, IsSpelledFrag, IsSpelledPart};
ghost use Rattle.ts_base.specs.Spelling.{FitsFrag, FitsKey, FitsName, FitsPart, id_text, stamp_text, frag_text, part_text, kind_text, mode_text, name_text};

use crate::keys::{FragKey, Key};
use crate::names::{CommitKind, LeaseMode, Name, Part};
use uuid::Uuid;

impl FragKey {
    /// Whether the key has a spelling: its span runs forward, and its version is known.
    pub fn has_spelling(&self) -> bool
        ensures { IsTrue result ↔ IsSpelledFrag self.now }
    {
        self.t1 <= self.t2 && self.v == 1
    }
}

impl Part {
    /// Whether the part has a spelling: attributes are numbered up to 63, dimensions up to 7.
    pub fn has_spelling(&self) -> bool
        ensures { IsTrue result ↔ IsSpelledPart self.now }
    {
        match *self {
            Part::Attr(number) | Part::Var(number) | Part::Validity(number) => number <= 63,
            Part::Dim(number) => number <= 7,
            Part::Meta | Part::Origin | Part::Plain => true,
        }
    }
}

impl Name {
    /// Whether the name has a spelling.
    pub fn has_spelling(&self) -> bool
        ensures { IsTrue result ↔ IsSpelled self.now }
    {
        match *self {
            Name::Commit(frag, CommitKind::Del) => frag.has_spelling() && frag.t1 == frag.t2,
            Name::Commit(frag, CommitKind::Wrt | CommitKind::Vac) => frag.has_spelling(),
            Name::Part(frag, part) => frag.has_spelling() && part.has_spelling(),
            Name::Domain | Name::Schema(_) | Name::Lease(_, _) => true,
        }
    }

    /// The name whose spelling the text is. It gives None exactly where the text is no name's
    /// spelling, and takes no memory.
    pub fn parse(text: &str) -> Option<Name>
        ensures spells { IfSome result (λ name. IsSpelled name × (text.now ≡ name_text name)) }
        ensures every { (name : Name) → FitsName name → IsSpelled name → text.now ≡ name_text name → result ≡ Some name }
    {
        let name = read_name(text);
        if name.has_spelling() && name.spell().text() == text {
            Some(name)
        } else {
            None
        }
    }
}

/// The name that the text spells.
fn read_name(text: &str) -> Name
    ensures { (name : Name) → FitsName name → text.now ≡ name_text name → result ≡ name }
{
    let (folder, file) = cut(text, '/');
    match folder {
        "__schema" => Name::Schema(read_stamp(file)),
        "__commits" => {
            let (frag, kind) = cut(file, '.');
            Name::Commit(read_frag(frag), read_kind(kind))
        }
        "__fragments" => {
            let (frag, part) = cut(file, '/');
            Name::Part(read_frag(frag), read_part(part))
        }
        "__leases" => {
            let (stamp, mode) = cut(file, '.');
            Name::Lease(read_stamp(stamp), read_mode(mode))
        }
        _ => Name::Domain,
    }
}

/// The key that a text of the form `__t_t_id` spells.
fn read_stamp(text: &str) -> Key
    ensures { (key : Key) → FitsKey key → text.now ≡ stamp_text key → result ≡ key }
{
    let (_, text) = cut(text, '_');
    let (_, text) = cut(text, '_');
    let (t, text) = cut(text, '_');
    let (_, id) = cut(text, '_');
    Key {
        t: read_number(t),
        id: read_id(id),
    }
}

/// The key that a text of the form `__t1_t2_id_v` spells.
fn read_frag(text: &str) -> FragKey
    ensures { (frag : FragKey) → FitsFrag frag → text.now ≡ frag_text frag → result ≡ frag }
{
    let (_, text) = cut(text, '_');
    let (_, text) = cut(text, '_');
    let (t1, text) = cut(text, '_');
    let (t2, text) = cut(text, '_');
    let (id, v) = cut(text, '_');
    FragKey {
        t1: read_number(t1),
        t2: read_number(t2),
        id: read_id(id),
        v: read_index(v),
    }
}

/// The part that a file spells.
fn read_part(text: &str) -> Part
    ensures { (part : Part) → FitsPart part → text.now ≡ part_text part → result ≡ part }
{
    let (file, _) = cut(text, '.');
    let (column, ending) = cut(file, '_');
    let (_, number) = cut(column, 'a');
    match ending {
        "_fragment_metadata" => Part::Meta,
        "var" => Part::Var(read_index(number)),
        "validity" => Part::Validity(read_index(number)),
        _ => read_column(column),
    }
}

/// The part that a file without its endings spells.
fn read_column(column: &str) -> Part
    ensures origin { column.now ≡ codes "o" → result ≡ Part.Origin }
    ensures plain { column.now ≡ codes "plain" → result ≡ Part.Plain }
    ensures dim { (number : ℕ) → number < 2 ^ 8 → column.now ≡ codes "d" ++ decimal number → result ≡ Part.Dim number }
    ensures attr { (number : ℕ) → number < 2 ^ 8 → column.now ≡ codes "a" ++ decimal number → result ≡ Part.Attr number }
{
    match column {
        "o" => Part::Origin,
        "plain" => Part::Plain,
        _ => match column.strip_prefix('d') {
            Some(number) => Part::Dim(read_index(number)),
            None => Part::Attr(read_index(cut(column, 'a').1)),
        },
    }
}

/// What stands before the first mark in a text, and after it: all of it and nothing where there is
/// none.
fn cut(text: &str, mark: char) -> (&str, &str)
    requires { mark < 128 }
    ensures before { result.0.now ≡ before_first (λ b. b == mark) text.now }
    ensures after { result.1.now ≡ after_first (λ b. b == mark) text.now }
{
    text.split_once(mark).unwrap_or((text, ""))
}

/// The number that decimal digits spell.
fn read_number(text: &str) -> u64
    ensures { (number : ℕ) → number < 2 ^ 64 → text.now ≡ decimal number → result ≡ number }
{
    text.parse().unwrap_or(0)
}

/// The small number that decimal digits spell.
fn read_index(text: &str) -> u8
    ensures { (number : ℕ) → number < 2 ^ 8 → text.now ≡ decimal number → result ≡ number }
{
    text.parse().unwrap_or(0)
}

/// The identifier that 32 digits spell.
fn read_id(text: &str) -> u128
    ensures { (id : ℕ) → id < 2 ^ 128 → text.now ≡ id_text id → result ≡ id }
{
    match Uuid::parse_str(text) {
        Ok(id) => id.as_u128(),
        Err(_) => 0,
    }
}

/// The kind of commit that an ending spells.
fn read_kind(text: &str) -> CommitKind
    ensures { (kind : _) → text.now ≡ kind_text kind → result ≡ kind }
{
    match text {
        "del" => CommitKind::Del,
        "vac" => CommitKind::Vac,
        _ => CommitKind::Wrt,
    }
}

/// The mode of a lease that an ending spells.
fn read_mode(text: &str) -> LeaseMode
    ensures { (mode : _) → text.now ≡ mode_text mode → result ≡ mode }
{
    match text {
        "exc" => LeaseMode::Exc,
        _ => LeaseMode::Shr,
    }
}
