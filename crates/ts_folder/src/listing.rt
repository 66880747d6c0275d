//! The names among the files of a folder.
ghost use Rattle.std.specs.Prelude.{◌≡◌, ◌==◌, ◌++◌, ◌<◌, ℕ, List, length, IsTrue, IfOk, IfSome, OnOk, Some, All};
ghost use Rattle.std.specs.Io.KnownBytes.{Consumes, IsAtEnd};
ghost use Rattle.std.specs.List.{Contains, slice_split};
ghost use Rattle.std.specs.List.Sorted.{IsStrictlySortedBy};
ghost use Rattle.ts_base.specs.Names.{IsSpelled, name_cmp};
ghost use Rattle.ts_base.specs.Spelling.{name_text, prefix_text};
ghost use Rattle.ts_base.specs.declared.names.Name.{Name};
ghost use Rattle.ts_folder.specs.Listings.{HasNameOf, IsFileOf, IsListing, IsNameUnder};

use crate::files::zeros;
use crate::paths::PathText;
use crate::trouble::Trouble;
use std::alloc::{AllocError, Global};
use std::collections::BTreeSet;
use std::io::{ErrorKind, Read};
use std::rt::Files;
use ts_base::{Name, NameList, Prefix};

/// How many bytes of a folder's listing are read at once. A file's name has at most 255 bytes.
const PIECE: usize = 32_768;

/// The names of the objects under a prefix, ascending. A folder that is not there holds none.
///
/// A file whose name is no name of an object is passed over: a temporary file, or one that is none
/// of the store's.
pub(crate) fn names_under<R: Files>(
    alloc: Global,
    rt: &R,
    root: &PathText,
    prefix: Prefix,
) -> Result<NameList, Trouble>
    ensures spelled { IfOk result (All IsSpelled) }
    ensures listing { IfOk result (IsListing prefix) }
{
    let path = root.folder(alloc, prefix)?;
    match rt.open_dir(path.as_str()) {
        Ok(mut files) => Ok(NameList::from_vec(read_names(alloc, &mut files, prefix)?)),
        Err(error) if error.kind() == ErrorKind::NotFound => Ok(NameList::new(alloc)),
        Err(error) => Err(error.into()),
    }
}

/// The names of the objects among the files of a folder, ascending.
fn read_names<D: Read>(alloc: Global, files: &mut D, prefix: Prefix) -> Result<Vec<Name>, Trouble>
    ensures listing { IfOk result (λ names. IsListing prefix names.items) }
    ensures every { IfOk result (λ names. IfSome (D.remaining files.old) (λ listing. All (HasNameOf prefix names.items) (slice_split (λ b. b == 0) listing))) }
{
    let listing = read_listing(alloc, files)?;
    let mut names = BTreeSet::new(alloc);
    add_names(alloc, &mut names, prefix, listing.as_slice())?;
    Ok(in_order(alloc, &names)?)
}

/// Reads the listing of a folder to its end: names of files, each ended by a zero byte.
fn read_listing<D: Read>(alloc: Global, files: &mut D) -> Result<Vec<u8>, Trouble>
    ensures { IfOk result (λ listing. IfSome (D.remaining files.old) (λ bytes. listing.items ≡ bytes)) }
{
    let mut listing = Vec::new(alloc);
    let mut room = zeros(alloc, PIECE)?;
    for _ in 0..u64::MAX {
        if read_piece(files, &mut listing, room.as_mut_slice())? {
            return Ok(listing);
        }
    }
    Err(Trouble::Device)
}

/// Reads a piece of a listing behind those before it, and says whether the listing has ended.
fn read_piece<D: Read>(
    files: &mut D,
    listing: &mut Vec<u8>,
    room: &mut [u8],
) -> Result<bool, Trouble>
    requires { 0 < length room.old }
    ensures room { length room.new ≡ length room.old }
    ensures read { OnOk result ((piece : List ℕ) × Consumes (D.remaining files.old) (D.remaining files.new) piece × (listing.new.items ≡ listing.old.items ++ piece)) }
    ensures end { IfOk result (λ has_ended. IsTrue has_ended → IsAtEnd (D.remaining files.new)) }
{
    let count = files.read(room)?;
    listing.extend_from_slice(&room[..count])?;
    Ok(count == 0)
}

/// The names of a set, ascending.
fn in_order(alloc: Global, names: &BTreeSet<Name>) -> Result<Vec<Name>, AllocError>
    ensures all { IfOk result (λ list. list.items ≡ names.now.keys) }
    ensures ascending { IsStrictlySortedBy name_cmp names.now.keys }
{
    names.iter().copied().collect(alloc)
}

/// Adds the names under a prefix that stand in a listing. None of them is lost.
fn add_names(
    alloc: Global,
    names: &mut BTreeSet<Name>,
    prefix: Prefix,
    listing: &[u8],
) -> Result<(), AllocError>
    requires { All (IsNameUnder prefix) names.old.keys }
    ensures under { All (IsNameUnder prefix) names.new.keys }
    ensures every { OnOk result (All (HasNameOf prefix names.new.keys) (slice_split (λ b. b == 0) listing.now)) }
    ensures kept { OnOk result ((n : Name) → Contains names.old.keys n → Contains names.new.keys n) }
{
    for file in listing.split(|byte| *byte == 0) {
        if let Some(name) = name_of(alloc, prefix, file)? {
            add_name(names, prefix, name)?;
        }
    }
    Ok(())
}

/// Adds a name that stands under the prefix.
fn add_name(names: &mut BTreeSet<Name>, prefix: Prefix, name: Name) -> Result<(), AllocError>
    requires name { IsNameUnder prefix name }
    requires names { All (IsNameUnder prefix) names.old.keys }
    ensures under { All (IsNameUnder prefix) names.new.keys }
    ensures added { OnOk result (Contains names.new.keys name) }
    ensures kept { (n : Name) → Contains names.old.keys n → Contains names.new.keys n }
{
    names.insert(name)?;
    Ok(())
}

/// The name of the object that a file under a prefix is, or None for a file that is no object.
fn name_of(alloc: Global, prefix: Prefix, file: &[u8]) -> Result<Option<Name>, AllocError>
    ensures spells { IfOk result (λ found. IfSome found (λ name. name_text name ≡ prefix_text prefix ++ file.now)) }
    ensures under { IfOk result (λ found. IfSome found (IsNameUnder prefix)) }
    ensures every { (n : Name) → IsFileOf prefix file.now n → IfOk result (λ found. found ≡ Some n) }
{
    let Ok(file) = str::from_utf8(file) else {
        return Ok(None);
    };
    let spelled = prefix.spell();
    let mut text = String::from_str(alloc, spelled.text())?;
    text.push_str(file)?;
    match Name::parse(text.as_str()) {
        Some(name) if name.under(prefix) => Ok(Some(name)),
        _ => Ok(None),
    }
}
