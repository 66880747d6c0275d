//! Where the files of a store stand.
ghost use Rattle.std.specs.Prelude.{◌≡◌, IfOk};
ghost use Rattle.std.specs.Path.{path_buf_bytes, path_join};
ghost use Rattle.ts_base.specs.Spelling.{name_text, prefix_text};
ghost use Rattle.ts_folder.specs.Paths.{root_text};

use std::alloc::{AllocError, Global};
use std::marker::Model;
use std::path::{Path, PathBuf};
use ts_base::{Name, OutOfMemory, Prefix};

/// The path of the folder that a store is kept in, as the operating system takes it: absolute, or
/// from the folder that the process works in.
#[derive(Debug, Drop)]
pub struct PathText {
    text: String,
}

impl Model for PathText {
    ghost use Rattle.std.specs.Prelude.{List, ℕ, string_bytes};
    ghost use Rattle.std.specs.Coded.{coded_list, coded_ℕ};

    ghost Value = { List ℕ };

    ghost coded = { coded_list coded_ℕ };

    ghost view = { λ path. string_bytes path.text };
}

impl PathText {
    /// The path with this text. An empty text is the folder that the process works in.
    ///
    /// A text that is no path (it has a zero byte, or is too long) is taken too: then each call to
    /// the store fails.
    pub fn new(alloc: Global, text: &str) -> Result<PathText, OutOfMemory>
        ensures { IfOk result (λ path. path ≡ root_text text.now) }
    {
        let text = if text.is_empty() { "." } else { text };
        let text = String::from_str(alloc, text)?;
        Ok(PathText { text })
    }

    /// The path as text.
    pub fn text(&self) -> &str
        ensures { result.now ≡ self.now }
    {
        self.text.as_str()
    }

    /// The path of the file of a name.
    pub(crate) fn file(&self, alloc: Global, name: Name) -> Result<PathBuf, AllocError>
        ensures { IfOk result (λ path. path_buf_bytes path ≡ path_join self.now (name_text name)) }
    {
        let spelled = name.spell();
        below(alloc, self.text(), spelled.text())
    }

    /// The path of the folder of a prefix, with a slash at its end.
    pub(crate) fn folder(&self, alloc: Global, prefix: Prefix) -> Result<PathBuf, AllocError>
        ensures { IfOk result (λ path. path_buf_bytes path ≡ path_join self.now (prefix_text prefix)) }
    {
        let spelled = prefix.spell();
        below(alloc, self.text(), spelled.text())
    }
}

/// The path of what stands below a folder.
pub(crate) fn below(alloc: Global, folder: &str, name: &str) -> Result<PathBuf, AllocError>
    ensures { IfOk result (λ path. path_buf_bytes path ≡ path_join folder.now name.now) }
{
    Path::new(folder).join(alloc, name)
}

/// The path of the folder that a file stands in, with the slash at its end.
pub(crate) fn folder_of(file: &str) -> &str {
    match file.rfind('/') {
        Some(slash) => file.get(..=slash).unwrap_or(file),
        None => "./",
    }
}
