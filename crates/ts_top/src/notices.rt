//! The lines that are printed in place of answers. They take no memory.
ghost use Rattle.std.specs.Prelude.{◌≡◌, ◌++◌, ◌≤◌, length, codes, decimal};
ghost use Rattle.ts_top.specs.Notices.{usage_text, bad_script_text};

use arrayvec::ArrayString;
use itoa::Buffer;

/// One line of text, with its line feed.
pub(crate) type Notice = ArrayString<64>;

/// How the program is called.
pub(crate) fn usage_notice() -> Notice
    ensures { result.bytes ≡ usage_text }
{
    let mut notice = Notice::new();
    notice.push_str("usage: tilestore STORE COMMAND [OPTIONS]\n");
    notice
}

/// The line of a script that is none, counted from 1.
pub(crate) fn bad_script_notice(line: u64) -> Notice
    ensures { result.bytes ≡ bad_script_text line }
{
    numbered("bad script\t", line)
}

/// A line that ends in a number.
fn numbered(start: &str, number: u64) -> Notice
    requires { length start.now ≤ 20 }
    ensures { result.bytes ≡ start.now ++ decimal number ++ codes "\n" }
{
    let mut digits = Buffer::new();
    let mut notice = Notice::new();
    notice.push_str(start);
    notice.push_str(digits.format(number));
    notice.push_str("\n");
    notice
}
