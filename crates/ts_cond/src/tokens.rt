//! The tokens of a condition's text.
ghost use Rattle.std.specs.Prelude.{◌≡◌, ◌≤◌, ◌+◌, ◌*◌, ◌^◌, true, false, length, take, IfSome, IfNone};
ghost use Rattle.ts_cond.specs.Tokens.{front, starts, run_from, run_of, word_len, digits_of, begins_with, with_equals, unequal, decimal_from, number, negative, end_from, text, text_to, reserved_kind, kind_by, word, is_blob, blob_or_word};
ghost use Rattle.ts_cond.specs.Spelled.{seen_front, kind_of, passes};
ghost use Rattle.ts_base.specs.Labels.{label_of, is_word_byte};
ghost use Rattle.std.specs.Char.{is_ascii_digit, is_ascii_hexdigit};

use crate::nodes::CondOp;
use ts_base::Label;
use ts_value::is_text;

/// A token: a mark, a word, a label, or a value.
#[derive(Debug, Drop)]
pub enum Kind<'a> {
    Open,
    Close,
    Comma,
    And,
    Or,
    Not,
    In,
    Is,
    Null,
    Compares(CondOp),
    Label(Label),
    Number(i128),
    /// The bytes between the quotes, in which a quote is still doubled.
    Text(&'a [u8]),
    /// The hexadecimal digits between the quotes.
    Blob(&'a [u8]),
}

/// What stands at the front of a text: a token, or a blank where it is None.
#[derive(Debug, Drop)]
pub struct Front<'a> {
    pub kind: Option<Kind<'a>>,
    /// Its bytes.
    pub len: usize,
}

// Which bytes go on in a token.
#[derive(Clone, Copy, Debug)]
enum Class {
    Digit,
    Word,
    Hex,
}

impl Class {
    fn has(self, byte: u8) -> bool
        ensures { result ≡ passes self byte }
    {
        match self {
            Class::Digit => byte.is_ascii_digit(),
            Class::Word => byte.is_ascii_alphanumeric() || byte == b'_',
            Class::Hex => byte.is_ascii_hexdigit(),
        }
    }
}

/// The longest token, or the blank, at the front of a text. It gives None where the first byte
/// begins no token, and where a text does not end or is not in UTF-8.
#[tactic(auto, using(crate::proofs::Words::letter_in_word))]
pub fn front_of<'a>(bytes: &'a [u8]) -> Option<Front<'a>>
    ensures reads { seen_front result ≡ front bytes.now }
    ensures some { IfSome result (λ front. 1 ≤ front.len) }
    ensures within { IfSome result (λ front. front.len ≤ length bytes.now) }
{
    match bytes {
        [] => None,
        [first, behind @ ..] => match *first {
            b' ' | b'\t' => Some(Front { kind: None, len: 1 }),
            b'(' => Some(Front {
                kind: Some(Kind::Open),
                len: 1,
            }),
            b')' => Some(Front {
                kind: Some(Kind::Close),
                len: 1,
            }),
            b',' => Some(Front {
                kind: Some(Kind::Comma),
                len: 1,
            }),
            b'=' => Some(Front {
                kind: Some(Kind::Compares(CondOp::Equal)),
                len: 1,
            }),
            b'<' => with_equals(CondOp::AtMost, CondOp::Less, behind),
            b'>' => with_equals(CondOp::AtLeast, CondOp::Greater, behind),
            b'!' => unequal(behind),
            b'-' => negative(behind),
            b'\'' => text(behind),
            b'x' => blob_or_word(bytes, behind),
            first if first.is_ascii_digit() => number(bytes),
            first if first.is_ascii_alphabetic() => word(bytes),
            _ => None,
        },
    }
}

fn begins_with(mark: u8, bytes: &[u8]) -> bool
    ensures { result ≡ begins_with mark bytes.now }
{
    match bytes {
        [] => false,
        [first, ..] => *first == mark,
    }
}

fn with_equals(longer: CondOp, shorter: CondOp, behind: &[u8]) -> Option<Front<'_>>
    ensures reads { seen_front result ≡ with_equals longer shorter behind.now }
    ensures some { IfSome result (λ front. 1 ≤ front.len) }
    ensures within { IfSome result (λ front. front.len ≤ length behind.now + 1) }
{
    if begins_with(b'=', behind) {
        Some(Front {
            kind: Some(Kind::Compares(longer)),
            len: 2,
        })
    } else {
        Some(Front {
            kind: Some(Kind::Compares(shorter)),
            len: 1,
        })
    }
}

fn unequal(behind: &[u8]) -> Option<Front<'_>>
    ensures reads { seen_front result ≡ unequal behind.now }
    ensures some { IfSome result (λ front. 1 ≤ front.len) }
    ensures within { IfSome result (λ front. front.len ≤ length behind.now + 1) }
{
    if begins_with(b'=', behind) {
        Some(Front {
            kind: Some(Kind::Compares(CondOp::Unequal)),
            len: 2,
        })
    } else {
        None
    }
}

// How many of the first bytes are of the class.
fn run_of(class: Class, bytes: &[u8]) -> usize
    ensures value { result ≡ run_from 0 (passes class) bytes.now }
    ensures some { starts (passes class) bytes.now ≡ true → 1 ≤ result }
    ensures within { result ≤ length bytes.now }
{
    for place in 0..bytes.len() {
        if !class.has(bytes[place]) {
            return place;
        }
    }
    bytes.len()
}

// The number that at most 20 digits spell.
fn decimal(digits: &[u8]) -> u128
    requires { length digits.now ≤ 20 }
    ensures value { result ≡ decimal_from 0 digits.now }
    ensures bound { result ≤ 23 * 10 ^ 20 }
{
    let mut value = 0u128;
    for place in 0..digits.len() {
        value = value * 10 + digits[place].saturating_sub(b'0') as u128;
    }
    value
}

// The first bytes that are digits, at most 20.
fn digits_of(bytes: &[u8]) -> &[u8]
    ensures value { result.now ≡ take (digits_of bytes.now) bytes.now }
    ensures count { length result.now ≡ digits_of bytes.now }
    ensures some { starts is_ascii_digit bytes.now ≡ true → 1 ≤ length result.now }
    ensures room { length result.now ≤ 20 }
    ensures within { length result.now ≤ length bytes.now }
{
    &bytes[..run_of(Class::Digit, bytes).min(20)]
}

fn number(bytes: &[u8]) -> Option<Front<'_>>
    requires { starts is_ascii_digit bytes.now ≡ true }
    ensures reads { seen_front result ≡ number bytes.now }
    ensures some { IfSome result (λ front. 1 ≤ front.len) }
    ensures within { IfSome result (λ front. front.len ≤ length bytes.now) }
{
    let digits = digits_of(bytes);
    Some(Front {
        kind: Some(Kind::Number(decimal(digits) as i128)),
        len: digits.len(),
    })
}

fn negative(behind: &[u8]) -> Option<Front<'_>>
    ensures reads { seen_front result ≡ negative behind.now }
    ensures some { IfSome result (λ front. 1 ≤ front.len) }
    ensures within { IfSome result (λ front. front.len ≤ length behind.now + 1) }
{
    let digits = digits_of(behind);
    if digits.is_empty() {
        return None;
    }
    Some(Front {
        kind: Some(Kind::Number(-(decimal(digits) as i128))),
        len: digits.len() + 1,
    })
}

// Where a text ends behind its opening quote, with its closing quote.
fn end_of(bytes: &[u8]) -> Option<usize>
    ensures value { result ≡ end_from 0 false bytes.now }
    ensures some { IfSome result (λ end. 1 ≤ end) }
    ensures within { IfSome result (λ end. end ≤ length bytes.now) }
{
    let mut odd = false;
    for place in 0..bytes.len() {
        if bytes[place] == b'\'' {
            odd = !odd;
        } else if odd {
            return Some(place);
        }
    }
    if odd { Some(bytes.len()) } else { None }
}

fn text(behind: &[u8]) -> Option<Front<'_>>
    ensures reads { seen_front result ≡ text behind.now }
    ensures some { IfSome result (λ front. 1 ≤ front.len) }
    ensures within { IfSome result (λ front. front.len ≤ length behind.now + 1) }
{
    match end_of(behind) {
        Some(end) => text_to(end, behind),
        None => None,
    }
}

fn text_to(end: usize, behind: &[u8]) -> Option<Front<'_>>
    requires some { 1 ≤ end }
    requires within { end ≤ length behind.now }
    ensures reads { seen_front result ≡ text_to (Some end) behind.now }
    ensures some { IfSome result (λ front. 1 ≤ front.len) }
    ensures within { IfSome result (λ front. front.len ≤ length behind.now + 1) }
{
    let raw = &behind[..end - 1];
    if is_text(raw) {
        Some(Front {
            kind: Some(Kind::Text(raw)),
            len: end + 1,
        })
    } else {
        None
    }
}

fn reserved(word: &[u8]) -> Kind<'_>
    ensures { kind_of result ≡ reserved_kind word.now }
{
    if word == b"and".as_slice() {
        Kind::And
    } else if word == b"or".as_slice() {
        Kind::Or
    } else if word == b"not".as_slice() {
        Kind::Not
    } else if word == b"in".as_slice() {
        Kind::In
    } else if word == b"is".as_slice() {
        Kind::Is
    } else {
        Kind::Null
    }
}

fn kind_of_word(word: &[u8]) -> Kind<'_>
    ensures { kind_of result ≡ kind_by (label_of word.now) word.now }
{
    match Label::from_bytes(word) {
        Some(label) => Kind::Label(label),
        None => reserved(word),
    }
}

// The first bytes that are letters, digits and underscores, at most 64.
fn word_of(bytes: &[u8]) -> &[u8]
    requires { starts is_word_byte bytes.now ≡ true }
    ensures value { result.now ≡ take (word_len bytes.now) bytes.now }
    ensures count { length result.now ≡ word_len bytes.now }
    ensures some { 1 ≤ length result.now }
    ensures within { length result.now ≤ length bytes.now }
{
    &bytes[..run_of(Class::Word, bytes).min(64)]
}

fn word(bytes: &[u8]) -> Option<Front<'_>>
    requires { starts is_word_byte bytes.now ≡ true }
    ensures reads { seen_front result ≡ word bytes.now }
    ensures some { IfSome result (λ front. 1 ≤ front.len) }
    ensures within { IfSome result (λ front. front.len ≤ length bytes.now) }
{
    let word = word_of(bytes);
    Some(Front {
        kind: Some(kind_of_word(word)),
        len: word.len(),
    })
}

// The digits of a blob behind `x'`, if a whole blob stands there.
fn blob_digits(bytes: &[u8]) -> Option<&[u8]>
    ensures none { IfNone result (is_blob bytes.now ≡ false) }
    ensures some { IfSome result (λ digits. (is_blob bytes.now ≡ true) × (digits.now ≡ take (run_of is_ascii_hexdigit bytes.now) bytes.now) × (length digits.now ≡ run_of is_ascii_hexdigit bytes.now) × (length digits.now + 1 ≤ length bytes.now)) }
{
    let (digits, behind) = bytes.split_at(run_of(Class::Hex, bytes));
    if digits.len() % 2 == 0 && begins_with(b'\'', behind) {
        Some(digits)
    } else {
        None
    }
}

fn blob_or_word<'a>(bytes: &'a [u8], behind: &'a [u8]) -> Option<Front<'a>>
    requires behind { length bytes.now ≡ length behind.now + 1 }
    requires word { starts is_word_byte bytes.now ≡ true }
    ensures reads { seen_front result ≡ blob_or_word bytes.now behind.now }
    ensures some { IfSome result (λ front. 1 ≤ front.len) }
    ensures within { IfSome result (λ front. front.len ≤ length bytes.now) }
{
    if begins_with(b'\'', behind) {
        match blob_digits(&behind[1..]) {
            Some(digits) => Some(Front {
                kind: Some(Kind::Blob(digits)),
                len: digits.len() + 3,
            }),
            None => word(bytes),
        }
    } else {
        word(bytes)
    }
}
