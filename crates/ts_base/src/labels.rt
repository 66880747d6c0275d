//! Labels: the names of dimensions, attributes and fields.
ghost use Rattle.std.specs.Prelude.{◌≡◌, true, nat_eq, refl};
ghost use Rattle.std.specs.Cmp.{nat_eq_equiv, nat_cmp_total, partial_equiv_from_equiv, partial_order_from_agreeing_total};
ghost use Rattle.std.specs.Cmp.Lexicographic.{pointwise, slice_cmp, lists_per, lists_equiv, lists_total, texts_ties};
ghost use Rattle.std.specs.Ordering.{nat_cmp, as_partial_cmp};
ghost use Rattle.std.specs.List.{list_all};
ghost use Rattle.ts_base.specs.Labels.{is_word_byte, is_word, is_reserved, is_label, label_of};

use crate::ascii::ascii_text;
use crate::lists::Sequence;
use std::cmp::Ordering;
use std::marker::Model;

/// The name of a dimension, an attribute or a field: an ASCII letter, and then ASCII letters,
/// digits and underscores, 64 bytes at most.
///
/// The words `and`, `or`, `not`, `in`, `is` and `null` are no labels, since conditions are written
/// with them. The bytes are in a buffer of fixed size. Contracts see the list of the bytes.
///
/// Labels are ordered by their bytes.
#[derive(Clone, Copy, Debug)]
pub struct Label {
    bytes: [u8; 64],
    count: u8,
}

/// A list of labels.
pub type LabelList = Sequence<Label>;

impl Model for Label {
    ghost use Rattle.std.specs.Prelude.{List, ℕ};
    ghost use Rattle.std.specs.Coded.{coded_list, coded_ℕ};

    ghost Value = { List ℕ };

    ghost coded = { coded_list coded_ℕ };

    ghost use Rattle.ts_base.specs.LabelBuffer.{text_of, IsLabelBuffer, buffer_of, buffer_of-text_of};

    ghost view = { text_of };

    ghost invariant = { IsLabelBuffer };

    ghost inverse = { buffer_of };

    ghost inverse_ok = { buffer_of-text_of };
}

impl Label {
    /// The label of this text. It gives None exactly where the text is no label.
    pub fn new(text: &str) -> Option<Label>
        ensures { result ≡ label_of text.now }
    {
        Label::from_bytes(text.as_bytes())
    }

    /// The label of these bytes. It gives None exactly where the bytes are no label.
    pub fn from_bytes(text: &[u8]) -> Option<Label>
        ensures { result ≡ label_of text.now }
    {
        if is_label(text) {
            Some(Label::of(text))
        } else {
            None
        }
    }

    fn of(text: &[u8]) -> Label
        requires { is_label text.now ≡ true }
        ensures { result ≡ text.now }
    {
        let mut bytes = [0; 64];
        bytes[..text.len()].copy_from_slice(text);
        Label {
            bytes,
            count: text.len() as u8,
        }
    }

    /// The label as text.
    pub fn text(&self) -> &str
        ensures value { result.now ≡ self.now }
        ensures label { is_label result.now ≡ true }
    {
        ascii_text(self.as_bytes())
    }

    /// The bytes of the label.
    pub fn as_bytes(&self) -> &[u8]
        ensures value { result.now ≡ self.now }
        ensures label { is_label result.now ≡ true }
    {
        &self.bytes[..self.count as usize]
    }
}

fn is_label(text: &[u8]) -> bool
    ensures { result ≡ is_label text.now }
{
    is_word(text) && text.len() <= 64 && !is_reserved(text)
}

fn is_word(text: &[u8]) -> bool
    ensures { result ≡ is_word text.now }
{
    match text {
        [] => false,
        [first, rest @ ..] => first.is_ascii_alphabetic() && are_word_bytes(rest),
    }
}

fn are_word_bytes(text: &[u8]) -> bool
    ensures { result ≡ list_all is_word_byte text.now }
{
    text.iter()
        .all(|byte| byte.is_ascii_alphanumeric() || *byte == b'_')
}

fn is_reserved(text: &[u8]) -> bool
    ensures { result ≡ is_reserved text.now }
{
    text == b"and".as_slice()
        || text == b"or".as_slice()
        || text == b"not".as_slice()
        || text == b"in".as_slice()
        || text == b"is".as_slice()
        || text == b"null".as_slice()
}

impl PartialEq for Label {
    ghost eq = { pointwise nat_eq };

    ghost laws = { lists_per (partial_equiv_from_equiv nat_eq_equiv) };

    fn eq(&self, other: &Self) -> bool {
        self.as_bytes() == other.as_bytes()
    }
}

impl Eq for Label {
    ghost laws = { lists_equiv nat_eq_equiv };
}

impl Ord for Label {
    ghost cmp = { slice_cmp nat_cmp };

    ghost total = { lists_total nat_cmp_total };

    ghost matches_partial_cmp = { λ x y. refl };

    ghost matches_eq = { texts_ties };

    fn cmp(&self, other: &Label) -> Ordering {
        self.as_bytes().cmp(&other.as_bytes())
    }
}

impl PartialOrd for Label {
    ghost partial_cmp = { as_partial_cmp (slice_cmp nat_cmp) };

    ghost laws = { partial_order_from_agreeing_total (slice_cmp nat_cmp) (lists_total nat_cmp_total) (λ x y. refl) (texts_ties) };

    fn partial_cmp(&self, other: &Label) -> Option<Ordering> {
        Some(self.cmp(other))
    }
}
