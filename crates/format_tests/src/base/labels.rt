//! Labels: which texts are some, and their order.
use ts_base::Label;

#[test]
fn texts_are_labels_by_the_grammar(rt: HostRuntime) {
    let longest = "a234567890123456789012345678901234567890123456789012345678901234";
    let too_long = "a2345678901234567890123456789012345678901234567890123456789012345";
    for text in ["x", "Z9_", "nulls", "NULL", "ands", longest] {
        match Label::new(text) {
            Some(label) => assert_eq!(rt; label.text(), text, "the label {text}"),
            None => assert!(rt; false, "{text} is a label"),
        }
    }
    for text in [
        "", "_x", "1x", "a b", "a-b", "é", "and", "or", "not", "in", "is", "null", too_long,
    ] {
        assert!(rt; Label::new(text).is_none(), "{text} is no label");
    }
}

#[test]
fn labels_are_ordered_by_their_bytes(rt: HostRuntime) {
    for (lower, higher) in [("Z", "a"), ("a", "a0"), ("a0", "b")] {
        let lower = Label::new(lower);
        let higher = Label::new(higher);
        assert!(rt; lower < higher);
    }
}
