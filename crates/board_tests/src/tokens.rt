use crate::same::assert_same;
use dts_lex::{NumberFault, laws, number_of};

const WIDE: Result<u32, NumberFault> = Err(NumberFault::TooWide);

const BAD: Result<u32, NumberFault> = Err(NumberFault::Malformed);

const NUMBERS: &[(&str, Result<u32, NumberFault>)] = &[
    ("0", Ok(0)),
    ("010", Ok(8)),
    ("0xFfUL", Ok(255)),
    ("4294967295ULL", Ok(4294967295)),
    ("4294967296", WIDE),
    ("08", BAD),
    ("1u", BAD),
];

#[test]
fn numbers_of_words(rt: HostRuntime) {
    for &(word, number) in NUMBERS {
        let found = number_of(word.as_bytes());
        assert_same(&rt, "number", (word, found), (word, number));
    }
}

#[test]
fn laws_of_tokens() {
    laws::spans_rise();
    laws::kinds_fit();
    laws::tokens_cover();
}
