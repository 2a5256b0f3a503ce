use std::alloc::Global;
use std::test::*;
use tca_program::{asked_by, split_word};

// Words with a session of 1 to 10 digits, an at sign and a path: the word, the session and the path.
const NUMBERED: [(&str, u32, &str); 16] = [
    ("1@p", 1, "p"),
    ("0@p", 0, "p"),
    ("7@p", 7, "p"),
    ("0004@p", 4, "p"),
    ("4294967295@p", 4_294_967_295, "p"),
    ("0000000012@p", 12, "p"),
    ("0000000000@p", 0, "p"),
    ("1@2@x", 1, "2@x"),
    ("1@@", 1, "@"),
    ("1@@x", 1, "@x"),
    ("12@a@b", 12, "a@b"),
    ("1@/a b/c", 1, "/a b/c"),
    ("1@-", 1, "-"),
    ("1@ ", 1, " "),
    ("1@2", 1, "2"),
    ("1@\u{fc}", 1, "\u{fc}"),
];

// Words that are a path as a whole, of session 0.
const PATHS: [&str; 30] = [
    "p",
    "",
    "12",
    "/a b/c",
    // more than ten digits
    "00000000012@p",
    "00000000000@p",
    "12345678901@p",
    // more than 32 bits
    "4294967296@p",
    "9999999999@p",
    // no path
    "3@",
    "0@",
    "4294967295@",
    // no session
    "@",
    "@x",
    "@1",
    "@1@x",
    "a@b",
    "a@1@x",
    "./1@p",
    "-1@x",
    "+1@x",
    " 1@x",
    "1 @x",
    "1_0@x",
    "0x1@x",
    "1.0@x",
    // digits and an at sign that aren't ASCII
    "\u{661}@x",
    "\u{ff11}@x",
    "1\u{661}@x",
    "1\u{ff20}x",
];

#[test]
fn splits_words(rt: HostRuntime) {
    for (word, session, path) in NUMBERED {
        assert!(rt; split_word(word) == (session, path), "{word}");
    }
    for word in PATHS {
        assert!(rt; split_word(word) == (0, word), "{word}");
    }
}

// Whether three words ask for these, in their order.
fn asks_for(alloc: Global, words: [&str; 3], wanted: [(u32, &str); 3]) -> bool {
    let Ok(all) = asked_by(alloc, &words) else {
        return false;
    };
    match all.as_slice() {
        [first, second, third] => {
            let one = (first.session, first.path) == wanted[0];
            let two = (second.session, second.path) == wanted[1];
            one && two && (third.session, third.path) == wanted[2]
        }
        _ => false,
    }
}

#[test]
fn asks_for_each_word_in_order(rt: HostRuntime) {
    let words = ["2@a", "1@b", "3@"];
    assert!(rt; asks_for(rt.alloc(), words, [(2, "a"), (1, "b"), (0, "3@")]));
    let words = ["a", "1@a", "a"];
    assert!(rt; asks_for(rt.alloc(), words, [(0, "a"), (1, "a"), (0, "a")]));
}
