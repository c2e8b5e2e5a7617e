//! Command lines that ask for no mode.
//!
//! Written by `tests/lib/tables.py` from `tests/scripts/misuses.md`.

/// The purpose of each row, and the command line.
pub static MISUSES: [(&str, &str); 19] = [
    ("no words", "viewstate"),
    ("another word", "viewstate peer 1"),
    (
        "the index of a member that there is not",
        "viewstate voter 4 4 1 0",
    ),
    ("a network of no members", "viewstate voter 0 - 1 0"),
    (
        "a network of too many members",
        "viewstate voter 1001 0 1 0",
    ),
    ("terms of no views", "viewstate voter 4 0 0 0"),
    (
        "terms of too many views",
        "viewstate voter 4 0 4294967296 0",
    ),
    (
        "a number of more than 64 bits",
        "viewstate voter 4 0 1 18446744073709551616",
    ),
    ("a leading zero", "viewstate voter 4 0 1 00"),
    ("a setting too few", "viewstate voter 4 0 1"),
    ("a setting too many", "viewstate voter 4 0 1 0 0"),
    ("a resolver without its setting", "viewstate resolver"),
    ("a resolver of terms of no views", "viewstate resolver 0"),
    (
        "a resolver with a setting too many",
        "viewstate resolver 1 1",
    ),
    (
        "a leading zero of a resolver's setting",
        "viewstate resolver 01",
    ),
    ("a sign", "viewstate resolver +1"),
    (
        "a resolver's term of too many views",
        "viewstate resolver 4294967296",
    ),
    ("an empty word", "viewstate resolver "),
    ("a misspelt word", "viewstate resolve 1"),
];
