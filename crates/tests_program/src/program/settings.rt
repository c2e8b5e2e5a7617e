//! Settings at their bounds, and inputs at theirs.
//!
//! Written by `tests/lib/tables.py` from `tests/scripts/settings.md`.

use super::script::Script;

pub static SETTINGS: [Script; 6] = [
    Script {
        shows: "a member that starts is in view 1",
        command: "viewstate voter 4 0 1 0",
        lines: "view => view 1 0 0\n",
    },
    Script {
        shows: "the largest settings",
        command: "viewstate voter 1000 999 4294967295 18446744073709551615",
        lines: "view => view 1 0 0\n",
    },
    Script {
        shows: "a network of one member, asked without its key",
        command: "viewstate voter 1 - 1 0",
        lines: "\
            view => view 1 0 0\n\
            nullify 1 => none\n",
    },
    Script {
        shows: "votes in genesis and in the view of the largest number",
        command: "viewstate voter 4 0 1 0",
        lines: "\
            nullify 0 => none\n\
            nullify 18446744073709551615 => none\n",
    },
    Script {
        shows: "the last line may lack its line feed",
        command: "viewstate voter 4 0 1 0",
        lines: "\
            view => view 1 0 0\n\
            view => view 1 0 0",
    },
    Script {
        shows: "no lines and no replies",
        command: "viewstate voter 4 0 1 0",
        lines: "",
    },
];
