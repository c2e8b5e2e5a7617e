//! Timeouts and repeats.
//!
//! Written by `tests/lib/tables.py` from `tests/scripts/timeouts.md`.

use super::script::Script;

pub static TIMEOUTS: [Script; 4] = [
    Script {
        shows: "with a proposal a view waits for its certification, unless a reason is given",
        command: "viewstate voter 4 0 1 0",
        lines: "\
            timeout 0 => timeout 1000 LeaderTimeout\n\
            proposal 1 0 7 => true\n\
            timeout 0 => timeout 2000 CertificationTimeout\n\
            trigger 1 LeaderNullify 5 => ok\n\
            timeout 0 => timeout 5 LeaderNullify\n",
    },
    Script {
        shows: "without a key a vote to nullify is repeated all the same",
        command: "viewstate voter 4 - 1 0",
        lines: "\
            nullify 1 => none\n\
            timeout 100 => timeout 600 Retry\n",
    },
    Script {
        shows: "the first reason stands, and a vote to nullify is repeated half a second after the first poll, also in a new life",
        command: "viewstate voter 4 0 1 0",
        lines: "\
            timeout 0 => timeout 1000 LeaderTimeout\n\
            trigger 1 Inactivity 5 => ok\n\
            trigger 1 LeaderNullify 7 => ok\n\
            timeout 8 => timeout 5 Inactivity\n\
            nullify 1 => nullify 1 false\n\
            timeout 100 => timeout 600 Retry\n\
            timeout 300 => timeout 600 Retry\n\
            nullify 1 => nullify 1 true\n\
            timeout 700 => timeout 1200 Retry\n\
            restart 0 20 => ok\n\
            timeout 30 => timeout 530 Retry\n",
    },
    Script {
        shows: "the moment of a repeat that passes 64 bits, and then an earlier poll",
        command: "viewstate voter 4 0 1 0",
        lines: "\
            nullify 1 => nullify 1 false\n\
            timeout 18446744073709551615 => fault 4 TimeOverflow\n\
            timeout 100 => timeout 600 Retry\n",
    },
];
