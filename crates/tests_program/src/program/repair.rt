//! Gaps that a resolver repairs, and what is left of certificates that are passed again, late, or below a finalization.
//!
//! Written by `tests/lib/tables.py` from `tests/scripts/repair.md`.

use super::script::Script;

pub static REPAIR: [Script; 17] = [
    Script {
        shows: "views below a nullification are fetched, and each one's nullification ends its fetch",
        command: "viewstate resolver 1",
        lines: "\
            replayed => -\n\
            nullification 4 => settled nullification 4 4; fetch 1 4 missing_nullification; fetch 2 4 missing_nullification; fetch 3 4 missing_nullification\n\
            outstanding => outstanding 1 2 3\n\
            nullification 2 => settled nullification 2 2\n\
            outstanding => outstanding 1 3\n\
            nullification 1 => settled nullification 1 1\n\
            outstanding => outstanding 3\n",
    },
    Script {
        shows: "failures of a replay above a certified floor are fetched, those below it are not",
        command: "viewstate resolver 5",
        lines: "\
            notarization 5 => settled notarization 5 5\n\
            certified 5 false => settled notarization 5 5\n\
            notarization 6 => settled notarization 6 6\n\
            certified 6 true => settled notarization 6 6; raised 6\n\
            notarization 8 => settled notarization 8 8\n\
            certified 8 false => settled notarization 8 8\n\
            notarization 9 => settled notarization 9 9\n\
            certified 9 false => settled notarization 9 9\n\
            replayed => fetch 7 9 missing_nullification; fetch 8 8 certification_failed; fetch 9 9 certification_failed\n",
    },
    Script {
        shows: "the first view of each term is fetched, and a nullification there ends its fetch",
        command: "viewstate resolver 5",
        lines: "\
            replayed => -\n\
            nullification 14 => settled nullification 14 15; fetch 1 14 missing_nullification; fetch 6 14 missing_nullification; fetch 11 14 missing_nullification\n\
            outstanding => outstanding 1 6 11\n\
            nullification 1 => settled nullification 1 5\n\
            outstanding => outstanding 6 11\n\
            nullification 6 => settled nullification 6 10\n\
            outstanding => outstanding 11\n",
    },
    Script {
        shows: "a nullification below the floor covers the rest of its term",
        command: "viewstate resolver 5",
        lines: "\
            replayed => -\n\
            finalization 3 => finalized 3; raised 3\n\
            nullification 6 => settled nullification 6 10; fetch 4 6 missing_nullification\n\
            outstanding => outstanding 4\n\
            nullification 2 => settled nullification 2 5\n\
            outstanding => outstanding\n\
            produce 4 => 010000000000000001000000000000000201\n\
            produce 5 => 010000000000000001000000000000000201\n",
    },
    Script {
        shows: "a finalization ends the fetches below it",
        command: "viewstate resolver 1",
        lines: "\
            replayed => -\n\
            nullification 4 => settled nullification 4 4; fetch 1 4 missing_nullification; fetch 2 4 missing_nullification; fetch 3 4 missing_nullification\n\
            nullification 5 => settled nullification 5 5\n\
            nullification 6 => settled nullification 6 6\n\
            outstanding => outstanding 1 2 3\n\
            notarization 6 => settled notarization 6 6\n\
            outstanding => outstanding 1 2 3\n\
            finalization 6 => finalized 6; raised 6\n\
            outstanding => outstanding\n\
            produce 4 => 02000000000000000100000000000000060000000000000005000000000000000001\n\
            produce 6 => 02000000000000000100000000000000060000000000000005000000000000000001\n",
    },
    Script {
        shows: "a notarization is served before the nullification of its view, but only once it is certified",
        command: "viewstate resolver 1",
        lines: "\
            replayed => -\n\
            nullification 3 => settled nullification 3 3; fetch 1 3 missing_nullification; fetch 2 3 missing_nullification\n\
            notarization 3 => settled notarization 3 3\n\
            produce 3 => 010000000000000001000000000000000301\n\
            certified 3 true => settled notarization 3 3; raised 3\n\
            produce 3 => 00000000000000000100000000000000030000000000000002000000000000000001\n",
    },
    Script {
        shows: "a notarization and then its true verdict",
        command: "viewstate resolver 5",
        lines: "\
            replayed => -\n\
            notarization 7 => settled notarization 7 7; fetch 1 7 missing_nullification; fetch 6 7 missing_nullification\n\
            certified 7 true => settled notarization 7 7; raised 7\n\
            outstanding => outstanding\n\
            uncertifiable 7 => false\n\
            produce 1 => 00000000000000000100000000000000070000000000000006000000000000000001\n\
            produce 7 => 00000000000000000100000000000000070000000000000006000000000000000001\n\
            produce 8 => none\n",
    },
    Script {
        shows: "a true verdict and then its notarization",
        command: "viewstate resolver 5",
        lines: "\
            replayed => -\n\
            certified 7 true => settled notarization 7 7; raised 7\n\
            notarization 7 => settled notarization 7 7\n\
            outstanding => outstanding\n\
            uncertifiable 7 => false\n\
            produce 1 => 00000000000000000100000000000000070000000000000006000000000000000001\n\
            produce 7 => 00000000000000000100000000000000070000000000000006000000000000000001\n\
            produce 8 => none\n",
    },
    Script {
        shows: "a notarization and then its false verdict",
        command: "viewstate resolver 5",
        lines: "\
            replayed => -\n\
            notarization 7 => settled notarization 7 7; fetch 1 7 missing_nullification; fetch 6 7 missing_nullification\n\
            certified 7 false => settled notarization 7 7; fetch 7 7 certification_failed\n\
            outstanding => outstanding 1 6 7\n\
            uncertifiable 7 => true\n\
            produce 1 => none\n\
            produce 7 => none\n\
            produce 8 => none\n",
    },
    Script {
        shows: "a false verdict and then its notarization",
        command: "viewstate resolver 5",
        lines: "\
            replayed => -\n\
            certified 7 false => settled notarization 7 7; fetch 7 7 certification_failed\n\
            notarization 7 => fetch 1 7 missing_nullification; fetch 6 7 missing_nullification\n\
            outstanding => outstanding 1 6 7\n\
            uncertifiable 7 => true\n\
            produce 1 => none\n\
            produce 7 => none\n\
            produce 8 => none\n",
    },
    Script {
        shows: "a certificate that is passed again opens no fetch, and a failed notarization settles nothing",
        command: "viewstate resolver 5",
        lines: "\
            replayed => -\n\
            nullification 20 => settled nullification 20 20; fetch 1 20 missing_nullification; fetch 6 20 missing_nullification; fetch 11 20 missing_nullification; fetch 16 20 missing_nullification\n\
            notarization 22 => settled notarization 22 22; fetch 21 22 missing_nullification\n\
            certified 22 false => settled notarization 22 22; fetch 22 22 certification_failed\n\
            nullification 20 => settled nullification 20 20\n\
            notarization 22 => -\n\
            uncertifiable 22 => true\n\
            finalization 23 => finalized 23; raised 23\n\
            finalization 23 => finalized 23\n\
            nullification 20 => -\n\
            notarization 22 => -\n\
            outstanding => outstanding\n",
    },
    Script {
        shows: "a certified notarization that is passed again settles its ask, and stays served",
        command: "viewstate resolver 1",
        lines: "\
            replayed => -\n\
            notarization 3 => settled notarization 3 3; fetch 1 3 missing_nullification; fetch 2 3 missing_nullification\n\
            certified 3 true => settled notarization 3 3; raised 3\n\
            notarization 3 => settled notarization 3 3\n\
            produce 3 => 00000000000000000100000000000000030000000000000002000000000000000001\n",
    },
    Script {
        shows: "a verdict after a finalization of a later view raises nothing",
        command: "viewstate resolver 5",
        lines: "\
            replayed => -\n\
            notarization 5 => settled notarization 5 5; fetch 1 5 missing_nullification\n\
            finalization 6 => finalized 6; raised 6\n\
            certified 5 true => settled notarization 5 5\n\
            produce 5 => 02000000000000000100000000000000060000000000000005000000000000000001\n\
            produce 7 => none\n",
    },
    Script {
        shows: "a finalization drops what it passes: a nullification, and notarizations in each state of their verdict",
        command: "viewstate resolver 5",
        lines: "\
            replayed => -\n\
            nullification 2 => settled nullification 2 5; fetch 1 2 missing_nullification\n\
            notarization 6 => settled notarization 6 6\n\
            notarization 7 => settled notarization 7 7; fetch 6 7 missing_nullification\n\
            notarization 8 => settled notarization 8 8\n\
            certified 7 true => settled notarization 7 7; raised 7\n\
            certified 8 false => settled notarization 8 8; fetch 8 8 certification_failed\n\
            uncertifiable 8 => true\n\
            finalization 10 => finalized 10; raised 10\n\
            uncertifiable 8 => false\n\
            produce 2 => 020000000000000001000000000000000a0000000000000009000000000000000001\n\
            produce 7 => 020000000000000001000000000000000a0000000000000009000000000000000001\n\
            produce 11 => none\n\
            notarization 6 => -\n\
            notarization 7 => -\n\
            notarization 8 => -\n\
            nullification 2 => -\n",
    },
    Script {
        shows: "a certified view ends the fetch of its own term alone",
        command: "viewstate resolver 5",
        lines: "\
            replayed => -\n\
            nullification 14 => settled nullification 14 15; fetch 1 14 missing_nullification; fetch 6 14 missing_nullification; fetch 11 14 missing_nullification\n\
            outstanding => outstanding 1 6 11\n\
            notarization 5 => settled notarization 5 5\n\
            outstanding => outstanding 1 6 11\n\
            certified 5 true => settled notarization 5 5; raised 5\n\
            outstanding => outstanding 6 11\n",
    },
    Script {
        shows: "a term is fetched once, whatever is passed again",
        command: "viewstate resolver 5",
        lines: "\
            replayed => -\n\
            nullification 14 => settled nullification 14 15; fetch 1 14 missing_nullification; fetch 6 14 missing_nullification; fetch 11 14 missing_nullification\n\
            notarization 5 => settled notarization 5 5\n\
            notarization 5 => settled notarization 5 5\n\
            notarization 5 => settled notarization 5 5\n\
            nullification 20 => settled nullification 20 20; fetch 16 20 missing_nullification\n\
            outstanding => outstanding 1 6 11 16\n",
    },
    Script {
        shows: "a false verdict in a covered view opens no fetch",
        command: "viewstate resolver 5",
        lines: "\
            replayed => -\n\
            nullification 14 => settled nullification 14 15; fetch 1 14 missing_nullification; fetch 6 14 missing_nullification; fetch 11 14 missing_nullification\n\
            notarization 5 => settled notarization 5 5\n\
            nullification 1 => settled nullification 1 5\n\
            certified 5 false => settled notarization 5 5\n\
            outstanding => outstanding 6 11\n",
    },
];
