//! Certificates that a resolver keeps, and the fetches that it opens.
//!
//! Written by `tests/lib/tables.py` from `tests/scripts/resolver.md`.

use super::script::Script;

pub static RESOLVER: [Script; 22] = [
    Script {
        shows: "the gap below a nullification is fetched, until a certificate of its middle comes",
        command: "viewstate resolver 1",
        lines: "\
            replayed => -\n\
            nullification 4 => settled nullification 4 4; fetch 1 4 missing_nullification; fetch 2 4 missing_nullification; fetch 3 4 missing_nullification\n\
            nullification 2 => settled nullification 2 2\n\
            outstanding => outstanding 1 3\n",
    },
    Script {
        shows: "nothing is served of nothing",
        command: "viewstate resolver 1",
        lines: "\
            replayed => -\n\
            produce 1 => none\n",
    },
    Script {
        shows: "failures of a replay are fetched at its end",
        command: "viewstate resolver 1",
        lines: "\
            notarization 4 => settled notarization 4 4\n\
            certified 4 false => settled notarization 4 4\n\
            finalization 5 => finalized 5; raised 5\n\
            notarization 7 => settled notarization 7 7\n\
            certified 7 false => settled notarization 7 7\n\
            nullification 9 => settled nullification 9 9\n\
            replayed => fetch 6 9 missing_nullification; fetch 7 9 missing_nullification; fetch 8 9 missing_nullification; fetch 7 7 certification_failed\n",
    },
    Script {
        shows: "a term that reaches above the finalized view keeps its nullification, until it ends",
        command: "viewstate resolver 5",
        lines: "\
            replayed => -\n\
            finalization 3 => finalized 3; raised 3\n\
            nullification 2 => settled nullification 2 5\n\
            finalization 5 => finalized 5; raised 5\n\
            nullification 2 => -\n",
    },
    Script {
        shows: "what is outstanding over a floor inside a term, call by call",
        command: "viewstate resolver 5",
        lines: "\
            replayed => -\n\
            notarization 4 => settled notarization 4 4; fetch 1 4 missing_nullification\n\
            outstanding => outstanding 1\n\
            certified 4 true => settled notarization 4 4; raised 4\n\
            outstanding => outstanding\n\
            nullification 14 => settled nullification 14 15; fetch 5 14 missing_nullification; fetch 6 14 missing_nullification; fetch 11 14 missing_nullification\n\
            outstanding => outstanding 5 6 11\n",
    },
    Script {
        shows: "a notarization, its verdict and a nullification, in this order",
        command: "viewstate resolver 5",
        lines: "\
            replayed => -\n\
            notarization 3 => *\n\
            certified 3 true => *\n\
            nullification 14 => *\n\
            outstanding => outstanding 4 6 11\n",
    },
    Script {
        shows: "a notarization, a nullification and the verdict",
        command: "viewstate resolver 5",
        lines: "\
            replayed => -\n\
            notarization 3 => *\n\
            nullification 14 => *\n\
            certified 3 true => *\n\
            outstanding => outstanding 4 6 11\n",
    },
    Script {
        shows: "a verdict, its notarization and a nullification",
        command: "viewstate resolver 5",
        lines: "\
            replayed => -\n\
            certified 3 true => *\n\
            notarization 3 => *\n\
            nullification 14 => *\n\
            outstanding => outstanding 4 6 11\n",
    },
    Script {
        shows: "a verdict, a nullification and the notarization",
        command: "viewstate resolver 5",
        lines: "\
            replayed => -\n\
            certified 3 true => *\n\
            nullification 14 => *\n\
            notarization 3 => *\n\
            outstanding => outstanding 4 6 11\n",
    },
    Script {
        shows: "a nullification, a notarization and its verdict",
        command: "viewstate resolver 5",
        lines: "\
            replayed => -\n\
            nullification 14 => *\n\
            notarization 3 => *\n\
            certified 3 true => *\n\
            outstanding => outstanding 4 6 11\n",
    },
    Script {
        shows: "a nullification, a verdict and its notarization",
        command: "viewstate resolver 5",
        lines: "\
            replayed => -\n\
            nullification 14 => *\n\
            certified 3 true => *\n\
            notarization 3 => *\n\
            outstanding => outstanding 4 6 11\n",
    },
    Script {
        shows: "the highest finalization is kept, and served for all views at or below it",
        command: "viewstate resolver 5",
        lines: "\
            replayed => -\n\
            nullification 14 => settled nullification 14 15; fetch 1 14 missing_nullification; fetch 6 14 missing_nullification; fetch 11 14 missing_nullification\n\
            notarization 3 => settled notarization 3 3\n\
            certified 3 true => settled notarization 3 3; raised 3; fetch 4 3 missing_nullification; fetch 6 3 missing_nullification; fetch 11 3 missing_nullification\n\
            finalization 3 => finalized 3\n\
            finalization 2 => finalized 3\n\
            produce 1 => 02000000000000000100000000000000030000000000000002000000000000000001\n\
            produce 2 => 02000000000000000100000000000000030000000000000002000000000000000001\n\
            produce 3 => 02000000000000000100000000000000030000000000000002000000000000000001\n",
    },
    Script {
        shows: "the encodings that are served, below a finalization and above it",
        command: "viewstate resolver 1",
        lines: "\
            replayed => -\n\
            finalization 3 => finalized 3; raised 3\n\
            nullification 4 => settled nullification 4 4\n\
            nullification 1 => -\n\
            notarization 6 => settled notarization 6 6; fetch 5 6 missing_nullification\n\
            certified 6 true => settled notarization 6 6; raised 6\n\
            produce 1 => 02000000000000000100000000000000030000000000000002000000000000000001\n\
            produce 4 => 010000000000000001000000000000000401\n\
            produce 5 => 00000000000000000100000000000000060000000000000005000000000000000001\n\
            produce 6 => 00000000000000000100000000000000060000000000000005000000000000000001\n\
            produce 7 => none\n",
    },
    Script {
        shows: "a gap in terms of one view, until the largest view is passed",
        command: "viewstate resolver 1",
        lines: "\
            replayed => -\n\
            nullification 4 => settled nullification 4 4; fetch 1 4 missing_nullification; fetch 2 4 missing_nullification; fetch 3 4 missing_nullification\n\
            nullification 2 => settled nullification 2 2\n\
            outstanding => outstanding 1 3\n\
            nullification 9223372036854775808 => fault 3 ViewTooLarge\n",
    },
    Script {
        shows: "view 0, which no certificate has",
        command: "viewstate resolver 1",
        lines: "\
            notarization 0 => not-allowed\n\
            finalization 0 => not-allowed\n\
            certified 0 true => not-allowed\n\
            settled 0 nullification => true\n\
            produce 0 => none\n",
    },
    Script {
        shows: "a floor inside a term, at the end of a replay",
        command: "viewstate resolver 5",
        lines: "\
            notarization 3 => settled notarization 3 3\n\
            certified 3 true => settled notarization 3 3; raised 3\n\
            nullification 14 => settled nullification 14 15\n\
            replayed => fetch 4 14 missing_nullification; fetch 6 14 missing_nullification; fetch 11 14 missing_nullification\n",
    },
    Script {
        shows: "the nullification of the highest view that covers a view is served",
        command: "viewstate resolver 5",
        lines: "\
            replayed => -\n\
            nullification 2 => settled nullification 2 5; fetch 1 2 missing_nullification\n\
            nullification 4 => settled nullification 4 5\n\
            produce 1 => none\n\
            produce 3 => 010000000000000001000000000000000201\n\
            produce 5 => 010000000000000001000000000000000401\n",
    },
    Script {
        shows: "what is settled after a verdict that failed",
        command: "viewstate resolver 5",
        lines: "\
            replayed => -\n\
            notarization 3 => settled notarization 3 3; fetch 1 3 missing_nullification\n\
            settled 3 notarization => true\n\
            settled 3 nullification => false\n\
            certified 3 false => settled notarization 3 3; fetch 3 3 certification_failed\n\
            uncertifiable 3 => true\n\
            key-settled 3 => false\n\
            nullification 1 => settled nullification 1 5\n\
            key-settled 3 => true\n\
            key-settled 2 => false\n\
            outstanding => outstanding\n",
    },
    Script {
        shows: "a nullification that is refused is not kept",
        command: "viewstate resolver 5",
        lines: "\
            replayed => -\n\
            nullification 9223372036854775808 => fault 3 ViewTooLarge\n\
            outstanding => outstanding\n\
            produce 1 => none\n",
    },
    Script {
        shows: "a floor inside a term of five views, and what is served",
        command: "viewstate resolver 5",
        lines: "\
            replayed => -\n\
            notarization 3 => settled notarization 3 3; fetch 1 3 missing_nullification\n\
            certified 3 true => settled notarization 3 3; raised 3\n\
            outstanding => outstanding\n\
            nullification 9 => settled nullification 9 10; fetch 4 9 missing_nullification; fetch 6 9 missing_nullification\n\
            outstanding => outstanding 4 6\n\
            produce 10 => 010000000000000001000000000000000901\n\
            produce 4 => none\n\
            nullification 0 => not-allowed\n",
    },
    Script {
        shows: "a nullification is served until its term ends below the finalized view",
        command: "viewstate resolver 5",
        lines: "\
            replayed => -\n\
            finalization 3 => finalized 3; raised 3\n\
            nullification 2 => settled nullification 2 5\n\
            produce 5 => 010000000000000001000000000000000201\n\
            finalization 4 => finalized 4; raised 4\n\
            produce 5 => 010000000000000001000000000000000201\n\
            finalization 5 => finalized 5; raised 5\n\
            nullification 2 => -\n",
    },
    Script {
        shows: "no lines and no replies",
        command: "viewstate resolver 1",
        lines: "",
    },
];
