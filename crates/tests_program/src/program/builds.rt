//! Proposals of this member: what it builds on, and when a handoff is abandoned.
//!
//! Written by `tests/lib/tables.py` from `tests/scripts/builds.md`.

use super::script::Script;

pub static BUILDS: [Script; 5] = [
    Script {
        shows: "a handoff is abandoned once its parent is voted to be nullified, and built anew on the parent below",
        command: "viewstate voter 4 1 1 0",
        lines: "\
            proposal 1 0 7 => true\n\
            verify => ready 1 0 0 0 7\n\
            verify => wait\n\
            verified 1 => true\n\
            notarize 1 => notarize 1 0 7\n\
            notarize 1 => none\n\
            propose => prepare 2 1 1 7\n\
            nullify 1 => nullify 1 false\n\
            abandon 2 => ParentNullify\n\
            nullification 1 10 => added true\n\
            view => view 2 0 0\n\
            abandon 2 => AncestryInvalidated\n\
            supersede 2 => true\n\
            propose => propose 2 1 0 0\n",
    },
    Script {
        shows: "a handoff is built and voted for before its parent is certified",
        command: "viewstate voter 4 1 1 0",
        lines: "\
            proposal 1 0 7 => true\n\
            verify => ready 1 0 0 0 7\n\
            verify => wait\n\
            verified 1 => true\n\
            notarize 1 => notarize 1 0 7\n\
            notarize 1 => none\n\
            propose => prepare 2 1 1 7\n\
            proposed 2 8 3 => true\n\
            notarize 2 => notarize 2 1 8\n\
            view => view 1 0 0\n",
    },
    Script {
        shows: "what was verified, asked for or built is answered once",
        command: "viewstate voter 4 1 1 0",
        lines: "\
            proposal 1 0 7 => true\n\
            verify => ready 1 0 0 0 7\n\
            verify => wait\n\
            verified 1 => true\n\
            verified 1 => not-allowed\n\
            notarize 1 => notarize 1 0 7\n\
            notarize 1 => none\n\
            nullification 1 10 => added true\n\
            propose => propose 2 1 0 0\n\
            propose => none\n\
            proposed 2 8 12 => true\n\
            notarize 2 => notarize 2 0 8\n\
            proposed 2 9 13 => not-allowed\n",
    },
    Script {
        shows: "no handoff is prepared on a term that has a nullification",
        command: "viewstate voter 4 1 2 1",
        lines: "\
            proposal 1 0 7 => true\n\
            verify => ready 1 0 0 0 7\n\
            verified 1 => true\n\
            notarize 1 => notarize 1 0 7\n\
            proposal 2 1 9 => true\n\
            verify => ready 2 0 1 7 9\n\
            verified 2 => true\n\
            notarize 2 => notarize 2 1 9\n\
            nullification 2 10 => added true\n\
            view => view 3 0 0\n\
            propose => none\n\
            nullification 1 11 => added true\n\
            propose => propose 3 1 0 0\n",
    },
    Script {
        shows: "a proposal can be built in the first view that is too large, and no restart takes the vote for it",
        command: "viewstate voter 4 3 1 0",
        lines: "\
            finalization 9223372036854775807 5 9 10 => added true -\n\
            propose => propose 9223372036854775808 3 9223372036854775807 9\n\
            proposed 9223372036854775808 1 11 => true\n\
            notarize 9223372036854775808 => notarize 9223372036854775808 9223372036854775807 1\n\
            restart 0 20 => refused 4 ViewTooLarge\n\
            view => fault 2 Failed\n",
    },
];
