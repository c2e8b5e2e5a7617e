//! Restarts, what they drop and prune, and why they are refused.
//!
//! Written by `tests/lib/tables.py` from `tests/scripts/lives.md`.

use super::script::Script;

pub static LIVES: [Script; 9] = [
    Script {
        shows: "a restart that drops entries takes no vote",
        command: "viewstate voter 4 0 1 0",
        lines: "\
            nullify 1 => nullify 1 false\n\
            nullify 1 => nullify 1 true\n\
            notarization 1 0 7 => added true -\n\
            verdict 1 true 10 => certified 1\n\
            restart 5 20 => ok\n\
            view => view 1 0 0\n\
            nullify 1 => nullify 1 true\n",
    },
    Script {
        shows: "a pruned record is closed to a later drop, and grows again",
        command: "viewstate voter 4 0 1 0",
        lines: "\
            nullify 1 => nullify 1 false\n\
            finalization 20 19 9 10 => added true -\n\
            record => record 2\n\
            restart-pruned 0 20 => ok\n\
            record => record 1\n\
            view => view 21 20 10\n\
            nullify 1 => none\n\
            restart-pruned 9 30 => ok\n\
            view => view 21 20 10\n\
            nullification 9 31 => not-allowed\n\
            nullification 10 32 => added true\n\
            record => record 2\n\
            restart 1 40 => ok\n\
            record => record 1\n",
    },
    Script {
        shows: "a record is refused whose vote is for a proposal at or below its parent",
        command: "viewstate voter 4 0 1 0",
        lines: "\
            notarization 1 5 7 => added true -\n\
            verdict 1 true 10 => certified 1\n\
            finalize 1 => finalize 1 5 7\n\
            restart 5 20 => refused 6 ParentNotBelow\n\
            finalize 1 => fault 2 Failed\n",
    },
    Script {
        shows: "a restart that comes too late is refused, what it dropped stays dropped, and the next one succeeds",
        command: "viewstate voter 4 0 1 0",
        lines: "\
            nullify 1 => nullify 1 false\n\
            notarization 1 0 7 => added true -\n\
            restart 1 18446744073709551615 => refused 12 TimeOverflow\n\
            record => record 1\n\
            view => fault 2 Failed\n\
            restart 0 5 => ok\n\
            nullify 1 => nullify 1 true\n\
            notarization 1 0 7 => added true -\n",
    },
    Script {
        shows: "the largest view, and the first one that is too large",
        command: "viewstate voter 4 0 1 0",
        lines: "\
            finalization 9223372036854775807 5 9 10 => added true -\n\
            view => view 9223372036854775808 9223372036854775807 9223372036854775797\n\
            notarization 9223372036854775808 1 1 => fault 3 ViewTooLarge\n\
            prune => pruned 1\n\
            nullify 9223372036854775808 => nullify 9223372036854775808 false\n\
            restart 0 20 => refused 4 ViewTooLarge\n\
            view => fault 2 Failed\n",
    },
    Script {
        shows: "a nullification of a view that is too large is refused and not recorded",
        command: "viewstate voter 4 0 1 0",
        lines: "\
            nullification 9223372036854775808 10 => fault 3 ViewTooLarge\n\
            view => view 1 0 0\n\
            record => record 0\n",
    },
    Script {
        shows: "a member that was refused a restart still tells its record",
        command: "viewstate voter 4 0 1 0",
        lines: "\
            notarization 1 5 7 => added true -\n\
            verdict 1 true 10 => certified 1\n\
            finalize 1 => finalize 1 5 7\n\
            restart 5 20 => refused 6 ParentNotBelow\n\
            finalize 1 => fault 2 Failed\n\
            record => record 3\n",
    },
    Script {
        shows: "a proposal of a view that is too large is refused",
        command: "viewstate voter 4 0 1 0",
        lines: "\
            proposal 9223372036854775808 1 1 => fault 3 ViewTooLarge\n\
            view => view 1 0 0\n",
    },
    Script {
        shows: "a member builds, votes and verifies in two views, and a new life is bound by its votes",
        command: "viewstate voter 4 0 1 0",
        lines: "\
            propose => propose 1 0 0 0\n\
            proposed 1 7 5 => true\n\
            notarize 1 => notarize 1 0 7\n\
            notarization 1 0 7 => added true -\n\
            candidates => candidates 1 fetch\n\
            token 1 100 => ok\n\
            verdict 1 true 10 => certified 1\n\
            finalize 1 => finalize 1 0 7\n\
            proposal 2 1 8 => true\n\
            verify => ready 2 1 1 7 8\n\
            verified 2 => true\n\
            notarize 2 => notarize 2 1 8\n\
            nullify 2 => nullify 2 false\n\
            notarization 2 1 8 => added true -\n\
            verdict 2 true 20 => certified 2\n\
            finalize 2 => none\n\
            record => record 8\n\
            restart 0 30 => ok\n\
            view => view 3 0 0\n\
            notarize 1 => none\n\
            nullify 1 => none\n\
            finalize 2 => none\n",
    },
];
