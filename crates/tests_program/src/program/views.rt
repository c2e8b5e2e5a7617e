//! Whole views: proposals, votes, certificates and verdicts.
//!
//! Written by `tests/lib/tables.py` from `tests/scripts/views.md`.

use super::script::Script;

pub static VIEWS: [Script; 19] = [
    Script {
        shows: "a view from its proposal to a vote to finalize, and a restart",
        command: "viewstate voter 4 1 1 0",
        lines: "\
            proposal 1 0 7 => true\n\
            verify => ready 1 0 0 0 7\n\
            verified 1 => true\n\
            notarize 1 => notarize 1 0 7\n\
            propose => prepare 2 1 1 7\n\
            notarization 1 0 7 => added true -\n\
            candidates => candidates 1 fetch\n\
            verdict 1 true 10 => certified 1\n\
            finalize 1 => finalize 1 0 7\n\
            nullify 1 => none\n\
            restart 0 20 => ok\n\
            finalize 1 => none\n\
            view => view 2 0 0\n",
    },
    Script {
        shows: "a member that voted to nullify does not vote to finalize, before and after a restart",
        command: "viewstate voter 4 0 1 0",
        lines: "\
            nullify 1 => nullify 1 false\n\
            nullify 1 => nullify 1 true\n\
            notarization 1 0 7 => added true -\n\
            verdict 1 true 10 => certified 1\n\
            finalize 1 => none\n\
            restart 0 20 => ok\n\
            finalize 1 => none\n\
            nullify 1 => none\n",
    },
    Script {
        shows: "a vote to nullify bars the vote to finalize its view, and the verdict enters the next one all the same",
        command: "viewstate voter 4 0 1 0",
        lines: "\
            nullify 1 => nullify 1 false\n\
            nullify 1 => nullify 1 true\n\
            notarization 1 0 7 => added true -\n\
            verdict 1 true 10 => certified 1\n\
            view => view 2 0 0\n\
            finalize 1 => none\n\
            restart 0 20 => ok\n\
            finalize 1 => none\n\
            nullify 1 => none\n",
    },
    Script {
        shows: "a vote to nullify bars votes to finalize in its term, until its view is finalized",
        command: "viewstate voter 4 0 5 0",
        lines: "\
            nullify 1 => nullify 1 false\n\
            notarization 1 0 7 => added true -\n\
            notarization 2 1 9 => added true -\n\
            verdict 1 true 10 => certified 1\n\
            verdict 2 true 11 => certified 2\n\
            finalize 2 => none\n\
            finalization 1 0 7 12 => added true -\n\
            finalize 2 => finalize 2 1 9\n",
    },
    Script {
        shows: "what lies below the retention is dropped, and its certificates are not taken",
        command: "viewstate voter 4 0 1 0",
        lines: "\
            finalization 20 19 0 5 => added true -\n\
            view => view 21 20 10\n\
            prune => pruned 1\n\
            nullification 9 6 => not-allowed\n\
            nullification 10 7 => added true\n",
    },
    Script {
        shows: "the best certificate is the one that the current view was entered by",
        command: "viewstate voter 4 0 5 0",
        lines: "\
            best => none\n\
            nullification 3 5 => added true\n\
            view => view 6 0 0\n\
            best => nullification 3\n",
    },
    Script {
        shows: "the votes of a term of five views: its gate, its nullification, and what a finalization makes of both",
        command: "viewstate voter 4 0 5 0",
        lines: "\
            nullification 3 10 => added true\n\
            best => nullification 3\n\
            finalization 2 1 9 12 => added true -\n\
            view => view 6 2 0\n\
            nullify 6 => nullify 6 false\n\
            notarization 6 2 4 => added true -\n\
            verdict 6 true 13 => certified 6\n\
            finalize 6 => none\n\
            notarization 7 6 5 => added true -\n\
            verdict 7 true 14 => certified 7\n\
            finalize 7 => none\n\
            finalization 6 2 4 15 => added true -\n\
            finalize 7 => finalize 7 6 5\n\
            broadcast finalization 6 => finalization 6\n\
            broadcast finalization 6 => none\n\
            broadcast notarization 6 => notarization 6\n\
            broadcast nullification 3 => nullification 3\n\
            restart 0 20 => ok\n\
            view => view 8 6 0\n\
            nullify 6 => none\n",
    },
    Script {
        shows: "a leader that equivocates is named",
        command: "viewstate voter 4 1 1 0",
        lines: "\
            notarization 1 0 7 => added true -\n\
            finalization 1 0 8 10 => added true 0\n",
    },
    Script {
        shows: "a verdict of an untracked view, one without a notarization, and a certificate of genesis",
        command: "viewstate voter 4 0 1 0",
        lines: "\
            verdict 9 true 1 => none\n\
            verdict 1 true 1 => not-allowed\n\
            notarization 0 0 7 => not-allowed\n",
    },
    Script {
        shows: "a verdict whose deadline passes 64 bits changes nothing",
        command: "viewstate voter 4 0 1 0",
        lines: "\
            notarization 1 0 7 => added true -\n\
            verdict 1 true 18446744073709551615 => fault 4 TimeOverflow\n\
            view => view 1 0 0\n",
    },
    Script {
        shows: "a verdict can be repeated, and not contradicted",
        command: "viewstate voter 4 0 1 0",
        lines: "\
            notarization 1 0 7 => added true -\n\
            verdict 1 true 10 => certified 1\n\
            verdict 1 true 11 => certified 1\n\
            verdict 1 false 12 => not-allowed\n",
    },
    Script {
        shows: "pruning keeps the votes to nullify above the last finalized view",
        command: "viewstate voter 4 1 5 0",
        lines: "\
            nullification 2 10 => added true\n\
            proposal 6 0 7 => true\n\
            verify => wait\n\
            notarization 6 0 7 => added true -\n\
            nullify 6 => nullify 6 false\n\
            verdict 6 true 11 => certified 6\n\
            prune => pruned\n\
            notarization 7 6 8 => added true -\n\
            verdict 7 true 12 => certified 7\n\
            finalize 7 => none\n",
    },
    Script {
        shows: "a view whose leader is known is tracked",
        command: "viewstate voter 4 0 5 2",
        lines: "\
            notarization 1 0 7 => added true -\n\
            verdict 2 true 1 => not-allowed\n\
            verdict 4 true 1 => not-allowed\n\
            verdict 5 true 1 => none\n\
            finalization 30 29 7 2 => added true -\n\
            prune => pruned 1 2 3 4\n",
    },
    Script {
        shows: "view 0 in each line",
        command: "viewstate voter 4 0 1 0",
        lines: "\
            nullification 0 1 => not-allowed\n\
            finalization 0 0 7 1 => not-allowed\n\
            proposal 0 0 7 => not-allowed\n\
            proposed 0 1 1 => not-allowed\n\
            supersede 0 => not-allowed\n\
            abandon 0 => not-allowed\n\
            release 0 => ok\n\
            verified 0 => not-allowed\n\
            rejected 0 1 => not-allowed\n\
            token 0 1 => not-allowed\n\
            verdict 0 true 1 => none\n\
            notarize 0 => none\n\
            nullify 0 => none\n\
            finalize 0 => none\n\
            broadcast finalization 0 => none\n\
            trigger 0 Retry 1 => ok\n\
            view => view 1 0 0\n",
    },
    Script {
        shows: "answers to what was not asked",
        command: "viewstate voter 4 0 1 0",
        lines: "\
            verified 1 => not-allowed\n\
            verdict 1 true 0 => not-allowed\n",
    },
    Script {
        shows: "certificates of genesis are not allowed",
        command: "viewstate voter 4 0 1 0",
        lines: "\
            nullification 0 1 => not-allowed\n\
            finalization 0 0 7 1 => not-allowed\n",
    },
    Script {
        shows: "a verdict that is refused is not recorded, and one that is repeated is recorded once",
        command: "viewstate voter 4 0 1 0",
        lines: "\
            notarization 1 0 7 => added true -\n\
            verdict 1 true 18446744073709551615 => fault 4 TimeOverflow\n\
            view => view 1 0 0\n\
            verdict 1 true 10 => certified 1\n\
            verdict 1 true 11 => certified 1\n\
            verdict 1 false 12 => not-allowed\n\
            view => view 2 0 0\n\
            record => record 2\n",
    },
    Script {
        shows: "a vote to finalize comes once, and bars the vote to nullify; a certificate is returned once",
        command: "viewstate voter 4 0 1 0",
        lines: "\
            notarization 1 5 7 => added true -\n\
            verdict 1 true 10 => certified 1\n\
            finalize 1 => finalize 1 5 7\n\
            finalize 1 => none\n\
            nullify 1 => none\n\
            best => notarization 1\n\
            broadcast notarization 1 => notarization 1\n\
            broadcast notarization 1 => none\n",
    },
    Script {
        shows: "without a key a vote is decided and not answered",
        command: "viewstate voter 4 - 1 0",
        lines: "\
            nullify 1 => none\n\
            notarization 1 0 7 => added true -\n\
            verdict 1 true 10 => certified 1\n\
            finalize 1 => none\n\
            record => record 2\n",
    },
];
