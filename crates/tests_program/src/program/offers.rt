//! Offers to certify, their tokens and verdicts.
//!
//! Written by `tests/lib/tables.py` from `tests/scripts/offers.md`.

use super::script::Script;

pub static OFFERS: [Script; 3] = [
    Script {
        shows: "offers, the notarization that one waits for, tokens and verdicts",
        command: "viewstate voter 4 0 5 0",
        lines: "\
            notarization 2 1 9 => added true -\n\
            candidates => candidates fetch 2:1\n\
            candidates => candidates fetch\n\
            notarization 1 0 7 => added true -\n\
            candidates => candidates 1 fetch\n\
            token 1 5 => ok\n\
            token 9 1 => not-allowed\n\
            verdict 1 true 10 => certified 1\n\
            candidates => candidates 2 fetch\n\
            token 2 6 => ok\n\
            finalization 2 1 9 12 => added true -\n\
            verdict 2 true 13 => certified 2\n\
            token 2 7 => not-allowed\n\
            view => view 3 2 0\n",
    },
    Script {
        shows: "the offer of a view that was pruned stands until its verdict",
        command: "viewstate voter 4 0 1 0",
        lines: "\
            notarization 1 0 7 => added true -\n\
            candidates => candidates 1 fetch\n\
            finalization 20 19 9 10 => added true -\n\
            prune => pruned 1 2\n\
            token 1 5 => ok\n\
            verdict 1 true 11 => none\n\
            token 1 5 => not-allowed\n",
    },
    Script {
        shows: "each true verdict offers the next proposal again, until a token is set",
        command: "viewstate voter 4 0 5 0",
        lines: "\
            notarization 1 0 7 => added true -\n\
            notarization 2 1 9 => added true -\n\
            verdict 1 true 10 => certified 1\n\
            candidates => candidates 2 fetch\n\
            verdict 1 true 11 => certified 1\n\
            candidates => candidates 2 fetch\n\
            token 2 5 => ok\n\
            verdict 1 true 12 => certified 1\n\
            candidates => candidates fetch\n",
    },
];
