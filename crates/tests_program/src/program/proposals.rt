//! Proposals of other leaders: what is verified, and what it waits for.
//!
//! Written by `tests/lib/tables.py` from `tests/scripts/proposals.md`.

use super::script::Script;

pub static PROPOSALS: [Script; 19] = [
    Script {
        shows: "the proposals of a window are verified one after another, each on the one before",
        command: "viewstate voter 4 1 5 4",
        lines: "\
            proposal 1 0 7 => true\n\
            proposal 2 1 9 => true\n\
            verify => ready 1 0 0 0 7\n\
            verify => wait\n\
            verified 1 => true\n\
            notarize 1 => notarize 1 0 7\n\
            verify => ready 2 0 1 7 9\n\
            verified 2 => true\n\
            notarize 2 => notarize 2 1 9\n",
    },
    Script {
        shows: "a proposal waits for each nullification between its parent and itself",
        command: "viewstate voter 4 0 1 0",
        lines: "\
            nullification 2 10 => added true\n\
            proposal 3 0 7 => true\n\
            verify => resolve 3 1 nullification 2\n\
            verify => wait\n\
            nullification 1 11 => added true\n\
            verify => ready 3 2 0 0 7\n",
    },
    Script {
        shows: "a proposal waits for its parent's notarization and verdict",
        command: "viewstate voter 4 0 1 0",
        lines: "\
            notarization 1 0 7 => added true -\n\
            nullification 2 10 => added true\n\
            proposal 3 1 8 => true\n\
            verify => resolve 3 1 notarization 2\n\
            verdict 1 true 11 => certified 1\n\
            verify => ready 3 2 1 7 8\n",
    },
    Script {
        shows: "an own proposal in a view that was finalized past is voted for, as long as the view is tracked",
        command: "viewstate voter 4 0 1 0",
        lines: "\
            propose => propose 1 0 0 0\n\
            proposed 1 7 5 => true\n\
            finalization 20 19 9 10 => added true -\n\
            notarize 1 => notarize 1 0 7\n",
    },
    Script {
        shows: "a view that was pruned is not voted for",
        command: "viewstate voter 4 0 1 0",
        lines: "\
            propose => propose 1 0 0 0\n\
            proposed 1 7 5 => true\n\
            finalization 20 19 9 10 => added true -\n\
            prune => pruned 1\n\
            notarize 1 => none\n",
    },
    Script {
        shows: "a proposal that was verified is not voted for once its view is pruned",
        command: "viewstate voter 4 1 1 0",
        lines: "\
            proposal 1 0 7 => true\n\
            verify => ready 1 0 0 0 7\n\
            verified 1 => true\n\
            finalization 20 19 9 10 => added true -\n\
            prune => pruned 1\n\
            notarize 1 => none\n",
    },
    Script {
        shows: "a chain in a window of one view continues by votes, and then by certificates",
        command: "viewstate voter 4 1 5 1",
        lines: "\
            proposal 1 0 7 => true\n\
            proposal 2 1 9 => true\n\
            verify => ready 1 0 0 0 7\n\
            verify => wait\n\
            verified 1 => true\n\
            notarize 1 => notarize 1 0 7\n\
            verify => ready 2 0 1 7 9\n\
            verified 2 => true\n\
            notarize 2 => notarize 2 1 9\n\
            proposal 3 2 4 => true\n\
            notarization 1 0 7 => added true -\n\
            verify => wait\n\
            verdict 1 true 10 => certified 1\n\
            verify => ready 3 0 2 9 4\n",
    },
    Script {
        shows: "a notarization of another proposal breaks the chain that was verified on it",
        command: "viewstate voter 4 1 5 1",
        lines: "\
            proposal 1 0 7 => true\n\
            proposal 2 1 9 => true\n\
            verify => ready 1 0 0 0 7\n\
            verify => wait\n\
            verified 1 => true\n\
            notarize 1 => notarize 1 0 7\n\
            verify => ready 2 0 1 7 9\n\
            verified 2 => true\n\
            notarization 1 0 8 => added true 0\n\
            notarize 2 => none\n",
    },
    Script {
        shows: "a proposal whose parent is not below it times its view out, at the moment that was told last",
        command: "viewstate voter 4 1 1 0",
        lines: "\
            trigger 2 MissingProposal 40 => ok\n\
            proposal 1 1 7 => true\n\
            verify => wait\n\
            timeout 50 => timeout 40 InvalidProposal\n",
    },
    Script {
        shows: "a leader that equivocates is not voted for, and its other proposal is certified and built on",
        command: "viewstate voter 4 1 1 0",
        lines: "\
            proposal 1 0 7 => true\n\
            proposal 1 0 8 => false\n\
            verify => ready 1 0 0 0 7\n\
            verified 1 => false\n\
            notarize 1 => none\n\
            notarization 1 0 8 => added true 0\n\
            candidates => candidates 1 fetch\n\
            verdict 1 true 10 => certified 1\n\
            finalize 1 => none\n\
            propose => propose 2 1 1 8\n\
            restart 0 20 => ok\n\
            finalize 1 => finalize 1 0 8\n\
            restart 0 30 => ok\n\
            finalize 1 => none\n",
    },
    Script {
        shows: "a restart forgets that a proposal was being verified",
        command: "viewstate voter 4 1 1 0",
        lines: "\
            proposal 1 0 7 => true\n\
            verify => ready 1 0 0 0 7\n\
            restart 0 5 => ok\n\
            verified 1 => not-allowed\n\
            verify => wait\n",
    },
    Script {
        shows: "a nullification far ahead, and a proposal over the gap: one nullification is asked for",
        command: "viewstate voter 4 1 1 0",
        lines: "\
            nullification 1000000 10 => added true\n\
            proposal 1000001 0 7 => true\n\
            verify => resolve 1000001 1 nullification 0\n",
    },
    Script {
        shows: "a vote to notarize binds the next life: its proposal is neither taken nor verified nor voted for again",
        command: "viewstate voter 4 1 1 0",
        lines: "\
            proposal 1 0 7 => true\n\
            verify => ready 1 0 0 0 7\n\
            verified 1 => true\n\
            notarize 1 => notarize 1 0 7\n\
            restart 9 5 => ok\n\
            proposal 1 0 7 => false\n\
            verify => wait\n\
            notarize 1 => none\n\
            propose => prepare 2 1 1 7\n",
    },
    Script {
        shows: "a nullification covers no view of its term below its own",
        command: "viewstate voter 4 0 5 0",
        lines: "\
            nullification 3 10 => added true\n\
            proposal 6 0 7 => true\n\
            verify => resolve 6 1 nullification 1\n\
            nullification 1 11 => added true\n\
            verify => ready 6 1 0 0 7\n",
    },
    Script {
        shows: "a certificate that was asked for already does not end the search",
        command: "viewstate voter 4 0 1 0",
        lines: "\
            nullification 2 10 => added true\n\
            proposal 3 0 7 => true\n\
            notarization 3 0 7 => added true -\n\
            proposal 4 3 8 => true\n\
            verify => resolve 3 1 nullification 2\n\
            verify => resolve 4 3 notarization 3\n\
            verify => wait\n",
    },
    Script {
        shows: "a proposal that is not kept still names the leader of the next view of its term",
        command: "viewstate voter 4 1 5 1",
        lines: "\
            nullify 1 => nullify 1 false\n\
            proposal 1 0 7 => false\n\
            proposal 2 1 9 => true\n\
            notarization 2 1 8 => added true 0\n",
    },
    Script {
        shows: "the moment of a call that was refused does not count",
        command: "viewstate voter 4 1 1 0",
        lines: "\
            finalization 1 0 7 18446744073709551615 => fault 4 TimeOverflow\n\
            proposal 1 1 7 => true\n\
            verify => wait\n\
            timeout 50 => timeout 0 InvalidProposal\n",
    },
    Script {
        shows: "the moment of a verdict of an untracked view counts",
        command: "viewstate voter 4 1 1 0",
        lines: "\
            verdict 9 true 70 => none\n\
            proposal 1 1 7 => true\n\
            verify => wait\n\
            timeout 50 => timeout 70 InvalidProposal\n",
    },
    Script {
        shows: "the moment of a call that is not allowed does not count",
        command: "viewstate voter 4 1 1 0",
        lines: "\
            verdict 1 true 99 => not-allowed\n\
            proposal 1 1 7 => true\n\
            verify => wait\n\
            timeout 50 => timeout 0 InvalidProposal\n",
    },
];
