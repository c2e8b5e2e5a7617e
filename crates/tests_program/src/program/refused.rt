//! Lines that are no call.
//!
//! Written by `tests/lib/tables.py` from `tests/scripts/refused.md`.

use super::script::Script;

pub static REFUSED: [Script; 21] = [
    Script {
        shows: "a misspelt word ends the program, and the reply before it stands",
        command: "viewstate voter 4 0 1 0",
        lines: "\
            view => view 1 0 0\n\
            veiw\n",
    },
    Script {
        shows: "a number of more than 64 bits",
        command: "viewstate voter 4 0 1 0",
        lines: "nullify 18446744073709551616\n",
    },
    Script {
        shows: "a carriage return",
        command: "viewstate voter 4 0 1 0",
        lines: "view\r\n",
    },
    Script {
        shows: "an empty line",
        command: "viewstate voter 4 0 1 0",
        lines: "\n",
    },
    Script {
        shows: "an empty line after another one",
        command: "viewstate voter 4 0 1 0",
        lines: "\
            view => view 1 0 0\n\
            \n",
    },
    Script {
        shows: "a number too many",
        command: "viewstate voter 4 0 1 0",
        lines: "nullify 1 2\n",
    },
    Script {
        shows: "a number too few",
        command: "viewstate voter 4 0 1 0",
        lines: "nullify\n",
    },
    Script {
        shows: "a kind of certificate that there is not",
        command: "viewstate voter 4 0 1 0",
        lines: "broadcast notarize 1\n",
    },
    Script {
        shows: "a reason that there is not",
        command: "viewstate voter 4 0 1 0",
        lines: "trigger 1 Timeout 5\n",
    },
    Script {
        shows: "a verdict that is neither true nor false",
        command: "viewstate voter 4 0 1 0",
        lines: "verdict 1 yes 1\n",
    },
    Script {
        shows: "a space in front",
        command: "viewstate voter 4 0 1 0",
        lines: " view\n",
    },
    Script {
        shows: "a space at the end",
        command: "viewstate voter 4 0 1 0",
        lines: "view \n",
    },
    Script {
        shows: "two spaces",
        command: "viewstate voter 4 0 1 0",
        lines: "verdict  9 true 1\n",
    },
    Script {
        shows: "a tab",
        command: "viewstate voter 4 0 1 0",
        lines: "nullify\t1\n",
    },
    Script {
        shows: "a zero byte",
        command: "viewstate voter 4 0 1 0",
        lines: "view\0\n",
    },
    Script {
        shows: "a leading zero",
        command: "viewstate voter 4 0 1 0",
        lines: "nullify 01\n",
    },
    Script {
        shows: "a minus sign",
        command: "viewstate voter 4 0 1 0",
        lines: "nullify -1\n",
    },
    Script {
        shows: "a plus sign",
        command: "viewstate voter 4 0 1 0",
        lines: "nullify +1\n",
    },
    Script {
        shows: "capitals",
        command: "viewstate voter 4 0 1 0",
        lines: "VIEW\n",
    },
    Script {
        shows: "a kind that no nullification or notarization is settled by",
        command: "viewstate resolver 1",
        lines: "settled 1 finalization\n",
    },
    Script {
        shows: "a view of more than 64 bits",
        command: "viewstate resolver 1",
        lines: "notarization 18446744073709551616\n",
    },
];
