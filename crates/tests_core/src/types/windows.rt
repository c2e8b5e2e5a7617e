//! Windows and ranges of views.

use simplex_types::types::{Lookahead, TermLength, View, ViewDelta, Viewport};
use std::num::NonZeroU32;

fn five() -> TermLength {
    match NonZeroU32::new(5) {
        Some(five) => TermLength::new(five),
        None => unreachable!(),
    }
}

fn two_ahead() -> Lookahead {
    Lookahead {
        term_length: five(),
        optimistic_views: 2,
    }
}

#[test]
fn what_may_be_issued_ahead(rt: HostRuntime) {
    let lookahead = two_ahead();
    assert!(rt;
        lookahead.issuance_floor(View::new(6)).is_none()
            && lookahead.issuance_floor(View::new(7)) == Some(View::new(5))
            && lookahead.issuance_floor(View::new(10)) == Some(View::new(7))
    );
    assert!(rt;
        lookahead.admits_outbound(View::new(4), View::new(6))
            && !lookahead.admits_outbound(View::new(3), View::new(6))
    );
}

#[test]
fn what_is_admitted(rt: HostRuntime) {
    let viewport = Viewport {
        finalized: View::new(20),
        current: View::new(21),
        view_retention: ViewDelta::new(10),
        lookahead: two_ahead(),
    };
    assert!(rt;
        viewport.floor() == View::new(10)
            && viewport.admits_certificate(View::new(10))
            && !viewport.admits_certificate(View::new(9))
            && viewport.admits_vote(View::new(26))
            && !viewport.admits_vote(View::new(27))
    );
}

#[test]
fn what_is_covered(rt: HostRuntime) {
    let covering = View::new(8).covering_range(five());
    let alone = View::new(8).covering_range(TermLength::ONE);
    assert!(rt;
        *covering.start() == View::new(6)
            && *covering.end() == View::new(8)
            && *alone.start() == View::new(8)
    );
}
