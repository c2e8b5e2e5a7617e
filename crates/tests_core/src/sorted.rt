ghost use Rattle.std.specs.Prelude.{◌≡◌};

use simplex_types::types::{TermLength, View};
use simplex_view_maps::by_term::ByTerm;
use simplex_view_maps::tracked::Tracked;
use std::alloc::Global;
use std::num::NonZeroU32;
use std::test::Fail;

fn view(number: u64) -> View
    ensures { result ≡ number }
{
    View::new(number)
}

/// Returns whether the value of view 7 stays when another one is inserted, which is returned.
fn keeps_what_stands(tracked: &mut Tracked<u64>) -> Result<bool, Fail> {
    Ok(tracked.insert(view(7), 2)? == Some(2) && tracked.get(view(7)) == Some(&1))
}

/// Returns whether the value of view 7 is changed in place.
fn changes_what_stands(tracked: &mut Tracked<u64>) -> bool {
    if let Some(value) = tracked.get_mut(view(7)) {
        *value = 3;
    }
    tracked.get(view(7)) == Some(&3) && tracked.get(view(8)).is_none()
}

#[test]
fn a_value_that_is_stored_stays(rt: HostRuntime) -> Result<(), Fail> {
    let mut tracked = Tracked::new(rt.alloc());
    assert!(rt; tracked.insert(view(7), 1)?.is_none());
    assert!(rt; keeps_what_stands(&mut tracked)? && changes_what_stands(&mut tracked));
    Ok(())
}

/// Returns a value for each of some views: the view's number.
fn tracked_of(alloc: Global, numbers: [u64; 3]) -> Result<Tracked<u64>, Fail> {
    let mut tracked = Tracked::new(alloc);
    for number in numbers {
        if tracked.insert(view(number), number)?.is_some() {
            return Err(Fail::from("a view that was put in stands already"));
        }
    }
    Ok(tracked)
}

/// Views, each with its place among 1, 20 and 21, or the place where it would be inserted.
static PLACES: [(u64, usize); 4] = [(1, 0), (10, 1), (20, 1), (30, 3)];

/// Returns whether a place is found, by two probes at most.
fn is_found(tracked: &Tracked<u64>, number: u64, place: usize) -> bool {
    let (found, probes) = tracked.find(view(number));
    found == place && probes <= 2
}

#[test]
fn a_place_is_found_by_few_probes(rt: HostRuntime) -> Result<(), Fail> {
    let tracked = tracked_of(rt.alloc(), [20, 1, 21])?;
    assert_eq!(rt; tracked.len(), 3);
    for (number, place) in &PLACES {
        assert!(rt; is_found(&tracked, *number, *place), "{number}");
    }
    Ok(())
}

/// Returns whether the nearest of views 5, 2 and 9 are found.
fn finds_the_nearest(tracked: &Tracked<u64>) -> bool {
    tracked.first_at(view(5)) == Some((view(5), &5))
        && tracked.first_at(view(10)).is_none()
        && tracked.last_below(view(5)) == Some((view(2), &2))
}

/// Returns whether the views of a part are taken from both of its ends.
fn gives_both_ends(tracked: &Tracked<u64>) -> bool {
    let mut between = tracked.between(view(2), view(9));
    between.pop_last() == Some((view(5), &5))
        && between.pop_first() == Some((view(2), &2))
        && between.pop_first().is_none()
        && between.pop_last().is_none()
}

/// Returns whether the views below one are listed.
fn lists_the_views_below(alloc: Global, tracked: &Tracked<u64>) -> Result<bool, Fail> {
    let below = tracked.views_below(alloc, view(6))?;
    Ok(below.as_slice() == [view(2), view(5)].as_slice())
}

/// Returns whether views are dropped and removed.
fn drops_and_removes(tracked: &mut Tracked<u64>) -> bool {
    tracked.drop_below(view(5));
    let kept = tracked.len() == 2
        && tracked.below(view(6)).pop_first() == Some((view(5), &5))
        && tracked.from_to(view(6), view(9)).pop_last() == Some((view(9), &9));
    tracked.remove(view(9));
    tracked.remove(view(8));
    kept && tracked.len() == 1
}

#[test]
fn views_are_found_listed_dropped_and_removed(rt: HostRuntime) -> Result<(), Fail> {
    let mut tracked = tracked_of(rt.alloc(), [5, 2, 9])?;
    assert!(rt; finds_the_nearest(&tracked) && gives_both_ends(&tracked));
    assert!(rt; lists_the_views_below(rt.alloc(), &tracked)?);
    assert!(rt; drops_and_removes(&mut tracked));
    Ok(())
}

/// Returns values for views 2, 4 and 8, in terms of five views: each is its view's number.
fn kept_by_term(alloc: Global) -> Result<ByTerm<u64>, Fail> {
    let five = TermLength::new(NonZeroU32::MIN.saturating_add(4));
    let mut kept = ByTerm::new(alloc, five);
    for number in [2, 4, 8] {
        if kept.insert(view(number), number)?.is_some() {
            return Err(Fail::from("a view that was put in stands already"));
        }
    }
    Ok(kept)
}

/// Returns whether the nearest value of a term covers, and an existing value stays.
fn covers_by_the_nearest(kept: &mut ByTerm<u64>) -> Result<bool, Fail> {
    Ok(
        kept.insert(view(4), 0)? == Some(0)
            && kept.covering(view(1)).is_none()
            && kept.covering(view(5)) == Some((view(4), &4))
            && kept.covering(view(6)).is_none()
            && kept.covering_below(view(4)) == Some((view(2), &2)),
    )
}

/// Returns whether the views below one are dropped from a term.
fn drops_views_below(kept: &mut ByTerm<u64>) -> bool {
    kept.drop_ended(view(4));
    let stands = kept.get(view(2)) == Some(&2);
    kept.drop_below(view(4));
    stands && kept.get(view(2)).is_none() && kept.get(view(4)) == Some(&4)
}

/// Returns whether a term that ends is dropped.
fn drops_ended_terms(kept: &mut ByTerm<u64>) -> bool {
    kept.drop_ended(view(5));
    kept.get(view(4)).is_none() && kept.covering(view(10)) == Some((view(8), &8))
}

#[test]
fn the_nearest_value_of_a_term_covers_until_it_is_dropped(rt: HostRuntime) -> Result<(), Fail> {
    let mut kept = kept_by_term(rt.alloc())?;
    assert!(rt; covers_by_the_nearest(&mut kept)?);
    assert!(rt; drops_views_below(&mut kept) && drops_ended_terms(&mut kept));
    Ok(())
}
