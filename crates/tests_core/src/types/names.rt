//! Names of reasons and faults, and the order of requests.

use simplex_types::config::ConfigError;
use simplex_types::reasons::{
    Ask, FetchReason, HandoffAbandonedReason, Kind, TimeoutReason, Until,
};
use simplex_types::types::Fault;
use std::test::Fail;

#[test]
fn names_are_as_the_enums_say(rt: HostRuntime) {
    assert!(rt;
        TimeoutReason::CertificationTimeout.as_str() == "CertificationTimeout"
            && HandoffAbandonedReason::ParentNullify.as_str() == "ParentNullify"
            && FetchReason::MissingNullification.as_str() == "missing_nullification"
            && Kind::Notarization.as_str() == "notarization"
    );
}

#[test]
fn asks_are_ordered(rt: HostRuntime) {
    assert!(rt;
        Ask::backfill() < Ask::ancestry(Kind::Nullification)
            && Ask::ancestry(Kind::Nullification) < Ask::ancestry(Kind::Notarization)
            && Ask::backfill().until == Until::Floor
    );
}

#[test]
fn faults_are_written_by_name(rt: HostRuntime) -> Result<(), Fail> {
    let faults = format!(in rt.alloc(); "{} {}", Fault::TimeOverflow, ConfigError::FloorEpoch)?;
    assert!(rt; faults.as_str() == "TimeOverflow FloorEpoch");
    Ok(())
}
