//! Tests of zero-crossing detectors.

use qss_cross::Detector;
use qss_machine::Rel;
use std::prelude::HostRuntime;

#[test]
fn a_detector_finds_its_first_change(rt: HostRuntime) {
    let mut detector = Detector {
        rel: Rel::Less,
        tick: 2,
        value: 6,
        speed: -3,
    };
    assert!(&rt; !detector.truth());
    assert!(&rt; detector.next_change() == Some(5));
    detector.move_to(5);
    assert!(&rt; detector.truth());
    detector.set(0, 0);
    assert!(&rt; detector.next_change().is_none());
}
