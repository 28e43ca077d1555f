//! Claims with a growing number of states. Set 1 counts m times as much as set 0, which takes a state for each carry
//! below m and one more for what went wrong.
use books::Standard;
use calls::Call;

// Set 2 counts 2 times as much as set 0, and set 1 as sets 2 and 0 together: m is 3.
const THREE: [Call; 4] = [
    Call::Place(Standard::SUM, &[0, 0, 2]),
    Call::Place(Standard::SUM, &[2, 0, 1]),
    Call::Both,
    Call::Hide(2),
];

// From set 1 and m to set 2 and 2 m.
const DOUBLED: [Call; 3] = [
    Call::Place(Standard::SUM, &[1, 1, 2]),
    Call::Both,
    Call::Hide(1),
];

// From set 2 and m to set 1 and m + 1.
const ONE_MORE: [Call; 3] = [
    Call::Place(Standard::SUM, &[2, 0, 1]),
    Call::Both,
    Call::Hide(2),
];

// Or set 1 is within set 0, which doubles the states of a claim on sets 0 and 2.
const OR_WITHIN: [Call; 2] = [Call::Place(Standard::SUB, &[1, 0]), Call::Either];

// A set of the largest claim hidden.
const SET_ONE_HIDDEN: [Call; 1] = [Call::Hide(1)];

/// The parts of the growth, each of which goes on from the one before it: up to m = 127, then 254, and twice as many
/// states.
pub const GROWTH: [&[Call]; 14] = [
    &THREE,
    &DOUBLED,
    &ONE_MORE,
    &DOUBLED,
    &ONE_MORE,
    &DOUBLED,
    &ONE_MORE,
    &DOUBLED,
    &ONE_MORE,
    &DOUBLED,
    &ONE_MORE,
    &DOUBLED,
    &OR_WITHIN,
    &SET_ONE_HIDDEN,
];
