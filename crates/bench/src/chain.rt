//! Claims with a long shortest word. Set 0 is {p} and set 1 is {p + k}, which takes a state for each position between,
//! and as many rounds of merging.
use books::Standard;
use calls::Call;

/// Set 0 is {p}, and set 1 is {p + 1}.
pub const NEXT: [Call; 1] = [Call::Place(Standard::SUC, &[0, 1])];

/// From set 1 and k to set 2 and k + 1, and back to set 1 and k + 2.
pub const TWO_FURTHER: [Call; 6] = [
    Call::Place(Standard::SUC, &[1, 2]),
    Call::Both,
    Call::Hide(1),
    Call::Place(Standard::SUC, &[2, 1]),
    Call::Both,
    Call::Hide(2),
];

/// Or set 2 is within set 0, which doubles the states.
pub const OR_WITHIN: [Call; 2] = [Call::Place(Standard::SUB, &[2, 0]), Call::Either];

/// How often the chain grows, and after how many times its calls are told.
pub const LENGTHENED: usize = 120;

pub const TOLD_EACH: usize = 40;
