//! How far a run may go, and how often it is reported.

ghost use Rattle.std.specs.Prelude.{◌≤◌};

/// How far a run may go: the words of its heap, and the most steps that it makes.
#[derive(Clone, Copy, Debug)]
pub struct Limits {
    pub heap: u32,
    pub steps: u64,
    ghost least: { 1024 ≤ heap },
    ghost most: { heap ≤ 33554432 },
}

/// How often a report of a run has a line: behind each event whose number is a multiple of this.
#[derive(Clone, Copy, Debug)]
pub struct Interval {
    pub events: u64,
    ghost least: { 1 ≤ events },
}
