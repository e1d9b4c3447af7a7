// A row of steps: from that tick on, so many points.

#[derive(Clone, Copy, PartialEq, Eq)]
pub struct Row {
    // from this tick on
    pub tick: u64,
    // an end costs this
    pub points: u64,
}

impl Row {
    // No points from the beginning.
    pub const NOTHING: Row = Row { tick: 0, points: 0 };
}
