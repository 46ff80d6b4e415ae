use board::call::{Call, Outcome};

// A call of a meeting: how many rows it is lent, and what comes of it.
#[derive(Clone, Copy)]
pub struct Told {
    pub call: Call,
    pub lent: usize,
    pub outcome: Outcome,
}

// The calls of each meeting of the table, an opening first.
#[derive(Clone, Copy)]
pub struct Meetings {
    pub level_at_five: [Told; 5],
    pub equally_fast: [Told; 3],
    pub three_at_six: [Told; 5],
    pub level_at_a_half: [Told; 5],
    pub same_instant: [Told; 6],
    pub steered_when_level: [Told; 5],
    pub in_halves: [Told; 4],
    pub least_speed: [Told; 3],
    pub last_instant: [Told; 5],
    pub too_few_rows: [Told; 6],
}
