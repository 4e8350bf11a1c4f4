use gate_values::Logic;

/// Whether a message tells a change, or takes back one that was told.
#[derive(Clone, Copy, Debug, PartialEq, Eq)]
pub enum Sign {
    Plus,
    Minus,
}

/// A change of a net, told to a block that reads it. Times are in the stimulus's timescale.
#[derive(Clone, Copy, Debug, PartialEq, Eq)]
pub struct Message {
    pub time: u64,
    pub block: u32,
    pub net: u32,
    pub value: Logic,
    pub sign: Sign,
}
