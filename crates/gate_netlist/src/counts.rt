/// How many nets, inputs, gates, flip-flops, outputs and blocks a circuit has.
#[derive(Clone, Copy, Debug, PartialEq, Eq)]
pub struct Counts {
    pub nets: u32,
    pub inputs: u32,
    pub gates: u32,
    pub flops: u32,
    pub outputs: u32,
    /// Those of the settings' cut, or 1 where there is none.
    pub blocks: u32,
}
