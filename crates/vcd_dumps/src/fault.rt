/// How much of a dump was written before the sink failed, in bytes.
#[derive(Clone, Copy, Debug, PartialEq, Eq, thiserror::Error)]
#[error("the sink failed after {written} bytes")]
pub struct WriteFault {
    pub written: u128,
}
