// How much time one must allow.

/// How much time one must allow for a confidence, in ticks.
#[derive(Clone, Copy, Debug, PartialEq, Eq)]
pub struct Need {
    /// No smaller budget reaches the confidence. None: no budget that was asked for does.
    pub early: Option<u32>,
    /// This budget reaches the confidence for certain. None: that is so for no budget asked for.
    pub sure: Option<u32>,
}
