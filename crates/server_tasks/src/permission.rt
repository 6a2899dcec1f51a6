use crate::behind::NobodyBehind;
use crate::slots::Receipt;
use futures::spin::GaveUp;

/// How a sender came by its answer whether it may hand over a line.
#[derive(Drop)]
pub enum Permission {
    /// Its line is short, and nobody is behind.
    Unasked(NobodyBehind),
    /// The slots were asked.
    Asked(Receipt),
    /// The lock of the slots was never had.
    Lost(GaveUp),
}
