use crate::waking::Woken;
use futures::spin::GaveUp;
use hub_shared::Visitor;
use server_tasks::Receipt;

/// A slot whose connection has quit, the visitor whose connection it was, and the receipts of those whom the quit concerned.
#[derive(Drop)]
pub struct LeftSlot<H> {
    pub(crate) visitor: Visitor<H>,
    pub(crate) slot: usize,
    pub(crate) woken: Woken,
    pub(crate) rung: Option<Result<Receipt, GaveUp>>,
}
