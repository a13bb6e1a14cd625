/// How an update came.
#[derive(Clone, Copy, Debug, PartialEq, Eq)]
pub enum BodyForm {
    /// With its type in its body.
    Slow,
    /// In a packet of the fast path, by the code of orders.
    FastOrders,
    /// In one of the fast path, by the code of a bitmap.
    FastBitmap,
    /// In one of the fast path, by the code of a synchronization.
    FastSynchronize,
}
