//! A stack over a lent slice, for elements of any kind.

#![tactic(auto)]

ghost use Rattle.std.specs.Prelude.{◌≤◌, length};

pub mod calls;

// It holds the first `len` elements of the row. What lies behind them is left over and means nothing.
// (A row with a length beside it, since the row is the caller's: no list of its own is made. What it holds and how much
// room it has are two words of `specs/`, for which one model with both would be no plainer.)
#[derive(Drop)]
pub struct Stack<'a, T> {
    row: &'a mut [T],
    len: usize,
    ghost within_the_row: { len ≤ length row.now },
}
