//! A member between its neighbours.

use crate::members::Member;

/// A member, with the keys of the members beside it in the pool's order.
#[derive(Clone, Copy, Debug)]
pub(crate) struct Node {
    /// The member.
    pub(crate) member: Member,
    /// The key of the member before it.
    pub(crate) before: Option<usize>,
    /// The key of the member after it.
    pub(crate) after: Option<usize>,
}
