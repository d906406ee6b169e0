//! Receipts of answered calls.

use stripe::{Call, Reply};

/// The receipt of an answered call. The call's record has index `place` in the history of stripe `stripe`.
#[derive(Clone, Copy)]
pub struct Receipt<'a> {
    pub stripe: usize,
    pub place: usize,
    pub call: Call<'a>,
    pub reply: Reply,
}
