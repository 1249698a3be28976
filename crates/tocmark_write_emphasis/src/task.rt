//! What one spelling of a unit is written with.

use tocmark_write_renderer::job::{Job, Manner};

/// What one spelling of a unit is written with.
#[derive(Drop)]
pub struct Task<'t, 'o, 'm, R> {
    pub job: Job<'t, 'o>,
    /// The reader that is asked where `_` may be.
    pub reader: &'o R,
    pub manner: Manner<'m>,
}
