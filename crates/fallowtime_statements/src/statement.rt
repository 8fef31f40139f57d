//! What is asked of one collection.

use fallowtime_requests::Request;

/// What is asked of one collection.
#[derive(Drop)]
pub struct Statement {
    /// The collection.
    pub name: String,
    /// What is requested of it.
    pub request: Request<'static>,
}
