//! Why the requests of a list aren't done.

ghost use Rattle.std.specs.Prelude.{◌≡◌, ◌↔◌, IsTrue, MatchOption, Some};
ghost use Rattle.fallowtime_commands.specs.Drafting.{reason_of as reason_by};
ghost use Rattle.fallowtime_commands.specs.Listing.{IsLack, IsLacking};

use crate::Unmade;
use bson_store::{ErrorKind, StoreError};
use store_update::UpdateError;

/// Why a request of a list isn't done.
#[derive(Clone, Copy, Debug)]
pub enum Reason {
    /// The store refuses it.
    Refused(StoreError),
    /// Nothing is made of a document that its change means: of the one at this place among them, counted from 0.
    NotUpdated(u64, UpdateError),
    /// No document answers, and none is made of the query's equality fields.
    NotUpserted(UpdateError),
    /// A list has no request of its kind.
    NotInLists,
}

/// Why no request of a list is done.
#[derive(Clone, Copy, Debug)]
pub struct ListError {
    /// The position of the request that is refused, from 0; none if the list as a whole is: memory ran out, there are no
    /// places, or the database refused.
    pub request: Option<u64>,
    /// Why it is.
    pub reason: Reason,
}

/// Why nothing becomes of a document.
pub(crate) fn reason_of(unmade: Unmade) -> Reason
    ensures { result ≡ reason_by unmade }
{
    match unmade {
        Unmade::Update(at, error) => Reason::NotUpdated(at, error),
        Unmade::Store(error) => Reason::Refused(error),
    }
}

/// Whether a refusal is for want of something, whatever is asked.
fn is_lack(kind: ErrorKind) -> bool
    ensures { IsTrue result ↔ IsLack kind }
{
    match kind {
        ErrorKind::Memory => true,
        ErrorKind::Database => true,
        ErrorKind::Places => true,
        _ => false,
    }
}

/// Whether it is not the request that is refused, but the list.
fn is_lacking(reason: &Reason) -> bool
    ensures { IsTrue result ↔ IsLacking reason.now }
{
    match reason {
        Reason::Refused(error) => is_lack(error.kind),
        Reason::NotUpdated(_, _) => false,
        Reason::NotUpserted(_) => false,
        Reason::NotInLists => false,
    }
}

/// The refusal of the request at a position, or of the list as a whole.
pub(crate) fn refused_at(at: u64, reason: Reason) -> ListError
    ensures { (result.reason ≡ reason) × MatchOption result.request (IsLacking reason)
        (λ i. (i ≡ at) × (IsLacking reason → ⊥)) }
{
    if is_lacking(&reason) {
        return ListError {
            request: None,
            reason,
        };
    }
    ListError {
        request: Some(at),
        reason,
    }
}
