//! Fetches of fragments that are written in one of two ways.

/// How far a fetch has come that goes in one of two ways.
#[derive(Drop)]
pub enum EitherFetch<F, G> {
    /// A fetch in the way of dense arrays.
    Dense(F),
    /// A fetch in the way of sparse arrays.
    Sparse(G),
}
