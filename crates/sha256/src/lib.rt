// SHA-256 (FIPS 180-4), a digest kind.
//
//   Sha256   the kind, code 12 hex
#![tactic(auto)]

mod block;
mod kind;
mod padding;
mod state;
mod tables;
mod words;

pub use kind::Sha256;
