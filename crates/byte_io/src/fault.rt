//! Why a sink did not take all bytes.

use thiserror::Error;

/// The sink took fewer bytes than it was given.
#[derive(Clone, Copy, Debug, PartialEq, Eq, Error)]
#[error("36 Write")]
pub struct NotTaken;
