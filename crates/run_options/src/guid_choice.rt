//! Which GUID a new file has.

/// The GUID of a file that is written.
#[derive(Clone, Copy, Debug, PartialEq, Eq)]
pub enum GuidChoice {
    /// The GUID of the settings.
    Given,
    /// The GUID of the types of the file. That of the settings is not used.
    OfTypes,
}
