// Versions of a network file.

/// The versions of a network file.
#[derive(Clone, Copy, Debug, PartialEq, Eq)]
pub enum Version {
    /// Without the buffer, which is 0 seconds.
    One,
    /// With the buffer in front of the streets.
    Two,
}
