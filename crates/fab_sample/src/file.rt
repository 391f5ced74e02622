//! Files of a sample.

use fab_base::Name;

/// A file: its name, and its bytes.
#[derive(Debug, Drop)]
pub struct File {
    /// Its name, without a folder.
    pub name: Name,
    /// Its bytes.
    pub text: Name,
}
