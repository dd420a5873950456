//! What the program is lent beside its output and its disk.

/// The files, the program's own link, its door and the archive of releases, each lent for a time of
/// its own. `campaign` makes one of them, and lends it to the command that runs.
#[derive(Drop)]
pub(crate) struct Devices<'f, 'i, 'r, 'k, F, I, R, K> {
    pub(crate) shelf: &'f mut F,
    pub(crate) own: &'i mut I,
    pub(crate) door: &'r mut R,
    pub(crate) keeper: &'k mut K,
}
