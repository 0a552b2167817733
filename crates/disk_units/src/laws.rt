//! Laws of the pages.
ghost use Rattle.disk_units.specs.Told.{DiskPagesAreListed, DiskPagesTellThemselves};

/// Law: what a host is told of the pages is so. Page 00h lists just those that are answered, and each page tells its code and its length.
pub fn disk_lists_are_true()
    ensures pages { DiskPagesAreListed }
    ensures lengths { DiskPagesTellThemselves }
{}
