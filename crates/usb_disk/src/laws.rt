//! What holds of exchanges with endpoint 0, as functions with empty bodies.
ghost use Rattle.usb_disk.specs.Rows.{RowAlone, RowClass, RowDescriptors, RowHalts, RowInSettings, RowSettings};

/// Law: what these Setup packets are answered with, and the disk behind them.
pub fn rows_are_answered()
    ensures descriptors { RowDescriptors }
    ensures in_settings { RowInSettings }
    ensures alone { RowAlone }
    ensures settings { RowSettings }
    ensures class { RowClass }
    ensures halts { RowHalts }
{}
