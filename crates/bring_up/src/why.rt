//! Why a controller, or the device at a port, isn't used.
use thiserror::Error;

/// Why a controller, or the device at a port, isn't used.
#[derive(Clone, Copy, Debug, PartialEq, Eq, Error)]
pub enum Why {
    #[error("the controller is older than xHCI 1.0")]
    TooOld = 1,
    #[error("the registers are longer than the memory that was told for them")]
    SmallBar,
    #[error("the list of extended capabilities leaves the registers, names ports that aren't there, or doesn't end")]
    BadList,
    #[error("the controller has no device slots")]
    NoSlots,
    #[error("the controller has no ports of USB 3")]
    NoPorts,
    #[error("the controller has no streams")]
    NoStreams,
    #[error("the controller's page is larger than 64 KiB")]
    PageSize,
    #[error("the controller can't be halted")]
    StillRuns,
    #[error("the port's reset didn't end with a device")]
    NoReset,
    #[error("the device is slower than SuperSpeed")]
    NotSuperSpeed,
    #[error("the device takes no address")]
    NoAddress,
    #[error("the device was silent three times")]
    Silent,
    #[error("the device descriptor isn't that of a SuperSpeed device")]
    BadDevice,
    #[error("the device is a hub")]
    Hub,
    #[error("the configuration is too long")]
    LongConfiguration,
    #[error("a descriptor has a wrong length or type")]
    BadDescriptor,
    #[error("no interface of USB Attached SCSI")]
    NoUas,
    #[error("not the four pipes of USB Attached SCSI")]
    BadPipes,
    #[error("an endpoint of a pipe has no companion")]
    NoCompanion,
    #[error("USB Attached SCSI doesn't work on this bridge")]
    BrokenUas,
    #[error("the pipes can't be configured")]
    NotConfigured,
    #[error("not a direct access block device")]
    NotADisk,
    #[error("there is no medium")]
    NoMedium,
    #[error("the disk doesn't become ready")]
    NeverReady,
    #[error("the disk doesn't tell its size")]
    BadCapacity,
    #[error("blocks of fewer than 512 or more than 4096 bytes")]
    BlockLength,
}
