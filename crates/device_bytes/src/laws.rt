//! Laws of the form.
ghost use Rattle.device_bytes.specs.Devices.{DeviceIsLoaded, FormIsExact, LoadedIsRead, LoadedIsSaved, SavedIsLoaded};

/// Law: what is loaded into a new device is what its form reads. A device's bytes, loaded so, are that device again, the bytes that don't
/// matter being 0; and the bytes of a device that was loaded are those that it was loaded from.
pub fn what_is_loaded()
    ensures read { LoadedIsRead }
    ensures loaded { SavedIsLoaded }
    ensures saved { LoadedIsSaved }
    ensures device { DeviceIsLoaded }
{}

/// Law: each device has one text, and each text that is read is the one of its device.
pub fn form_is_exact()
    ensures { FormIsExact }
{}
