//! What follows for descriptors, as functions with empty bodies.
ghost use Rattle.std.specs.Prelude.{◌≡◌, ℕ, true, List, Ok};
ghost use Rattle.usb_descriptors.specs.declared.UasFunction.{UasFunction};
ghost use Rattle.usb_descriptors.specs.Cutting.{EachDescriptor, descriptors, is_cut, joined};
ghost use Rattle.usb_descriptors.specs.Function.{uas_in};
ghost use Rattle.usb_descriptors.specs.Pipes.{ContextsApart, FitsPipes};
ghost use Rattle.usb_descriptors.specs.declared.Pipes.{Pipes};
ghost use Rattle.usb_descriptors.specs.Rows.{RowBridge, RowBulkOnly, RowContexts, RowDevice, RowEmulated, RowHub, RowNoCompanion, RowNoStreams};
ghost use Rattle.usb_descriptors.specs.Rows.{RowOne, RowOtherSize, RowShort, RowStreams, RowTotals};
ghost use Rattle.usb_descriptors.specs.Texts.{function_text};

/// Law: bytes that are cut are their descriptors one behind the other.
pub fn cut_bytes_join()
    ensures { (bytes : List ℕ) → is_cut bytes ≡ true → (joined (descriptors bytes) ≡ bytes) × EachDescriptor (descriptors bytes) }
{}

/// Law: descriptors one behind the other are cut into those again.
pub fn joined_descriptors_are_cut()
    ensures { (ds : List (List ℕ)) → EachDescriptor ds → (descriptors (joined ds) ≡ ds) × (is_cut (joined ds) ≡ true) }
{}

/// Law: a function is found in the bytes that tell it.
pub fn functions_are_found()
    ensures { (function : UasFunction) → FitsPipes function.pipes → uas_in (function_text function) ≡ Ok function }
{}

/// Law: the pipes have four endpoint contexts, none of which is that of the slot or of endpoint 0.
pub fn contexts_are_apart()
    ensures { (pipes : Pipes) → FitsPipes pipes → ContextsApart pipes }
{}

/// Law: what these configurations are read as: of an emulated disk, whole and without its last byte; of a bridge, with its UAS setting and
/// without; and with one endpoint alone. Endpoint contexts and streams of the emulated disk; device descriptors, and totals.
pub fn rows_are_read()
    ensures emulated { RowEmulated }
    ensures short { RowShort }
    ensures bridge { RowBridge }
    ensures bulk_only { RowBulkOnly }
    ensures one { RowOne }
    ensures no_companion { RowNoCompanion }
    ensures other_size { RowOtherSize }
    ensures contexts { RowContexts }
    ensures streams { RowStreams }
    ensures no_streams { RowNoStreams }
    ensures device { RowDevice }
    ensures hub { RowHub }
    ensures totals { RowTotals }
{}
