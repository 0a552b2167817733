//! The names of a logical unit: vendor, product and revision, tested once.

use crate::padding::padded;
use std::marker::Model;
use thiserror::Error;

/// The bytes of a vendor, of a product and of a revision.
const VENDOR_BYTES: usize = 8;

const PRODUCT_BYTES: usize = 16;

const REVISION_BYTES: usize = 4;

/// Why a text isn't a name: the first of these that holds.
#[derive(Clone, Copy, Debug, PartialEq, Eq, Error)]
pub enum NameFault {
    #[error("no character")]
    Empty,
    #[error("more characters than the field has")]
    TooLong,
    #[error("a character that isn't printable ASCII")]
    NotPrintable,
}

/// The vendor of a logical unit: 1 to 8 printable ASCII characters, filled up with spaces. Contracts see the eight bytes.
#[derive(Clone, Copy, Debug, PartialEq, Eq)]
pub struct Vendor {
    text: [u8; VENDOR_BYTES],
}

impl Model for Vendor {
    ghost use Rattle.std.specs.Prelude.{◌≡◌, ℕ, List, true};
    ghost use Rattle.std.specs.List.{list_all};
    ghost use Rattle.disk_units.specs.Printable.{is_printable};

    ghost Value = { List ℕ };

    ghost view = { λ vendor. vendor.text };

    ghost invariant = { λ vendor. list_all is_printable vendor.text ≡ true };

    ghost inverse = { λ text. record { text = text } };
}

impl Vendor {
    ghost use Rattle.std.specs.Prelude.{◌≡◌, true};
    ghost use Rattle.std.specs.List.{list_all};
    ghost use Rattle.disk_units.specs.Names.{name_of, usual_vendor};
    ghost use Rattle.disk_units.specs.Printable.{is_printable};

    /// This vendor. Refused with `Empty`, with `TooLong` above 8 bytes, and with `NotPrintable`.
    pub fn new(name: &str) -> Result<Vendor, NameFault>
        ensures { result ≡ name_of 8 name.now }
    {
        Vendor::of_bytes(name.as_bytes())
    }

    /// The same of a name in bytes.
    pub fn of_bytes(name: &[u8]) -> Result<Vendor, NameFault>
        ensures { result ≡ name_of 8 name.now }
    {
        Ok(Vendor {
            text: padded(name)?,
        })
    }

    /// The vendor of a logical unit that has been given none.
    pub fn usual() -> Vendor
        ensures { result ≡ usual_vendor }
    {
        Vendor { text: *b"SIMDISK " }
    }

    /// Its eight bytes.
    pub fn bytes(self) -> [u8; VENDOR_BYTES]
        ensures bytes { result ≡ self }
        ensures printable { list_all is_printable result ≡ true }
    {
        self.text
    }
}

/// The product of a logical unit: 1 to 16 printable ASCII characters, filled up with spaces. Contracts see the sixteen bytes.
#[derive(Clone, Copy, Debug, PartialEq, Eq)]
pub struct Product {
    text: [u8; PRODUCT_BYTES],
}

impl Model for Product {
    ghost use Rattle.std.specs.Prelude.{◌≡◌, ℕ, List, true};
    ghost use Rattle.std.specs.List.{list_all};
    ghost use Rattle.disk_units.specs.Printable.{is_printable};

    ghost Value = { List ℕ };

    ghost view = { λ product. product.text };

    ghost invariant = { λ product. list_all is_printable product.text ≡ true };

    ghost inverse = { λ text. record { text = text } };
}

impl Product {
    ghost use Rattle.std.specs.Prelude.{◌≡◌, true};
    ghost use Rattle.std.specs.List.{list_all};
    ghost use Rattle.disk_units.specs.Names.{name_of, usual_product};
    ghost use Rattle.disk_units.specs.Printable.{is_printable};

    /// This product. Refused with `Empty`, with `TooLong` above 16 bytes, and with `NotPrintable`.
    pub fn new(name: &str) -> Result<Product, NameFault>
        ensures { result ≡ name_of 16 name.now }
    {
        Product::of_bytes(name.as_bytes())
    }

    /// The same of a name in bytes.
    pub fn of_bytes(name: &[u8]) -> Result<Product, NameFault>
        ensures { result ≡ name_of 16 name.now }
    {
        Ok(Product {
            text: padded(name)?,
        })
    }

    /// The product of a logical unit that has been given none.
    pub fn usual() -> Product
        ensures { result ≡ usual_product }
    {
        Product {
            text: *b"UAS SIM DISK    ",
        }
    }

    /// Its sixteen bytes.
    pub fn bytes(self) -> [u8; PRODUCT_BYTES]
        ensures bytes { result ≡ self }
        ensures printable { list_all is_printable result ≡ true }
    {
        self.text
    }
}

/// The revision of a logical unit's product: 1 to 4 printable ASCII characters, filled up with spaces. Contracts see the four bytes.
#[derive(Clone, Copy, Debug, PartialEq, Eq)]
pub struct Revision {
    text: [u8; REVISION_BYTES],
}

impl Model for Revision {
    ghost use Rattle.std.specs.Prelude.{◌≡◌, ℕ, List, true};
    ghost use Rattle.std.specs.List.{list_all};
    ghost use Rattle.disk_units.specs.Printable.{is_printable};

    ghost Value = { List ℕ };

    ghost view = { λ revision. revision.text };

    ghost invariant = { λ revision. list_all is_printable revision.text ≡ true };

    ghost inverse = { λ text. record { text = text } };
}

impl Revision {
    ghost use Rattle.std.specs.Prelude.{◌≡◌, true};
    ghost use Rattle.std.specs.List.{list_all};
    ghost use Rattle.disk_units.specs.Names.{name_of, usual_revision};
    ghost use Rattle.disk_units.specs.Printable.{is_printable};

    /// This revision. Refused with `Empty`, with `TooLong` above 4 bytes, and with `NotPrintable`.
    pub fn new(name: &str) -> Result<Revision, NameFault>
        ensures { result ≡ name_of 4 name.now }
    {
        Revision::of_bytes(name.as_bytes())
    }

    /// The same of a name in bytes.
    pub fn of_bytes(name: &[u8]) -> Result<Revision, NameFault>
        ensures { result ≡ name_of 4 name.now }
    {
        Ok(Revision {
            text: padded(name)?,
        })
    }

    /// The revision of a logical unit that has been given none.
    pub fn usual() -> Revision
        ensures { result ≡ usual_revision }
    {
        Revision { text: *b"0001" }
    }

    /// Its four bytes.
    pub fn bytes(self) -> [u8; REVISION_BYTES]
        ensures bytes { result ≡ self }
        ensures printable { list_all is_printable result ≡ true }
    {
        self.text
    }
}

/// The names of a logical unit, as INQUIRY tells them.
#[derive(Clone, Copy, Debug, PartialEq, Eq)]
pub struct UnitNames {
    pub vendor: Vendor,
    pub product: Product,
    pub revision: Revision,
}

impl UnitNames {
    ghost use Rattle.std.specs.Prelude.{◌≡◌};
    ghost use Rattle.disk_units.specs.Names.{usual_names};

    /// Those of a logical unit that has been given none.
    pub fn usual() -> UnitNames
        ensures { result ≡ usual_names }
    {
        UnitNames {
            vendor: Vendor::usual(),
            product: Product::usual(),
            revision: Revision::usual(),
        }
    }
}
