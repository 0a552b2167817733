//! An information unit on its way as plain values, and one made of such.
ghost use Rattle.std.specs.Prelude.{◌≡◌, ◌≤◌, length};

use crate::unit::Unit;
use arrayvec::ArrayVec;

impl Unit {
    /// Its bytes, of which the TD in front has [`Unit::sent`].
    pub fn text(&self) -> &[u8]
        ensures text { result.now ≡ self.now.text }
        ensures few { length self.now.text ≤ 112 }
        ensures sent { self.now.sent ≤ length self.now.text }
    {
        &self.text
    }

    /// One with these bytes, of which the TD in front has so many.
    pub fn restored(text: &[u8], sent: usize) -> Unit
        requires few { length text.now ≤ 112 }
        requires sent { sent ≤ length text.now }
        ensures { result ≡ record { text = text.now; sent = sent } }
    {
        let mut kept = ArrayVec::new();
        let _ = kept.try_extend_from_slice(text);
        Unit { text: kept, sent }
    }
}
