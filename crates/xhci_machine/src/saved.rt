//! The machine as bytes.
ghost use Rattle.std.specs.Prelude.{◌≡◌, take};
ghost use Rattle.uas_tasks.specs.Saved.{AreSavable};
ghost use Rattle.xhci_machine.specs.Saved.{body_write, device_write, save_of, saved_write, sum_write, total_of};

use crate::Machine;
use crate::active_tags::write_active;
use crate::shapes::write_shape;
use controller_bytes::write_all_tags;
use log_records::checksum::crc32c;
use machine_bytes::{Place, write_head};
use thiserror::Error;
use uas_tasks::Tasks;

/// Why a machine isn't saved.
#[derive(Clone, Copy, Debug, PartialEq, Eq, Error)]
pub enum SaveFault {
    #[error("a request is out")]
    RequestOut,
    #[error("its state needs more bytes")]
    Room { needs: usize },
}

/// Bytes of head and checksum.
const AROUND_BYTES: usize = 16;

/// The bytes before a place.
#[tactic(auto, using(crate::proofs::Fronts::front_taken))]
pub(crate) fn front(cells: &[u8], at: usize) -> &[u8]
    ensures { result.now ≡ take at cells.now }
{
    &cells[..at.min(cells.len())]
}

/// Writes the checksum of all before a place.
fn write_sum(place: Place, cells: &mut [u8]) -> Place
    ensures { (cells.new, result) ≡ sum_write (cells.old, place) }
{
    let sum = crc32c(front(cells, place.at));
    place.u32(cells, sum)
}

/// Writes the device.
fn write_device(place: Place, cells: &mut [u8], tasks: &Tasks) -> Place
    requires { AreSavable tasks.now }
    ensures { (cells.new, result) ≡ device_write (cells.old, place) tasks.now }
{
    device_bytes::save(place, cells, tasks)
}

impl Machine {
    /// Writes all between head and checksum.
    #[tactic(auto, unfolding(crate::specs::Saved::body_write))]
    fn write_body(&self, place: Place, cells: &mut [u8]) -> Place
        requires { AreSavable self.now.device.tasks }
        ensures { (cells.new, result) ≡ body_write (cells.old, place) self.now }
    {
        let place = write_shape(place, cells, &self.device.tasks);
        let place = self.write_kept(place, cells);
        let place = write_active(place, cells, &self.device);
        let place = write_all_tags(place, cells, self.transfers.tags());
        let place = write_device(place, cells, &self.device.tasks);
        place.kind(cells, 0)
    }

    /// How many bytes its saved state has.
    fn saved_len(&self) -> usize
        requires { AreSavable self.now.device.tasks }
        ensures { result ≡ total_of self.now }
    {
        let mut none = [0; 0];
        let place = Place {
            at: 0,
            needs: AROUND_BYTES,
        };
        self.write_body(place, &mut none).needs
    }

    /// Writes its saved state, which has so many bytes.
    fn write_saved(&self, into: &mut [u8], total: u32)
        requires { AreSavable self.now.device.tasks }
        ensures { into.new ≡ (saved_write into.old self.now total).0 }
    {
        let place = write_head(Place::first(), into, total);
        let place = self.write_body(place, into);
        write_sum(place, into);
    }

    /// Saves it, and tells how many bytes that are. Refused with `RequestOut` while a request is out, and with `Room` where there is less room
    /// than it needs; then `into` is as before.
    pub fn save(&self, into: &mut [u8]) -> Result<usize, SaveFault>
        ensures { (into.new, result) ≡ save_of self.now into.old }
    {
        if self.device.tasks.has_request_out() {
            return Err(SaveFault::RequestOut);
        }
        let total = self.saved_len();
        if into.len() < total || total > 0xffff_ffff {
            return Err(SaveFault::Room { needs: total });
        }
        self.write_saved(into, total as u32);
        Ok(total)
    }
}
