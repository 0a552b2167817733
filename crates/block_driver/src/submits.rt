//! Which commands are taken, and what is put for one.
ghost use Rattle.std.specs.Prelude.{◌≡◌, ◌<◌, ◌^◌, ◌-◌, None, Some, IfErr, IfOk, IfSome, OnErr, slice_set};
ghost use Rattle.block_driver.specs.Submits.{command_of, data_begun, free_tag, open_disk, open_in, reach_of, submit_refusal, submitted_on};
ghost use Rattle.block_driver.specs.Table.{entry_at, mark_of, marks, place_in};

use crate::kinds::Kind;
use crate::steps::Blocks;
use crate::table::{DataState, Outstanding};
use crate::{BlockDriver, Fault};
use block_requests::{Submission, pieces_of, submitted, wanted};
use bring_up::{Controller, Options, Stage};
use disk_ready::{ReadyDisk, Sent, Way};
use disk_requests::{Request, command_unit};
use host_layout::{Layout, Segment};

/// A disk that is used: how far its controller reaches, and where its driver's memory is.
#[derive(Clone, Copy)]
pub struct Open {
    pub disk: ReadyDisk,
    pub reach: u64,
    pub layout: Layout,
}

/// The last address that a controller reaches, or the one behind it.
fn reach_of(options: &Options, c: &Controller) -> u64
    ensures { result ≡ reach_of options.now c.now }
{
    let width = if c.is_wide { 64 } else { 32 };
    let quirk = if options.quirks.has_36_bits { 36 } else { 64 };
    let bits = options.address_bits.min(width).min(quirk);
    if bits >= 64 { u64::MAX } else { 1 << bits }
}

fn data_begun(way: Way) -> DataState
    ensures { result ≡ data_begun way }
{
    if way.has_data() {
        DataState::Pending
    } else {
        DataState::Nothing
    }
}

/// What is put for a command on a tag.
fn command_of(tag: u8, made: &Submission, layout: &Layout, mark: u64, limit: u64) -> Outstanding
    ensures { result ≡ command_of layout.now tag made.now mark limit }
{
    Outstanding {
        mark,
        sent: Sent {
            tag,
            way: made.way,
            unit: command_unit(u16::from(tag), 0, &made.cdb),
            list: made.list,
        },
        pieces: pieces_of(layout, tag, made),
        wanted: wanted(made),
        limit,
        spots: None,
        data_state: data_begun(made.way),
        status: None,
        is_aborted: false,
        stopped: 0,
    }
}

impl Blocks {
    /// The lowest tag that is free; the last of all is for task management.
    fn free_tag(&self, tags: u8) -> Option<u8>
        ensures is { result ≡ free_tag self.now.tags tags }
        ensures there { IfSome result (λ tag. place_in self.now.tags tag ≡ Some (tag - 1)) }
        ensures free { IfSome result (λ tag. mark_of (entry_at self.now.tags tag) ≡ None) }
    {
        match self.tags.first(Kind::Free) {
            Some(tag) if tag < tags => Some(tag),
            _ => None,
        }
    }
}

impl BlockDriver {
    /// The disk, while it is used, and the driver isn't shutting down.
    pub(crate) fn open(&self) -> Option<Open>
        ensures { result ≡ open_disk self.now }
    {
        if !self.blocks.closing.is_kept() {
            return None;
        }
        match (self.blocks.disk, &self.ready.device.driver.stage) {
            (Some(disk), Stage::Taken(taken)) => Some(Open {
                disk,
                reach: reach_of(&self.ready.device.driver.options, &taken.controller),
                layout: taken.layout,
            }),
            _ => None,
        }
    }

    /// Submits a request of the disk of a number, with the segments of its data; `mark` comes back with its reply, and `limit` is the time in ms at
    /// which it is aborted. `NotReady` while no disk is used, `OtherDisk` for another number than the disk's, then the request's own fault, and
    /// `NoTag` where as many commands are out as can be. A refusal changes nothing.
    pub fn submit(
        &mut self,
        disk: u64,
        request: &Request,
        segments: &[Segment],
        mark: u64,
        limit: u64,
    ) -> Result<u16, Fault>
        ensures refused { IfErr result (λ fault. submit_refusal self.old disk request.now segments.now ≡ Some fault) }
        ensures kept { OnErr result (self.new ≡ self.old) }
        ensures taken { IfOk result (λ tag. (submit_refusal self.old disk request.now segments.now ≡ None) × (self.new ≡ submitted_on self.old request.now segments.now mark limit tag)) }
        ensures free { IfOk result (λ tag. mark_of (entry_at self.old.blocks.tags tag) ≡ None) }
        ensures once { IfOk result (λ tag. marks self.new.blocks.tags ≡ slice_set (marks self.old.blocks.tags) (tag - 1) (Some mark)) }
    {
        let Some(open) = self.open() else {
            return Err(Fault::NotReady);
        };
        if disk != self.blocks.number {
            return Err(Fault::OtherDisk);
        }
        let most = self.ready.device.driver.options.pieces;
        let made = match submitted(request, &open.disk.shape, segments, open.reach, most) {
            Ok(made) => made,
            Err(fault) => return Err(Fault::Request(fault)),
        };
        let Some(tag) = self.blocks.free_tag(open.disk.tags) else {
            return Err(Fault::NoTag);
        };
        self.blocks
            .tags
            .submit(tag, command_of(tag, &made, &open.layout, mark, limit));
        Ok(u16::from(tag))
    }
}
