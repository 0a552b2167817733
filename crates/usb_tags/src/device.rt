//! The packets that concern the whole device, and those of endpoint 0.
ghost use Rattle.std.specs.Prelude.{◌≡◌, slice_index};
ghost use Rattle.usb_tags.specs.Device.{alloc_told, alternate_in, asked_disk, configuration_in, configuration_told, control_told, interface_told, is_right_way, mask_fits};
ghost use Rattle.usb_tags.specs.Device.{configuration_got, configuration_set, control_done, interface_got, interface_set, request_setup, reset, setup, streams_allocated, streams_freed, told, told_control};

use crate::{Answer, AnswerData, Rest, Sending, UsbTags};
use usb_disk::{Answer as DiskAnswer, Setup};
use usbredir::{ControlAnswer, ControlRequest, DevicePacket, Status};

/// How many streams there are at most.
pub(crate) const MOST_STREAMS: u32 = 128;

impl UsbTags {
    /// As a reset of the device leaves it: not configured, and without a task. The transfers that are held stay.
    pub(crate) fn reset(&mut self)
        ensures { self.new ≡ reset self.old }
    {
        self.disk.reset();
        self.tasks.power_on();
        self.places.forget_all();
    }

    /// Does a request of endpoint 0. Each task is gone by some, and with it what was kept.
    fn ask_disk(&mut self, setup: &Setup) -> DiskAnswer
        ensures { (self.new, result) ≡ asked_disk self.old setup.now }
    {
        let answer = self.disk.control(setup);
        if let DiskAnswer::Restarted = answer {
            self.tasks.end_tasks();
            self.places.forget_all();
        }
        answer
    }

    pub(crate) fn set_configuration(&mut self, id: u64, value: u8)
        ensures { self.new ≡ configuration_set self.old id value }
    {
        let answer = self.ask_disk(&setup(0x00, 9, u16::from(value), 0, 0));
        self.sending = configuration_told(id, value, &answer);
    }

    pub(crate) fn get_configuration(&mut self, id: u64)
        ensures { self.new ≡ configuration_got self.old id }
    {
        let answer = self.ask_disk(&setup(0x80, 8, 0, 0, 1));
        self.sending = Sending::Last(told(id, configuration_in(&answer)));
    }

    pub(crate) fn set_alt_setting(&mut self, id: u64, interface: u8, setting: u8)
        ensures { self.new ≡ interface_set self.old id interface setting }
    {
        let answer = self.ask_disk(&setup(0x01, 11, u16::from(setting), u16::from(interface), 0));
        self.sending = interface_told(id, interface, setting, &answer);
    }

    pub(crate) fn get_alt_setting(&mut self, id: u64, interface: u8)
        ensures { self.new ≡ interface_got self.old id interface }
    {
        let answer = self.ask_disk(&setup(0x81, 10, 0, u16::from(interface), 1));
        self.sending = Sending::Last(told(id, alternate_in(interface, &answer)));
    }

    pub(crate) fn alloc_streams(&mut self, id: u64, endpoints: u32, streams: u32)
        ensures { self.new ≡ streams_allocated self.old id endpoints streams }
    {
        self.places.forget_all();
        self.sending = Sending::Last(told(id, alloc_told(endpoints, streams)));
    }

    pub(crate) fn free_streams(&mut self, id: u64, endpoints: u32)
        ensures { self.new ≡ streams_freed self.old id endpoints }
    {
        self.places.forget_all();
        let packet = DevicePacket::BulkStreamsStatus {
            endpoints,
            streams: 0,
            status: Status::Success,
        };
        self.sending = Sending::Last(told(id, packet));
    }

    pub(crate) fn control(&mut self, id: u64, request: &ControlRequest)
        ensures { self.new ≡ control_done self.old id request.now }
    {
        if is_right_way(request) {
            let answer = self.ask_disk(&request_setup(request));
            self.sending = Sending::Last(control_told(id, request, answer));
        } else {
            let packet = told_control(request, Status::Invalid, 0);
            self.sending = Sending::Last(told(id, packet));
        }
    }
}

/// An answer without data.
pub(crate) fn told(id: u64, packet: DevicePacket) -> Answer
    ensures { result ≡ told id packet }
{
    Answer {
        id,
        packet,
        body: AnswerData::Nothing,
    }
}

fn setup(request_type: u8, request: u8, value: u16, index: u16, length: u16) -> Setup
    ensures { result ≡ setup request_type request value index length }
{
    Setup {
        request_type,
        request,
        value,
        index,
        length,
    }
}

fn configuration_told(id: u64, value: u8, answer: &DiskAnswer) -> Sending
    ensures { result ≡ configuration_told id value answer.now }
{
    match answer {
        DiskAnswer::Restarted => {
            let status = Status::Success;
            Sending::Interfaces(told(id, DevicePacket::ConfigurationStatus { status, value }))
        }
        DiskAnswer::Data(_) | DiskAnswer::Done | DiskAnswer::BulkReset | DiskAnswer::Stall => {
            let status = Status::Stall;
            Sending::Last(told(id, DevicePacket::ConfigurationStatus { status, value }))
        }
    }
}

fn configuration_in(answer: &DiskAnswer) -> DevicePacket
    ensures { result ≡ configuration_in answer.now }
{
    match answer {
        DiskAnswer::Data(bytes) => DevicePacket::ConfigurationStatus {
            status: Status::Success,
            value: first_of(bytes),
        },
        DiskAnswer::Done | DiskAnswer::Restarted | DiskAnswer::BulkReset | DiskAnswer::Stall => {
            DevicePacket::ConfigurationStatus {
                status: Status::Stall,
                value: 0,
            }
        }
    }
}

/// The first byte, 0 where there is none.
fn first_of(bytes: &[u8]) -> u8
    ensures { result ≡ slice_index bytes.now 0 }
{
    match bytes.first() {
        Some(byte) => *byte,
        None => 0,
    }
}

fn interface_told(id: u64, interface: u8, setting: u8, answer: &DiskAnswer) -> Sending
    ensures { result ≡ interface_told id interface setting answer.now }
{
    match answer {
        DiskAnswer::Restarted => Sending::Endpoints(told(
            id,
            DevicePacket::AltSettingStatus {
                status: Status::Success,
                interface,
                setting,
            },
        )),
        DiskAnswer::Data(_) | DiskAnswer::Done | DiskAnswer::BulkReset | DiskAnswer::Stall =>
            Sending::Last(told(
                id,
                DevicePacket::AltSettingStatus {
                    status: Status::Stall,
                    interface,
                    setting,
                },
            )),
    }
}

fn alternate_in(interface: u8, answer: &DiskAnswer) -> DevicePacket
    ensures { result ≡ alternate_in interface answer.now }
{
    match answer {
        DiskAnswer::Data(bytes) => DevicePacket::AltSettingStatus {
            status: Status::Success,
            interface,
            setting: first_of(bytes),
        },
        DiskAnswer::Done | DiskAnswer::Restarted | DiskAnswer::BulkReset | DiskAnswer::Stall => {
            DevicePacket::AltSettingStatus {
                status: Status::Stall,
                interface,
                setting: 0,
            }
        }
    }
}

/// Whether a mask of endpoints has no other than 02h, 81h and 82h.
fn mask_fits(endpoints: u32) -> bool
    ensures { result ≡ mask_fits endpoints }
{
    endpoints % 4 == 0 && endpoints / 8 % 16_384 == 0 && endpoints / 524_288 == 0
}

fn alloc_told(endpoints: u32, streams: u32) -> DevicePacket
    ensures { result ≡ alloc_told endpoints streams }
{
    let fits = mask_fits(endpoints) && streams != 0 && streams <= MOST_STREAMS;
    DevicePacket::BulkStreamsStatus {
        endpoints,
        streams,
        status: if fits {
            Status::Success
        } else {
            Status::Invalid
        },
    }
}

/// Whether data go the way that the request's type says: to the host by endpoint 80h, to the device by 0.
fn is_right_way(request: &ControlRequest) -> bool
    ensures { result ≡ is_right_way request.now }
{
    request.endpoint == request.request_type / 128 * 128
}

fn request_setup(request: &ControlRequest) -> Setup
    ensures { result ≡ request_setup request.now }
{
    setup(
        request.request_type,
        request.request,
        request.value,
        request.index,
        request.length,
    )
}

fn told_control(request: &ControlRequest, status: Status, length: u16) -> DevicePacket
    ensures { result ≡ told_control request.now status length }
{
    DevicePacket::Control(ControlAnswer {
        endpoint: request.endpoint,
        request: request.request,
        request_type: request.request_type,
        status,
        value: request.value,
        index: request.index,
        length,
    })
}

fn control_told(id: u64, request: &ControlRequest, answer: DiskAnswer) -> Answer
    ensures { result ≡ control_told id request.now answer }
{
    match answer {
        DiskAnswer::Data(bytes) => Answer {
            id,
            packet: told_control(request, Status::Success, bytes.len() as u16),
            body: AnswerData::Control(bytes),
        },
        DiskAnswer::Done | DiskAnswer::Restarted | DiskAnswer::BulkReset => {
            told(id, told_control(request, Status::Success, request.length))
        }
        DiskAnswer::Stall => told(id, told_control(request, Status::Stall, 0)),
    }
}
