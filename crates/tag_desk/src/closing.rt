//! How a desk is closed: tag by tag, its client's seat and its pump's are made one, which takes out what stands there.

ghost use Rattle.std.specs.Prelude.{◌≡◌, ◌≢◌, ℕ, suc, ◌+◌, ◌*◌, ◌<◌, ◌≤◌, length, slice_index_or, slice_set, IfSome, None};
ghost use Rattle.tag_desk.specs.Seats.{IsClientOf};
ghost use Rattle.tag_desk.specs.Left.{HasEachPumpOf, HasEachClientOf, Gathers, work_line, left_of, none_left, so_far, HasRoom};
ghost use Rattle.tag_desk.specs.Left.{HasNumber, IsFirst, client_number, pump_number, seat_of};
ghost use Rattle.uas_profile.specs.Tags.{client_of};

use crate::lines::Work;
use crate::remains::Lists;
use crate::{ClientSeat, Desk, Seats, WorkSeat};

/// The seat of a client, which is gone from the list then. The seats of other clients stay.
fn take_client(seats: &mut Vec<ClientSeat>, client: usize) -> ClientSeat
    requires { HasNumber client_number seats.old.items client }
    ensures seat { result ≡ seat_of seats.old.items client }
    ensures number { result.client ≡ client }
    ensures others { (c : ℕ) → c ≢ client → seat_of seats.new.items c ≡ seat_of seats.old.items c }
    ensures there { (c : ℕ) → c ≢ client → HasNumber client_number seats.old.items c → HasNumber client_number seats.new.items c }
{
    let place = client_place(seats.as_slice(), client);
    seats.remove(place)
}

/// Where the first seat of a client stands.
fn client_place(seats: &[ClientSeat], client: usize) -> usize
    requires { HasNumber client_number seats.now client }
    ensures { IsFirst client_number seats.now client result }
{
    for (place, seat) in seats.iter().enumerate() {
        if seat.number() == client {
            return place;
        }
    }
    unreachable!()
}

/// Where the first seat of a pump stands.
fn pump_place(seats: &[WorkSeat], pump: usize) -> usize
    requires { HasNumber pump_number seats.now pump }
    ensures { IsFirst pump_number seats.now pump result }
{
    for (place, seat) in seats.iter().enumerate() {
        if seat.number() == pump {
            return place;
        }
    }
    unreachable!()
}

impl ClientSeat {
    fn number(&self) -> usize
        ensures { result ≡ self.now.client }
    {
        self.client
    }
}

impl WorkSeat {
    fn number(&self) -> usize
        ensures { result ≡ self.now.pump }
    {
        self.pump
    }

    /// Its line of a tag, which is gone from it then.
    fn take_line(&mut self, index: usize) -> Option<Work>
        requires { index < length self.old.lines }
        ensures line { result ≡ slice_index_or self.old.lines index None }
        ensures index { IfSome result (λ work. work.index ≡ index) }
        ensures rest { self.new ≡ record self.old { lines = slice_set self.old.lines index None } }
    {
        self.lines[index].take()
    }
}

impl Desk {
    /// Takes out what stands at all tags.
    #[tactic(auto, unfolding(crate::specs::Left::joined))]
    pub(crate) fn settle_all(&self, seats: Seats, lists: &mut Lists)
        requires clients { HasEachClientOf self.now seats.clients.items }
        requires pumps { HasEachPumpOf self.now seats.pumps.items }
        requires room { HasRoom (self.now.tags * self.now.clients) lists.old }
        requires none { so_far lists.old ≡ none_left }
        ensures { so_far lists.new ≡ left_of self.now seats.clients.items seats.pumps.items }
    {
        let Seats {
            mut clients,
            mut pumps,
        } = seats;
        for client in 0..self.clients {
            let seat = take_client(&mut clients, client);
            self.settle_client(seat, &mut pumps, lists);
        }
    }

    /// Takes out what stands at the tags of one client. The lines of other tags stay with the pumps.
    fn settle_client(&self, seat: ClientSeat, pumps: &mut Vec<WorkSeat>, lists: &mut Lists)
        requires own { IsClientOf self.now seat }
        requires pumps { HasEachPumpOf self.now pumps.old.items }
        requires room { HasRoom self.now.tags lists.old }
        ensures lists { Gathers self.now seat pumps.old.items (so_far lists.old) (so_far lists.new) }
        ensures room { (n : ℕ) → HasRoom (n + self.now.tags) lists.old → HasRoom n lists.new }
        ensures pumps { HasEachPumpOf self.now pumps.new.items }
        ensures others { (t : ℕ) → self.now.tags * seat.client + self.now.tags ≤ t → work_line self.now pumps.new.items t ≡ work_line self.now pumps.old.items t }
    {
        let ClientSeat {
            client,
            tags,
            least_ticket: _,
            lines,
        } = seat;
        let mut index = tags * client;
        for line in lines {
            let work = self.take_work(pumps, client, index);
            lists.add((index + 1) as u16, line.settle(self, index, work));
            index += 1;
        }
    }

    /// The pump's line of a tag, which is gone from its seat then. The lines of other tags stay.
    fn take_work(&self, pumps: &mut Vec<WorkSeat>, client: usize, index: usize) -> Option<Work>
        requires within { index < self.now.tags * self.now.clients }
        requires client { client_of self.now.tags (suc index) ≡ client }
        requires pumps { HasEachPumpOf self.now pumps.old.items }
        ensures line { result ≡ work_line self.now pumps.old.items index }
        ensures fits { IfSome result (λ work. (work.table ≡ self.now.table) × (work.index ≡ index)) }
        ensures pumps { HasEachPumpOf self.now pumps.new.items }
        ensures others { (t : ℕ) → index < t → work_line self.now pumps.new.items t ≡ work_line self.now pumps.old.items t }
    {
        let place = pump_place(pumps.as_slice(), client % self.pumps);
        pumps[place].take_line(index)
    }
}
