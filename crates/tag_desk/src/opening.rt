//! How a new desk's tags are dealt: each tag is cut off the dealer's seat, and then into its client's and its pump's.

ghost use Rattle.std.specs.Prelude.{◌≡◌, suc, ◌+◌, ◌*◌, ◌<◌, ◌≤◌, length, slice_set, IfOk, Some};
ghost use Rattle.tag_desk.specs.Seats.{ServesNone, new_line, IsNewCustomer, AreNewCustomers, AreServersBelow};
ghost use Rattle.tag_desk.specs.declared.rule.View.TheVariants.{Dealer};
ghost use Rattle.uas_profile.specs.declared.TheConstants.{MAX_CLIENTS, STREAMS};
ghost use Rattle.uas_profile.specs.Tags.{AreTags, client_of};

use crate::lines::{self, Line, Work};
use crate::rule::TagCounts;
use crate::{ClientSeat, Desk, NoMemory, WorkSeat, rule};
use atomic_table::Table;
use std::alloc::Global;

impl WorkSeat {
    /// A pump's seat that serves no tag yet.
    fn serving_none(alloc: Global, pump: usize, tags: usize) -> Result<WorkSeat, NoMemory>
        ensures { IfOk result (ServesNone pump tags) }
    {
        let mut lines = Vec::with_capacity(alloc, tags)?;
        for _ in 0..tags {
            lines.push(None)?;
        }
        Ok(WorkSeat { pump, lines })
    }

    fn serve(&mut self, index: usize, work: Work)
        requires within { index < length self.old.lines }
        requires index { work.index ≡ index }
        ensures { self.new ≡ record self.old { lines = slice_set self.old.lines index (Some work) } }
    {
        self.lines[index] = Some(work);
    }
}

impl Desk {
    /// The desk before its tags are dealt, and the seat that deals them.
    pub(crate) fn undealt(
        alloc: Global,
        clients: usize,
        pumps: usize,
        tags: usize,
    ) -> Result<(Desk, rule::TableSeat), NoMemory>
        requires some { 0 < clients }
        requires most { clients ≤ MAX_CLIENTS }
        requires pumps { 0 < pumps }
        requires tags { AreTags tags }
        requires streams { tags * clients ≤ STREAMS }
        ensures desk { IfOk result (λ made. (made.0.clients ≡ clients) × (made.0.pumps ≡ pumps) × (made.0.tags ≡ tags)) }
        ensures dealer { IfOk result (λ made. (made.1.table_id ≡ made.0.table) × (made.1.me.0 ≡ Dealer 0)) }
    {
        let counts = TagCounts {
            each: tags,
            all: tags * clients,
        };
        let words = Vec::from_elem(alloc, 0, counts.all)?;
        let (table, dealer) = Table::vacant(alloc, words.as_slice(), counts.all, &counts)?;
        let desk = Desk {
            tags,
            table,
            clients,
            pumps,
        };
        Ok((desk, dealer))
    }

    /// How many tags all clients have.
    pub(crate) fn all_tags(&self) -> usize
        ensures { result ≡ self.now.tags * self.now.clients }
    {
        self.tags * self.clients
    }

    /// A seat for each pump that serves no tag yet.
    pub(crate) fn bare_servers(&self, alloc: Global) -> Result<Vec<WorkSeat>, NoMemory>
        ensures { IfOk result (λ seats. AreServersBelow self.now 0 seats.items) }
    {
        let mut servers = Vec::with_capacity(alloc, self.pumps)?;
        for pump in 0..self.pumps {
            let seat = WorkSeat::serving_none(alloc, pump, self.all_tags())?;
            servers.push(seat)?;
        }
        Ok(servers)
    }

    pub(crate) fn deal_all(
        &self,
        alloc: Global,
        dealer: &mut rule::TableSeat,
        servers: &mut Vec<WorkSeat>,
    ) -> Result<Vec<ClientSeat>, NoMemory>
        requires dealer { (dealer.old.table_id ≡ self.now.table) × (dealer.old.me.0 ≡ Dealer 0) }
        requires servers { AreServersBelow self.now 0 servers.old.items }
        ensures clients { IfOk result (λ seats. AreNewCustomers self.now.table self.now.tags self.now.clients seats.items) }
        ensures pumps { IfOk result (λ seats. AreServersBelow self.now (self.now.tags * self.now.clients) servers.new.items) }
    {
        let mut customers = Vec::with_capacity(alloc, self.clients)?;
        for client in 0..self.clients {
            let seat = self.deal_client(alloc, dealer, servers, client)?;
            customers.push(seat)?;
        }
        Ok(customers)
    }

    fn deal_client(
        &self,
        alloc: Global,
        dealer: &mut rule::TableSeat,
        servers: &mut Vec<WorkSeat>,
        client: usize,
    ) -> Result<ClientSeat, NoMemory>
        requires client { (client < self.now.clients) × (client < MAX_CLIENTS) }
        requires dealer { (dealer.old.table_id ≡ self.now.table) × (dealer.old.me.0 ≡ Dealer (self.now.tags * client)) }
        requires servers { AreServersBelow self.now (self.now.tags * client) servers.old.items }
        ensures seat { IfOk result (IsNewCustomer self.now.table self.now.tags client) }
        ensures dealer { IfOk result (λ seat. (dealer.new.table_id ≡ self.now.table) × (dealer.new.me.0 ≡ Dealer (self.now.tags * client + self.now.tags))) }
        ensures servers { IfOk result (λ seat. AreServersBelow self.now (self.now.tags * client + self.now.tags) servers.new.items) }
    {
        let mut lines = Vec::with_capacity(alloc, self.tags)?;
        let first = self.tags * client;
        for k in 0..self.tags {
            lines.push(self.deal(dealer, servers, client, first + k))?;
        }
        Ok(ClientSeat {
            client,
            tags: self.tags,
            least_ticket: 0,
            lines,
        })
    }

    fn deal(
        &self,
        dealer: &mut rule::TableSeat,
        servers: &mut Vec<WorkSeat>,
        client: usize,
        index: usize,
    ) -> Line
        requires within { index < self.now.tags * self.now.clients }
        requires client { client_of self.now.tags (suc index) ≡ client }
        requires dealer { (dealer.old.table_id ≡ self.now.table) × (dealer.old.me.0 ≡ Dealer index) }
        requires servers { AreServersBelow self.now index servers.old.items }
        ensures line { result ≡ new_line self.now.table index }
        ensures dealer { (dealer.new.table_id ≡ self.now.table) × (dealer.new.me.0 ≡ Dealer (index + 1)) }
        ensures servers { AreServersBelow self.now (index + 1) servers.new.items }
    {
        let (line, work) = lines::deal(self, dealer, index);
        let pump = client % self.pumps;
        servers[pump].serve(index, work);
        line
    }
}
