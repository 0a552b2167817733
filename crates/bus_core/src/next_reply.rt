//! What the next reply brings.
ghost use Rattle.std.specs.Prelude.{◌≡◌};
ghost use Rattle.shared_machine.specs.Laws.{next_len};
ghost use Rattle.bus_core.specs.Decoded.{decoded};

use crate::RingBus;

impl RingBus {
    /// How many bytes the reply brings that Take of a client would give now: 0 where no reply is ready, and where a task
    /// management's is next.
    pub fn next_len(&self, client: usize) -> usize
        ensures { result ≡ next_len (decoded self.now) client }
    {
        self.host.next_len(client)
    }
}
