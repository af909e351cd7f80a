//! What may be sent, and told: what is on the disk.

ghost use Rattle.std.specs.Prelude.{◌≡◌, [], None, true, false, IfSome, is_some};
ghost use Rattle.relay_service.specs.Calls.{IsServedAt};
ghost use Rattle.relay_service.specs.Record.{due_at};
ghost use Rattle.relay_durable.specs.Record.{is_settled};
ghost use Rattle.relay_durable.specs.Keeping.{IsOnDisk};

use crate::durable_service::DurableService;
use chained_lines::StableStorage;
use relay_hall::Hall;

impl<S: StableStorage> DurableService<S> {
    /// Offers the bytes that are due to the connection of this number, as `Service::output`, once all is settled: what they tell of boards
    /// is in the journal then, synced, and no crash takes it away. Before that none are offered.
    pub fn output(&self, number: u64) -> &[u8]
        ensures due { is_settled self.now ≡ true → result.now ≡ due_at self.now.service number }
        ensures unsettled { is_settled self.now ≡ false → result.now ≡ [] }
        ensures served { IsServedAt self.now.service number }
        ensures kept { is_settled self.now ≡ true → IfSome self.now.scribe (λ s. IsOnDisk S.contents S.synced s self.now.service.hall.floor) }
    {
        let due = self.service.output(number);
        if self.is_settled() { due } else { &[] }
    }

    /// The hall, once all that its boards have is on the disk: whoever watches may be told of it.
    pub fn settled_hall(&self) -> Option<&Hall>
        ensures none { is_settled self.now ≡ false → result ≡ None }
        ensures some { is_settled self.now ≡ true → is_some result ≡ true }
        ensures hall { IfSome result (λ hall. hall.now ≡ self.now.service.hall) }
        ensures kept { is_settled self.now ≡ true → IfSome self.now.scribe (λ s. IsOnDisk S.contents S.synced s self.now.service.hall.floor) }
    {
        if self.is_settled() {
            Some(self.service.hall())
        } else {
            None
        }
    }
}
