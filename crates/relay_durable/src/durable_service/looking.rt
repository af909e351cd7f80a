//! What a driver asks of the service.

ghost use Rattle.std.specs.Prelude.{◌≡◌};
ghost use Rattle.relay_service.specs.Looking.{is_full_at, is_midway_at, next_at, owns_any, place_at, stage_at, was_cut_at};
ghost use Rattle.relay_service.specs.Record.{owner_at};

use crate::durable_service::DurableService;
use chained_lines::StableStorage;
use relay_hall::{Hall, Owner};
use relay_service::Stage;

impl<S: StableStorage> DurableService<S> {
    /// Its hall, to be looked at. What it shows may not be on the disk yet: `settled_hall` is for those who are to be told of it.
    pub fn hall(&self) -> &Hall
        ensures { result.now ≡ self.now.service.hall }
    {
        self.service.hall()
    }

    /// As `Service::stage`.
    pub fn stage(&self, number: u64) -> Option<Stage>
        ensures { result ≡ stage_at self.now.service number }
    {
        self.service.stage(number)
    }

    /// As `Service::place`.
    pub fn place(&self, number: u64) -> Option<usize>
        ensures { result ≡ place_at self.now.service number }
    {
        self.service.place(number)
    }

    /// As `Service::next`.
    pub fn next(&self, number: u64) -> Option<u64>
        ensures { result ≡ next_at self.now.service number }
    {
        self.service.next(number)
    }

    /// As `Service::was_cut`.
    pub fn was_cut(&self, number: u64) -> bool
        ensures { result ≡ was_cut_at self.now.service number }
    {
        self.service.was_cut(number)
    }

    /// As `Service::owner`.
    pub fn owner(&self, number: u64) -> Option<Owner>
        ensures { result ≡ owner_at self.now.service number }
    {
        self.service.owner(number)
    }

    /// As `Service::is_owner`.
    pub fn is_owner(&self, number: u64) -> bool
        ensures { result ≡ owns_any self.now.service number }
    {
        self.service.is_owner(number)
    }

    /// As `Service::is_full`.
    pub fn is_full(&self, number: u64) -> bool
        ensures { result ≡ is_full_at self.now.service number }
    {
        self.service.is_full(number)
    }

    /// As `Service::is_midway`.
    pub fn is_midway(&self, number: u64) -> bool
        ensures { result ≡ is_midway_at self.now.service number }
    {
        self.service.is_midway(number)
    }
}
