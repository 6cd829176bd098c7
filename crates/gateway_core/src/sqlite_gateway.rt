//! The gateway over a registry in SQLite.
ghost use Rattle.std.specs.Prelude.{◌≡◌};
ghost use Rattle.device_registry.specs.Holding.{IsReturnedByClose};

use crate::gateway::GatewayOver;
use device_registry::{Registry, RegistryOver, SqlConnection};

/// A gateway over a registry. `GatewayOver::new` makes one.
pub type Gateway<S> = GatewayOver<Registry<S>>;

impl<C: SqlConnection> GatewayOver<RegistryOver<C>> {
    /// Drops the gateway and returns the connection of its registry, unchanged. As long as the disk has returned what
    /// was written, no transaction is open, and the devices that the gateway knows are committed.
    pub fn close(self) -> C
        ensures same { result ≡ self.handler.registry }
        ensures hands_on { IsReturnedByClose (C.state self.handler.registry) }
    {
        self.into_store().close()
    }
}
