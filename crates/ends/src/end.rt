// One end of a connection.
ghost use Rattle.std.specs.Prelude.{◌≤◌};

use params::params::Params;
use states::state::State;
use terms::counters::{ExecutionCycle, Ticks};
use terms::role::Role;

// The count runs beside the execution cycle, so it is never above it.
// No `impl Model` with `end_value` as its view: a `Copy` type has to come back from its view alone, and the values alone do not say that `Params` has checked them.
#[derive(Clone, Copy)]
pub struct End {
    pub(crate) params: Params,
    pub(crate) role: Role,
    pub(crate) ec: ExecutionCycle,
    pub(crate) count: Ticks,
    pub(crate) state: State,
    ghost counted: { count.0 ≤ ec.0 },
}
