// A parameter set: values within their ranges, whose identifiers differ enough. The type carries that.
ghost use Rattle.params.specs.Columns.{Keeps, KeepsBelow, Halves, Apart, versions, periods, windows, mmins, mmaxs, asks, waits, setups, datas, ecs};

use super::values::Values;

#[derive(Clone, Copy)]
pub struct Params {
    pub(crate) values: Values,
    ghost version: { Keeps versions values.version },
    ghost period: { Keeps periods values.period.0 },
    ghost window: { Keeps windows values.window },
    ghost mmin: { KeepsBelow mmins values.mmin },
    ghost mmax: { Keeps mmaxs values.mmax },
    ghost ask: { Keeps asks values.ask.0 },
    ghost wait: { Keeps waits values.wait.0 },
    ghost setup: { Keeps setups values.setup.0 },
    ghost longest: { Keeps datas values.longest },
    ghost ec: { Keeps ecs values.ec.0 },
    ghost halves1: { Halves values.own.first values.far.first },
    ghost halves2: { Halves values.own.second values.far.second },
    ghost apart1: { Apart values.own.first values.far.first },
    ghost apart2: { Apart values.own.second values.far.second },
}
