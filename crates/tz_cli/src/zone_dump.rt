//! What a dump is asked for, with its zones ready.
ghost use Rattle.tz_expand.specs.Stretch.{IsStretch};

use tz_expand::CompiledZone;
use tz_types::Shared;

/// Zones ready for questions, and the stretch of time of which their ranges are asked for.
#[derive(Drop)]
pub struct ZoneDump {
    pub zones: Vec<Shared<CompiledZone>>,
    pub from: i64,
    pub to: i64,
    pub ghost stretch: { IsStretch from to },
}
