ghost use Rattle.std.specs.Prelude.{◌≡◌, IfOk};
ghost use Rattle.schedule_core.specs.Schedules.{in_order};

use schedule_core::{Event, EventList};
use std::alloc::{AllocError, Global};

/// The beginning and then the end of each of `count` steps, in their order: the schedule of one worker. Its one
/// error is want of memory.
pub fn ordered_events(alloc: Global, count: u32) -> Result<EventList, AllocError>
    ensures { IfOk result (λ events. events ≡ in_order count) }
{
    let mut events = EventList::new(alloc);
    for step in 0..count {
        events.push(Event::Start(step + 1))?;
        events.push(Event::Finish(step + 1))?;
    }
    Ok(events)
}
