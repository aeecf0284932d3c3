//! The laws over all schedules.

ghost use Rattle.schedule_core.specs.Schedule.{EverySchedule, SettlesByTaking};

/// A law, with nothing to compute: after every list of sends, takes, settlings and blocks the core is legal, and each block
/// answered was and remains the sound of every later journal. To settle is to take until none waits.
pub fn every_schedule()
    ensures schedule { EverySchedule }
    ensures settle { SettlesByTaking }
{}
